// How many distinct settings there are, counted without forming any.
ghost use Rattle.std.specs.Prelude.{◌≡◌, ◌<◌, ◌≤◌, MatchOption};
ghost use Rattle.planner.specs.Berths.{Berths, factors_of};
ghost use Rattle.planner.specs.Settings.{Counted, most_settings, product};

use crate::berth::Berth;
use table::{Slot, Table};

// The most settings that are planned.
pub const MOST_SETTINGS: u32 = 1_000_000;

// The booked boxes, each at the place of its socket.
pub(crate) fn berths(table: &Table) -> [Option<Berth>; 24]
    ensures { Berths table.now.slots result }
{
    let mut beside = table.running();
    let mut berths = [None; 24];
    for (socket, slot) in table.slots().iter().enumerate() {
        if let Slot::Booked(booking) = slot {
            // Only the period 0 has no factor, and no booked box has it.
            let Some(factor) = beside.factor(booking.period) else {
                unreachable();
            };
            let berth = Berth {
                socket,
                booking: *booking,
                factor,
            };
            beside = berth.started_in(&beside, 0);
            berths[socket] = Some(berth);
        }
    }
    berths
}

// The product of the factors, if it is not too large.
pub(crate) fn product(berths: &[Option<Berth>; 24]) -> Option<u32>
    ensures { MatchOption result (most_settings < product (factors_of berths.now))
        (λ n. (n ≡ product (factors_of berths.now)) × (n ≤ most_settings)) }
{
    // A loop that ends by `?`, as `lcm_of` is: a `try_fold` reads no plainer.
    let mut n: u32 = 1;
    for place in berths {
        let factor = place.map_or(1, |berth| u32::from(berth.factor));
        n = n.checked_mul(factor).filter(|n| *n <= MOST_SETTINGS)?;
    }
    Some(n)
}

// The number of distinct settings; None where there are more than 1,000,000.
pub fn settings(table: &Table) -> Option<u32>
    ensures { Counted table.now.slots result }
{
    product(&berths(table))
}
