// The best choice of start waits.
ghost use Rattle.std.specs.Prelude.{ℕ};
ghost use Rattle.draws.specs.Draws.{Reaches};
ghost use Rattle.planner.specs.Choices.{Choice, chosen};
ghost use Rattle.planner.specs.Plans.{Told};

use crate::branches::Space;
use crate::counting::{berths, product};
use crate::fitting::fit_berths;
use crate::prefix::Prefix;
use crate::timetable::Timetable;
use congruence::Refusal;
use finder::FullFinder;
use load::Load;
use table::{Slot, Table};

// What the heaviest booked box measures by itself: no choice peaks below that.
fn heaviest<L: Load>(table: &Table) -> u32
    ensures { (v : ℕ → ℕ) → Choice table.now.slots v →
        Reaches L.Load.kind (chosen table.now.slots v) result }
{
    // A loop: a chain of `filter_map` and `max` reads no plainer, and its proof is twice as long.
    let mut most: u32 = 0;
    for slot in table.slots() {
        if let Slot::Booked(booking) = slot {
            most = most.max(L::of(booking.rating).measure());
        }
    }
    most
}

// Of all choices with the least peak the first, comparing waits in socket order; refused where there are too many
// settings, and where every choice passes the limit.
pub fn plan<L: Load, F: FullFinder<L>>(
    finder: &mut F,
    table: &Table,
    limit: u32,
) -> Result<Timetable, Refusal>
    ensures { Told L.Load.kind table.now.slots limit result }
{
    let berths = berths(table);
    if product(&berths).is_none() {
        return Err(Refusal::TooManySettings);
    }
    let limit = fit_berths(finder, table, &berths).peak.min(limit);
    let prefix = Prefix::new(finder, table.running(), [None; 24]);
    if prefix.peak > limit {
        return Err(Refusal::LimitPassed);
    }
    let space = Space {
        berths,
        floor: heaviest::<L>(table),
        limit,
    };
    space
        .extend(finder, 0, &prefix, None)
        .ok_or(Refusal::LimitPassed)
}
