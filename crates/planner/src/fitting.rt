// Fitting: the booked boxes one after the other.
ghost use Rattle.planner.specs.Berths.{Berths};
ghost use Rattle.planner.specs.Choices.{Fitted};
ghost use Rattle.planner.specs.Plans.{JustBooked, waits_of};
ghost use Rattle.planner.specs.Searches.{Fits, Joins};

use crate::berth::Berth;
use crate::counting::berths;
use crate::prefix::Prefix;
use crate::timetable::Timetable;
use finder::FullFinder;
use load::Load;
use table::Table;

// The prefix with one more box, at the smallest of its waits that makes the peak least.
fn with_best<L: Load, F: FullFinder<L>>(finder: &mut F, prefix: &Prefix, berth: &Berth) -> Prefix
    requires { Joins L.Load.kind prefix.now berth.now }
    ensures { Fits L.Load.kind prefix.now berth.now berth.now.booking.period result }
{
    let least = prefix.peak.max(L::of(berth.booking.rating).measure());
    let mut best = prefix.with_box(finder, berth, 0);
    for wait in 1..berth.factor {
        if best.peak <= least {
            return best;
        }
        let next = prefix.with_box(finder, berth, wait);
        if next.peak < best.peak {
            best = next;
        }
    }
    best
}

// Each booked box in socket order gets the smallest wait that makes the peak least over the running boxes, those
// fitted before it and itself.
pub fn fit<L: Load, F: FullFinder<L>>(finder: &mut F, table: &Table) -> Timetable
    ensures fitted { Fitted L.Load.kind table.now.slots (waits_of result.waits) result.peak }
    ensures just_booked { JustBooked table.now.slots result.waits }
{
    fit_berths(finder, table, &berths(table))
}

// The same where the berths of the table are known.
pub(crate) fn fit_berths<L: Load, F: FullFinder<L>>(
    finder: &mut F,
    table: &Table,
    berths: &[Option<Berth>; 24],
) -> Timetable
    requires { Berths table.now.slots berths.now }
    ensures fitted { Fitted L.Load.kind table.now.slots (waits_of result.waits) result.peak }
    ensures just_booked { JustBooked table.now.slots result.waits }
{
    let mut prefix = Prefix::new(finder, table.running(), [None; 24]);
    // Socket by socket, as the contract goes: a `flatten` would leave the sockets out.
    for place in berths {
        if let Some(berth) = place {
            prefix = with_best(finder, &prefix, berth);
        }
    }
    prefix.timetable()
}
