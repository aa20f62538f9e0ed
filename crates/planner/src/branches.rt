// The search for the best choice, box by box in socket order.
ghost use Rattle.std.specs.Prelude.{◌↔◌, ◌<◌, IsTrue};
ghost use Rattle.table.specs.declared.table.Table.{Table};
ghost use Rattle.planner.specs.Berths.{factors_of};
ghost use Rattle.planner.specs.Searches.{Begun, Completes, Outcome, Sound, bar};
ghost use Rattle.planner.specs.Plans.{waits_of};

use crate::berth::Berth;
use crate::prefix::Prefix;
use crate::timetable::Timetable;
use finder::FullFinder;
use load::Load;

// What the search knows of all choices.
#[derive(Clone, Copy)]
pub struct Space {
    // The booked boxes, each at the place of its socket.
    pub berths: [Option<Berth>; 24],
    // No choice peaks below this.
    pub floor: u32,
    // No choice that peaks above this is taken.
    pub limit: u32,
}

impl Space {
    // Whether a choice with this peak is better than the best so far.
    fn is_better(&self, peak: u32, best: &Option<Timetable>) -> bool
        ensures { IsTrue result ↔ (peak < bar self.now.limit best.now) }
    {
        match best {
            Some(timetable) => peak < timetable.peak,
            None => peak <= self.limit,
        }
    }

    // The best of `best` and of all choices that begin with the prefix, set in the sockets below `socket`. No such
    // choice peaks below what the prefix does, so where that is not better there is nothing to try.
    // The finder is a parameter, since behind one `&mut` with it each call would have to say that the space stays.
    pub(crate) fn extend<L: Load, F: FullFinder<L>>(
        &self,
        finder: &mut F,
        socket: usize,
        prefix: &Prefix,
        mut best: Option<Timetable>,
    ) -> Option<Timetable>
        requires { prefix.now.peak < bar self.now.limit best }
        ensures { (table : Table) → Sound L.Load.kind table.slots self.now →
            Begun L.Load.kind table.slots (factors_of self.now.berths) socket prefix.now →
            Outcome L.Load.kind table.slots self.now.limit (Completes table.slots
            (factors_of self.now.berths) socket (waits_of prefix.now.waits)) best result }
    {
        let Some(place) = self.berths.get(socket) else {
            return Some(prefix.timetable());
        };
        let Some(berth) = place else {
            return self.extend(finder, socket + 1, prefix, best);
        };
        let least = prefix.peak.max(self.floor);
        for wait in 0..berth.factor {
            if !self.is_better(least, &best) {
                return best;
            }
            let next = prefix.with_box(finder, berth, wait);
            if self.is_better(next.peak, &best) {
                best = self.extend(finder, socket + 1, &next, best);
            }
        }
        best
    }
}
