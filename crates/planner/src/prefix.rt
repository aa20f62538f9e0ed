// The boxes of the first sockets, started.
ghost use Rattle.std.specs.Prelude.{◌≡◌, ◌<◌};
ghost use Rattle.draws.specs.Draws.{Peak};
ghost use Rattle.planner.specs.Searches.{Boxed};

use crate::berth::Berth;
use crate::timetable::Timetable;
use draws::DrawList;
use finder::FullFinder;
use load::Load;

// The boxes set so far beside those that run, the peak that they have, and the waits that were set. To read
// these off the list would take the booked sockets as well.
#[derive(Clone, Copy)]
pub struct Prefix {
    pub list: DrawList,
    pub peak: u32,
    pub waits: [Option<u16>; 24],
}

impl Prefix {
    // The boxes of a list, which were set with these waits, and the peak that the finder tells.
    pub(crate) fn new<L: Load, F: FullFinder<L>>(
        finder: &mut F,
        list: DrawList,
        waits: [Option<u16>; 24],
    ) -> Prefix
        ensures list { result.list ≡ list }
        ensures is_peak { Peak L.Load.kind result.list.places result.peak }
        ensures waits { result.waits ≡ waits }
    {
        let (peak, _) = finder.find_any(&list);
        Prefix { list, peak, waits }
    }

    // The prefix with one more box.
    pub(crate) fn with_box<L: Load, F: FullFinder<L>>(
        &self,
        finder: &mut F,
        berth: &Berth,
        wait: u16,
    ) -> Prefix
        requires { wait < berth.now.factor }
        ensures { Boxed L.Load.kind self.now berth.now.socket berth.now.booking wait result }
    {
        let mut waits = self.waits;
        waits[berth.socket] = Some(wait);
        Prefix::new(finder, berth.started_in(&self.list, wait), waits)
    }

    pub(crate) fn timetable(&self) -> Timetable
        ensures { result ≡ record { peak = self.now.peak; waits = self.now.waits } }
    {
        Timetable {
            peak: self.peak,
            waits: self.waits,
        }
    }
}
