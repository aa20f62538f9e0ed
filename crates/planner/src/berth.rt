// A booked box at its socket.
ghost use Rattle.std.specs.Prelude.{◌≡◌, ◌<◌, ◌≤◌, Some, slice_set};
ghost use Rattle.table.specs.Slots.{Bookable, started};

use draws::DrawList;
use table::Booking;

// Of the box's waits only those below the factor need be tried.
#[derive(Clone, Copy)]
pub struct Berth {
    pub socket: usize,
    pub booking: Booking,
    pub factor: u16,
    ghost within: { socket < 24 },
    ghost bookable: { Bookable booking },
    ghost positive: { 0 < factor },
    ghost within_period: { factor ≤ booking.period },
}

impl Berth {
    // The list with the box started at its place.
    pub(crate) fn started_in(&self, list: &DrawList, wait: u16) -> DrawList
        requires { wait < self.now.factor }
        ensures { result.places
            ≡ slice_set list.now.places self.now.socket (Some (started self.now.booking wait)) }
    {
        let mut out = *list;
        // The box is within its ranges, and so the list takes it.
        let _ = out.set(self.socket, self.booking.started(wait));
        out
    }
}
