// What a socket holds.
ghost use Rattle.std.specs.Prelude.{◌≡◌};
ghost use Rattle.table.specs.Slots.{booking_verdict, slot_verdict, started};

use congruence::{Clock, Refusal};
use draws::Draw;
use load::Rating;

// A booked box: it has no wait yet, and never draws.
#[derive(Clone, Copy, Debug, PartialEq, Eq)]
pub struct Booking {
    pub period: u16,
    pub rating: Rating,
}

impl Booking {
    // The box as it runs from now on with a wait.
    pub fn started(self, wait: u16) -> Draw
        ensures { result ≡ started self wait }
    {
        Draw {
            clock: Clock {
                period: self.period,
                wait,
            },
            rating: self.rating,
        }
    }

    // Refuses what no table can hold.
    pub fn check(self) -> Result<(), Refusal>
        ensures { result ≡ booking_verdict self }
    {
        // Every period has the wait 0, so this leaves just the checks of the period and the rating.
        self.started(0).check()
    }
}

#[derive(Clone, Copy, Debug, PartialEq, Eq)]
pub enum Slot {
    Empty,
    Booked(Booking),
    Running(Draw),
}

impl Slot {
    // Refuses what no table can hold.
    pub fn check(self) -> Result<(), Refusal>
        ensures { result ≡ slot_verdict self }
    {
        match self {
            Slot::Empty => Ok(()),
            Slot::Booked(booking) => booking.check(),
            Slot::Running(draw) => draw.check(),
        }
    }
}
