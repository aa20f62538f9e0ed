// Inrush: the first part of a rating runs on and adds up, the second is a start current, of which only
// the largest counts.
ghost use Rattle.std.specs.Prelude.{◌≡◌};
ghost use Rattle.load.specs.Inrush.{inrush_kind, larger};
ghost use Rattle.std.proofs.Common.{rules};

use crate::kind::{Load, sizes_fit};
use crate::rating::Rating;

#[derive(Clone, Copy, Debug, PartialEq, Eq)]
pub struct Inrush {
    running: u32,
    start: u32,
}

impl Inrush {
    fn larger(self) -> u32
        ensures { result ≡ larger self }
    {
        self.running.max(self.start)
    }
}

impl Load for Inrush {
    ghost kind = { inrush_kind };

    ghost lawful = { Prim.search rules };

    fn is_lawful(rating: Rating) -> bool {
        rating.is_in_range() && rating.c == 0
    }

    fn of(rating: Rating) -> Inrush {
        if Self::is_lawful(rating) {
            Inrush {
                running: rating.a,
                start: rating.b,
            }
        } else {
            Self::none()
        }
    }

    fn none() -> Inrush {
        Inrush {
            running: 0,
            start: 0,
        }
    }

    fn plus(self, other: Inrush) -> Inrush {
        if sizes_fit(self.larger(), other.larger()) {
            Inrush {
                running: self.running + other.running,
                start: self.start.max(other.start),
            }
        } else {
            Self::none()
        }
    }

    // Beyond any size that the laws speak of, a sum that does not fit is told as the largest number.
    fn measure(self) -> u32 {
        self.running.saturating_add(self.start)
    }
}
