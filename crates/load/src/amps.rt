// Single-phase amps: the first part of a rating; loads add up.
ghost use Rattle.load.specs.Amps.{amps_kind};
ghost use Rattle.std.proofs.Common.{rules};

use crate::kind::{Load, sizes_fit};
use crate::rating::Rating;

#[derive(Clone, Copy, Debug, PartialEq, Eq)]
pub struct Amps {
    amps: u32,
}

impl Load for Amps {
    ghost kind = { amps_kind };

    ghost lawful = { Prim.search rules };

    fn is_lawful(rating: Rating) -> bool {
        rating.is_in_range() && rating.b == 0 && rating.c == 0
    }

    fn of(rating: Rating) -> Amps {
        if Self::is_lawful(rating) {
            Amps { amps: rating.a }
        } else {
            Self::none()
        }
    }

    fn none() -> Amps {
        Amps { amps: 0 }
    }

    fn plus(self, other: Amps) -> Amps {
        if sizes_fit(self.amps, other.amps) {
            Amps {
                amps: self.amps + other.amps,
            }
        } else {
            Self::none()
        }
    }

    fn measure(self) -> u32 {
        self.amps
    }
}
