// Three phases: each part of a rating is one phase's; loads add up phase by phase.
ghost use Rattle.std.specs.Prelude.{◌≡◌};
ghost use Rattle.load.specs.Phases.{phases_kind, largest};
ghost use Rattle.std.proofs.Common.{rules};

use crate::kind::{Load, sizes_fit};
use crate::rating::Rating;

#[derive(Clone, Copy, Debug, PartialEq, Eq)]
pub struct Phases {
    a: u32,
    b: u32,
    c: u32,
}

impl Phases {
    fn largest(self) -> u32
        ensures { result ≡ largest self }
    {
        self.a.max(self.b).max(self.c)
    }
}

impl Load for Phases {
    ghost kind = { phases_kind };

    ghost lawful = { Prim.search rules };

    fn is_lawful(rating: Rating) -> bool {
        rating.is_in_range()
    }

    fn of(rating: Rating) -> Phases {
        if Self::is_lawful(rating) {
            Phases {
                a: rating.a,
                b: rating.b,
                c: rating.c,
            }
        } else {
            Self::none()
        }
    }

    fn none() -> Phases {
        Phases { a: 0, b: 0, c: 0 }
    }

    fn plus(self, other: Phases) -> Phases {
        if sizes_fit(self.largest(), other.largest()) {
            Phases {
                a: self.a + other.a,
                b: self.b + other.b,
                c: self.c + other.c,
            }
        } else {
            Self::none()
        }
    }

    fn measure(self) -> u32 {
        self.largest()
    }
}
