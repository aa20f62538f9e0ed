// A box that draws: its clock and its rating.
ghost use Rattle.std.specs.Prelude.{◌≡◌, ◌<◌, Some};
ghost use Rattle.draws.specs.Checks.{draw_verdict};
ghost use Rattle.draws.specs.Draws.{due};

use congruence::{Clock, Refusal};
use load::Rating;

#[derive(Clone, Copy, Debug, PartialEq, Eq)]
pub struct Draw {
    pub clock: Clock,
    pub rating: Rating,
}

impl Draw {
    // Refuses what no list can hold.
    pub fn check(self) -> Result<(), Refusal>
        ensures { result ≡ draw_verdict self }
    {
        self.clock.check()?;
        if self.rating.is_in_range() {
            Ok(())
        } else {
            Err(Refusal::RatingUnlawful)
        }
    }

    // Whether the box draws at a tick.
    pub(crate) fn is_due(self, tick: u64) -> bool
        requires { 0 < self.clock.period }
        ensures { result ≡ due tick (Some self) }
    {
        tick % u64::from(self.clock.period) == u64::from(self.clock.wait)
    }
}
