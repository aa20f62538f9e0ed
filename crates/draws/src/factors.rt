// By how much a wait matters beside the boxes of a list.
ghost use Rattle.std.specs.Prelude.{◌≡◌, ℕ, ◌<◌, List, [], ◌∷◌, ◌++◌, None, MatchOption, slice_set};
ghost use Rattle.std.specs.Int.{◌∣◌};
ghost use Rattle.draws.specs.Draws.{periods_of};
ghost use Rattle.draws.specs.Factors.{Factor};

use crate::list::{DrawList, PLACES};
use congruence::{gcd, lcm};

impl DrawList {
    // The least common multiple of the gcds of a period with those of the list's boxes, 1 if it has none. No box
    // has the period 0, and for it there is no factor.
    pub fn factor(&self, period: u16) -> Option<u16>
        ensures { MatchOption result (period ≡ 0) (Factor (periods_of self.now.places) period) }
    {
        // Past the last place there is none to leave out.
        self.factor_without(PLACES, period)
    }

    // The same with one place left out, whatever it holds.
    pub fn factor_without(&self, place: usize, period: u16) -> Option<u16>
        ensures { MatchOption result (period ≡ 0)
            (Factor (periods_of (slice_set self.now.places place None)) period) }
    {
        if period == 0 {
            return None;
        }
        let mut factor = 1;
        // Box by box, and no array of the 24 numbers for `lcm_of`: most lists hold few boxes, and an empty place would
        // cost as much as one.
        for (other, held) in self.places.iter().enumerate() {
            if let Some(draw) = held {
                if other != place {
                    factor = joined(factor, period, draw.clock.period);
                }
            }
        }
        Some(factor as u16)
    }
}

// The factor beside one more box.
fn joined(factor: u64, period: u16, other: u16) -> u64
    requires period { 0 < period }
    requires divides { factor ∣ period }
    ensures factor { (qs : List ℕ) → Factor qs period factor → Factor (qs ++ other ∷ []) period result }
    ensures divides { result ∣ period }
{
    match lcm(factor, gcd(u64::from(period), u64::from(other))) {
        Some(next) => next,
        None => unreachable(),
    }
}
