// A finder that goes through one whole cycle of a list, tick by tick.
#![tactic(auto)]

ghost use Rattle.std.specs.Prelude.{MatchOption};
ghost use Rattle.draws.specs.Draws.{Found, periods_of};
ghost use Rattle.congruence.specs.Divisors.{IsLcm};
ghost use Rattle.walk.specs.Cycles.{Cycle, Short};

use congruence::{Refusal, lcm};
use draws::DrawList;
use finder::Finder;
use load::Load;

// The longest cycle that is gone through, in ticks.
const LONGEST_CYCLE: u64 = 65_536;

#[derive(Clone, Copy, Debug)]
pub struct Walk;

// The least common multiple of the periods, if it is within reach.
fn cycle_of(list: &DrawList) -> Option<u64>
    ensures { MatchOption result (Short list.now.places → ⊥) (Cycle list.now.places) }
{
    let mut cycle = 1;
    // Box by box, so that a cycle that is too long is told at the first box that makes it so.
    for held in list.places() {
        if let Some(draw) = held {
            let next = lcm(cycle, u64::from(draw.clock.period));
            cycle = next.filter(|next| *next <= LONGEST_CYCLE)?;
        }
    }
    Some(cycle)
}

// What the tick of one cycle that measures most measures, and what draws at it; of several such ticks at the first, and
// no place where nothing measures more than 0.
fn walk_cycle<L: Load>(list: &DrawList, cycle: u64) -> (u32, u32)
    requires { Cycle list.now.places cycle }
    ensures { Found L.Load.kind list.now.places result.0 result.1 }
{
    (0..cycle)
        .map(|tick| {
            let drawn = list.drawing_at(tick);
            (list.load_of::<L>(drawn).measure(), drawn)
        })
        .fold(
            (0, 0),
            |best, found| if found.0 > best.0 { found } else { best },
        )
}

impl<L: Load> Finder<L> for Walk {
    ghost reach = { λ _ ps. Short ps };

    fn find(&mut self, list: &DrawList) -> Result<(u32, u32), Refusal> {
        let cycle = cycle_of(list).ok_or(Refusal::BeyondReach)?;
        Ok(walk_cycle::<L>(list, cycle))
    }
}
