// The first tick that all boxes of a group share, worked out box by box.
ghost use Rattle.std.specs.Prelude.{◌≡◌, ◌<◌, ◌≤◌, List, [], ◌∷◌, ◌++◌};
ghost use Rattle.congruence.specs.declared.clocks.Clock.{Clock};
ghost use Rattle.congruence.specs.declared.common.NoCommonTick.TheVariants.{Refused};
ghost use Rattle.std.specs.List.{AllByRecursion};
ghost use Rattle.congruence.specs.Clocks.{Valid, periods};
ghost use Rattle.congruence.specs.Divisors.{LcmBeyond, bound};
ghost use Rattle.congruence.specs.FirstTicks.{Answer};
ghost use Rattle.congruence.specs.Merging.{Merged, Merges};

use crate::clocks::{Clock, RefusedClock, all_meet, check_clocks};
use crate::numbers::lcm;

// The ticks that some boxes share: `tick`, and every `step` ticks from there.
#[derive(Clone, Copy, Debug)]
pub struct Shared {
    pub tick: u64,
    pub step: u64,
}

// Why the boxes of a list share no tick.
#[derive(Clone, Copy, Debug, PartialEq, Eq)]
pub enum NoCommonTick {
    // The first clock that no box can have.
    Refused(RefusedClock),
    // No tick has all of them draw.
    Never,
}

// Written out, since a derived `From` doesn't say what it makes.
impl From<RefusedClock> for NoCommonTick {
    ghost from_gives = { λ e r. r ≡ Refused e };

    fn from(e: RefusedClock) -> NoCommonTick {
        NoCommonTick::Refused(e)
    }
}

// What one more box leaves of the shared ticks; None where the least common multiple exceeds 10^18. The ticks of
// one new cycle are tried, at most `clock.period` of them.
fn merge(so_far: Shared, clock: Clock) -> Result<Option<Shared>, NoCommonTick>
    requires valid { Valid clock }
    requires within { so_far.tick < so_far.step }
    requires bounded { so_far.step ≤ bound }
    ensures { (cs : List Clock) → Merged cs so_far.tick so_far.step → Merges (cs ++ clock ∷ []) result }
{
    let period = u64::from(clock.period);
    let wait = u64::from(clock.wait);
    let Some(next) = lcm(so_far.step, period) else {
        return Ok(None);
    };
    // A loop: `step_by` is written so as to go over the ticks between as well, and only an optimizer skips them.
    let mut tick = so_far.tick;
    for _tried in 0..next / so_far.step {
        if tick % period == wait {
            return Ok(Some(Shared { tick, step: next }));
        }
        tick += so_far.step;
    }
    Err(NoCommonTick::Never)
}

// The first tick at which all of them draw, that of no clock being 0; None where some tick has them all draw, but
// the least common multiple of their periods exceeds 10^18.
pub fn first_common_tick(clocks: &[Clock]) -> Result<Option<u64>, NoCommonTick>
    ensures { Answer clocks.now result }
{
    check_clocks(clocks)?;
    let mut so_far = Shared { tick: 0, step: 1 };
    for clock in clocks {
        let Some(shared) = merge(so_far, *clock)? else {
            return past_the_bound(clocks);
        };
        so_far = shared;
    }
    Ok(Some(so_far.tick))
}

// What is known of a group whose periods have a multiple too large to go on merging.
fn past_the_bound(clocks: &[Clock]) -> Result<Option<u64>, NoCommonTick>
    requires valid { AllByRecursion Valid clocks.now }
    requires beyond { LcmBeyond (periods clocks.now) }
    ensures { Answer clocks.now result }
{
    if all_meet(clocks) {
        Ok(None)
    } else {
        Err(NoCommonTick::Never)
    }
}
