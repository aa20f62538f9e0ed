// A box's clock, and which clocks ever have their boxes draw in one tick.
ghost use Rattle.std.specs.Prelude.{◌≡◌, ◌↔◌, [], ◌∷◌, IsTrue, IsOk, MatchResult};
ghost use Rattle.std.specs.List.{AllByRecursion};
ghost use Rattle.congruence.specs.Clocks.{Valid, Meet, MeetByGcd, MeetByPairs, Slide};
ghost use Rattle.congruence.specs.FirstTicks.{IsFirstRefused};
ghost use Rattle.congruence.specs.Refusals.{verdict, clock_checks};

use crate::numbers::gcd;
use crate::refusals::Refusal;

// The longest period of a box, in ticks.
pub const LONGEST_PERIOD: u16 = 1_000;

// A running box's clock: it draws after `wait` more ticks, and every `period` ticks from then on. Its fields are
// open and not held to their ranges: the calls below answer for clocks that no box can have as well, and a type that
// holds valid ones only would ask more of those who call.
#[derive(Clone, Copy, Debug, PartialEq, Eq)]
pub struct Clock {
    pub period: u16,
    pub wait: u16,
}

impl Clock {
    // Refuses a clock that no box can have.
    pub fn check(self) -> Result<(), Refusal>
        ensures told { result ≡ verdict (clock_checks self) }
        ensures valid { IsOk result ↔ Valid self }
    {
        if self.period == 0 || self.period > LONGEST_PERIOD {
            Err(Refusal::PeriodOutOfRange)
        } else if self.wait >= self.period {
            Err(Refusal::WaitNotBelowPeriod)
        } else {
            Ok(())
        }
    }

    fn is_valid(self) -> bool
        ensures { IsTrue result ↔ Valid self }
    {
        self.check().is_ok()
    }
}

// The place in a list of the first clock that no box can have, and why.
#[derive(Clone, Copy, Debug, PartialEq, Eq)]
pub struct RefusedClock {
    pub place: usize,
    pub refusal: Refusal,
}

// Refuses the first clock of a list that no box can have.
pub fn check_clocks(clocks: &[Clock]) -> Result<(), RefusedClock>
    ensures { MatchResult result (λ _. AllByRecursion Valid clocks.now) (IsFirstRefused clocks.now) }
{
    for (place, clock) in clocks.iter().enumerate() {
        clock
            .check()
            .map_err(|refusal| RefusedClock { place, refusal })?;
    }
    Ok(())
}

// Whether some tick has both boxes draw. No box has a clock that is not valid.
pub fn meets(a: Clock, b: Clock) -> bool
    ensures value { IsTrue result ↔ (Valid a × Valid b × Meet (a ∷ (b ∷ []))) }
    ensures by_gcd { MeetByGcd }
{
    if !a.is_valid() || !b.is_valid() {
        return false;
    }
    let common = gcd(u64::from(a.period), u64::from(b.period));
    u64::from(a.wait.abs_diff(b.wait)) % common == 0
}

// Whether the clock is valid and meets each of the others.
fn meets_each(clock: Clock, others: &[Clock]) -> bool
    ensures { IsTrue result
        ↔ (Valid clock × AllByRecursion (λ d. Valid d × Meet (clock ∷ (d ∷ []))) others.now) }
{
    clock.is_valid() && others.iter().all(|other| meets(clock, *other))
}

// Whether some tick has all of them draw: each two have to meet.
pub fn all_meet(clocks: &[Clock]) -> bool
    ensures value { IsTrue result ↔ (AllByRecursion Valid clocks.now × Meet clocks.now) }
    ensures by_pairs { MeetByPairs }
    ensures slide { Slide }
{
    let mut left = clocks;
    while let [clock, others @ ..] = left {
        if !meets_each(*clock, others) {
            return false;
        }
        left = others;
    }
    true
}
