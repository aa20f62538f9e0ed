// The greatest common divisor, and the least common multiple up to a bound.
ghost use Rattle.std.specs.Prelude.{ℕ, ◌<◌, ◌≤◌, [], ◌∷◌, MatchOption};
ghost use Rattle.congruence.specs.Divisors.{LcmWithin, LcmBeyond, bound};
ghost use Rattle.std.specs.Int.{IsGcd};

// The largest multiple that is told: 10^18.
pub const LCM_BOUND: u64 = 1_000_000_000_000_000_000;

// By falling remainders; gcd(a, 0) is a.
pub fn gcd(a: u64, b: u64) -> u64
    ensures { IsGcd a b result }
{
    if b == 0 { a } else { gcd(b, a % b) }
}

// None exactly where the least common multiple exceeds 10^18.
pub fn lcm(a: u64, b: u64) -> Option<u64>
    ensures { MatchOption result (LcmBeyond (a ∷ (b ∷ []))) (LcmWithin (a ∷ (b ∷ []))) }
{
    if a == 0 {
        return Some(0);
    }
    (a / gcd(a, b)).checked_mul(b).filter(|m| *m <= LCM_BOUND)
}

// Of a whole list; of no number it is 1.
pub fn lcm_of(numbers: &[u64]) -> Option<u64>
    ensures { MatchOption result (LcmBeyond numbers.now) (LcmWithin numbers.now) }
{
    if numbers.contains(&0) {
        return Some(0);
    }
    let mut so_far = 1;
    for n in numbers {
        so_far = lcm(so_far, *n)?;
    }
    Some(so_far)
}
