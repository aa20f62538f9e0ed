// The interface of a load kind.
ghost use Rattle.std.specs.Prelude.{◌≡◌, nat_le, ◌+◌};
ghost use Rattle.load.specs.Kinds.{Kind, Laws, most_size};

use crate::rating::Rating;

// The largest sizes, added together, for which the laws are owed.
pub const MOST_SIZE: u64 = 64_000_000;

// Asking changes nothing and is never refused.
pub trait Load: Copy {
    // What the functions below answer.
    ghost kind: { Kind Self };

    fn is_lawful(rating: Rating) -> bool
        ensures { result ≡ kind.lawful rating };

    // The load of a rating; of an unlawful one it is the empty load.
    fn of(rating: Rating) -> Self
        ensures { result ≡ kind.load rating };

    fn none() -> Self
        ensures { result ≡ kind.none };

    // Both together; the empty load where their sizes add to more than 64,000,000.
    fn plus(self, other: Self) -> Self
        ensures { result ≡ kind.plus self other };

    // The number that is compared with a limit.
    fn measure(self) -> u32
        ensures { result ≡ kind.measure self };

    ghost lawful: { Laws kind };
}

// Whether two sizes are ones for which the laws are owed.
pub fn sizes_fit(x: u32, y: u32) -> bool
    ensures { result ≡ nat_le (x + y) most_size }
{
    u64::from(x) + u64::from(y) <= MOST_SIZE
}
