// Which two clocks meet.
use crate::groups::clock_of;
use congruence::meets;

// The period and the wait of two clocks, and whether they meet.
static PAIRS: [((u16, u16), (u16, u16), bool); 20] = [
    ((1, 0), (1, 0), true),
    ((1, 0), (1_000, 999), true),
    ((5, 1), (3, 2), true),
    ((4, 0), (6, 1), false),
    ((4, 0), (6, 2), true),
    ((12, 5), (18, 11), true),
    ((12, 5), (18, 10), false),
    ((7, 3), (7, 3), true),
    ((7, 3), (7, 4), false),
    ((1_000, 999), (1_000, 999), true),
    ((1_000, 999), (1_000, 0), false),
    ((1_000, 999), (999, 0), true),
    ((1_000, 999), (998, 0), false),
    // no box has the first of these
    ((0, 0), (0, 0), false),
    ((0, 0), (5, 0), false),
    ((1_001, 0), (1_001, 0), false),
    ((1_001, 0), (7, 0), false),
    ((5, 5), (5, 5), false),
    ((5, 5), (5, 0), false),
    ((u16::MAX, u16::MAX), (1, 0), false),
];

// In either order; a clock that no box can have meets none.
#[test]
fn clocks_meet_where_the_gcd_divides_the_difference_of_waits(rt: HostRuntime) {
    for (a, b, meet) in &PAIRS {
        let (first, second) = (clock_of(a), clock_of(b));
        let both = (meets(first, second), meets(second, first));
        assert_eq!(rt; both, (*meet, *meet), "of {a:?} and {b:?}");
    }
}
