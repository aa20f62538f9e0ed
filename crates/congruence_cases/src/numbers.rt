// Divisors and multiples, up to the largest numbers of their type.
use congruence::{gcd, lcm, lcm_of};

// Two numbers and their greatest common divisor.
static DIVISORS: [(u64, u64, u64); 14] = [
    (0, 0, 0),
    (0, 7, 7),
    (7, 0, 7),
    (1, 1, 1),
    (12, 18, 6),
    (18, 12, 6),
    (1_000, 999, 1),
    (1 << 63, 1 << 62, 1 << 62),
    (1 << 63, (1 << 62) + (1 << 20), 1 << 20),
    (1_000_000_000_000_000_000, 1 << 63, 1 << 18),
    (u64::MAX, u64::MAX, u64::MAX),
    (u64::MAX, 0, u64::MAX),
    (u64::MAX, u64::MAX - 1, 1),
    // the two largest Fibonacci numbers below 2^64, which take the most steps
    (12_200_160_415_121_876_738, 7_540_113_804_746_346_429, 1),
];

// The largest multiple that is told: 10^18.
const BOUND: u64 = 1_000_000_000_000_000_000;

// Two numbers and their least common multiple, None where it exceeds the bound.
static MULTIPLES: [(u64, u64, Option<u64>); 20] = [
    (4, 6, Some(12)),
    (0, 5, Some(0)),
    (5, 0, Some(0)),
    (0, 0, Some(0)),
    (0, u64::MAX, Some(0)),
    (u64::MAX, 0, Some(0)),
    (BOUND, 1, Some(BOUND)),
    (1, BOUND, Some(BOUND)),
    (BOUND, BOUND, Some(BOUND)),
    (BOUND / 2, BOUND / 5, Some(BOUND)),
    // 2^18 and 5^18
    (262_144, 3_814_697_265_625, Some(BOUND)),
    (999_999_999, 1_000_000_000, Some(999_999_999_000_000_000)),
    (1_000_000_000, 1_000_000_001, None),
    // their product is 10^18 + 1
    (1_000_001, 999_999_000_001, None),
    (BOUND + 1, 1, None),
    (1, BOUND + 1, None),
    (BOUND / 2, 3, None),
    (u64::MAX, 1, None),
    (u64::MAX, 2, None),
    (u64::MAX, u64::MAX, None),
];

// Numbers and the least common multiple of them all, None where it exceeds the bound.
static LISTS: [(&[u64], Option<u64>); 7] = [
    (&[], Some(1)),
    (&[0], Some(0)),
    (&[4, 6, 10], Some(60)),
    (&[u64::MAX, u64::MAX - 1, 0], Some(0)),
    (
        &[997, 991, 983, 977, 971, 967],
        Some(890_969_009_638_765_049),
    ),
    (&[997, 991, 983, 977, 971, 967, 953], None),
    (&[997, 991, 983, 977, 971, 967, 953, 0], Some(0)),
];

// That of a number and 0 is the number, so that of 0 and 0 is 0.
#[test]
fn gcd_is_the_greatest_divisor_of_both(rt: HostRuntime) {
    for (a, b, divisor) in &DIVISORS {
        assert_eq!(rt; gcd(*a, *b), *divisor, "of {a} and {b}");
    }
}

// The bound itself is told, and one more is not.
#[test]
fn lcm_is_told_up_to_its_bound(rt: HostRuntime) {
    for (a, b, multiple) in &MULTIPLES {
        assert_eq!(rt; lcm(*a, *b), *multiple, "of {a} and {b}");
    }
}

// That of no number is 1, and a 0 makes it 0 whatever the others are.
#[test]
fn lcm_of_a_list_is_told_up_to_its_bound(rt: HostRuntime) {
    for (numbers, multiple) in &LISTS {
        assert_eq!(rt; lcm_of(numbers), *multiple, "of {numbers:?}");
    }
}
