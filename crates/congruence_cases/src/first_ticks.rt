// The first common tick: worked examples, and the bounds of clocks and multiples.
use crate::groups::{Row, check_rows};
use congruence::NoCommonTick::Never;
use std::test::Fail;

static EXAMPLES: [Row; 5] = [
    (&[], Ok(Some(0))),
    (&[(5, 1), (3, 2)], Ok(Some(11))),
    (&[(4, 0), (6, 1)], Err(Never)),
    (&[(4, 0), (6, 2)], Ok(Some(8))),
    (&[(4, 3), (9, 5)], Ok(Some(23))),
];

// The shortest and the longest periods, and groups of 24.
static BOUNDS: [Row; 6] = [
    (&[(1, 0)], Ok(Some(0))),
    (&[(1_000, 0)], Ok(Some(0))),
    (&[(1_000, 999)], Ok(Some(999))),
    (&[(1_000, 0), (1_000, 999)], Err(Never)),
    (&[(1_000, 999); 24], Ok(Some(999))),
    // remainders of 987_654_321_098_765; the least common multiple is 5_354_228_880
    (
        &[
            (1, 0),
            (2, 1),
            (3, 2),
            (4, 1),
            (5, 0),
            (6, 5),
            (7, 5),
            (8, 5),
            (9, 8),
            (10, 5),
            (11, 1),
            (12, 5),
            (13, 8),
            (14, 5),
            (15, 5),
            (16, 13),
            (17, 12),
            (18, 17),
            (19, 4),
            (20, 5),
            (21, 5),
            (22, 1),
            (23, 10),
            (24, 5),
        ],
        Ok(Some(2_553_436_205)),
    ),
];

// Periods with a least common multiple near 10^18 or above.
static MULTIPLES: [Row; 8] = [
    // the multiple is 890_969_009_638_765_049
    (
        &[(997, 0), (991, 0), (983, 0), (977, 0), (971, 0), (967, 0)],
        Ok(Some(0)),
    ),
    (
        &[
            (997, 219),
            (991, 176),
            (983, 475),
            (977, 866),
            (971, 278),
            (967, 470),
        ],
        Ok(Some(123_456_789_012_345_678)),
    ),
    (
        &[
            (997, 996),
            (991, 990),
            (983, 982),
            (977, 976),
            (971, 970),
            (967, 966),
        ],
        Ok(Some(890_969_009_638_765_048)),
    ),
    // 999_954_863_203_474_290
    (
        &[
            (317, 316),
            (497, 496),
            (398, 397),
            (373, 372),
            (327, 326),
            (331, 330),
            (395, 394),
        ],
        Ok(Some(999_954_863_203_474_289)),
    ),
    // 1_000_007_825_798_684_010
    (
        &[
            (415, 0),
            (319, 0),
            (329, 0),
            (478, 0),
            (309, 0),
            (359, 0),
            (433, 0),
        ],
        Ok(None),
    ),
    // above 2^64, as in those below
    (
        &[
            (997, 0),
            (991, 0),
            (983, 0),
            (977, 0),
            (971, 0),
            (967, 0),
            (953, 0),
        ],
        Ok(None),
    ),
    // the last clock never meets the first
    (
        &[
            (997, 0),
            (991, 0),
            (983, 0),
            (977, 0),
            (971, 0),
            (967, 0),
            (953, 0),
            (997, 1),
        ],
        Err(Never),
    ),
    // the last two never meet
    (
        &[
            (997, 0),
            (991, 0),
            (983, 0),
            (977, 0),
            (971, 0),
            (967, 0),
            (953, 0),
            (1_000, 0),
            (998, 1),
        ],
        Err(Never),
    ),
];

// No clock rules out any tick, so that of no clock is 0.
#[test]
fn all_draw_at_the_first_common_tick(rt: HostRuntime) -> Result<(), Fail> {
    check_rows(&rt, rt.alloc(), &EXAMPLES)
}

// It is any common tick's remainder by the least common multiple of the periods.
#[test]
fn the_first_common_tick_is_below_the_multiple(rt: HostRuntime) -> Result<(), Fail> {
    check_rows(&rt, rt.alloc(), &BOUNDS)
}

// Clocks that never meet are told so even where the multiple of their periods exceeds 10^18.
#[test]
fn never_is_told_before_beyond(rt: HostRuntime) -> Result<(), Fail> {
    check_rows(&rt, rt.alloc(), &MULTIPLES)
}
