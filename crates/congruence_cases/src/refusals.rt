// Which clock of a group is refused, and why.
use crate::groups::group_of;
use congruence::{
    Clock, NoCommonTick, Refusal, RefusedClock, all_meet, check_clocks, first_common_tick,
};
use std::process::Abort;
use std::test::Fail;

// Pairs of a period and a wait, the place of the first that no box can have, and why.
static REFUSED: [(&[(u16, u16)], usize, Refusal); 12] = [
    (&[(0, 0)], 0, Refusal::PeriodOutOfRange),
    (&[(0, 7)], 0, Refusal::PeriodOutOfRange),
    (&[(1_001, 0)], 0, Refusal::PeriodOutOfRange),
    (&[(1_001, 1_001)], 0, Refusal::PeriodOutOfRange),
    (&[(u16::MAX, u16::MAX)], 0, Refusal::PeriodOutOfRange),
    (&[(1, 1)], 0, Refusal::WaitNotBelowPeriod),
    (&[(1_000, 1_000)], 0, Refusal::WaitNotBelowPeriod),
    (&[(5, u16::MAX)], 0, Refusal::WaitNotBelowPeriod),
    (&[(4, 0), (6, 1), (3, 3)], 2, Refusal::WaitNotBelowPeriod),
    (&[(4, 0), (0, 0), (3, 3)], 1, Refusal::PeriodOutOfRange),
    (&[(4, 0), (3, 3), (0, 0)], 1, Refusal::WaitNotBelowPeriod),
    (
        &[(1, 0), (1_000, 0), (1_000, 999), (1_001, 0)],
        3,
        Refusal::PeriodOutOfRange,
    ),
];

// Clock by clock.
fn check_each(clocks: &[Clock]) -> Result<(), RefusedClock> {
    clocks.iter().enumerate().try_for_each(|(place, clock)| {
        clock
            .check()
            .map_err(|refusal| RefusedClock { place, refusal })
    })
}

fn check_refused(rt: &impl Abort, clocks: &[Clock], refused: RefusedClock) {
    assert_eq!(rt; check_each(clocks), Err(refused), "of {clocks:?}");
    assert_eq!(rt; check_clocks(clocks), Err(refused), "of {clocks:?}");
    assert_eq!(rt;
        first_common_tick(clocks),
        Err(NoCommonTick::Refused(refused)),
        "of {clocks:?}"
    );
    assert!(rt; !all_meet(clocks), "of {clocks:?}");
}

// Of a clock with two faults the period's is told, and of two such clocks the first.
#[test]
fn the_first_faulty_clock_is_refused(rt: HostRuntime) -> Result<(), Fail> {
    for (pairs, place, refusal) in &REFUSED {
        let clocks = group_of(rt.alloc(), pairs)?;
        let refused = RefusedClock {
            place: *place,
            refusal: *refusal,
        };
        check_refused(&rt, &clocks, refused);
    }
    Ok(())
}
