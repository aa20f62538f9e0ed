// Groups of clocks, and what the first tick that they share is held to.
use congruence::{Clock, NoCommonTick, all_meet, check_clocks, first_common_tick};
use std::alloc::{AllocError, Global};
use std::process::Abort;
use std::test::Fail;

// What is told of the first tick that clocks share.
pub type FirstTick = Result<Option<u64>, NoCommonTick>;

// Pairs of a period and a wait, and the first tick that their clocks share.
pub type Row = (&'static [(u16, u16)], FirstTick);

// A pair is a clock in these tables only, so no conversion of the library's makes one.
pub(crate) fn clock_of(pair: &(u16, u16)) -> Clock {
    Clock {
        period: pair.0,
        wait: pair.1,
    }
}

pub(crate) fn group_of(heap: Global, pairs: &[(u16, u16)]) -> Result<Vec<Clock>, AllocError> {
    pairs.iter().map(clock_of).collect(heap)
}

// They all meet unless their first tick is never.
fn check_first(rt: &impl Abort, clocks: &[Clock], first: FirstTick) {
    assert_eq!(rt; check_clocks(clocks), Ok(()), "of {clocks:?}");
    assert_eq!(rt; first_common_tick(clocks), first, "of {clocks:?}");
    assert_eq!(rt; all_meet(clocks), first.is_ok(), "of {clocks:?}");
}

pub(crate) fn check_rows(rt: &impl Abort, heap: Global, rows: &[Row]) -> Result<(), Fail> {
    for (pairs, first) in rows {
        let clocks = group_of(heap, pairs)?;
        check_first(rt, &clocks, *first);
    }
    Ok(())
}
