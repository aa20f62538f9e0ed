// Lists small enough to work out by hand.
use crate::lists::{Row, check_long, check_rows};
use load::{Amps, Inrush, Phases};

static AMPS: [Row; 4] = [
    (&[], 0),
    (&[(1, 0, (1_000_000, 0, 0))], 1_000_000),
    (
        &[(2, 0, (1, 0, 0)), (3, 0, (2, 0, 0)), (5, 0, (3, 0, 0))],
        6,
    ),
    (&[(4, 0, (7, 0, 0)), (6, 1, (9, 0, 0))], 9),
];

static PHASES: [Row; 2] = [
    (&[(1, 0, (3, 0, 0)), (1, 0, (0, 3, 0))], 3),
    (&[(1, 0, (3, 0, 0)), (1, 0, (3, 0, 0))], 6),
];

static INRUSH: [Row; 1] = [(&[(1, 0, (2, 5, 0)), (1, 0, (3, 4, 0))], 10)];

#[test]
fn worked_out_amps(rt: HostRuntime) {
    check_rows::<Amps>(&rt, &AMPS);
}

#[test]
fn worked_out_phases(rt: HostRuntime) {
    check_rows::<Phases>(&rt, &PHASES);
}

#[test]
fn worked_out_inrush(rt: HostRuntime) {
    check_rows::<Inrush>(&rt, &INRUSH);
}

// Primes: six of them, and a seventh, all drawing at tick 0.
static LONG: [Row; 2] = [
    (
        &[
            (997, 0, (1, 0, 0)),
            (991, 0, (1, 0, 0)),
            (983, 0, (1, 0, 0)),
            (977, 0, (1, 0, 0)),
            (971, 0, (1, 0, 0)),
            (967, 0, (1, 0, 0)),
        ],
        6,
    ),
    (
        &[
            (997, 0, (1, 0, 0)),
            (991, 0, (1, 0, 0)),
            (983, 0, (1, 0, 0)),
            (977, 0, (1, 0, 0)),
            (971, 0, (1, 0, 0)),
            (967, 0, (1, 0, 0)),
            (953, 0, (1, 0, 0)),
        ],
        7,
    ),
];

#[test]
fn long_cycles(rt: HostRuntime) {
    for row in &LONG {
        check_long::<Amps>(&rt, row);
    }
}
