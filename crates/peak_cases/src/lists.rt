// Lists of boxes, and what each finder is held to.
use congruence::{Clock, Refusal};
use draws::{Draw, DrawList};
use finder::{Finder, FullFinder};
use load::{Load, Rating};
use peaks::PeakFinder;
use reduce::Reduce;
use search::Search;
use std::process::Abort;
use walk::Walk;

// A box: its period, wait and rating.
pub type Case = (u16, u16, (u32, u32, u32));

// Boxes from the first place on, and their peak.
pub type Row = (&'static [Case], u32);

fn list_of(rt: &impl Abort, boxes: &[Case]) -> DrawList {
    let mut list = DrawList::new();
    for (place, (period, wait, (a, b, c))) in boxes.iter().enumerate() {
        let draw = Draw {
            clock: Clock {
                period: *period,
                wait: *wait,
            },
            rating: Rating {
                a: *a,
                b: *b,
                c: *c,
            },
        };
        assert_eq!(rt; list.set(place, draw), Ok(()), "at {place} of {boxes:?}");
    }
    list
}

// The peak is the one known, and the group measures it.
fn check_found<L: Load>(rt: &impl Abort, row: &Row, found: (u32, u32)) {
    let (boxes, known) = row;
    let (peak, group) = found;
    assert_eq!(rt; peak, *known, "of {boxes:?}");
    let load: L = list_of(rt, boxes).load_of(group);
    assert_eq!(rt; load.measure(), *known, "of {boxes:?}");
}

fn check_finder<L: Load, F: Finder<L>>(rt: &impl Abort, finder: &mut F, row: &Row) {
    let boxes = row.0;
    match finder.find(&list_of(rt, boxes)) {
        Ok(found) => check_found::<L>(rt, row, found),
        Err(refusal) => assert_eq!(rt; Err(refusal), Ok(()), "of {boxes:?}"),
    }
}

fn check_full<L: Load, F: FullFinder<L>>(rt: &impl Abort, finder: &mut F, row: &Row) {
    let found = finder.find_any(&list_of(rt, row.0));
    check_found::<L>(rt, row, found);
}

// The finders that have every list of the tables within reach.
fn check_list<L: Load>(rt: &impl Abort, row: &Row) {
    check_finder::<L, Reduce<Walk>>(rt, &mut Reduce { below: Walk }, row);
    check_full::<L, Search>(rt, &mut Search, row);
    check_full::<L, PeakFinder>(rt, &mut PeakFinder::new(), row);
}

// Lists of a short cycle.
pub(crate) fn check_rows<L: Load>(rt: &impl Abort, rows: &[Row]) {
    for row in rows {
        check_list::<L>(rt, row);
        check_finder::<L, Walk>(rt, &mut Walk, row);
    }
}

// A list whose cycle is too long to go through until its periods are reduced.
pub(crate) fn check_long<L: Load>(rt: &impl Abort, row: &Row) {
    let boxes = row.0;
    assert_eq!(rt;
        Finder::<L>::find(&mut Walk, &list_of(rt, boxes)),
        Err(Refusal::BeyondReach),
        "of {boxes:?}"
    );
    check_list::<L>(rt, row);
}
