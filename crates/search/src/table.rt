// What a search looks up: which places meet, and which hold a box.
ghost use Rattle.std.specs.Prelude.{◌≡◌, ◌↔◌, None, IsTrue, slice_index_or};
ghost use Rattle.draws.specs.Meetings.{MeetAt};
ghost use Rattle.search.specs.Visits.{Held, Row, Tabled};

use congruence::meets;
use draws::{DrawList, mask_of};
use std::array;

fn meet_at(list: &DrawList, s: usize, j: usize) -> bool
    ensures { IsTrue result
        ↔ MeetAt (slice_index_or list.now.places s None) (slice_index_or list.now.places j None) }
{
    match (list.at(s), list.at(j)) {
        (Some(a), Some(b)) => meets(a.clock, b.clock),
        _ => false,
    }
}

// The places that place s meets, as a mask.
fn meeting_row(list: &DrawList, s: usize) -> u32
    ensures { Row list.now.places s 24 result }
{
    // An empty place meets none, and most lists have many.
    if list.at(s).is_none() {
        return 0;
    }
    mask_of(&array::from_fn(|j| meet_at(list, s, j)))
}

// The places that hold a box, as a mask.
pub fn held(list: &DrawList) -> u32
    ensures { Held list.now.places 24 result }
{
    // A box meets itself.
    mask_of(&array::from_fn(|s| meet_at(list, s, s)))
}

// For each place of the list the places that it meets, as an array beside it: a search has no heap, and looks rows up
// at every step.
pub fn meetings(list: &DrawList) -> [u32; 24]
    ensures { Tabled list.now.places 24 result }
{
    array::from_fn(|s| meeting_row(list, s))
}
