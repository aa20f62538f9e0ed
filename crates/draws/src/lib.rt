// A finder's list of boxes, what draws at a tick, groups of places, and what a peak is.
#![tactic(auto)]

mod draw;
mod factors;
mod groups;
mod list;
mod loads;

pub use draw::Draw;
pub use groups::mask_of;
pub use list::{DrawList, PLACES};
