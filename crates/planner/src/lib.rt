// Start waits for booked boxes: how many distinct settings there are, the best choice, and the fitted one.
#![tactic(auto)]

mod berth;
mod branches;
mod counting;
mod fitting;
mod planning;
mod prefix;
mod timetable;

pub use counting::{MOST_SETTINGS, settings};
pub use fitting::fit;
pub use planning::plan;
pub use timetable::Timetable;
