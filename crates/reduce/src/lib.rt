// Finders over finders: Reduce asks about shorter periods, Choose asks a second finder where the first refuses.
#![tactic(auto)]

mod choose;
mod reduce;
mod reduced;

pub use choose::Choose;
pub use reduce::Reduce;
