// Ratings, and what load a rating is: one interface with its laws, and three kinds.
#![tactic(auto)]

mod amps;
mod inrush;
mod kind;
mod phases;
mod rating;

pub use amps::Amps;
pub use inrush::Inrush;
pub use kind::Load;
pub use phases::Phases;
pub use rating::Rating;
