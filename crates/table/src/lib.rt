// The table of sockets: each empty, booked or running.
#![tactic(auto)]

mod slot;
mod table;

pub use slot::{Booking, Slot};
pub use table::{SOCKETS, Table};
