// Numbers only: greatest common divisors, least common multiples, when periodic draws meet, and
// the first tick that several of them share.
#![tactic(auto)]

mod clocks;
mod common;
mod numbers;
mod refusals;

pub use clocks::{Clock, RefusedClock, all_meet, check_clocks, meets};
pub use common::{NoCommonTick, first_common_tick};
pub use numbers::{gcd, lcm, lcm_of};
pub use refusals::Refusal;
