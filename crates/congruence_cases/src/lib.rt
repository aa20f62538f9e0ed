// Cases for the crate `congruence`. Their answers come from arithmetic or from a plain search, tick
// by tick, and not from the crate itself.
#![tactic(auto)]

#[cfg(test)]
mod clocks;
#[cfg(test)]
mod first_ticks;
#[cfg(test)]
mod groups;
#[cfg(test)]
mod numbers;
#[cfg(test)]
mod refusals;
#[cfg(test)]
mod searched;
