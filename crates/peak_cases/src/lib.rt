// Cases for the finders. Their peaks come from a plain search of every tick of a cycle, and not from
// the finders themselves.
#![tactic(auto)]

#[cfg(test)]
mod lists;
#[cfg(test)]
mod peaks_of;
#[cfg(test)]
mod worked;
