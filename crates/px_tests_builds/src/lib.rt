//! Indexes that are built while others write: random runs of three writers, of two sessions that make, drop, disable and rebuild an index each, and of
//! one that flushes, each run stopped somewhere or not; and each index that is active beside a plain list of dated rows, from its birth on.
#![tactic(auto)]

#[cfg(test)]
mod asked;
#[cfg(test)]
mod checks;
#[cfg(test)]
mod counts;
#[cfg(test)]
mod course;
#[cfg(test)]
mod plans;
#[cfg(test)]
mod seeds;
#[cfg(test)]
mod stands;
