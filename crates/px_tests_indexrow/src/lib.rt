//! Tests of px_indexrow over its public calls, in a crate of their own, so that px_indexrow is not proved a second time for them:
//! the cells of one change at all phases, byte by byte, and the repair that is due in each case.
#![tactic(auto)]

#[cfg(test)]
mod phases;
#[cfg(test)]
mod tests;
mod worked;

pub use worked::{Case, built, closed, made, marked, removed, written};
