//! Tests of px_outside over its public calls, in a crate of their own, so that px_outside is not proved a second time for
//! them. Those of folders make and remove folders where they run.
#![tactic(auto)]

#[cfg(test)]
mod tests;
