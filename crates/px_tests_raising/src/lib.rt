//! Tests of px_raising over its public calls, in a crate of their own: the bounds of a table's horizon, worked by hand.
#![tactic(auto)]

#[cfg(test)]
mod bounds;
