//! Tests of px_values over its public calls, in a crate of their own, so that px_values is not proved a second time for
//! them.
#![tactic(auto)]

#[cfg(test)]
mod tests;
