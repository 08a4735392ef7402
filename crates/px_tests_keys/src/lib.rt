//! Tests of px_keys over its public calls, in a crate of their own, so that px_keys is not proved a second time for them.
#![tactic(auto)]

#[cfg(test)]
mod tests;
