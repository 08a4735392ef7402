//! Tests of px_gatelog over its public calls, in a crate of their own, so that px_gatelog is not proved a second time for
//! them.
#![tactic(auto)]

#[cfg(test)]
mod readers;
#[cfg(test)]
mod tests;
