//! Tests of px_ast over its public calls, in a crate of their own, so that px_ast is not proved a second time for them.
#![tactic(auto)]

#[cfg(test)]
mod tests;
