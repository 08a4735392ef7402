//! Tests of px_rows over its public calls, in a crate of their own, so that px_rows is not proved a second time for them.
#![tactic(auto)]

#[cfg(test)]
mod tests;
