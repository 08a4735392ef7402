//! Tests of px_lex over its public calls, in a crate of their own, so that px_lex is not proved a second time for them.
#![tactic(auto)]

#[cfg(test)]
mod tests;
