//! Tests of px_sorted over its public calls: NULL in both directions, ties, LIMIT, and what is shown.
#![tactic(auto)]

#[cfg(test)]
mod orders;
