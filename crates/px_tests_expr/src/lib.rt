//! Tests of px_expr over its public calls: the truth tables of SQL, with NULL in every position.
#![tactic(auto)]

#[cfg(test)]
mod truths;
