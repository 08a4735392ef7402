//! Tests of px_baserows over its public calls, in a crate of their own: the base versions of two rows, byte by byte, and their primary keys.
#![tactic(auto)]

#[cfg(test)]
mod tests;
mod worked;

pub use worked::{Answer, Case, based, made};
