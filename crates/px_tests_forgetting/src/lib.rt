//! Tests of px_forgetting over its public calls, in a crate of their own: what a horizon keeps of rows by hand and of rows drawn at random, and what
//! is named then.
#![tactic(auto)]

#[cfg(test)]
mod kept;
#[cfg(test)]
mod named;
