//! Batches as tests and benchmarks of steps begin them: changes of at least one row and at most 1,000, each row once.
//!
//! `Batch::of` makes one, and `are_fitting` tests that its changes are of rows of a table. By `proofs/Fitting` whoever found a table and tested changes so
//! meets what `begin` asks of them.
#![tactic(auto)]

mod batches;

pub use batches::{Batch, are_fitting};
