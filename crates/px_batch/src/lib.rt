//! One batch, a step at a time, over any steps.
//!
//! A run is a machine: each of its steps makes one call of `Steps`, and other seats may act between two of them. It begins the
//! batch, marks its index rows, writes its rows, verifies the marks and ends; while the server is busy it does upkeep, and while an earlier
//! batch is pending it tries again. What it comes to is its receipt, or a fault with its cause; a refused run has begun a batch only
//! where the server was closed under it (specs/Turns). `run_batch` makes the steps until the run is over.
#![tactic(auto)]

mod batch;
mod laws;
mod run;

pub use batch::{BatchFault, BatchState, BatchTurn};
pub use laws::{law_bound, law_turns};
pub use run::{BatchRun, run_batch};
