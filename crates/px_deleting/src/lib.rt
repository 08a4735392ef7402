//! One DELETE, a step at a time, over any steps.
//!
//! A run is a machine: each of its steps makes one call of `Steps`, and other seats may act between two of them. It finds the keys of the rows that
//! meet the condition by a current query (px_select), and then removes them in primary key order, a batch (px_batch) for each 1,000 of them. It
//! comes to the receipts of its batches and the number of their rows, or to those of the batches that it finished and a fault with its cause.
//! `run_delete` makes the steps until the run is over.
#![tactic(auto)]

mod asking;
mod deleted;
mod laws;
mod machine;
mod run;

pub use asking::planned;
pub use deleted::{DeleteFault, DeleteTurn, Deleted, Removed};
pub use laws::{law_removed, law_turns};
pub use machine::{DeleteState, Left};
pub use run::{DeleteRun, run_delete};
