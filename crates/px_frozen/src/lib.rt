//! What a flush writes: the cells of the batches above the flushed number in the segment that a region's log left.
//!
//! `freeze` reads them from the log again, sorted, since a batch's own cells are let go once it is written. `IsFrozen` says
//! which batches they are, and it stays while further batches come.
#![tactic(auto)]

mod frozen;
pub mod laws;
mod rereading;

pub use frozen::Frozen;
pub use rereading::{freeze, freeze_merged};
