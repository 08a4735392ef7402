//! A flush: what is read of the batches of a region's log goes to a file, which its manifest names in place of them. A compaction: what
//! is read of some of its files does.
//!
//! `Flushing` has the region's open files and the flush or the compaction that may be under way. `step` makes one step of it: the cells are
//! taken from the log or from the files, or the new file is begun, written by one block, finished, or named. At each moment a stop leaves files that
//! are read as the same list (`IsRead`), and batches may be written between two steps.
#![tactic(auto)]

mod compaction;
mod fault;
mod flushing;
mod job;
pub mod laws;
mod naming;
mod stage;

pub use fault::FlushFault;
pub use flushing::{FlushStep, Flushing};
pub use job::{Flush, Gather, Job, Merge};
pub use stage::Stage;
