//! The cells of a region's files and of its log in one memory store.
//!
//! A region that is reopened reads its files once, block by block, and keeps all that is read of them and of the batches of
//! its log as one sorted list in memory. `load` makes it: the newest file hides the older ones, and the log hides the files.
//! A `Gathering` reads some files so, a block a step, as a compaction wants their cells.
#![tactic(auto)]

mod gathering;
mod loading;
mod reading;

pub use gathering::{GatherStep, Gathering};
pub use loading::load;
