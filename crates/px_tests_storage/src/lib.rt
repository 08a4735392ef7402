//! What tests of files, flushes, regions and folders share: cells as bytes and as numbers, and a batch of them in a region.
#![tactic(auto)]

mod cells;
mod regions;

pub use cells::{Seen, push_cell};
pub use regions::{prepared, put};
