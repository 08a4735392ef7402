//! The cells that a batch keeps for one region, row by row, until it hands them out as one sorted list.
//!
//! `KeptCells` takes the cells of each row, with the room to put all of them together, so that `hand` takes no memory: it gives
//! the cells of chosen rows, sorted as a region's log wants them, and no others.
#![tactic(auto)]

mod kept;

pub use kept::KeptCells;
