//! Sorted sources of cells, in memory and in files, given as one sorted list to a taker.
//!
//! Of sources the later written stand first; of cells that are equal in the order the one of the first source is given.
//! Each cell goes to the taker by reference, row by row, until it wants no further row. A file has one block in memory.
//! `give` promises that the taker gets exactly the front of the settled list of all sources, and which faults come when.
#![tactic(auto)]

mod fault;
mod handing;
mod last;
mod least;
mod pass;
mod source;
mod taker;

pub use fault::GiveFault;
pub use handing::give;
pub use source::Source;
pub use taker::CellTaker;
