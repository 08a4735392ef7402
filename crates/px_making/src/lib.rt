//! A file that is made of a sorted list of cells, a block at a time.
//!
//! `Making::begin` empties the file, each `step` writes one block by one call of the disk, and `finish` writes index and
//! footer and brings all to the disk. The list isn't kept here: it is lent to each step, and stays as it is. No other file
//! is touched, and the finished file has exactly the list's cells.
#![tactic(auto)]

mod making;

pub use making::{MakeStep, Making};
