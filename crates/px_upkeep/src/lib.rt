//! The build of an index, a step at a time, over any steps.
//!
//! A run is a machine: each of its steps makes one call of `Steps`, and other seats may act between two of them. It opens a point at the index's birth,
//! reads the rows that the table has there, chunk by chunk, gives each chunk its base versions in the index, makes the index active while the point is
//! open, and closes the point; an index that is disabled it has built again first. A build that is refused closes its point and disables the index.
//! What it comes to is the index, which then stood active, or a fault with its cause (specs/Turns).
#![tactic(auto)]

mod build;
mod gathered;
mod laws;
mod rows;

pub use build::{Build, BuildFault, BuildRun, BuildState, BuildTurn, Next};
pub use gathered::Gathered;
pub use laws::law_builds;
pub use rows::{RowsFault, base_pieces};
