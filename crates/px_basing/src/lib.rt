//! Base versions over a table's group: those of some rows come into the region of an index as one record.
//!
//! `base` makes the cells, takes room for them and writes them, and gives the rows for the entry that tells of it. `law_based` says that the table
//! stays right and tallies with the trail, and that where the table had the rows at the birth of the index, what it shows goes on by the event Base
//! (px_world) of exactly these rows; `law_noted` says the same with the entry.
#![tactic(auto)]

mod basing;
mod fault;
mod laws;
mod writing;

pub use basing::base;
pub use fault::BaseFault;
pub use laws::{law_based, law_given, law_noted};
