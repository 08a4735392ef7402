//! A batch begins on a table with its regions: what is read for it, what is made of it, and the room that it takes.
//!
//! `prepare` reads each row that a batch changes, and makes the cells of all of its phases. `promise` takes the room for them in each
//! region, or none. `admit` lets the batch begin, without a failure and without memory. The three are one step of the table; what the
//! first one reads is what stands when the last one lets the batch in. `law_begins` says what the step is of the trail.
#![tactic(auto)]

mod admitting;
mod cells;
mod fault;
mod laws;
mod pending;
mod preparing;
mod promising;
mod rooms;
mod rows;

pub use admitting::admit;
pub use fault::BeginFault;
pub use laws::{law_begins, law_leaves, law_reads};
pub use preparing::{Prepared, prepare};
pub use promising::promise;
pub use rooms::Room;
