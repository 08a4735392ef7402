//! An open batch as code: what it keeps from its begin to its end, and what it hands to each region in its phases.
//!
//! `changed` is a row's state after a change. `marks_of_rows`, `closes_of_rows` and `puts_of_rows` make the cells of all three
//! phases when the batch begins, and take all memory that later phases need. `OpenBatch` keeps them, and hands them out as
//! sorted lists; `IsHeldAs` ties it to what px_openbatches knows of a batch.
#![tactic(auto)]

mod batch;
mod flags;
mod laws;
mod made;
mod pending;
mod transition;

pub use batch::OpenBatch;
pub use laws::{law_begun, law_held, law_pending};
pub use made::{closes_of_rows, marks_of_rows, puts_of_rows};
pub use pending::{expected, pending_flags};
pub use transition::{Transition, changed};
