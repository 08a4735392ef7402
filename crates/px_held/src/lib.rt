//! Changes that are held until they are committed, each of another row.
//!
//! `hold` adds a change: a batch names each row once, so two changes of a row are merged into one, as `with_change` (specs/Held)
//! says. `law_merged` says that the one does to every state of the row what the two do one after the other. `HeldChanges` are those of
//! one table, so many and of so different rows that a batch of them may be begun.
#![tactic(auto)]

mod changes;
mod holding;
mod laws;
mod merging;

pub use changes::{HeldChanges, held_with};
pub use holding::{HoldFault, hold};
pub use laws::law_merged;
pub use merging::merged;
