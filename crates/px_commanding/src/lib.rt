//! The session commands that make calls, a step at a time, over any steps: a commit of held changes, the status of a table, and an
//! order to upkeep.
//!
//! A commit finds the table of the changes by its name, tests that it is still the same one and that each change fits it, and makes one
//! batch (px_batch) of them. A status finds the table, and counts its cells, files and index rows. An order is given, and then
//! upkeep stepped until it has nothing left to do. Each step makes one call, and other seats may act between two of them. What a run comes
//! to, or the fault with its cause, is in specs/Commits, specs/Counts and specs/Orders.
#![tactic(auto)]

mod commit;
mod count;
mod laws;
mod order;

pub use commit::{CommitRun, CommitTurn};
pub use count::{CountFault, CountRun, CountTurn};
pub use laws::law_turns;
pub use order::{OrderFault, OrderRun, OrderTurn};
