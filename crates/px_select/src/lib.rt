//! One SELECT, a step at a time, over any steps.
//!
//! A run wraps the query machine of px_scan: each of its steps makes one call of `Steps`, and other seats may act between two of them. When
//! the scan is over, its rows are sorted by the ORDER BY, cut at the LIMIT and shown, and handed out with the places at which they were held.
//! The states of a run are px_scan's, so that what stays true of a query between two steps stays true of a SELECT; what its last
//! step says is the answer of px_answers, if what was opened is sound, or a fault with its cause.
#![tactic(auto)]

mod laws;
mod run;

pub use laws::{law_doubts, law_turns};
pub use run::{SelectRun, SelectTurn, Selected, run_select};
