//! The same values, rows and changes again.
//!
//! A change is handed on from what is held to a batch, and from a batch to its entry and its receipt, and each keeps its own.
//! `copied` gives changes again, `copied_rows` the rows that they are of, and `copied_values` a row's values. Nothing but want of
//! memory refuses a copy.
#![tactic(auto)]

mod copying;

pub use copying::{copied, copied_rows, copied_values};
