//! What a horizon forgets of the cells of a region's files, and how the file that keeps the rest is named.
//!
//! `forget` keeps every cell above a horizon and, at or below it, exactly the puts that the horizon sees: in place, row by row, with no cell copied.
//! `name_forgotten` names a file of these cells in place of all files, together with the horizon, so that a stop leaves either the old files, which
//! are read as before, or the new one with its horizon. `laws` says what stays visible, and that forgetting twice is forgetting at the later horizon.
#![tactic(auto)]

mod keeping;
pub mod laws;
mod naming;

pub use keeping::forget;
pub use naming::{forgotten_after, name_forgotten};
