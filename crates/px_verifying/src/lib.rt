//! The verification of an index, a step at a time, over any steps: reports on it, and its rebuilding.
//!
//! A run makes the parts that its kind has, one behind the other: a report, a rebuilding (the index is put back to building, from a new birth on, and
//! built), and a report again. Each step is one of px_verify, px_defining or px_upkeep, and so one call. A part that is refused ends the run.
//! What it comes to is each finished part, as its own layer tells it, and of a refused one the fault with its cause (specs/Turns).
#![tactic(auto)]

mod answer;
mod faults;
mod laws;
mod machine;
mod run;

pub use answer::{Reports, Unfinished, VerifyFault, VerifyKind, VerifyTurn};
pub use laws::law_verifies;
pub use machine::VerifyState;
pub use run::{VerifyRun, run_verify};
