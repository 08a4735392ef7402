//! A session of a round: its statements and session commands, one after another, a step at a time, over any steps.
//!
//! A run is a machine: each of its steps makes one call of `Steps` at most, and other seats may act between two of them. Its items are
//! one for each piece of its text, in order, under the settings that the items before left; it ends with the text, or at its first
//! refusal by which the session ends, or for want of memory. What a step keeps and others' entries keep is `IsLive`, and in the end it is `IsAnswered`.
#![tactic(auto)]

mod laws;
mod run;
mod state;

pub use laws::{law_answers, law_sessions};
pub use run::{Doing, SessionRun, SessionTurn, run_to_end};
pub use state::{Ending, SessionState};
