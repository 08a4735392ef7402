//! A load is run: its script as that of an input, over the steps of any single owner, and what is told of it is written in place of the replies.
//!
//! `run_load` leaves what the rounds of the script leave, so all that is promised of a script's run holds of a load's; the bytes that it writes
//! are `told` of px_load.
#![tactic(auto)]

mod run;
mod writing;

pub use run::run_load;
