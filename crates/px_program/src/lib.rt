//! The program as a library: its one call `phoenix` reads a script of SQL sessions and runs it on the tables in a folder, or verifies an
//! index there, and prints the replies, over any disk, clock, input and output.
//!
//! Its contract says what was run and answered, what the folder stands for after a stop at any moment, and the status by its causes.
//! `px_main` makes the real disk, clock, input and output, and calls it.
#![tactic(auto)]

mod causes;
mod job;
mod outcome;
mod replies;
mod run;
mod served;
mod since;
mod status;
mod watched;
mod words;

pub use outcome::Outcome;
pub use run::phoenix;
pub use status::{Status, tell, tell_fault};
pub use words::folder_disk;
