//! The words after the program's name, as the command that they are.
//!
//! A command is its own word, the folder, and its options, as `--name value` or `--name=value`, in any order and each at most once
//! (specs/Arguments). Words that are no command have no answer, and nothing else is said of them.
#![tactic(auto)]

mod command;
mod laws;
mod number;
mod said;
mod schedule;

pub use command::{Command, LOOKBACK, command_in};
pub use laws::law_spelled;
pub use schedule::sessions_listed;
