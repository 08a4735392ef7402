//! Session commands: `!scn 5`, `!commit` and the like.
//!
//! `read_command` tells what a line says that begins with `!`: a command, or the place at which no command goes on. What the
//! words behind the `!` say is `said` (specs/Commands).
#![tactic(auto)]

mod command;
mod reading;
mod word;

pub use command::{Command, CommandFault};
pub use reading::read_command;
