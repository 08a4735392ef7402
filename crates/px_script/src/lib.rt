//! Scripts: their rounds, what each session has in a round, and its statements and session commands.
//!
//! `read_script` divides the bytes of a script among rounds and sessions as `script_of` (specs/Scripts) says, or tells why
//! nothing of it is run. `pieces` cuts what a session has in a round into statements and session commands; their
//! places count from the first byte of that text.
#![tactic(auto)]

mod dividing;
mod owner;
mod piece;
mod script;

pub use piece::{Span, pieces, place_of};
pub use script::{Round, Script, ScriptFault, SessionText, read_script};
