//! One definition, a step at a time, over any steps.
//!
//! A run is a machine: each of its steps makes one call of `Steps`, and other seats may act between two of them. It makes a table or an index, makes
//! an index active, disables it or builds it again, or drops one; where the catalogue isn't ready it does upkeep and tries again, and while the table is in use it waits.
//! What it comes to is the one entry that it added, or a fault with its cause, and then it added none (specs/Turns).
#![tactic(auto)]

mod define;
mod laws;

pub use define::{DefineFault, DefineRun, DefineState, DefineTurn};
pub use laws::law_turns;
