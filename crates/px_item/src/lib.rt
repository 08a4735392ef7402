//! What a session answers to one statement or session command, a step at a time, over any steps.
//!
//! `begin` reads the piece and makes no call: a piece that isn't read, a form that isn't built, a table that can't be made, or a
//! setting is answered at once. Any other is a run, whose steps make one call each: its table is found, unless it makes one, the
//! statement bound to it, and its batch or definition made. Without autocommit an UPSERT is held, and so are the removals
//! of a DELETE, whose rows are found first; a commit is an item of its own. What an item comes to is right by what the seat has then seen
//! (specs/Right), whatever others did between its steps.
#![tactic(auto)]

mod answered;
mod binding;
mod commanding;
mod holding;
mod item;
mod laws;
mod reading;
mod refusing;
mod seeking;

pub use answered::{After, Answered, Asked, Settings};
pub use item::{Begun, ItemRun, ItemState, ItemTurn, begin};
pub use laws::law_items;
