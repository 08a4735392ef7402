//! Replies: what a statement or a session command is answered, why it is refused, and what that prints.
//!
//! An `Item` is a statement with its reply and with the evidence that the reply rests on, and a `Transcript` the items of a
//! session in a round. `print_transcripts` adds to a line what `printed` (specs/Printed) says: each reply by its lines,
//! session by session, with a line `@n` before those of session n.
#![tactic(auto)]

mod print;
mod refusal;
mod reply;
mod transcript;

pub use print::{
    print_numbered, print_refusal, print_refusal_line, print_reply, print_transcripts,
    print_with_number,
};
pub use refusal::{Cause, Refusal};
pub use reply::{Checked, Counts, Defined, Reply};
pub use transcript::{Evidence, Item, Items, Places, Receipts, Transcript, Transcripts};
