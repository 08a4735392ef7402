//! The steps of the server, as drivers see them: one event of the system is one call of the trait `Steps`.
//!
//! A seat makes the calls, and others may act between two of them. What a call did and why it was refused is said of the
//! entries of the trail that the seat has then seen (`Known`, specs/Known): they begin with what it had seen, and end with
//! the one entry that the call added, if any (`Sees`, `Adds`). The types are those that calls take and answer. `law_..` say how a
//! seat's batches and points go on from call to call, and that a call of one seat on a shared server is a call of its own.
#![tactic(auto)]

mod count;
mod definition;
mod fault;
mod laws;
mod query;
mod status;
mod steps;
mod ticket;

pub use count::count_after;
pub use definition::{Definition, Made};
pub use fault::StepFault;
pub use laws::{law_asked, law_points, law_runs, law_tickets};
pub use query::{
    BaseRow, BaseRows, By, Chunk, Doubt, Fixing, FoundKey, FoundRow, Held, Path, Point, Verdict,
};
pub use status::{IndexCount, IndexCounts, Ordered, Status, Work};
pub use steps::Steps;
pub use ticket::{Marks, Receipt, Ticket, Verifies, Writes};
