//! The server: a catalogue and tables with their regions on a disk, and the trail of all that was done.
//!
//! Its invariant (`IsKept`, `IsByClock`) says what the trail tells of definitions and groups, what the groups show where the opened folder is
//! sound, that each image that a stop may leave of any moment recovers, and that stamps are by the clock. Each method has the clause of its
//! step in `Steps` (px_calls), word by word; `finish` hands out what is promised of the disk and of the stamps.
#![tactic(auto)]

mod basing;
mod beginning;
mod defining;
mod ending;
mod finding;
mod fixing;
mod founded;
mod laws;
mod marking;
mod missing;
mod opening;
mod points;
mod reading;
mod readying;
mod renewing;
mod server;
mod shutting;
mod status;
mod steps;
mod taking;
mod upkeep;
mod writing;

pub use founded::Founded;
pub use laws::{law_compacted, law_flushed, law_points};
pub use opening::law_starts;
pub use server::Server;
