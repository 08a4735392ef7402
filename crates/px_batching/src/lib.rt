//! The steps of an open batch of a table: it marks its index rows, one index after another, writes its rows, closes the marks of the
//! rows on which no other batch was pending, and ends. Each step hands the cells that were made when the batch began to one region as
//! one record, takes no memory, and leaves the table right. The laws say what each step leaves of what the trail tells of the table and
//! of what the table shows, which of the batch's entries may come, and that the receipt names exactly the concurrent rows.
//! What is told in an entry, and when, is the server's.
#![tactic(auto)]

mod ending;
mod handing;
mod laws;
mod marking;
mod verifying;
mod writing;

pub use ending::{Told, abandon, end};
pub use laws::{
    law_ends, law_marked, law_marks, law_may, law_traced, law_verified, law_verifies, law_writes,
};
pub use marking::{finish_marking, mark, mark_index};
pub use verifying::{finish_verifying, verify, verify_index};
pub use writing::{Unwritten, blocker, write};
