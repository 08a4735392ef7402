//! One report on an index, a step at a time, over any steps.
//!
//! A run opens a point at its table's last stamp, looks at all rows of the table and then at all keys of the index, a chunk a step, and closes the
//! point on every way out. Of each row it keeps the entry that it asks for in the index, and of each key what the look found.
//! With its last step it compares both lists in one pass. If what was opened is sound, the report counts exactly the rows at the point;
//! and of an index that may be read there, nothing is missing, extra or wrong.
#![tactic(auto)]

mod answer;
mod entries;
mod laws;
mod machine;
mod merging;
mod report;
mod run;

pub use answer::{ReportFault, ReportTurn, Reported};
pub use laws::law_turns;
pub use machine::{Lists, Reading, ReportState};
pub use merging::{compare, sort};
pub use report::{IndexEntry, Report, Version};
pub use run::{ReportRun, run_report};
