//! A bound query as px_scan asks it: its condition, its LIMIT, and the path that px_plan chooses in the point.
//!
//! `Planned` holds a query with the definition of the table that it was bound to. A row is kept where each conjunct is true of
//! it. The path is chosen from the definitions in the point: its keys are those of all rows that meet the condition, and it
//! shows each column that the query names. With an ORDER BY LIMIT doesn't end the scan.
#![tactic(auto)]

mod laws;
mod planned;

pub use laws::law_taken;
pub use planned::Planned;
