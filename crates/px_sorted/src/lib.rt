//! What a query answers of the rows that its scan found: in the order of its ORDER BY, cut at its LIMIT, of each what is shown.
//!
//! The sort is stable: rows that the ORDER BY doesn't tell apart stay in the order of the path. NULL is the least value, so it
//! comes first where a column ascends and last where it descends. `answer_of` (specs/Sorting) is the answer as a function of
//! the rows, `stably_sorted` its order.
#![tactic(auto)]

mod answer;
mod laws;
mod sorted;

pub use answer::{Shown, answered};
pub use laws::{law_answered, law_sorted};
pub use sorted::{cut, sort};
