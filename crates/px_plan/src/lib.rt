//! Paths: by which keys a query reads its rows, and what EXPLAIN prints of that.
//!
//! A path is the table's keys or those of an index that holds every column which the query names. `choose` takes the path
//! of the first hint that can be followed, or else the best candidate, and answers the range of its keys, the conjuncts
//! that are left to be tested, and whether rows are sorted behind it. A caller that keeps its query takes the steps of `choose`
//! alone: `take_apart`, `asked_columns`, `choose_by` and `read_by`. `IsPlan` (specs/Plans) says what a plan is: on every
//! path the rows of the condition are those whose key is in the range and of which the rest is true.
#![tactic(auto)]

mod best;
mod choosing;
mod explaining;
mod hints;
mod laws;
mod naming;
mod paths;
mod plan;
mod rank;
mod reading;

pub use choosing::{choose, choose_by, take_apart};
pub use explaining::explain;
pub use laws::law_answer;
pub use naming::asked_columns;
pub use paths::path_columns;
pub use plan::{Asked, By, Plan, PlanFault};
pub use rank::Rank;
pub use reading::{PathReading, read_by};
