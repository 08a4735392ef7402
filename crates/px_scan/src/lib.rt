//! One query, a step at a time, over any steps.
//!
//! A run is a machine: each of its steps makes one call of `Steps`, and other seats may act between two of them. It opens a point, chooses its path from
//! the definitions there, looks at the keys of the path chunk by chunk, asks the data row of each doubt once and then has it fixed, and
//! closes the point on every way out. Its answer is current, or under an SCN exactly the rows at the point (px_gather), if what was opened is
//! sound; or it is a fault with its cause. `run_query` makes the steps until the run is over. What is asked is any `Asks`.
#![tactic(auto)]

mod answer;
mod asks;
mod keys;
mod laws;
mod machine;
mod run;

pub use answer::{Answer, Placed, QueryFault, QueryTurn};
pub use asks::{Asks, PathFault};
pub use laws::{law_bound, law_doubts, law_fixed, law_looks, law_turns};
pub use machine::{QueryState, Rest, Scan};
pub use run::{QueryRun, run_query};
