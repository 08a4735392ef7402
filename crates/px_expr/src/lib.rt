//! Conditions whose columns are places in a row, and what they say of a row: true, false or unknown.
//!
//! A comparison with NULL is unknown; IN is an OR of equalities, BETWEEN an AND of two comparisons, and NOT leaves what is
//! unknown. `truth_of` (specs/Holds) is that truth, by recursion on the condition; `holds` computes it, and takes no
//! memory. A row is selected where its condition is true (`Selects`). `law_truth` and `law_selected` say what OR, AND
//! and NOT are worth.
#![tactic(auto)]

mod bound;
mod laws;
mod test;
mod truth;

pub use bound::{Bound, Term, Test, Truth};
pub use laws::{law_selected, law_truth};
pub use truth::holds;
