//! What a condition says of a path: which values the leading columns of its keys have, and what is left to be tested.
//!
//! The conjuncts of a condition are the parts of its outermost ANDs. On a path with some key columns the leading ones that
//! each have an equality are EQUAL, and the next may have bounds. `told` finds these, and tells of each conjunct whether
//! the key says it already; `unmarked` gives the others. `law_paths` is that on every path the condition is true exactly
//! where the key begins so and the rest is true.
#![tactic(auto)]

mod flat;
mod laws;
mod path;
mod tests_of;
mod walk;

pub use flat::{conjuncts, unmarked};
pub use laws::{law_condition, law_paths, law_ranged};
pub use path::{Bounds, EqualTo, Side, Told};
pub use walk::{leading, told};
