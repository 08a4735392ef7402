//! Base versions: what an index that is built gets for the rows that its table had when the index was born.
//!
//! A `BaseRow` (px_calls) is such a row with its key in the index. `base_versions` makes the cells of the verified versions of some rows, and `owners_of`
//! the primary keys for the entry that tells of them. `law_bases` says that where the table had the rows at the birth, these cells are what the
//! event Base (px_world) asks for, of exactly these rows.
#![tactic(auto)]

mod laws;
mod rows;
mod versions;

pub use laws::law_bases;
pub use rows::owners_of;
pub use versions::base_versions;
