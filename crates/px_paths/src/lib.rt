//! The columns of row keys: of a table's own, and of an index's.
//!
//! A path is a list of columns, each with its place in the table, its type, its direction, and whether it may be NULL in
//! a key. `table_path` makes that of a table, `index_path` that of an index. `key_on` (specs/Paths) is the row key that a
//! row has on a path, `owner_of` the primary key in an index's row key, and `shown_on` what an index shows of a row.
//! Rows as cells, index rows, the choice of a path and the steps of a query all speak of these.
#![tactic(auto)]

mod laws;
mod path;

pub use laws::law_index_keys;
pub use path::{PathColumn, index_path, is_held, table_path};
