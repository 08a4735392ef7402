//! What is read of a table out of its regions.
//!
//! `row_state` gives the row that a point sees, by its cells alone, `look_rows` the next rows of a table in order, 64 at
//! most, with none missing, and `look_keys` the next keys of an index, each sure or in doubt. A region is told by what is
//! read of it (`read_of`), so each promise is about cells, in the words of their forms, and holds wherever the cells lie.
#![tactic(auto)]

mod keys;
mod lent;
mod next;
mod reader;
mod row;
mod rows;
mod stamp;
mod version;

pub use keys::{columns_of, look_keys, value_among};
pub use next::NextKeys;
pub use row::{row_cells, row_state};
pub use rows::look_rows;
pub use stamp::any_of_stamp;
pub use version::{KeyVersion, key_version};
