//! Rows as cells: what a change of a row writes, and what the visible cells of a row spell at each point.
//!
//! A row has an empty column and a cell for each column that isn't NULL, at the key of its primary key values. `row_form`
//! (specs/Spelled) is that form of a table's rows, and `law_rows` says that it keeps what a data region asks (specs/Data):
//! keys differ, a point sees the cells up to it, a change spells the row after it, and a compaction spells the same.
#![tactic(auto)]

mod cells;
mod fault;
mod key;
mod laws;
mod reading;
mod stored;

pub use cells::{EMPTY_COLUMN, FIRST_COLUMN, cell, cells_of, column_cell};
pub use fault::RowFault;
pub use key::{column_of, key_of, row_of_key};
pub use laws::law_rows;
pub use reading::{fresh, row_at};
pub use stored::{read_value, stored_value};
