//! The shape of a table's cells: what is tested once when a folder is opened, and is kept by every step.
//!
//! `is_right_table` and `is_right_index` test definitions, `are_right_rows` and `are_right_keys` the cells of rows and of index keys,
//! cell by cell: each stands at a key that is one, has a kind that may stand there, and puts a value of its column's type. The laws
//! say what that gives those who read and write the cells, that steps keep it, and that all cells that are written have it.
#![tactic(auto)]

mod definitions;
mod index_cells;
mod keys;
mod laws;
mod row_cells;
mod values;

pub use definitions::{is_right_index, is_right_table};
pub use index_cells::are_right_keys;
pub use laws::{
    law_keys_read, law_keys_stay, law_keys_written, law_paths, law_rows_read, law_rows_stay,
    law_rows_written,
};
pub use row_cells::are_right_rows;
