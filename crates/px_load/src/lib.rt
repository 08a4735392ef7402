//! The load: rows that follow from one number, the script that puts them into a table with an index, and what is told of it.
//!
//! `load_text` makes the script, which is then run as any other: a table, an index, so many UPSERTs with a commit behind every hundredth, and
//! all rows by the table and by the index (specs/Script). What its rows are is said by the numbers that are drawn (specs/Rows), and of the
//! replies `print_load` tells how many rows came by each way and what the amounts come to, or the first refusal (specs/Told).
#![tactic(auto)]

mod draws;
mod laws;
mod rows;
mod script;
mod told;

pub use draws::Draws;
pub use laws::law_load;
pub use rows::{LoadRow, next_row};
pub use script::{Load, MOST_ROWS, load_text};
pub use told::print_load;
