//! What stands, by name and by number, in the words of the trail.
//!
//! A server keeps the tables and indexes that stand as a `Standing` (px_schema). `Agrees` ties it to the trail's catalogue: in opening (`opened`) and
//! after each definition (`law_agrees`). `table_place`, `numbered_place`, `found` and `is_free` answer what `find` and `define` ask (`law_found`,
//! `law_counts`); `new_table` and `new_index` are a definition with the numbers that it draws.
#![tactic(auto)]

mod finding;
mod laws;
mod made;
mod names;
mod opening;

pub use finding::found;
pub use laws::{law_agrees, law_counts, law_found};
pub use made::{new_index, new_table};
pub use names::{is_free, numbered_place, table_place};
pub use opening::opened;
