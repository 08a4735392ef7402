//! Reads statements that define tables and indexes: CREATE, DROP and ALTER.
//!
//! Each reader gives what the grammar's rule reads. The columns of a table are read in one loop, whose turns tell a column, the
//! constraint and the end apart. Parts of keys are read here too, since ORDER BY has them as well.
//! No reader calls itself.
#![tactic(auto)]

mod columns;
mod defining;
mod definitions;

pub use columns::keypart_list;
pub use defining::{alter, create, drop_defined};
