//! Tables and indexes: their definitions, as statements make them and as the catalogue keeps them.
//!
//! A column is named by its place in the table, counted from 0 in order of definition. `NewTable` and `NewIndex` are what
//! CREATE TABLE and CREATE INDEX say; `Table` and `Index` have the numbers that were drawn for them too. Contracts
//! see each list as a list and each name and key as its bytes. `copied` gives another value that is the same.
//! `definition_of` (specs/Definitions) is the new table that a table was made from, `index_definition_of` the new index.
#![tactic(auto)]

mod found;
mod index;
mod table;

pub use found::Found;
pub use index::{Index, IndexState, NewIndex};
pub use table::{KeyPlace, NewTable, Table, TableColumn, TableRegion};
