//! CREATE TABLE and statements on indexes, bound to what stands.
//!
//! `bind_table` gives the new table that a CREATE TABLE asks for, `bind_index` the new index of a CREATE INDEX, and
//! `bind_index_name` the number of an index that DROP INDEX or ALTER INDEX names; or each answers the first of all that is
//! wrong. specs/Tables and specs/Indexes have those lists, and the tables and indexes that are made.
#![tactic(auto)]

mod first_key;
pub mod indexes;
mod limits;
mod splits;
pub mod tables;
