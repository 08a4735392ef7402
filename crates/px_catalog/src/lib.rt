//! The catalogue of a folder: the tables and indexes that stand, and the next number, in files 0 and 1.
//!
//! It is a log whose every segment begins with a snapshot; each later record is a definition or a drop. `append` adds one,
//! whole or not at all at every moment. `roll_step` makes the next segment, and what stands stays at every moment.
//! `start` opens it: a folder that has none stands for the fresh catalogue, and gets one; a damaged one is told at its
//! first wrong place, and nothing is written over it.
#![tactic(auto)]

mod catalog;
mod fault;
mod frames;
pub mod laws;
mod open;
mod reader;

pub use catalog::Catalog;
pub use fault::CatalogFault;
