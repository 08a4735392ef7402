//! Names, literals and conditions of statements, over the columns of a table.
//!
//! A name becomes the place of its column, a literal its value, and a condition one over places and values. Each check
//! answers the first of all that is wrong: the lists of that stand in specs/Names, specs/Literals and specs/Conditions, and
//! `Finds` (specs/Answers) says in one word how an answer stands to its list, for this crate and those that bind
//! statements with it.
#![tactic(auto)]

pub mod conditions;
pub mod fault;
pub mod laws;
pub mod literals;
pub mod named;
pub mod names;
pub mod places;
