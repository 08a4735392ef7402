//! Reads conditions: what stands behind WHERE.
//!
//! `predicate` and `disjunction` give what the grammar's rules of those names read, by descent. Each is told how many more
//! parentheses and NOTs may be open at once, and its calls nest no deeper than that. One part alone takes no list of its own.
//! A condition whose nesting passes the bound gives `TooDeep`.
#![tactic(auto)]

mod conditions;
mod predicates;

pub use conditions::disjunction;
pub use predicates::predicate;
