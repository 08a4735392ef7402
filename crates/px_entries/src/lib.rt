//! What makers of an index's entries share: a row's key on a path, and the index of a number.
//!
//! An index is built, and reported on, out of rows that looks find. Both make a key of each row's values on the index's path: `key_on` is that of
//! px_paths, if a key can have these values. Both find the index among the definitions that a point shows by its number: `index_of`, which is
//! `index_among` of px_calls.
#![tactic(auto)]

mod finding;
mod parts;

pub use finding::index_of;
pub use parts::key_on;
