//! The range of keys of the rows whose first values are given, and the next one between two edges.
//!
//! A `Leading` says how the values of a row begin, in the order of a path: some are equal to given ones, and the next is
//! in a span. `IsLed` (specs/Led) is that a row begins so. `key_bounds` answers two keys: the keys from the one on and
//! below the other are exactly those of the rows that begin so, whatever the types, the directions and the NULLs of the
//! columns, also where a number lies outside its column's type.
#![tactic(auto)]

mod bounds;
mod cuts;
mod edges;
mod leading;

pub use bounds::key_bounds;
pub use edges::can_bound;
pub use leading::{Edge, KeyBounds, Leading, Span};
