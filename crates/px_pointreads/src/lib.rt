//! What is read of a table for a point that is open: the next keys of a path, and the row of a doubt.
//!
//! A point has the definitions of its opening, and what is told of rows is told by them, so they must be those of the group: `point_place`
//! finds the group of a point where its table is the point's and the horizon isn't above it. `look` and `consult` are px_reading's calls at
//! the stamp that the point sees, of an index that stands as it was.
#![tactic(auto)]

mod consulting;
mod looking;
mod places;
mod same;

pub use consulting::consult;
pub use looking::look;
pub use places::{doubt_place, index_place, is_read_at, point_place, reach};
pub use same::{is_same_index, is_same_table};
