//! A cursor over the cells of a file within a range of keys.
//!
//! It has one block of the file in memory, and shows the next cell by reference. The blocks that may have cells of the
//! range are found by the index, in logarithmic time, and only these are read, each once. What is left to give is told by
//! `Gives`; while nothing changes the file, it is exactly the part of the file's list, and no block is damaged.
#![tactic(auto)]

mod cursor;
mod part;

pub use cursor::Cursor;
