//! What is read of two stores in memory and of files on the disk, as one list of which the later written hides the rest.
//!
//! `Parts` lends them. `row` gives the cells of one row, and `first_rows` those of the next rows of a range, copied. Of a file only the blocks are
//! read that may have cells of the range, and for one row none where its filter hasn't the key. What is given is sorted and within the range whatever
//! the disk gives; where the disk tells, it is exactly what the list of all has there, and no file is damaged.
#![tactic(auto)]

mod copies;
mod end;
mod fault;
mod file;
mod found;
mod gather;
mod order;
mod parts;
mod sources;

pub use file::ReadFile;
pub use found::FoundRows;
pub use parts::Parts;
