//! What a definition does to a table: a table is made with a fresh region, an index is born with one, becomes active, or is dropped.
//! Each step takes no memory besides the room that is reserved before, makes no call on a disk, and leaves the table right.
//! The laws say what each step leaves of what the trail tells of the table and of what the table shows.
//! The region of a new table or index is fresh: that it has nothing on the disk is px_region's.
//! What a definition asks for, and when its entry is written, is the server's.
#![tactic(auto)]

mod defining;
mod laws;

pub use defining::{
    add_index, drop_index, has_pending, index_place, make_active, new_group, replace_index,
    reserve_index,
};
pub use laws::{law_active, law_dropped, law_index, law_once, law_pending, law_table};
