//! Files of cells, written and read by blocks.
//!
//! A file is `PHXFIL01`, blocks of px_block, an index with the place, the length and the first key of each, and a footer
//! with the place of the index, the counts of blocks and cells and the greatest stamp. `FileWriter` makes one, a block at a
//! time. `RegionFile::open` reads one whole, a block at a time, and keeps only index and footer.
#![tactic(auto)]

mod adding;
mod block;
mod compare;
mod fault;
mod index;
pub mod laws;
mod open;
mod reads;
mod region_file;
mod search;
mod tail;
mod walk;
mod writer;

pub use fault::{FileFault, MakeFault};
pub use index::{Index, IndexEntry};
pub use region_file::RegionFile;
pub use writer::FileWriter;
