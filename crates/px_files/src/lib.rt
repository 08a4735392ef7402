//! The files of a region that its manifest names.
//!
//! `open_files` brings each to the disk and reads it whole, a block at a time, and keeps index and footer. `FilesStand`
//! says which lists of cells the files of an image have, one list at most; `HaveFiles` that the region's open files have
//! them, all of them on the disk. `free_local` finds the number of a new file.
#![tactic(auto)]

mod fault;
pub mod laws;
mod local;
mod open;

pub use fault::fault_of;
pub use local::free_local;
pub use open::open_files;
