//! The log of a region, as numbered batches of cells, and its manifest.
//!
//! `Wal` appends batches, each whole or not at all, with consecutive numbers over both of its segments, and replays them
//! into a memory store; batches up to the flushed number are tested and passed over. `Manifest` names that number, the
//! horizon and the files of a region in one record, of which the last counts. What their files stand for is the same at
//! each moment of a roll, and before or after the record at each moment of an append.
#![tactic(auto)]

mod batch;
mod files;
mod frames;
pub mod laws;
mod manifest;
mod reader;
mod snapshot;
mod snapshot_body;
mod snapshot_reader;
mod wal;

pub use files::local_file;
pub use manifest::Manifest;
pub use snapshot::{FileEntry, Snapshot};
pub use wal::{Replayed, Reread, Wal};
