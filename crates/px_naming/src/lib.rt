//! A file is named by a region's manifest in place of batches of its log, or of other files.
//!
//! `name_file` appends the snapshot that names a file, which has what is read of the batches up to a number, as the newest.
//! At each moment a stop leaves files that stand for the same list (`ReadsAs`), by the old snapshot or by the new one, and
//! after it log, manifest and files are those that the new one tells. It is the last step of a flush.
#![tactic(auto)]

mod naming;

pub use naming::{merged_after, name_file, name_merged, named_after};
