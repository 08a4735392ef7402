//! Tests of px_flushing over its public calls: a flush and a compaction of several steps with batches between them, the bytes of their files, and a
//! stop at each call of the disk.
#![tactic(auto)]

#[cfg(test)]
mod compactions;
#[cfg(test)]
mod flushes;
#[cfg(test)]
mod forgettings;
#[cfg(test)]
mod pieces;
#[cfg(test)]
mod stops;
