//! Blocks of cells as bytes.
//!
//! A block is the count of its cells (4 bytes, big-endian) and the cells. None is empty, and each was closed at the first
//! cell with which its cells had 32,768 bytes. `write_block` adds a block's bytes to a buffer, `read_block` reads all of
//! some bytes back as one, and `read_front` the block that begins some bytes, behind the cells before it.
#![tactic(auto)]

pub mod laws;
mod read;
mod write;

pub use read::{Front, has_count, read_block, read_front};
pub use write::{BLOCK_SIZE, write_block};
