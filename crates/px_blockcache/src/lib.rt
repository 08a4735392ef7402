//! Blocks of files that were read lately, so that they aren't read and decoded again.
//!
//! A block is taken out of the cache while it is used, and put back behind that; one that isn't there is read. There are some hundred at most,
//! and where there is no room the one that was put in longest ago goes. While nothing changes the files, what is taken is what the disk tells.
//! One who changes a file empties the cache.
#![tactic(auto)]

mod cache;
pub mod laws;

pub use cache::{BlockCache, CachedBlock};
