//! Which keys a list of cells may have, in two bytes a cell.
//!
//! Each key sets two bits. Where one of them isn't set no cell has the key, so that a list of cells on the disk needs no read for a key that it
//! surely hasn't. Of a key that the list hasn't both bits may be set by others: that costs a read. `laws` says that no key is lost.
#![tactic(auto)]

mod filter;
pub mod laws;

pub use filter::KeyFilter;
