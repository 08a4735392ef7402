//! How far the horizon of a table may rise, and that it rises.
//!
//! `raise_to` is the greatest horizon that is allowed: not above what is looked back on, below each batch that has begun, and at most at each
//! open point of the table. `raise` sets it. `law_raises`: the trail may tell of each horizon that is allowed, so that its entry can come
//! before a region forgets at it.
#![tactic(auto)]

mod laws;
mod raising;

pub use laws::law_raises;
pub use raising::{raise, raise_to};
