//! Threads that take turns under one lock, and leave a mark in each. A small user of the turn lock, proved whole.
//! Each thread has a seat, and its marks are numbered from 0. When all have ended the lock is closed, and the list
//! has all marks of each thread, once and in order, and no others; or memory ran out. `both` runs two threads by
//! `join`, and `all` any number by `for_each_mut`.
#![tactic(auto)]

mod many;
mod tally;
mod turns;
mod two;

pub use many::all;
pub use tally::{Mark, Tally};
pub use two::both;
