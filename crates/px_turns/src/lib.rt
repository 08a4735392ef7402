//! The turns of one table: its last stamp and its horizon, the rows that are still to be written, the batches that have
//! begun, and the points that are open. They are plain values: no log, no cell and no clock.
//! `Turns::may_write` says whether rows may be written in the order of stamps, `raise_to` how far a major compaction may raise
//! the horizon, `undecided_to` which batch keeps a point from being read, and `next_stamp` which stamp is drawn.
//! Each call takes the time of a look-up for each of its rows; none goes through what is pending.
#![tactic(auto)]

mod batches;
mod parts;
mod pending;
mod points;
mod stamp;
mod turns;

pub use parts::Turns;
pub use stamp::{greatest_of, next_stamp};
pub use turns::Blocker;
