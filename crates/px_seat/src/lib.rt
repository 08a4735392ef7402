//! A seat of the turn lock as steps.
//!
//! Threads share steps that have one owner (`Owned`) under the turn lock. Each call of `SeatAt` is one turn: it enters, lets its seat act,
//! makes the call, notes what it has then seen, and leaves. So it is the trait `Steps` whole, and its clauses say nothing of the lock: what others
//! did comes first, and then what the call did. What the owner's calls say of its trail is what the seat's say (proofs/Grows, proofs/Shares).
#![tactic(auto)]

mod owned;
mod seat_at;

pub use owned::{Based, Owned, Single};
pub use seat_at::{LockNamed, SeatAt};
