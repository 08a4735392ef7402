//! Rounds: the sessions of a script, round by round, in threads or on one thread by a schedule, over the steps of any single owner.
//!
//! Session n acts on seat n. What one session did between two calls of another is others' entries to that one, so each stays on its way
//! whatever the schedule names (`Turned`, specs/Turns) and however threads take turns (`SeatsTold`, specs/inner/Jobs). A round leaves
//! `HasRound` (specs/Rounds): each session is answered between the round's two places of the trail. The replies of a round are written at
//! its end, in order of session.
#![tactic(auto)]

mod count;
mod course;
mod desks;
mod gate;
mod job;
mod one;
mod rounds;
mod schedule;
mod seats;
mod threads;
mod turns;

pub use desks::Told;
pub use gate::{Gate, NoGate};
pub use one::in_turns;
pub use rounds::{Rounds, run_rounds, write_round};
pub use threads::in_threads;
pub use turns::run_turns;
