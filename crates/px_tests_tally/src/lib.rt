//! Tests of px_turn and px_tally over the public calls of px_tally.
//! Two threads, and eight, take turns under one lock and leave a mark in each;
//! the programs end, and all marks are there.
#![tactic(auto)]

#[cfg(test)]
mod marks;
