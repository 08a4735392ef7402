//! Tests of px_world over its public calls.
//! `worked` has lists of events with what a world must answer between them.
//! `walks` steps worlds by random events, and reads each top from the cells too.
#![tactic(auto)]

#[cfg(test)]
mod walks;
#[cfg(test)]
mod worked;
