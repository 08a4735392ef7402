//! Tests of px_schema over its public calls: bytes worked out by hand, a table with every type, and every change of one
//! byte of it; and how much a catalogue has room for.
#![tactic(auto)]

mod again;
#[cfg(test)]
mod room;
#[cfg(test)]
mod tests;

pub use again::rewritten;
