//! Tests of px_catalog over its public calls: the bytes of the fresh catalogue, stops at each call of the disk and inside
//! each write, folders that aren't of the format, and a catalogue that is being renewed.
#![tactic(auto)]

#[cfg(test)]
mod damage;
#[cfg(test)]
mod fresh;
mod pieces;
#[cfg(test)]
mod stops;

pub use pieces::{add, table_body};
