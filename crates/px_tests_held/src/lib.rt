//! Tests of px_held over its public calls: changes that are merged with those held of their rows, the most rows, and lists
//! that are held whole or not at all.
#![tactic(auto)]

#[cfg(test)]
mod changes;
#[cfg(test)]
mod lists;
#[cfg(test)]
mod pieces;
