//! Tests of px_trail over its public calls.
//! `entries` adds entries of every kind to a trail, and asks for their order, their counted bytes and the room left;
//! the laws are named once, at their types.
#![tactic(auto)]

#[cfg(test)]
mod entries;
