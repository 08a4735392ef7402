//! Tests of px_tables over its public calls: copies, and what a table and an index were made from.
#![tactic(auto)]

#[cfg(test)]
mod copies;
