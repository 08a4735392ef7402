//! Tests of px_removals over its public calls: rows found once and twice, parts of 1,000, rows that aren't of the table.
#![tactic(auto)]

#[cfg(test)]
mod parts;
