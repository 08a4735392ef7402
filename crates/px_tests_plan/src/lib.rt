//! Tests of px_plan over its public calls: queries and what EXPLAIN prints of each, worked out by hand, and conditions by
//! which every path selects the same rows.
#![tactic(auto)]

#[cfg(test)]
mod explained;
#[cfg(test)]
mod generated;
