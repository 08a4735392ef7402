//! Tests of px_verify over its public calls: entries and versions that agree in each way, at the ends of both lists and between.
#![tactic(auto)]

#[cfg(test)]
mod lists;
