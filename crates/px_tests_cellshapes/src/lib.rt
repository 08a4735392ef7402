//! Tests of px_cellshapes over its public calls, in a crate of their own, so that px_cellshapes is not proved a second time for them:
//! right and wrong cells of rows and of an index's keys, one at a time, and right and wrong definitions.
#![tactic(auto)]

#[cfg(test)]
mod tests;
