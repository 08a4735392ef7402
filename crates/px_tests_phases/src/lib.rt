//! Tests of px_phases and px_keptcells over their public calls, in a crate of their own, so that neither is proved a second time
//! for them.
#![tactic(auto)]

#[cfg(test)]
mod tests;
