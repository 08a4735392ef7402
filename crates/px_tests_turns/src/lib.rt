//! Tests of px_turns over its public calls.
//! Two batches on one row, the horizon under a batch and a point, and the stamps that are drawn,
//! worked by hand.
#![tactic(auto)]

#[cfg(test)]
mod worked;
