//! Tests of px_rounds over the server of a folder: what becomes of a row and its index where a schedule says which of two sessions is next.
#![tactic(auto)]

#[cfg(test)]
mod builds;
#[cfg(test)]
mod schedules;
