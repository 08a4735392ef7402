//! Whether a change fits its table.
//!
//! A batch asks of its changes that each is of a row of its table: the values of the key are of the key columns' types and not NULL where a
//! column may not be NULL, and it assigns values of their types to columns outside the key, each once. `fits` tests that of
//! a change. Whoever begins a batch tests what it has bound or held; what a statement binds in which nothing is wrong fits.
#![tactic(auto)]

mod fitting;

pub use fitting::fits;
