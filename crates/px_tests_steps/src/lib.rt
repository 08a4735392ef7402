//! Tests of px_batch, px_scan, px_verify, px_verifying, px_select and px_deleting over the least server there is: no table stands on it, so all of them are
//! refused.
//!
//! `Bare` makes each call of `Steps` with the answer that an empty catalogue asks for. Its contract is that of the trait, so that the clauses of
//! the calls are shown to be met together, and the drivers are run once at a concrete type.
#![tactic(auto)]

mod bare;
#[cfg(test)]
mod deletes;
#[cfg(test)]
mod refused;
#[cfg(test)]
mod reports;
#[cfg(test)]
mod selects;
#[cfg(test)]
mod verifications;
