//! The command `verify`: the verification of an index that is named, and what it is answered, over any steps.
//!
//! The table is found by its name, and the index among its indexes. Then px_verifying reports on it, has it built again, or both. The reply
//! has each part that was finished, in order, and why the next one wasn't (specs/Verified).
#![tactic(auto)]

mod asked;
mod telling;
mod verifying;

pub use asked::Verification;
pub use px_verifying::VerifyKind;
pub use verifying::verify;
