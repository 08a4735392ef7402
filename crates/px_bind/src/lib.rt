//! Binds a statement to the table that it names: a typed request, or the first refusal.
//!
//! In a request, columns are places and literals are values. `faults_of` (specs/Requests) is the list of all that is wrong
//! with a statement, in the order in which it is answered, and `Asks` what a statement asks for; `bind` answers the
//! head of that list, or the request. Hints stay names: which can be followed is known when a path is chosen.
#![tactic(auto)]

mod binding;
mod hints;
mod queries;
mod request;
mod upserts;

pub use binding::bind;
pub use px_resolve::fault::BindFault;
pub use request::{Hint, Query, Request};
