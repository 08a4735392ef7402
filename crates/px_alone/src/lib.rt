//! What one session alone is answered: a fold over its statements, by what stands in the tables.
//!
//! Where nobody else acts, each statement is answered on the tables as they stand, and each batch is done at once. specs/Alone has the
//! fold, specs/Answers what one statement comes to, specs/Tables what stands. No code stands here.
#![tactic(auto)]

mod laws;

pub use laws::law_alone;
