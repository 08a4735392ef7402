//! What looks find of a table, in the words of a query's steps.
//!
//! Definitions and laws, no code. `TellsOf` is what the cells of an index tell of the states of rows at a point, and `AreStates`
//! what those states are. `law_rows_shown` and `law_keys_shown` say that what px_looks gives of a table's rows and of an index's keys
//! is what `look` promises, and `law_held` that the row that a key holds is the one that `consult` answers.
#![tactic(auto)]

mod laws;

pub use laws::{law_held, law_keys_shown, law_owners, law_rows_shown, law_spells};
