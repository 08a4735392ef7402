//! What is true of a table whose horizon has risen, and of one of which a region has forgotten at its horizon: what no point from there on can
//! see is gone.
//!
//! `law_kept` is the cells alone: what a horizon keeps has their shape, and is told place by place. `law_rows` and `law_index` are the table then,
//! with the region of its rows or that of an index: it is right, tallied, and shows the rest of its data, and the folder is told. `law_raised`
//! is what comes before, the entry that its horizon rises. Definitions and laws, no code.
#![tactic(auto)]

mod laws;

pub use laws::{law_index, law_kept, law_raised, law_rows};
