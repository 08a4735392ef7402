//! The trail: what the server did, as a list of entries behind a base.
//!
//! An entry says what was made, begun, written, ended, opened, raised or repaired, with the seat that did it and the number
//! of device calls finished before it. `Trail` is that list, with room that is taken before an entry is added. The
//! definitions over any trail (specs/) say what it tells of tables, batches, stamps and points, which trails are legal,
//! and which state a row has at a point: they know dated changes alone, and no cell, log or byte. `law_..` are their laws.
#![tactic(auto)]

mod count;
mod entry;
mod laws;
mod trail;

pub use count::{change_bytes, changes_bytes};
pub use entry::{Act, Entry};
pub use laws::{law_legal, law_order, law_others, law_phases, law_stands, law_states, law_told};
pub use trail::{Trail, TrailFault};
