//! Index rows as cells: what marks, closes, builds and repairs write into the region of an index.
//!
//! The key of an index row is the indexed values and then the row's primary key, so no two rows have one. `index_form`
//! (specs/Form) is that form of a table's index, with the bytes of included values. `marks_of` and `closes_of` (specs/Lists)
//! are the cells of a change as lists, and `law_index` says that what each row sees of them is the event's cells (px_world).
#![tactic(auto)]

mod cells;
mod doubt;
mod keys;
mod laws;

pub use cells::{UNVERIFIED, VERIFIED, base, closes, fix, marks, version_at};
pub use doubt::{ChangeFate, Repair, Told, Version, verdict};
pub use keys::index_key;
pub use laws::{law_batches, law_index};
