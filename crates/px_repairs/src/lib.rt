//! The repair of a doubted version, over its table's group: whether it is still to be made, its cells, and the one record by which they
//! come into the region of the index.
//!
//! `fix` looks again (`judge`): the version is gone, or its change is under way, or these cells are due of it (`IsRepair`). Then it takes
//! room for them and writes them (`repair`). `law_repairs` says that the table stays right and tallies with the trail, and that what it shows goes on
//! by the event Fix (px_world) of the row that has the key, and by no event of others.
#![tactic(auto)]

mod due;
mod fixing;
mod judging;
mod laws;
mod repairing;

pub use fixing::fix;
pub use judging::{Judged, judge};
pub use laws::law_repairs;
pub use repairing::{RepairFault, repair};
