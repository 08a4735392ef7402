//! What an entry that comes without a call on the disk does to a table's group: one of another table, a repair, a failed call, and a point that
//! is opened or closed.
//!
//! `law_others`: an entry of another table leaves all that the trail tells of a group and all that the group shows. `open_point` and `close_point`
//! keep the open points, and `law_points` says that they stay those of the trail. `uses` counts what is open.
#![tactic(auto)]

mod laws;
mod points;

pub use laws::{law_others, law_points};
pub use points::{close_point, open_point, reserve_point, uses};
