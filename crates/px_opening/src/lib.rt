//! A folder is opened: its catalogue, and for each table that stands its group.
//!
//! `open` reads all into plain values, so that what a run begins with is a function of what was read (`folder_in`), also where the disk
//! tells nothing. `IsOpenedRight` is what holds of them whatever the folder held, and `law_opened` what it gives: groups that are right and
//! tallied over the base, the base itself, and, where the folder is sound, groups that show it. An index that was building is let go.
#![tactic(auto)]

mod definitions;
mod fault;
mod heights;
mod laws;
mod opened;
mod parts;

pub use fault::OpenFault;
pub use laws::law_opened;
pub use opened::{Opened, open};
