//! A table with its regions as code: the region of its rows, a region for each index that is maintained, the batches that have begun, and
//! the points that are open.
//!
//! `Group` is the value that each step of a table takes; it has no call on a disk. `IsRightGroup` is what its code rests on whatever a folder
//! held, `IsTallied` ties it to the trail, and `IsShownBy` to what the steps of a table keep (px_tablesteps).
#![tactic(auto)]

mod group;

pub use group::{Begun, Group, IndexRegion, OpenPoint, Phase};
