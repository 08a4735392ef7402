//! A folder as it was read: its catalogue, and each region that the catalogue names, in the order of their numbers.
//!
//! What the folder stands for is a function of what was read (`folder_of`), also where the disk tells nothing; where it tells, the files
//! of the folder stand for this, at each moment and after the call. `law_one_folder`: a folder that the same files stand for is sound
//! where this one is, and a run begins with the same base.
#![tactic(auto)]

mod folder;
mod laws;
mod numbers;

pub use folder::Folder;
pub use laws::law_one_folder;
