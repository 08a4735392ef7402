//! A region: one sorted list of cells, over a log and a memory store.
//!
//! Its list is the sorted list of what is read of its batches and files. `promise` takes room, `apply` puts a batch before the list,
//! whole or not at all, and takes no memory. `prepare_step` makes the files of its log and manifest, `upkeep_step` flushes its
//! batches to files of cells, `forget_step` drops what no point from a horizon on can see, and `reopen` reads all of these; what
//! they stand for is told by `Stands`, and that a region goes on from it by `Holds`. A row, or the first rows of a range, are found
//! in logarithmic time and lent, with no copy.
#![tactic(auto)]

mod fault;
mod flush;
mod forget;
mod keeping;
pub mod laws;
mod prepare;
mod reading;
mod region;
mod reopen;
mod stamps;
mod taker;

pub use fault::{JobFault, LookFault, PromiseFault};
pub use forget::ForgetStep;
pub use prepare::JobStep;
pub use px_memstore::FirstRows;
pub use reading::FoundRows;
pub use region::Region;
pub use stamps::LeastStamps;
pub use taker::CellTaker;
