//! What is read of a table for a query: the next rows of its own path, the next keys of an index, and the row of a doubted key.
//!
//! `look_rows` and `look_keys` give what `look` promises of a table's path and of an index's, and `consult` what it promises of a doubt.
//! Each reads the regions of the group as they are now, and changes nothing that is read of them (`HasLooked`). What it shows of rows holds
//! where the opened folder was sound. `law_looked` says what looking leaves true, and `law_in_flight` which changes are still to be written.
#![tactic(auto)]

mod consulting;
mod doubted;
mod due;
mod laws;
mod look;

pub use consulting::{Consulted, consult, version_of_doubt};
pub use doubted::{Doubted, row_of_doubt};
pub use due::due_of;
pub use laws::{law_in_flight, law_looked};
pub use look::{look_keys, look_rows};
