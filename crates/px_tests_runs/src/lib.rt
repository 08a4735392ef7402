//! What tests of whole runs share: scripts that are run on a server over a disk in memory by a list of whose step is next, rows with their dates
//! as a trail tells them, and whether answers, and the cells of a folder, tell these rows.
//!
//! The dated rows are a plain list (model), and cells are read one by one (plain), so that neither uses what it judges.
#![tactic(auto)]

pub mod answers;
pub mod copies;
pub mod dice;
pub mod doubts;
pub mod model;
pub mod plain;
pub mod queries;
pub mod runs;
pub mod scripts;
