//! What bytes tell of cells, as a function of them.
//!
//! Reading a file of cells is told by relations: its bytes are these blocks, or have a first wrong place. Here stands the list that they tell
//! whatever they are, so that a value that no memory holds has a name: `file_told` has the cells of a file by the index that an open file keeps.
//! `laws` says that what is spelled is told. Definitions and laws, no code.
#![tactic(auto)]

pub mod laws;
