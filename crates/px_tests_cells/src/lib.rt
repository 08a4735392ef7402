//! Tests of px_cells, px_memstore, px_merge and px_cellbytes over their public calls, in a crate of their own, so that these are
//! not proved a second time for them.
#![tactic(auto)]

#[cfg(test)]
mod cellbytes;
#[cfg(test)]
mod cells;
#[cfg(test)]
mod lines;
#[cfg(test)]
mod memstore;
#[cfg(test)]
mod merge;
