//! Tests of covered indexes over px_program's one call, on disks in memory: which queries use them, builds and rebuilds, and what is
//! there after a stop at each call of a build and of a batch.
#![tactic(auto)]

#[cfg(test)]
mod batch_stops;
#[cfg(test)]
mod build_stops;
#[cfg(test)]
mod builds;
#[cfg(test)]
mod chunk_stops;
#[cfg(test)]
mod orders;
#[cfg(test)]
mod queries;
