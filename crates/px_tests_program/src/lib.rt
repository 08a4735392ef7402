//! Tests of px_program over its one call, on disks in memory: what scripts print, each call of the disk, the input or the output
//! failing, stops at each call, clocks that jump, folders that aren't of the format, sessions in rounds and by schedules, changes
//! that are held, flushes, and compactions.
#![tactic(auto)]

#[cfg(test)]
mod clocks;
#[cfg(test)]
mod compactions;
#[cfg(test)]
mod deletes;
#[cfg(test)]
mod expected;
#[cfg(test)]
mod faults;
#[cfg(test)]
mod first;
#[cfg(test)]
mod flushes;
#[cfg(test)]
mod held;
pub mod runs;
#[cfg(test)]
mod schedules;
#[cfg(test)]
mod scripts;
#[cfg(test)]
mod sessions;
#[cfg(test)]
mod shop;
#[cfg(test)]
mod stops;
#[cfg(test)]
mod tables;
#[cfg(test)]
mod truth;
