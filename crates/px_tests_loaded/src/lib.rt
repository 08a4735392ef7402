//! Tests of the command `load` over px_program's one call, on disks in memory: its words, what it tells of a load and of one that is refused,
//! each call of the disk failing, and an output that fails.
#![tactic(auto)]

#[cfg(test)]
mod faults;
#[cfg(test)]
mod words;
