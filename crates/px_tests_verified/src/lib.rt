//! Tests of the command `verify` over px_program's one call, on disks in memory: its words, what each kind prints, what it finds after a stop,
//! of an index that was damaged, that is disabled and of one that is built while rows are written, and each call of the disk failing.
#![tactic(auto)]

#[cfg(test)]
mod damage;
#[cfg(test)]
mod faults;
#[cfg(test)]
mod kinds;
#[cfg(test)]
mod orders;
#[cfg(test)]
mod words;
