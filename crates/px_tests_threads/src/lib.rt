//! Tests of sessions in threads, over servers of folders in memory.
//!
//! A gate holds one session between two steps of its batch until the other has been answered: so two sessions run beside each other, and
//! none keeps its turn between two steps.
#![tactic(auto)]

#[cfg(test)]
mod gate;
