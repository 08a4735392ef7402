//! Tests of px_script over its public calls: scripts, and what each session has in each round.
#![tactic(auto)]

#[cfg(test)]
mod scripts;
