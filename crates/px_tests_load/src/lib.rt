//! Tests of px_load: the numbers that are drawn, the script that is made of them, and what is told of its run on a server over a disk in memory,
//! beside a plain map that is filled by the same draws.
#![tactic(auto)]

#[cfg(test)]
mod runs;
#[cfg(test)]
mod texts;
