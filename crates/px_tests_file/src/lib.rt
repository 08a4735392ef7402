//! Tests of px_block and px_file over their public calls: a file byte by byte, and each byte of it changed.
#![tactic(auto)]

#[cfg(test)]
mod bytes;
