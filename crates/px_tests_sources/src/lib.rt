//! Tests of px_making, px_cursor, px_sources and px_files over their public calls.
#![tactic(auto)]

#[cfg(test)]
mod files;
