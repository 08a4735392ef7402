//! Tests of px_commands over its public calls: session commands and what each says.
#![tactic(auto)]

#[cfg(test)]
mod commands;
