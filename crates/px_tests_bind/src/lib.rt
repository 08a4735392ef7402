//! Tests of px_bind over its public calls: statements and what each asks for, or its refusal.
#![tactic(auto)]

#[cfg(test)]
mod printed;
#[cfg(test)]
mod statements;
