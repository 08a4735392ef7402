//! The words of statements: a cursor over tokens, and the readers of names and literals.
//!
//! A reader gives what a rule of the grammar reads at the front of the tokens, and leaves the cursor behind it. Else it gives
//! why not, and the cursor stands at the token with which nothing goes on. specs/Reading says so in one word, `Gives`, which
//! all readers of the crates above promise too. Tokens are as the lexer gives them (specs/Tokens).
#![tactic(auto)]

pub mod cursor;
pub mod fault;
pub mod literals;
pub mod names;
pub mod texts;
