//! Reads statements from their text.
//!
//! `parse` gives s exactly where the grammar of px_ast reads the tokens of the text as s. Else it gives the first place where
//! no statement continues, what is left out of the language there, or that more than 64 parentheses and NOTs are open at once
//! in a statement. Its calls nest no deeper than the bound. It reads the tokens a few times at most, from left to right; the
//! names of a CONSTRAINT are sorted once, where NOT NULL columns are looked up among them.
//!
//! The tokens are read by px_statements. Here their faults become those of a text: a fault of the lexer behind them, what is
//! left out of the language, and NOT NULL outside the key.
#![tactic(auto)]

mod left_out;
mod nullness;
mod parsing;
mod syntax;

pub use parsing::parse;
pub use syntax::SyntaxFault;
