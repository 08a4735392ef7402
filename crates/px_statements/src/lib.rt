//! Reads statements from tokens.
//!
//! `read_tokens` gives s exactly where the grammar of px_ast reads the tokens as s with at most 64 parentheses and NOTs open at
//! once. Else it gives the first token with which no statement goes on, or says that they are a statement that nests deeper. Each
//! rule of the grammar has one function, proved to be the rule's reading (proofs/Laws says what readings are worth). A statement
//! that nests too deep is read again by `skim`, which keeps a number in place of a tree.
#![tactic(auto)]

mod fault;
mod skim;
mod statements;
mod whole;

pub use fault::TokenFault;
pub use whole::read_tokens;
