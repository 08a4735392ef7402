//! Texts of the language and what `px_parse` reads them as, worked out by hand. They stand in a crate of their own, so that
//! px_parse is not proved a second time for them.
#![tactic(auto)]

#[cfg(test)]
mod tests;
