//! Tests of px_reply over its public calls: replies and transcripts, and the bytes that they print.
#![tactic(auto)]

#[cfg(test)]
mod replies;
#[cfg(test)]
mod transcripts;
