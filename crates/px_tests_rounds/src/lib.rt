//! Tests of px_rounds over the least server there is: no table stands on it, so each statement on a table is refused.
//!
//! Two rounds of three sessions are run by schedules that name sessions that are over, and some that aren't there, and with a sink that
//! fails. Another sink tells that the replies of a round were written before the next began. `Bare` makes each call of `Steps` with the
//! answer that an empty catalogue asks for, for the seat that acts: so the clauses of the calls are shown to be met together, and the rounds
//! are run once at a concrete type.
#![tactic(auto)]

mod bare;
#[cfg(test)]
mod ends;
#[cfg(test)]
mod runs;
