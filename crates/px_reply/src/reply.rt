// What a statement or a session command is answered.
ghost use Rattle.std.specs.Prelude.{◌≡◌, option_map};
ghost use Rattle.px_reply.specs.Refusals.{refusal_in};

use crate::refusal::Refusal;
use px_calls::Status;
use px_values::{CountWord, Line, Rows};

/// What became of a definition.
#[derive(Clone, Copy, Debug, PartialEq, Eq)]
pub enum Defined {
    TableCreated,
    /// It stood already, and IF NOT EXISTS asked for no more.
    TableKept,
    TableDropped,
    /// It didn't stand, and IF EXISTS asked for no more.
    TableAbsent,
    IndexCreated,
    IndexKept,
    IndexDropped,
    IndexAbsent,
    IndexDisabled,
    IndexRebuilt,
}

/// What a report on an index counts.
#[derive(Clone, Copy, Debug, PartialEq, Eq)]
pub struct Counts {
    /// Rows whose index row stands verified, with their content.
    pub matching: u64,
    pub unverified: u64,
    /// Rows that have no index row.
    pub missing: u64,
    /// Verified index rows of no row.
    pub extra: u64,
    /// Rows whose index row stands verified, with other content.
    pub wrong: u64,
}

/// The parts of a verification that were finished, and why the next one wasn't.
#[derive(Drop)]
pub struct Checked {
    /// The report that came first.
    pub before: Option<Counts>,
    pub rebuilt: bool,
    /// The report behind the rebuilding.
    pub after: Option<Counts>,
    pub refused: Option<Refusal>,
}

/// What a statement or a session command is answered.
#[derive(Drop)]
pub enum Reply {
    /// The rows of a SELECT.
    Rows(Rows),
    /// How many rows, and what became of them.
    Count { rows: u64, word: CountWord },
    Defined(Defined),
    /// The lines of EXPLAIN, each with its line feed.
    Explained(Line),
    /// The SCN of the statements from here on, or that they have none.
    Scn(Option<u64>),
    /// Whether each statement is committed by itself from here on.
    Autocommit(bool),
    Status(Status),
    Flushed,
    Compacted,
    Verified(Checked),
    Refused(Refusal),
}

impl Reply {
    /// Why it is refused; of a verification, why its next part is.
    pub fn refusal(&self) -> Option<&Refusal>
        ensures { option_map (λ r. r.now) result ≡ refusal_in self.now }
    {
        match self {
            Reply::Refused(refusal) => Some(refusal),
            Reply::Verified(checked) => checked.refused.as_ref(),
            _ => None,
        }
    }
}
