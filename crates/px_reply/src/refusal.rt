// Why a statement was refused.
ghost use Rattle.std.specs.Prelude.{◌≡◌};
ghost use Rattle.px_reply.specs.Refusals as spec;

use px_values::{Limit, Name};

/// Why a statement or a session command was refused. A place counts bytes from its first one.
#[derive(Drop)]
pub enum Refusal {
    /// At this byte nothing goes on; or the script isn't UTF-8 from this byte on, counted from the script's first.
    Syntax { place: u64 },
    /// What stands there is left out of the language, or a column outside the key is NOT NULL.
    LeftOut { name: &'static str },
    /// It has a form that isn't built yet.
    Form,
    /// The hinted index lacks a column that the query names.
    IndexJoin,
    /// A table or an index has the name.
    NameExists(Name),
    /// The table has no column of this name.
    NoColumn(Name),
    /// No table has the name.
    NoTable(Name),
    /// The literal or operand there isn't of the other side's class; or it is the word VALUES, and the number of
    /// values isn't that of the columns.
    Mismatch { place: u64 },
    /// The literal there is outside its type, too long, or holds U+0000; or it is a split point that isn't above the one before.
    OutOfRange { place: u64 },
    /// The key column of this name may not be NULL, and is; or no column has a primary key, and this is the first.
    NullKey(Name),
    /// The table has no index of this name.
    NoIndex(Name),
    /// The column of this name is named twice, or begins a second primary key.
    Twice(Name),
    /// The counted quantity would pass its number.
    Limit(Limit),
    /// The session's SCN minus one is below the table's horizon.
    BelowHorizon { horizon: u64 },
    /// It would change something while an SCN is set.
    UnderScn,
    /// The disk failed in a read.
    ReadFault,
    /// The disk failed in a write, a cut or a sync. The session ends.
    WriteFault,
    /// This device call failed before, and closed the server. The session ends.
    Closed { call: u64 },
    /// The bytes at this place of the file aren't of the format.
    Damaged { file: u64, place: u64 },
    Memory,
}

/// What a refusal comes from.
#[derive(Clone, Copy, Debug, PartialEq, Eq)]
pub enum Cause {
    /// The statement, the definitions and the rows: a reply with E.
    Statement,
    /// The device, and the session may go on.
    Device,
    /// The device, and the session ends.
    Closing,
    /// The memory.
    Memory,
}

impl Refusal {
    /// What it comes from.
    pub fn cause(&self) -> Cause
        ensures { result ≡ spec.cause_of self.now }
    {
        match self {
            Refusal::ReadFault | Refusal::Damaged { .. } => Cause::Device,
            Refusal::WriteFault | Refusal::Closed { .. } => Cause::Closing,
            Refusal::Memory => Cause::Memory,
            _ => Cause::Statement,
        }
    }
}
