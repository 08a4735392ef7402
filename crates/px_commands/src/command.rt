// Session commands.
use px_values::Name;

/// A session command.
#[derive(Drop)]
pub enum Command {
    /// The SCN of the statements from here on, or that they have none.
    Scn(Option<u64>),
    /// Commits the changes that are held.
    Commit,
    /// Whether each statement is committed by itself from here on.
    Autocommit(bool),
    /// Asks for the status of the table of this name.
    Status(Name),
    Flush,
    Compact,
}

/// Why a line is no session command. A place counts bytes from behind the `!`.
#[derive(Clone, Copy, Debug, PartialEq, Eq)]
pub enum CommandFault {
    /// At this place no command goes on.
    Syntax { place: usize },
    /// The number there is no SCN.
    OutOfRange { place: usize },
    Memory,
}
