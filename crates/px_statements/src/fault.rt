// Why tokens are no statement.

/// Why tokens are no statement.
#[derive(Drop)]
pub enum TokenFault {
    Memory,
    /// At this token, counted from 0, or at the end, no statement continues.
    Unexpected(usize),
    /// They are a statement in which more parentheses and NOTs are open at once than may be.
    TooDeep,
}
