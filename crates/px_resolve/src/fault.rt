// Why a statement is refused.
use px_values::{Limit, Name};
use std::alloc::{AllocError, AllocFailed};

/// Why a statement is refused. A place counts bytes from the statement's first one.
#[derive(Drop)]
pub enum BindFault {
    /// The table has no index of this name.
    NoIndex(Name),
    /// The table has no column of this name.
    NoColumn(Name),
    /// The column of this name is named twice, or begins a second primary key.
    Twice(Name),
    /// The literal or operand there isn't of the other side's class; or it is the word VALUES, and the number of
    /// values isn't that of the columns.
    Mismatch { place: usize },
    /// The literal there is outside its type, too long, holds U+0000, or is a split point that isn't above the one before
    /// it or that is too long for a key.
    OutOfRange { place: usize },
    /// The key column of this name may not be NULL, and is; or no column has a primary key, and this is the first.
    NullKey(Name),
    /// This limit would be passed.
    Passed(Limit),
    /// No memory was found.
    Memory,
}

impl From<AllocError> for BindFault {
    ghost use Rattle.std.specs.Prelude.{◌≡◌};
    ghost use Rattle.px_resolve.specs.declared.fault.BindFault.TheVariants.{Memory};

    ghost from_gives = { λ _ fault. fault ≡ Memory };

    fn from(_: AllocError) -> BindFault {
        BindFault::Memory
    }
}

impl<T: Drop> From<AllocFailed<T>> for BindFault {
    ghost use Rattle.std.specs.Prelude.{◌≡◌};
    ghost use Rattle.px_resolve.specs.declared.fault.BindFault.TheVariants.{Memory};

    ghost from_gives = { λ _ fault. fault ≡ Memory };

    fn from(_: AllocFailed<T>) -> BindFault {
        BindFault::Memory
    }
}
