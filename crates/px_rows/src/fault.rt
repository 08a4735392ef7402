// Why a row has no cells or key.
ghost use Rattle.std.specs.Prelude.{◌≡◌};

use std::alloc::AllocError;

/// Why a row has no cells, or a key no row.
#[derive(Clone, Copy)]
pub enum RowFault {
    /// The key would have more than 1,024 bytes.
    KeyTooLong,
    /// The bytes are no key of a row of the table: `place` is the first byte where no such key continues.
    NotARow { place: u64 },
    Memory,
}

impl From<AllocError> for RowFault {
    ghost use Rattle.px_rows.specs.declared.fault.RowFault.{RowFault};

    ghost from_gives = { λ e f. f ≡ RowFault.Memory };

    fn from(error: AllocError) -> RowFault {
        RowFault::Memory
    }
}
