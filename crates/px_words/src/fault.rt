// Why nothing was read.

use std::alloc::{AllocError, AllocFailed};

/// Why a reader of a rule gave nothing.
#[derive(Drop)]
pub enum ReadFault {
    Memory,
    /// More parentheses and NOTs would be open than the bound.
    TooDeep,
    /// Nothing goes on with the token at which the cursor stands.
    Stuck,
}

impl From<AllocError> for ReadFault {
    ghost use Rattle.px_words.specs.declared.fault.ReadFault.TheVariants.{Memory};
    ghost use Rattle.std.specs.Prelude.{◌≡◌};

    ghost from_gives = { λ _ e. e ≡ Memory };

    fn from(_error: AllocError) -> ReadFault {
        ReadFault::Memory
    }
}

impl<T: Drop> From<AllocFailed<T>> for ReadFault {
    ghost use Rattle.px_words.specs.declared.fault.ReadFault.TheVariants.{Memory};
    ghost use Rattle.std.specs.Prelude.{◌≡◌};

    ghost from_gives = { λ _ e. e ≡ Memory };

    fn from(_failed: AllocFailed<T>) -> ReadFault {
        ReadFault::Memory
    }
}
