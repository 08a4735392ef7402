// Why bytes are no definition.
ghost use Rattle.std.specs.Prelude.{◌≡◌};

use px_pieces::WrongPlace;
use std::alloc::AllocError;

/// Why bytes are no definition or snapshot.
#[derive(Clone, Copy, Debug, PartialEq, Eq)]
pub enum DefFault {
    /// The first place at which none goes on.
    NotADefinition { place: u64 },
    Memory,
}

impl From<WrongPlace> for DefFault {
    ghost use Rattle.px_schema.specs.declared.fault.DefFault.{DefFault};

    ghost from_gives = { λ w d. d ≡ DefFault.NotADefinition w.place };

    fn from(wrong: WrongPlace) -> DefFault {
        DefFault::NotADefinition { place: wrong.place }
    }
}

impl From<AllocError> for DefFault {
    ghost use Rattle.px_schema.specs.declared.fault.DefFault.{DefFault};

    ghost from_gives = { λ e d. d ≡ DefFault.Memory };

    fn from(_: AllocError) -> DefFault {
        DefFault::Memory
    }
}
