// Why nothing is added to the catalogue.
ghost use Rattle.std.specs.Prelude.{◌≡◌};
ghost use Rattle.px_catalog.specs.declared.fault.CatalogFault.TheVariants.{Memory};
ghost use Rattle.px_catalog.specs.inner.Faults.{of_append};

use px_gatelog::AppendFault;
use std::alloc::AllocError;

/// Why nothing is added to the catalogue.
#[derive(Clone, Copy, Debug, PartialEq, Eq)]
pub enum CatalogFault {
    /// The segment has no room for it, or the next one is laid out, or no generation is left.
    Full,
    /// The disk failed in a write or a sync.
    WriteFault,
    Memory,
}

impl From<AppendFault> for CatalogFault {
    ghost from_gives = { λ fault own. own ≡ of_append fault };

    fn from(fault: AppendFault) -> CatalogFault {
        match fault {
            AppendFault::Full => CatalogFault::Full,
            AppendFault::WriteFault => CatalogFault::WriteFault,
        }
    }
}

impl From<AllocError> for CatalogFault {
    ghost from_gives = { λ _ fault. fault ≡ Memory };

    fn from(_fault: AllocError) -> CatalogFault {
        CatalogFault::Memory
    }
}
