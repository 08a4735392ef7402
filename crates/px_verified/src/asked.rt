// What a verification is asked of.
ghost use Rattle.std.specs.Prelude.{◌≡◌};
ghost use Rattle.px_verified.specs.Verified.{id_of_index_named};

use px_tables::Index;
use px_values::{IndexId, Name};
use px_verifying::VerifyKind;

/// Which index of which table is verified, by their names as they are stored, and how.
#[derive(Drop)]
pub struct Verification {
    pub table: Name,
    pub index: Name,
    pub kind: VerifyKind,
}

/// The number of the index of this name.
pub(crate) fn index_named(indexes: &[Index], name: &Name) -> Option<IndexId>
    ensures { result ≡ id_of_index_named indexes.now name.now }
{
    for index in indexes {
        if index.name.as_str() == name.as_str() {
            return Some(index.id);
        }
    }
    None
}
