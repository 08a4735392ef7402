// The index of a number.
ghost use Rattle.std.specs.Prelude.{◌≡◌};
ghost use Rattle.std.specs.Option.{option_copied};
ghost use Rattle.px_calls.specs.Requires.{index_among};

use px_tables::Index;
use px_values::IndexId;

/// The index of a number among definitions.
pub fn index_of(indexes: &[Index], index: IndexId) -> Option<&Index>
    ensures { option_copied result ≡ index_among index.0 indexes.now }
{
    match indexes {
        [] => None,
        [first, others @ ..] => {
            if first.id == index {
                return Some(first);
            }
            index_of(others, index)
        }
    }
}
