// Where hints lead.
ghost use Rattle.std.specs.Prelude.{◌≡◌};
ghost use Rattle.std.specs.Option.{option_copied, option_map};
ghost use Rattle.px_plan.specs.Choice.{followed_hint, hinted as hinted_of, index_named as index_named_of, is_usable as is_usable_of};

use px_bind::Hint;
use px_tables::{Index, IndexState};
use px_values::Name;

/// Whether an index is built, and was born at or below the point.
pub(crate) fn is_usable(point: Option<u64>, index: &Index) -> bool
    ensures { result ≡ is_usable_of point index.now }
{
    let active = match index.state {
        IndexState::Active => true,
        _ => false,
    };
    let born = match point {
        Some(point) => index.birth <= point,
        None => true,
    };
    active && born
}

/// The index of this name.
fn index_named<'a>(indexes: &'a [Index], name: &Name) -> Option<&'a Index>
    ensures { option_copied result ≡ index_named_of indexes.now name.now }
{
    for index in indexes {
        if index.name.as_str() == name.as_str() {
            return Some(index);
        }
    }
    None
}

/// Where a hint leads, if it can be followed.
fn followed<'a>(indexes: &'a [Index], point: Option<u64>, hint: &Hint) -> Option<Option<&'a Index>>
    ensures { option_map option_copied result ≡ followed_hint indexes.now point hint.now }
{
    match hint {
        Hint::NoIndex => Some(None),
        Hint::Index(name) => match index_named(indexes, name) {
            Some(index) if is_usable(point, index) => Some(Some(index)),
            _ => None,
        },
    }
}

/// Where the first hint leads that can be followed.
pub(crate) fn hinted<'a>(
    indexes: &'a [Index],
    point: Option<u64>,
    hints: &[Hint],
) -> Option<Option<&'a Index>>
    ensures { option_map option_copied result ≡ hinted_of indexes.now point hints.now }
{
    for hint in hints {
        if let Some(by) = followed(indexes, point, hint) {
            return Some(by);
        }
    }
    None
}
