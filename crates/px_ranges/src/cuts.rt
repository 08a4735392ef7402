// Where the keys of a span begin and end.
ghost use Rattle.std.specs.Prelude.{◌≡◌};
ghost use Rattle.std.specs.Option.{option_copied};
ghost use Rattle.px_ranges.specs.inner.Cuts.{cut_end, cut_of, start_of};
ghost use Rattle.px_values.specs.declared.row.Value.TheVariants.{Null};

use crate::Edge;
use px_keys::KeyColumn;
use px_values::{Direction, Value};

/// A place among the keys that begin with some leading values: before or behind those with this next value, or before
/// or behind them all.
#[derive(Clone, Copy)]
pub(crate) struct Beside<'a> {
    pub(crate) next: Option<&'a Value>,
    pub(crate) behind: bool,
}

/// Where the keys of a span begin. `null` is NULL.
pub(crate) fn start<'a>(
    column: KeyColumn,
    lower: Option<&'a Edge>,
    upper: Option<&'a Edge>,
    null: &'a Value,
) -> Beside<'a>
    requires { null.now ≡ Null }
    ensures { cut_of result ≡ start_of column.direction column.may_be_null (option_copied lower.entry) (option_copied upper.entry) }
{
    match (column.direction, lower, upper) {
        (Direction::Ascending, Some(edge), _) | (Direction::Descending, _, Some(edge)) => Beside {
            next: Some(&edge.value),
            behind: !edge.included,
        },
        (Direction::Ascending, None, _) if column.may_be_null => Beside {
            next: Some(null),
            behind: true,
        },
        _ => Beside {
            next: None,
            behind: false,
        },
    }
}

/// Where they end.
pub(crate) fn end<'a>(
    column: KeyColumn,
    lower: Option<&'a Edge>,
    upper: Option<&'a Edge>,
    null: &'a Value,
) -> Beside<'a>
    requires { null.now ≡ Null }
    ensures { cut_of result ≡ cut_end column.direction column.may_be_null (option_copied lower.entry) (option_copied upper.entry) }
{
    match (column.direction, lower, upper) {
        (Direction::Ascending, _, Some(edge)) | (Direction::Descending, Some(edge), _) => Beside {
            next: Some(&edge.value),
            behind: edge.included,
        },
        (Direction::Descending, None, _) if column.may_be_null => Beside {
            next: Some(null),
            behind: false,
        },
        _ => Beside {
            next: None,
            behind: true,
        },
    }
}
