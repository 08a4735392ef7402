// The first cell of several sources.
ghost use Rattle.std.specs.Prelude.{List};
ghost use Rattle.px_cells.specs.CellData.{CellData};
ghost use Rattle.px_cells.specs.Order.{IsAscending};
ghost use Rattle.px_merge.specs.Merged.{AreSorted, joined};
ghost use Rattle.px_merge.specs.Settle.{settle};
ghost use Rattle.px_merge.specs.Taking.{IsHead, merge};
ghost use Rattle.px_sources.specs.Sources.{AllBegin};

use crate::Source;
use px_cells::{Cell, cell_order};
use std::cmp::Ordering;

/// The lesser of two heads, and the first where they are equal.
fn lesser<'s>(first: Option<&'s Cell>, second: Option<&'s Cell>) -> Option<&'s Cell>
    ensures { (xs ys : List CellData) → IsAscending xs → IsAscending ys → IsHead first.entry xs → IsHead second.entry ys → IsHead result (merge xs ys) }
{
    match (first, second) {
        (_, None) => first,
        (None, Some(_)) => second,
        (Some(a), Some(b)) => match cell_order(a, b) {
            Ordering::Less => first,
            Ordering::Equal => first,
            Ordering::Greater => second,
        },
    }
}

/// The first cell of what the sources have together. It compares as often as there are sources.
pub(crate) fn least<'s, 'a>(sources: &'s [Source<'a>]) -> Option<&'s Cell>
    ensures { (lists : List (List CellData)) → AllBegin sources.now lists → AreSorted lists → IsHead result (settle (joined lists)) }
{
    match sources {
        [] => None,
        [first, rest @ ..] => lesser(first.head(), least(rest)),
    }
}
