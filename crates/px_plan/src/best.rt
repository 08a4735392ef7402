// The best path.
ghost use Rattle.std.specs.Prelude.{◌≡◌, IfOk};
ghost use Rattle.std.specs.Option.{option_copied};
ghost use Rattle.px_plan.specs.Choice.{IsBest, candidates, rank_of};

use crate::hints::is_usable;
use crate::naming::holds_all;
use crate::rank::{is_better, rank_by};
use px_expr::Bound;
use px_tables::{Found, Index, KeyPlace};
use std::alloc::{AllocError, Global};

/// The first candidate than which none is better: the table, or a usable index that holds the columns.
pub(crate) fn best<'a>(
    alloc: Global,
    found: &'a Found,
    point: Option<u64>,
    columns: &[u8],
    conjuncts: &[Bound],
    order: &[KeyPlace],
) -> Result<Option<&'a Index>, AllocError>
    ensures { IfOk result (λ by. IsBest (rank_of found.now.table conjuncts.now order.now) (candidates found.now.table point columns.now found.now.indexes) (option_copied by)) }
{
    let mut best = None;
    let mut best_rank = rank_by(alloc, &found.table, None, conjuncts, order)?;
    let indexes = found.indexes.as_slice();
    for index in indexes {
        if !is_usable(point, index) || !holds_all(&found.table, index, columns) {
            continue;
        }
        let other = rank_by(alloc, &found.table, Some(index), conjuncts, order)?;
        if is_better(other, best_rank) {
            best = Some(index);
            best_rank = other;
        }
    }
    Ok(best)
}
