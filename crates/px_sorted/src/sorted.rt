// Rows in the order of an ORDER BY, up to a LIMIT.
ghost use Rattle.std.specs.Prelude.{◌≡◌, OnErr, OnOk, get_or};
ghost use Rattle.px_plan.specs.Answers.{by_order, cut_off};
ghost use Rattle.px_sorted.specs.Sorting.{sorted_by};
ghost use Rattle.px_values.specs.Compare.{compare_of};
ghost use Rattle.px_values.specs.declared.row.Value.TheVariants.{Null};

use px_scan::Placed;
use px_tables::KeyPlace;
use px_values::{Value, compare};
use std::alloc::AllocError;
use std::cmp::Ordering;

/// The order of two rows by one column.
fn order_in(place: &KeyPlace, a: &[Value], b: &[Value]) -> Ordering
    ensures { result ≡ compare_of place.now.direction (get_or a.now place.now.column Null) (get_or b.now place.now.column Null) }
{
    let null = Value::Null;
    let column = place.column as usize;
    let order = compare(
        a.get(column).unwrap_or(&null),
        b.get(column).unwrap_or(&null),
        place.direction,
    );
    drop(null);
    order
}

/// The order of two rows by an ORDER BY: that of its first column in which they differ.
fn order_of(order: &[KeyPlace], a: &[Value], b: &[Value]) -> Ordering
    ensures { result ≡ by_order order.now a.now b.now }
{
    for place in order {
        let found = order_in(place, a, b);
        if found != Ordering::Equal {
            return found;
        }
    }
    Ordering::Equal
}

/// Sorts rows by an ORDER BY. Those that it doesn't tell apart stay in their order. Where memory is wanting, all rows stay in
/// theirs.
pub fn sort(rows: &mut Vec<Placed>, order: &[KeyPlace]) -> Result<(), AllocError>
    ensures ok { OnOk result (rows.new.items ≡ sorted_by order.now rows.old.items) }
    ensures err { OnErr result (rows.new.items ≡ rows.old.items) }
{
    rows.sort_by(|a, b| order_of(order, a.row.as_slice(), b.row.as_slice()))
}

/// Cuts rows at a LIMIT.
pub fn cut(rows: &mut Vec<Placed>, limit: Option<u64>)
    ensures { rows.new.items ≡ cut_off limit rows.old.items }
{
    if let Some(limit) = limit {
        rows.truncate(limit as usize);
    }
}
