// Keeping what a horizon asks for, in place.
ghost use Rattle.std.specs.Prelude.{◌≡◌, ◌≤◌, ◌<◌, ◌+◌, ◌-◌, IfOk, length, take, drop};
ghost use Rattle.px_cells.specs.Order.{IsAscending, IsCellList};
ghost use Rattle.px_cells.specs.Visible.{IsView};
ghost use Rattle.px_merge.specs.Kept.{IsKeptList};
ghost use Rattle.px_forgetting.specs.Rows.{AreApart};

use px_cells::{Cell, Cells, place_after, visible_in};
use px_merge::{is_above, is_next};
use std::alloc::{AllocError, Global};

/// How many cells the first row has.
fn row_len(rest: &[Cell]) -> usize
    requires some { 0 < length rest.now }
    requires sorted { IsAscending rest.now }
    ensures since { 0 < result }
    ensures within { result ≤ length rest.now }
    ensures apart { AreApart (take result rest.now) (drop result rest.now) }
{
    place_after(rest, rest[0].key())
}

/// Moves what is kept of a row, which stands behind a gap, to the front: the cells above the horizon, and those that are seen.
fn keep_seen(part: &mut [Cell], gap: usize, horizon: u64, seen: &[Cell]) -> usize
    requires gap { gap ≤ length part.old }
    requires sorted { IsCellList (drop gap part.old) }
    requires seen { IsView (drop gap part.old) horizon seen.now }
    ensures within { result + gap ≤ length part.new }
    ensures len { length part.new ≡ length part.old }
    ensures kept { IsKeptList (drop gap part.old) horizon (take result part.new) }
{
    let mut kept = 0;
    let mut next = 0;
    for i in gap..part.len() {
        if is_next(seen, next, &part[i]) {
            next += 1;
            part.swap(kept, i);
            kept += 1;
        } else if is_above(&part[i], horizon) {
            part.swap(kept, i);
            kept += 1;
        }
    }
    kept
}

/// The same, of a row alone. What the horizon sees of it is copied meanwhile.
fn keep_row(alloc: Global, part: &mut [Cell], gap: usize, horizon: u64) -> Result<usize, AllocError>
    requires gap { gap ≤ length part.old }
    requires sorted { IsCellList (drop gap part.old) }
    ensures within { IfOk result (λ n. n + gap ≤ length part.new) }
    ensures len { length part.new ≡ length part.old }
    ensures kept { IfOk result (λ n. IsKeptList (drop gap part.old) horizon (take n part.new)) }
{
    let shared = &part[..];
    let seen = visible_in(alloc, &shared[gap..], horizon)?;
    Ok(keep_seen(part, gap, horizon, seen.as_slice()))
}

/// The same, of rows one behind the other.
fn keep_rows(alloc: Global, cells: &mut [Cell], horizon: u64) -> Result<usize, AllocError>
    requires { IsCellList cells.old }
    ensures { IfOk result (λ n. IsKeptList cells.old horizon (take n cells.new)) }
{
    let mut kept = 0;
    let mut at = 0;
    while at < cells.len() {
        let shared = &cells[..];
        let end = at + row_len(&shared[at..]);
        kept += keep_row(alloc, &mut cells[kept..end], at - kept, horizon)?;
        at = end;
    }
    Ok(kept)
}

/// Every cell above the horizon and, at or below it, exactly the puts that are visible at the horizon. The cells are moved, and none of them is
/// copied; what the horizon sees of a row is copied while the row is looked at.
pub fn forget(alloc: Global, cells: Cells, horizon: u64) -> Result<Cells, AllocError>
    requires { IsCellList cells }
    ensures { IfOk result (λ kept. IsKeptList cells horizon kept) }
{
    let mut items = cells.into_vec();
    match keep_rows(alloc, &mut items, horizon) {
        Ok(kept) => {
            items.truncate(kept);
            Ok(Cells::from_vec(items))
        }
        Err(fault) => {
            drop(items);
            Err(fault)
        }
    }
}
