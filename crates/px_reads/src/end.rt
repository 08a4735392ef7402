// Where a range ends.
ghost use Rattle.std.specs.Prelude.{◌≡◌, ◌<◌, false, length, option_map, vec_items, IfOk};
ghost use Rattle.std.specs.Option.{option_copied};
ghost use Rattle.px_reads.specs.inner.Ends.{EndsBehind, lesser_end};
ghost use Rattle.px_reads.specs.Range.{next_key};

use px_cells::key_order;
use px_memstore::FirstRows;
use std::alloc::{AllocError, Global};

/// The first key behind one.
pub(crate) fn key_behind(alloc: Global, key: &[u8]) -> Result<Vec<u8>, AllocError>
    ensures { IfOk result (λ behind. behind.items ≡ next_key key.now) }
{
    let mut behind = Vec::new(alloc);
    behind.extend_from_slice(key)?;
    behind.push(0)?;
    Ok(behind)
}

/// Where first rows end that aren't all: behind their last key.
pub(crate) fn end_of(alloc: Global, rows: FirstRows<'_>) -> Result<Option<Vec<u8>>, AllocError>
    requires { rows.is_all ≡ false → 0 < length rows.cells.now }
    ensures { IfOk result (λ end. EndsBehind rows.entry.cells.now rows.entry.is_all (option_map vec_items end)) }
{
    if rows.is_all {
        return Ok(None);
    }
    match rows.cells.last() {
        None => Ok(None),
        Some(cell) => Ok(Some(key_behind(alloc, cell.key())?)),
    }
}

/// The bytes of an end.
pub(crate) fn bytes_of(end: &Option<Vec<u8>>) -> Option<&[u8]>
    ensures { option_copied result ≡ option_map vec_items end.now }
{
    match end {
        None => None,
        Some(end) => Some(end.as_slice()),
    }
}

/// The lesser of two ends. None is behind all keys.
pub(crate) fn lesser<'a>(a: Option<&'a [u8]>, b: Option<&'a [u8]>) -> Option<&'a [u8]>
    ensures { option_copied result ≡ lesser_end (option_copied a.entry) (option_copied b.entry) }
{
    match (a, b) {
        (_, None) => a,
        (None, Some(_)) => b,
        (Some(x), Some(y)) => { if key_order(x, y).is_lt() { a } else { b } }
    }
}
