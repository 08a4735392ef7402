// Whether a compaction keeps of what is in memory what its horizon does.
ghost use Rattle.std.specs.Prelude.{◌≡◌, IsTrue, Ok, true};
ghost use Rattle.px_cells.specs.Order.{IsAscending};
ghost use Rattle.px_memstore.specs.Left.{left};
ghost use Rattle.px_merge.specs.Kept.{IsKeptList};

use px_cells::{Cell, is_cell_list, visible_in};
use px_memstore::{MemStore, is_left};
use std::alloc::{AllocError, Global};

/// Whether each of some cells is above the horizon, or is kept exactly where it is seen.
fn are_right(cells: &[Cell], kept: &[Cell], seen: &[Cell], horizon: u64) -> bool
    requires kept { IsAscending kept.now }
    requires seen { IsAscending seen.now }
    ensures { IsTrue result → left kept.now horizon cells.now ≡ left seen.now horizon cells.now }
{
    for cell in cells {
        if is_left(kept, cell, horizon) != is_left(seen, cell, horizon) {
            return false;
        }
    }
    true
}

/// Whether of a piece exactly those cells at or below a horizon are kept that it sees. These are copied meanwhile.
fn keeps_piece(
    alloc: Global,
    piece: &[Cell],
    kept: &[Cell],
    horizon: u64,
) -> Result<bool, AllocError>
    requires { IsAscending kept.now }
    ensures { result ≡ Ok true → IsKeptList piece.now horizon (left kept.now horizon piece.now) }
{
    if !is_cell_list(piece) {
        return Ok(false);
    }
    let seen = visible_in(alloc, piece, horizon)?;
    Ok(are_right(piece, kept, seen.as_slice(), horizon))
}

/// The same of all that a store has, piece by piece.
pub(crate) fn keeps_right(
    alloc: Global,
    store: &MemStore,
    kept: &[Cell],
    horizon: u64,
) -> Result<bool, AllocError>
    requires { IsAscending kept.now }
    ensures { result ≡ Ok true → IsKeptList store.now.cells horizon (left kept.now horizon store.now.cells) }
{
    for at in 0..store.piece_count() {
        if !keeps_piece(alloc, store.piece(at), kept, horizon)? {
            return Ok(false);
        }
    }
    Ok(true)
}
