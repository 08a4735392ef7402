// The room that a batch takes in the regions.
ghost use Rattle.std.specs.Prelude.{◌≡◌, ◌↔◌, IfOk, IsTrue, Some, None, length, min};
ghost use Rattle.std.specs.List.{All};
ghost use Rattle.px_cellbytes.specs.Spelling.{all_bytes};
ghost use Rattle.px_keptcells.specs.Kept.{laid};
ghost use Rattle.px_beginning.specs.Rooms.{AreRoomsFor, HasFew, HasRoomFor, IsLightRoom, PassesIn};
ghost use Rattle.px_values.specs.declared.limit.Limit.{Limit as Bound};

use px_keptcells::KeptCells;
use px_values::Limit;
use std::alloc::{AllocError, Global};
use std::collections::VecDeque;

/// Room for cells in a region: how many they are, and how many bytes they have in its log.
#[derive(Clone, Copy)]
pub struct Room {
    pub cells: u64,
    pub bytes: u64,
}

/// The most cells of a batch in one region, and the most bytes of them.
const MOST_CELLS: u64 = 8_192;

const MOST_BYTES: u64 = 8_388_608;

/// The room that cells take. It stands still at its type's end.
pub(crate) fn room_of(kept: &KeptCells) -> Room
    ensures cells { result.cells ≡ min (length (laid kept.now)) 18446744073709551615 }
    ensures bytes { result.bytes ≡ min (length (all_bytes (laid kept.now))) 18446744073709551615 }
{
    Room {
        cells: kept.count() as u64,
        bytes: kept.bytes(),
    }
}

/// The room that the cells of two phases take.
fn room_of_both(marks: &KeptCells, closes: &KeptCells) -> Room
    ensures { HasRoomFor result marks.now closes.now }
{
    let first = room_of(marks);
    let second = room_of(closes);
    Room {
        cells: first.cells.saturating_add(second.cells),
        bytes: first.bytes.saturating_add(second.bytes),
    }
}

/// The room that a batch takes in each index, of both phases.
pub(crate) fn rooms_of(
    alloc: Global,
    marks: &VecDeque<KeptCells>,
    closes: &VecDeque<KeptCells>,
) -> Result<Vec<Room>, AllocError>
    requires { length closes.now.items ≡ length marks.now.items }
    ensures { IfOk result (λ rooms. AreRoomsFor rooms.items marks.now.items closes.now.items) }
{
    let mut rooms = Vec::with_capacity(alloc, marks.len())?;
    for place in 0..marks.len() {
        rooms.push_reserved(room_of_both(&marks[place], &closes[place]));
    }
    Ok(rooms)
}

/// Whether none of the rooms has too many cells.
fn are_few(rooms: &[Room]) -> bool
    ensures { IsTrue result ↔ All HasFew rooms.now }
{
    rooms.iter().all(|room| room.cells <= MOST_CELLS)
}

/// Whether none of them has too many bytes.
fn are_light(rooms: &[Room]) -> bool
    ensures { IsTrue result ↔ All IsLightRoom rooms.now }
{
    rooms.iter().all(|room| room.bytes <= MOST_BYTES)
}

/// The limit that a batch passes which takes this room in the data region and in the indexes.
pub(crate) fn limit_of(rows: Room, indexes: &[Room]) -> Option<Limit>
    ensures cells { result ≡ Some Bound.Cells ↔ PassesIn HasFew rows indexes.now }
    ensures bytes { result ≡ Some Bound.Bytes ↔ ((PassesIn HasFew rows indexes.now → ⊥) × PassesIn IsLightRoom rows indexes.now) }
    ensures of_cells { result ≡ Some Bound.Key → ⊥ }
    ensures none { result ≡ None → (HasFew rows × All HasFew indexes.now) × (IsLightRoom rows × All IsLightRoom indexes.now) }
{
    if rows.cells > MOST_CELLS || !are_few(indexes) {
        return Some(Limit::Cells);
    }
    if rows.bytes > MOST_BYTES || !are_light(indexes) {
        return Some(Limit::Bytes);
    }
    None
}
