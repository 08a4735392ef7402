// The doubts that a folder has.
use px_cells::{Cell, CellKind};
use px_opening::{Opened, open};
use px_outside::MemDisk;
use px_region::Region;
use std::alloc::Global;

/// The qualifier of the column that has the status of an index row.
const STATUS: u8 = 1;

fn is_status(cell: &Cell) -> bool {
    cell.qualifier() == STATUS && cell.kind() == CellKind::Put
}

/// Whether a cell hides that status.
fn hides(cell: &Cell, status: &Cell) -> bool {
    cell.key() == status.key()
        && match cell.kind() {
            CellKind::DeleteFamily => cell.stamp() >= status.stamp(),
            CellKind::DeleteFamilyVersion => cell.stamp() == status.stamp(),
            _ => is_status(cell) && cell.stamp() > status.stamp(),
        }
}

/// Whether it is the status of a doubt: not verified, and neither hidden nor older than another.
fn is_doubt(cells: &[Cell], status: &Cell) -> bool {
    is_status(status)
        && status.value() != [1u8].as_slice()
        && !cells.iter().any(|cell| hides(cell, status))
}

/// How many keys of a region are in doubt: all cells of a key are in one piece.
fn doubts_in(region: &Region) -> usize {
    let mut count: usize = 0;
    for at in 0..region.piece_count() {
        let cells = region.piece(at);
        count = count.saturating_add(cells.iter().filter(|cell| is_doubt(cells, cell)).count());
    }
    count
}

fn counted(opened: &Opened) -> usize {
    let mut count: usize = 0;
    for group in opened.groups.as_slice() {
        for index in group.indexes.as_slice() {
            count = count.saturating_add(doubts_in(&index.region));
        }
    }
    count
}

/// How many keys of all indexes are in doubt; none where the folder isn't opened.
pub fn doubts(alloc: Global, disk: &mut MemDisk) -> Option<usize> {
    match open(alloc, disk) {
        Ok(opened) => {
            let count = counted(&opened);
            drop(opened);
            Some(count)
        }
        Err(_) => None,
    }
}
