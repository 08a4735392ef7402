// Cells of rows whose keys are one byte.
ghost use Rattle.std.specs.Prelude.{◌≤◌, true};

use px_cells::Cell;
use px_sources::CellTaker;
use std::alloc::AllocError;

/// Adds the bytes of one cell of a row, of the kind of a code, whose value has so many bytes.
pub fn push_cell(
    to: &mut Vec<u8>,
    row: u8,
    stamp: u8,
    kind: u8,
    len: u16,
) -> Result<(), AllocError> {
    to.extend_from_slice(&[0, 1, row, 1, 0, 0, 0, 0, 0, 0, 0, stamp, kind])?;
    to.extend_from_slice(&len.to_be_bytes())?;
    for _ in 0..len {
        to.push(row)?;
    }
    Ok(())
}

/// Keeps a number for each cell: ten times its row, and its stamp.
#[derive(Drop)]
pub struct Seen {
    pub cells: Vec<u64>,
}

impl CellTaker for Seen {
    ghost has_taken = { λ seen cells. 0 ≤ 0 };

    ghost wants = { λ seen cells. true };

    fn take(&mut self, cell: &Cell) -> Result<(), AllocError> {
        let row = match cell.key() {
            [] => 0,
            [row, ..] => u64::from(*row),
        };
        self.cells.push(row * 10 + cell.stamp() % 10)?;
        Ok(())
    }

    fn wants_row(&self) -> bool {
        true
    }
}
