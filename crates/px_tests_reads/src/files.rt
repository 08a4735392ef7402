// Files of rows whose keys are one byte.
ghost use Rattle.std.specs.Prelude.{IfSome};
ghost use Rattle.px_cellbytes.specs.Reading.{IsWritten};

use px_cellbytes::read_cells;
use px_cells::{CellKind, Cells};
use px_file::RegionFile;
use px_keyfilter::KeyFilter;
use px_making::{MakeStep, Making};
use px_outside::MemDisk;
use px_reads::ReadFile;
use px_tests_storage::push_cell;
use std::alloc::Global;

/// The cells of some rows at a stamp. Four of them with values of 9,000 bytes make a block.
pub(crate) fn cells_of(alloc: Global, rows: &[u8], stamp: u8, len: u16) -> Option<Cells>
    ensures { IfSome result (λ cells. IsWritten cells) }
{
    let mut bytes = Vec::new(alloc);
    for row in rows {
        push_cell(&mut bytes, *row, stamp, CellKind::Put.code(), len).ok()?;
    }
    let count = u32::try_from(rows.len()).ok()?;
    read_cells(alloc, &bytes, count).ok()
}

/// Writes all blocks of a file of cells.
fn write(alloc: Global, disk: &mut MemDisk, making: &mut Making, cells: &Cells) -> Option<()>
    requires { IsWritten cells.now }
{
    for _ in 0..10 {
        match making.step(alloc, disk, cells.as_slice()).ok()? {
            MakeStep::More => {}
            MakeStep::Done => return Some(()),
        }
    }
    None
}

/// Makes a file of cells.
fn make(alloc: Global, disk: &mut MemDisk, file: u64, cells: &Cells) -> Option<RegionFile>
    requires { IsWritten cells.now }
{
    let mut making = Making::begin(alloc, disk, file).ok()?;
    match write(alloc, disk, &mut making, cells) {
        Some(()) => making.finish(alloc, disk).ok(),
        None => {
            drop(making);
            None
        }
    }
}

/// Makes a file of cells, with its filter.
fn make_read(alloc: Global, disk: &mut MemDisk, file: u64, cells: &Cells) -> Option<ReadFile>
    requires { IsWritten cells.now }
{
    let file = make(alloc, disk, file, cells)?;
    match KeyFilter::with_room(alloc, file.cells()) {
        Ok(mut keys) => {
            keys.add_all(cells.as_slice());
            Some(ReadFile { file, keys })
        }
        Err(_) => {
            drop(file);
            None
        }
    }
}

/// A file of some rows at a stamp, four of them a block, with its filter.
pub(crate) fn made(
    alloc: Global,
    disk: &mut MemDisk,
    rows: &[u8],
    stamp: u8,
    file: u64,
) -> Option<ReadFile> {
    let cells = cells_of(alloc, rows, stamp, 9_000)?;
    let file = make_read(alloc, disk, file, &cells);
    drop(cells);
    file
}
