ghost use Rattle.std.specs.Prelude.{IfSome, true};
ghost use Rattle.px_cellbytes.specs.Reading.{IsWritten};

use px_cellbytes::read_cells;
use px_cells::{Cell, CellKind, Cells};
use px_cursor::Cursor;
use px_file::RegionFile;
use px_files::{free_local, open_files};
use px_making::{MakeStep, Making};
use px_outside::{Disk, MemDisk};
use px_sources::{CellTaker, Source, give};
use px_tests_storage::push_cell;
use px_wal::FileEntry;
use std::alloc::{AllocError, Global};
use std::test::Fail;

/// The local files 4 and 5 of region 1.
const FILES: [u64; 2] = [4_294_967_300, 4_294_967_301];

const ROWS: [u8; 12] = [0, 1, 2, 3, 4, 5, 6, 7, 8, 9, 10, 11];

/// The cells of some rows at a stamp. Four of them with values of 9,000 bytes make a block.
fn cells_of(alloc: Global, rows: &[u8], stamp: u8, len: u16) -> Option<Cells>
    ensures { IfSome result (λ cells. IsWritten cells) }
{
    let mut bytes = Vec::new(alloc);
    for row in rows {
        push_cell(&mut bytes, *row, stamp, CellKind::Put.code(), len).ok()?;
    }
    let count = u32::try_from(rows.len()).ok()?;
    read_cells(alloc, &bytes, count).ok()
}

/// Makes a file of cells.
fn make(alloc: Global, disk: &mut MemDisk, file: u64, cells: &Cells) -> Option<RegionFile>
    requires { IsWritten cells.now }
{
    let mut making = Making::begin(alloc, disk, file).ok()?;
    for _ in 0..10 {
        match making.step(alloc, disk, cells.as_slice()).ok()? {
            MakeStep::More => {}
            MakeStep::Done => return making.finish(alloc, disk).ok(),
        }
    }
    None
}

/// The files of even rows at stamp 1, and of all rows at stamp 2.
fn made(
    alloc: Global,
    disk: &mut MemDisk,
    rows: &[u8],
    stamp: u8,
    file: u64,
) -> Option<RegionFile> {
    let cells = cells_of(alloc, rows, stamp, 9_000)?;
    make(alloc, disk, file, &cells)
}

/// Keeps of each cell ten times its row and its stamp, and the length of its value.
#[derive(Drop)]
struct Taken {
    cells: Vec<u64>,
    lengths: Vec<usize>,
}

impl CellTaker for Taken {
    ghost has_taken = { λ taken cells. Unit {0} };

    ghost wants = { λ taken cells. true };

    fn take(&mut self, cell: &Cell) -> Result<(), AllocError> {
        let row = match cell.key() {
            [] => 0,
            [row, ..] => u64::from(*row),
        };
        self.cells.push(row * 10 + cell.stamp() % 10)?;
        self.lengths.push(cell.value().len())?;
        Ok(())
    }

    fn wants_row(&self) -> bool {
        true
    }
}

/// What is given of a slice over a file, within a range, and how many rows were looked at.
fn gathered(
    alloc: Global,
    disk: &mut MemDisk,
    file: &RegionFile,
    slice: &[Cell],
    low: &[u8],
    high: Option<&[u8]>,
) -> Option<(Taken, u64)> {
    let cursor = Cursor::begin(alloc, disk, file, low, high).ok()?;
    let mut sources = [Source::Slice(slice), Source::File(cursor)];
    let mut taker = Taken {
        cells: Vec::new(alloc),
        lengths: Vec::new(alloc),
    };
    let mut looked = 0;
    give(alloc, disk, &mut sources, &mut taker, &mut looked).ok()?;
    Some((taker, looked))
}

#[test]
fn a_file_of_three_blocks_is_read_by_ranges(rt: HostRuntime) -> Result<(), Fail> {
    let alloc = rt.alloc();
    let mut disk = MemDisk::new(alloc);
    let file = made(alloc, &mut disk, &ROWS, 1, FILES[0]).ok_or("not made")?;
    assert!(rt; file.blocks() == 3 && file.cells() == 12);
    let calls = disk.calls_made().len();
    let (all, rows) = gathered(alloc, &mut disk, &file, &[], &[], None).ok_or("not given")?;
    assert!(rt;
        all.cells.as_slice() == [1, 11, 21, 31, 41, 51, 61, 71, 81, 91, 101, 111].as_slice()
            && rows == 12
    );
    assert!(rt; disk.calls_made().len() == calls + 3);
    let (some, rows) = gathered(alloc, &mut disk, &file, &[], &[5], Some(&[7])).ok_or("not given")?;
    assert!(rt; some.cells.as_slice() == [51, 61].as_slice() && rows == 2);
    assert!(rt; disk.calls_made().len() == calls + 4);
    let (none, rows) = gathered(alloc, &mut disk, &file, &[], &[12], None).ok_or("not given")?;
    assert!(rt; none.cells.is_empty() && rows == 0);
    Ok(())
}

#[test]
fn what_is_later_written_stands_first(rt: HostRuntime) -> Result<(), Fail> {
    let alloc = rt.alloc();
    let mut disk = MemDisk::new(alloc);
    let file = made(alloc, &mut disk, &[1, 3], 1, FILES[0]).ok_or("not made")?;
    let newer = cells_of(alloc, &[1, 2, 3], 1, 1).ok_or("no cells")?;
    let (all, rows) = gathered(alloc, &mut disk, &file, newer.as_slice(), &[], None).ok_or(
        "not given",
    )?;
    assert!(rt; all.cells.as_slice() == [11, 21, 31].as_slice() && rows == 3);
    // The values of the slice are short, those of the file have 9,000 bytes.
    assert!(rt; all.lengths.as_slice() == [1, 1, 1].as_slice());
    Ok(())
}

#[test]
fn the_named_files_are_opened(rt: HostRuntime) -> Result<(), Fail> {
    let alloc = rt.alloc();
    let mut disk = MemDisk::new(alloc);
    made(alloc, &mut disk, &ROWS, 1, FILES[0]).ok_or("not made")?;
    made(alloc, &mut disk, &[1], 2, FILES[1]).ok_or("not made")?;
    let named = [
        FileEntry {
            local: 5,
            len: 0,
            cells: 1,
        },
        FileEntry {
            local: 4,
            len: 0,
            cells: 12,
        },
    ];
    let files = open_files(alloc, &mut disk, 1, &named)
        .ok()
        .ok_or("not opened")?;
    // In the order in which they are named.
    assert!(rt;
        matches!(files.as_slice(), [newer, older] if newer.number() == FILES[1] && newer.cells() == 1 && older.number() == FILES[0] && older.cells() == 12)
    );
    assert!(rt; free_local(&named) == Some(6) && free_local(&[]) == Some(4));
    Ok(())
}
