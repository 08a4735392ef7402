// Reading a file whole.
ghost use Rattle.std.specs.Prelude.{◌≡◌, ◌≢◌, ◌<◌, ◌++◌, ◌↔◌, [], ℕ, List, length, get_or, take, IsTrue, IfOk, OnOk, Err};
ghost use Rattle.px_outside.specs.OnDisk.{Passes, Rose, Stays};
ghost use Rattle.px_cells.specs.CellData.{CellData};
ghost use Rattle.px_cells.specs.Order.{Below, IsAscending};
ghost use Rattle.px_block.specs.Reading.{ComesAfter};
ghost use Rattle.px_file.specs.Files.{HasBlocks};
ghost use Rattle.px_file.specs.Format.{cells_in};

use px_cells::{Cell, Cells, cell_order};
use px_file::RegionFile;
use px_files::fault_of;
use px_gatelog::StartFault;
use px_outside::Disk;
use std::alloc::Global;
use std::cmp::Ordering;

/// Whether a cell stands before another.
fn is_before(a: &Cell, b: &Cell) -> bool
    ensures { IsTrue result ↔ Below a.now b.now }
{
    cell_order(a, b) == Ordering::Less
}

/// Whether cells stand behind all those before them. Both are sorted, so the two that meet tell.
fn comes_after(before: &[Cell], cells: &[Cell]) -> bool
    ensures { IsTrue result ↔ ComesAfter before.now cells.now }
{
    match before {
        [] => true,
        [.., last] => match cells {
            [] => true,
            [first, ..] => is_before(last, first),
        },
    }
}

/// Puts the cells of a block behind those of the blocks before it.
pub(crate) fn add_block<D: Disk>(
    alloc: Global,
    disk: &mut D,
    file: &RegionFile,
    number: usize,
    cells: &mut Vec<Cell>,
) -> Result<(), StartFault>
    requires within { number < length file.now.index.entries.items }
    requires sorted { IsAscending cells.old.items }
    ensures added { (blocks : List (List CellData)) → IsTrue D.tells → HasBlocks ⟦<D as Disk>⟧ file.now disk.old blocks → OnOk result (cells.new.items ≡ cells.old.items ++ get_or blocks number []) }
    ensures sorted { OnOk result (IsAscending cells.new.items) }
    ensures sound { (blocks : List (List CellData)) (at place : ℕ) → IsTrue D.tells → HasBlocks ⟦<D as Disk>⟧ file.now disk.old blocks → cells.old.items ≡ cells_in (take number blocks) → result ≢ Err (StartFault.Damaged at place) }
    ensures seen { D.seen disk.new ≡ D.seen disk.old }
    ensures quiet { Stays ⟦<D as Disk>⟧ disk.old disk.new }
    ensures read_failed { result ≡ Err StartFault.ReadFault → Rose ⟦<D as Disk>⟧ disk.old disk.new }
    ensures unwritten { result ≢ Err StartFault.WriteFault }
    ensures counts { Passes ⟦<D as Disk>⟧ disk.old disk.new 1 }
{
    let block = match file.block(alloc, disk, number) {
        Ok(block) => block,
        Err(fault) => return Err(fault_of(fault)),
    };
    if !comes_after(cells, block.as_slice()) {
        drop(block);
        return Err(StartFault::Damaged {
            file: file.number(),
            place: 0,
        });
    }
    let mut more = block.into_vec();
    cells.append(&mut more)?;
    Ok(())
}

/// The cells of a file. It is read whole, a block at a time.
pub(crate) fn file_cells<D: Disk>(
    alloc: Global,
    disk: &mut D,
    file: &RegionFile,
) -> Result<Cells, StartFault>
    ensures read { (blocks : List (List CellData)) → IsTrue D.tells → HasBlocks ⟦<D as Disk>⟧ file.now disk.old blocks → IfOk result (λ cells. cells ≡ cells_in blocks) }
    ensures sorted { IfOk result (λ cells. IsAscending cells) }
    ensures sound { (blocks : List (List CellData)) (at place : ℕ) → IsTrue D.tells → HasBlocks ⟦<D as Disk>⟧ file.now disk.old blocks → result ≢ Err (StartFault.Damaged at place) }
    ensures seen { D.seen disk.new ≡ D.seen disk.old }
    ensures quiet { Stays ⟦<D as Disk>⟧ disk.old disk.new }
    ensures read_failed { result ≡ Err StartFault.ReadFault → Rose ⟦<D as Disk>⟧ disk.old disk.new }
    ensures unwritten { result ≢ Err StartFault.WriteFault }
    ensures counts { Passes ⟦<D as Disk>⟧ disk.old disk.new (length file.now.index.entries.items) }
{
    let mut cells = Vec::new(alloc);
    for number in 0..file.blocks() {
        match add_block(alloc, disk, file, number, &mut cells) {
            Ok(()) => {}
            Err(fault) => {
                drop(cells);
                return Err(fault);
            }
        }
    }
    Ok(Cells::from_vec(cells))
}
