// The first rows of a range.
ghost use Rattle.std.specs.Prelude.{◌≡◌, ◌≢◌, ◌≤◌, ◌∷◌, ℕ, List, length, min, nat_lt, IsTrue, IsOk, IfOk, Err, ◌↔◌};
ghost use Rattle.std.specs.Option.{option_copied};
ghost use Rattle.px_outside.specs.OnDisk.{Rose, Stays};
ghost use Rattle.px_cells.specs.CellData.{CellData};
ghost use Rattle.px_cells.specs.Order.{IsAscending};
ghost use Rattle.px_file.specs.declared.fault.FileFault.TheVariants.{ReadFault, Damaged};
ghost use Rattle.px_merge.specs.Merged.{joined};
ghost use Rattle.px_merge.specs.Parts.{ReadsPart};
ghost use Rattle.px_merge.specs.Settle.{settle};
ghost use Rattle.px_sources.specs.Giving.{rows_before};
ghost use Rattle.px_reads.specs.inner.Fronts.{AreFrontRows};
ghost use Rattle.px_reads.specs.inner.Ends.{IsRangeOf};
ghost use Rattle.px_reads.specs.Range.{AllWithin, IsWithin};
ghost use Rattle.px_reads.specs.Reads.{HaveLists};

use crate::ReadFile;
use crate::copies::Copies;
use crate::fault::disordered;
use crate::gather::gather;
use crate::order::{are_sorted, are_within};
use crate::sources::{Range, sources_of};
use px_cells::{Cell, Cells};
use px_file::FileFault;
use px_outside::Disk;
use std::alloc::Global;

/// The first rows of a range.
#[derive(Drop)]
pub struct FoundRows {
    pub cells: Cells,
    /// How many they are.
    pub rows: u64,
    /// Whether there is no other in the range.
    pub is_all: bool,
}

/// Whether cells are sorted, of the range, and of so many rows at most.
fn fits(cells: &[Cell], rows: u64, most: u64, range: Range<'_>) -> bool
    ensures { IsTrue result ↔ ((rows ≤ most) × IsAscending cells.now × AllWithin range.entry.low.now (option_copied range.entry.high) cells.now) }
{
    rows <= most && are_sorted(cells) && are_within(cells, range.low, range.high)
}

/// What was given, if it fits.
fn tested(
    files: &[ReadFile],
    cells: Cells,
    rows: u64,
    most: u64,
    range: Range<'_>,
) -> Result<FoundRows, FileFault>
    ensures same { IfOk result (λ found. (found.cells ≡ cells) × (found.rows ≡ rows) × (found.is_all ≡ nat_lt rows most)) }
    ensures fits { IfOk result (λ found. (found.rows ≤ most) × IsAscending found.cells × AllWithin range.entry.low.now (option_copied range.entry.high) found.cells) }
    ensures passed { rows ≤ most → IsAscending cells → AllWithin range.entry.low.now (option_copied range.entry.high) cells → IsOk result }
    ensures unread { result ≢ Err ReadFault }
{
    if !fits(cells.as_slice(), rows, most, range) {
        drop(cells);
        return Err(disordered(files));
    }
    Ok(FoundRows {
        cells,
        rows,
        is_all: rows < most,
    })
}

/// The first rows of a range, of which both stores have these cells; and whether they are fewer than so many.
pub(crate) fn found<D: Disk>(
    alloc: Global,
    disk: &mut D,
    files: &[ReadFile],
    newer: &[Cell],
    older: &[Cell],
    range: Range<'_>,
    most: u64,
) -> Result<FoundRows, FileFault>
    requires newer { IsAscending newer.now × AllWithin range.low.now (option_copied range.high) newer.now }
    requires older { IsAscending older.now × AllWithin range.low.now (option_copied range.high) older.now }
    requires row { IsRangeOf (option_copied range.only) range.low.now (option_copied range.high) }
    ensures front { (lists : List (List CellData)) → IsTrue D.tells → HaveLists ⟦<D as Disk>⟧ files.now disk.old lists
        → IfOk result (λ found. (parts : List (List CellData)) × ReadsPart (IsWithin range.entry.low.now (option_copied range.entry.high)) (joined lists) (joined parts) × AreFrontRows (settle (joined (newer.now ∷ older.now ∷ parts))) most found.cells found.rows) }
    ensures counted { IfOk result (λ found. found.rows ≡ min (rows_before found.cells (length found.cells)) 18446744073709551615) }
    ensures most { IfOk result (λ found. found.rows ≤ most) }
    ensures all { IfOk result (λ found. found.is_all ≡ nat_lt found.rows most) }
    ensures within { IfOk result (λ found. AllWithin range.entry.low.now (option_copied range.entry.high) found.cells) }
    ensures sorted { IfOk result (λ found. IsAscending found.cells) }
    ensures sound { (lists : List (List CellData)) (at place : ℕ) → IsTrue D.tells → HaveLists ⟦<D as Disk>⟧ files.now disk.old lists → result ≢ Err (Damaged at place) }
    ensures seen { D.seen disk.new ≡ D.seen disk.old }
    ensures quiet { Stays ⟦<D as Disk>⟧ disk.old disk.new }
    ensures failed { result ≡ Err ReadFault → Rose ⟦<D as Disk>⟧ disk.old disk.new }
{
    let mut sources = sources_of(alloc, disk, newer, older, files, range)?;
    let copies = gather(alloc, disk, sources.as_mut_slice(), most)?;
    drop(sources);
    let Copies {
        cells,
        rows,
        most: _,
    } = copies;
    tested(files, Cells::from_vec(cells), rows, most, range)
}
