// The sources of a range.
ghost use Rattle.std.specs.Prelude.{◌≡◌, ◌≢◌, ◌≤◌, ◌∷◌, ◌++◌, [], ℕ, List, IsTrue, IfOk, OnOk, Err};
ghost use Rattle.std.specs.Option.{option_copied};
ghost use Rattle.px_outside.specs.OnDisk.{Rose, Stays};
ghost use Rattle.px_cells.specs.CellData.{CellData};
ghost use Rattle.px_cells.specs.Order.{IsAscending};
ghost use Rattle.px_file.specs.declared.fault.FileFault.TheVariants.{ReadFault, Damaged};
ghost use Rattle.px_merge.specs.Merged.{joined};
ghost use Rattle.px_merge.specs.Parts.{ReadsPart};
ghost use Rattle.px_sources.specs.Sources.{AllGive};
ghost use Rattle.px_reads.specs.Reads.{HasList, HaveLists};
ghost use Rattle.px_reads.specs.inner.Ends.{IsRangeOf};
ghost use Rattle.px_reads.specs.Range.{IsWithin};

use crate::ReadFile;
use px_cells::Cell;
use px_cursor::Cursor;
use px_file::FileFault;
use px_outside::Disk;
use px_sources::Source;
use std::alloc::{AllocError, Global};

/// A range of keys. Where it is that of one row, its key is said.
#[derive(Clone, Copy)]
pub(crate) struct Range<'a> {
    pub(crate) only: Option<&'a [u8]>,
    pub(crate) low: &'a [u8],
    pub(crate) high: Option<&'a [u8]>,
}

fn add<'a>(sources: &mut Vec<Source<'a>>, source: Source<'a>) -> Result<(), AllocError>
    ensures { OnOk result (sources.new.items ≡ sources.old.items ++ source.entry ∷ []) }
{
    sources.push(source)?;
    Ok(())
}

/// Adds what a file has of a range, where it may have the key if the range is of one row.
fn add_file<'a, D: Disk>(
    alloc: Global,
    disk: &mut D,
    sources: &mut Vec<Source<'a>>,
    read: &'a ReadFile,
    range: Range<'a>,
) -> Result<(), FileFault>
    ensures give { (given : List (List CellData)) (list : List CellData) → IsTrue D.tells → HasList ⟦<D as Disk>⟧ read.now disk.old list → IsRangeOf (option_copied range.entry.only) range.entry.low.now (option_copied range.entry.high)
        → AllGive ⟦<D as Disk>⟧ sources.old.items disk.old given
        → OnOk result ((parts : List (List CellData)) × AllGive ⟦<D as Disk>⟧ sources.new.items disk.new (given ++ parts) × ReadsPart (IsWithin range.entry.low.now (option_copied range.entry.high)) list (joined parts)) }
    ensures sound { (list : List CellData) (at place : ℕ) → IsTrue D.tells → HasList ⟦<D as Disk>⟧ read.now disk.old list → result ≢ Err (Damaged at place) }
    ensures seen { D.seen disk.new ≡ D.seen disk.old }
    ensures quiet { Stays ⟦<D as Disk>⟧ disk.old disk.new }
    ensures failed { result ≡ Err ReadFault → Rose ⟦<D as Disk>⟧ disk.old disk.new }
    ensures faults { D.faults disk.old ≤ D.faults disk.new }
{
    if !read.may_have(range.only) {
        return Ok(());
    }
    let cursor = Cursor::begin(alloc, disk, &read.file, range.low, range.high)?;
    add(sources, Source::File(cursor))?;
    Ok(())
}

/// The parts of a range: what both stores have of it, and of each file, where it may have the key if the range is of one row.
pub(crate) fn sources_of<'a, D: Disk>(
    alloc: Global,
    disk: &mut D,
    newer: &'a [Cell],
    older: &'a [Cell],
    files: &'a [ReadFile],
    range: Range<'a>,
) -> Result<Vec<Source<'a>>, FileFault>
    ensures give { (lists : List (List CellData)) → IsTrue D.tells → HaveLists ⟦<D as Disk>⟧ files.now disk.old lists → IsAscending newer.now → IsAscending older.now → IsRangeOf (option_copied range.entry.only) range.entry.low.now (option_copied range.entry.high)
        → IfOk result (λ sources. (parts : List (List CellData)) × AllGive ⟦<D as Disk>⟧ sources.items disk.new (newer.now ∷ older.now ∷ parts) × ReadsPart (IsWithin range.entry.low.now (option_copied range.entry.high)) (joined lists) (joined parts)) }
    ensures sound { (lists : List (List CellData)) (at place : ℕ) → IsTrue D.tells → HaveLists ⟦<D as Disk>⟧ files.now disk.old lists → result ≢ Err (Damaged at place) }
    ensures seen { D.seen disk.new ≡ D.seen disk.old }
    ensures quiet { Stays ⟦<D as Disk>⟧ disk.old disk.new }
    ensures failed { result ≡ Err ReadFault → Rose ⟦<D as Disk>⟧ disk.old disk.new }
    ensures faults { D.faults disk.old ≤ D.faults disk.new }
{
    let mut sources = Vec::new(alloc);
    add(&mut sources, Source::Slice(newer))?;
    add(&mut sources, Source::Slice(older))?;
    for read in files {
        add_file(alloc, disk, &mut sources, read, range)?;
    }
    Ok(sources)
}
