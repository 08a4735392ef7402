// Two stores and files, as they are read.
ghost use Rattle.std.specs.Prelude.{◌≡◌, ◌≢◌, ◌<◌, ◌≤◌, ℕ, List, length, min, IsTrue, IfOk, Err};
ghost use Rattle.std.specs.List.{AllByRecursion};
ghost use Rattle.std.specs.Option.{option_copied};
ghost use Rattle.px_outside.specs.OnDisk.{Rose, Stays};
ghost use Rattle.px_cells.specs.CellData.{CellData};
ghost use Rattle.px_cells.specs.Order.{IsAscending};
ghost use Rattle.px_cells.specs.Rows.{IsRow};
ghost use Rattle.px_file.specs.declared.fault.FileFault.TheVariants.{ReadFault, Damaged};
ghost use Rattle.px_memstore.specs.Pieces.{AreFirstRows};
ghost use Rattle.px_sources.specs.Giving.{rows_before};

use crate::end::{bytes_of, end_of, key_behind, lesser};
use crate::found::found;
use crate::sources::Range;
use crate::{FoundRows, ReadFile};
use px_cells::{Cells, rows_in};
use px_file::FileFault;
use px_memstore::MemStore;
use px_outside::Disk;
use std::alloc::Global;

/// Two stores in memory, of which the first was written later, and files below them, of which the later written stand first.
#[derive(Clone, Copy)]
pub struct Parts<'a> {
    pub store: &'a MemStore,
    pub older: &'a MemStore,
    pub files: &'a [ReadFile],
}

impl<'a> Parts<'a> {
    ghost use Rattle.px_reads.specs.Range.{AllWithin};
    ghost use Rattle.px_reads.specs.Reads.{HaveLists, all_cells};

    /// The cells of one row: all its versions, markers too.
    pub fn row<D: Disk>(&self, alloc: Global, disk: &mut D, key: &[u8]) -> Result<Cells, FileFault>
        ensures row { (lists : List (List CellData)) → IsTrue D.tells → HaveLists ⟦<D as Disk>⟧ self.now.files.now disk.old lists → IfOk result (λ row. IsRow (all_cells self.now lists) key.now row) }
        ensures own { IfOk result (λ row. AllByRecursion (λ (c : CellData). c.key ≡ key.now) row) }
        ensures sorted { IfOk result IsAscending }
        ensures sound { (lists : List (List CellData)) (at place : ℕ) → IsTrue D.tells → HaveLists ⟦<D as Disk>⟧ self.now.files.now disk.old lists → result ≢ Err (Damaged at place) }
        ensures seen { D.seen disk.new ≡ D.seen disk.old }
        ensures quiet { Stays ⟦<D as Disk>⟧ disk.old disk.new }
        ensures failed { result ≡ Err ReadFault → Rose ⟦<D as Disk>⟧ disk.old disk.new }
    {
        let behind = key_behind(alloc, key)?;
        let range = Range {
            only: Some(key),
            low: key,
            high: Some(behind.as_slice()),
        };
        let newer = self.store.row(key);
        let older = self.older.row(key);
        let row = found(alloc, disk, self.files, newer, older, range, u64::MAX)?;
        Ok(row.cells)
    }

    /// The first rows from a key on and, if one is given, up to before another: so many at most. There is one where there is any in the range.
    pub fn first_rows<D: Disk>(
        &self,
        alloc: Global,
        disk: &mut D,
        low: &[u8],
        high: Option<&[u8]>,
        most: u64,
    ) -> Result<FoundRows, FileFault>
        requires { 0 < most }
        ensures rows { (lists : List (List CellData)) → IsTrue D.tells → HaveLists ⟦<D as Disk>⟧ self.now.files.now disk.old lists
            → IfOk result (λ found. AreFirstRows (all_cells self.now lists) low.now (option_copied high.entry) found.cells found.is_all) }
        ensures counted { IfOk result (λ found. found.rows ≡ min (rows_before found.cells (length found.cells)) 18446744073709551615) }
        ensures most { IfOk result (λ found. found.rows ≤ most) }
        ensures within { IfOk result (λ found. AllWithin low.now (option_copied high.entry) found.cells) }
        ensures sorted { IfOk result (λ found. IsAscending found.cells) }
        ensures sound { (lists : List (List CellData)) (at place : ℕ) → IsTrue D.tells → HaveLists ⟦<D as Disk>⟧ self.now.files.now disk.old lists → result ≢ Err (Damaged at place) }
        ensures seen { D.seen disk.new ≡ D.seen disk.old }
        ensures quiet { Stays ⟦<D as Disk>⟧ disk.old disk.new }
        ensures failed { result ≡ Err ReadFault → Rose ⟦<D as Disk>⟧ disk.old disk.new }
    {
        let newer = self.store.rows(low, high);
        let older = self.older.rows(low, high);
        let newer_end = end_of(alloc, newer)?;
        let older_end = end_of(alloc, older)?;

        // Both stores have all their rows up to here in one piece each.
        let end = lesser(lesser(bytes_of(&newer_end), bytes_of(&older_end)), high);
        let newer_cells = rows_in(newer.cells, low, end);
        let older_cells = rows_in(older.cells, low, end);
        let range = Range {
            only: None,
            low,
            high: end,
        };
        let mut rows = found(
            alloc,
            disk,
            self.files,
            newer_cells,
            older_cells,
            range,
            most,
        )?;
        rows.is_all = newer.is_all && older.is_all && rows.is_all;
        Ok(rows)
    }
}
