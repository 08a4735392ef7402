// What is read of a region.
ghost use Rattle.std.specs.Prelude.{◌≡◌, ◌≢◌, ◌≤◌, ◌<◌, ◌+◌, ◌++◌, [], ℕ, Err, List, length, get_or, min, IfOk, OnOk};
ghost use Rattle.px_cells.specs.CellData.{CellData};
ghost use Rattle.px_memstore.specs.Pieces.{AreFirstRows, ArePiecesApart, chained};

use crate::{CellTaker, LookFault, Region};
use px_cells::Cell;
use px_memstore::FirstRows;
use px_outside::Disk;
use std::alloc::AllocError;
use std::borrow::CowSlice;

/// The first rows of a range: lent, or gathered where they don't lie side by side in memory.
#[derive(Drop)]
pub struct FoundRows<'a> {
    pub cells: CowSlice<'a, Cell>,
    /// Whether these are all.
    pub is_all: bool,
}

/// Gives all cells.
fn give_all<T: CellTaker>(cells: &[Cell], taker: &mut T) -> Result<(), AllocError>
    ensures { (before : List CellData) → T.has_taken taker.old before → OnOk result (T.has_taken taker.new (before ++ cells.now)) }
{
    for cell in cells {
        taker.take(cell)?;
    }
    Ok(())
}

impl Region {
    ghost use Rattle.px_cells.specs.Order.{IsAscending};
    ghost use Rattle.px_region.specs.Region.{RegionData, RegionHolds, data_of, logged_of, pieces_of, read_of};
    ghost use Rattle.px_region.specs.Promise.{IsAlike, IsSamePromise};
    ghost use Rattle.px_region.specs.OnlyRead.{HasOnlyRead};
    ghost use Rattle.px_region.specs.declared.fault.LookFault.{LookFault as Fault};
    ghost use Rattle.px_outside.specs.OnDisk.{Rose};
    ghost use Rattle.px_cells.specs.Rows.{IsRow};
    ghost use Rattle.std.specs.Cow.{cow_slice_items};
    ghost use Rattle.std.specs.Option.{option_copied};

    /// How many pieces the sorted list of what is read of it is lent in. One behind the other they are its cells, and no row is in two of
    /// them. They aren't counted as looked at.
    pub fn piece_count(&self) -> usize
        ensures count { result ≡ length (pieces_of self.now) }
        ensures cells { read_of self.now ≡ chained (pieces_of self.now) }
        ensures apart { ArePiecesApart (pieces_of self.now) }
        ensures sorted { IsAscending (read_of self.now) }
    {
        self.store.piece_count()
    }

    /// The cells of a piece, in order.
    pub fn piece(&self, at: usize) -> &[Cell]
        requires { at < length (pieces_of self.now) }
        ensures cells { result.now ≡ get_or (pieces_of self.now) at [] }
        ensures sorted { IsAscending result.now }
    {
        self.store.piece(at)
    }

    /// How many cells stand in its log above the flushed number. Each that was written counts, also one that is read no more.
    pub fn logged_cells(&self) -> u64
        ensures { result ≡ logged_of self.now }
    {
        self.cells
    }

    /// How many files its manifest names.
    pub fn file_count(&self) -> u64 {
        self.manifest.snapshot().files.len() as u64
    }

    /// The horizon that its manifest names.
    pub fn horizon(&self) -> u64
        ensures { result ≡ (data_of self.now).horizon }
    {
        self.horizon
    }

    /// The cells of one row, all its versions, in order. They are found in logarithmic time and lent, and not counted as looked at.
    pub fn row(&self, key: &[u8]) -> &[Cell]
        ensures { IsRow (read_of self.now) key.now result.now }
    {
        self.store.row(key)
    }

    /// The first rows from a key on and, if one is given, up to before another, in order: those that lie in one piece. There is one
    /// where there is any in the range. They are found in logarithmic time and lent, and not counted as looked at.
    pub fn rows(&self, low: &[u8], high: Option<&[u8]>) -> FirstRows<'_>
        ensures { AreFirstRows (read_of self.now) low.now (option_copied high.entry) result.cells.now result.is_all }
    {
        self.store.rows(low, high)
    }

    /// The cells of one row, all its versions, in order: lent where they stand in memory, so that they aren't copied. They aren't counted as
    /// looked at.
    ///
    /// The disk is only read. It is refused with `ReadFault` where a read failed. All cells are in memory, so none is damaged.
    pub fn read_row<D: Disk>(
        &self,
        disk: &mut D,
        key: &[u8],
    ) -> Result<CowSlice<'_, Cell>, LookFault>
        ensures row { IfOk result (λ cells. IsRow (read_of self.now) key.now (cow_slice_items cells)) }
        ensures undamaged { (file place : ℕ) → result ≢ Err (Fault.Damaged file place) }
        ensures failed { result ≡ Err Fault.ReadFault → Rose ⟦<D as Disk>⟧ disk.old disk.new }
        ensures only_read { HasOnlyRead ⟦<D as Disk>⟧ disk.old disk.new }
    {
        let _disk = disk;
        Ok(CowSlice::Borrowed(self.store.row(key)))
    }

    /// The first rows from a key on and, if one is given, up to before another, in order: there is one where there is any in the range. So
    /// many are wanted: what is lent may be more, and no more are gathered. They aren't counted as looked at.
    ///
    /// The disk is only read. It is refused with `ReadFault` where a read failed. All cells are in memory, so none is damaged.
    pub fn read_rows<D: Disk>(
        &self,
        disk: &mut D,
        low: &[u8],
        high: Option<&[u8]>,
        most: u64,
    ) -> Result<FoundRows<'_>, LookFault>
        requires { 0 < most }
        ensures rows { IfOk result (λ found. AreFirstRows (read_of self.now) low.now (option_copied high.entry) (cow_slice_items found.cells) found.is_all) }
        ensures undamaged { (file place : ℕ) → result ≢ Err (Fault.Damaged file place) }
        ensures failed { result ≡ Err Fault.ReadFault → Rose ⟦<D as Disk>⟧ disk.old disk.new }
        ensures only_read { HasOnlyRead ⟦<D as Disk>⟧ disk.old disk.new }
    {
        let _disk = disk;
        let _most = most;
        let FirstRows { cells, is_all } = self.store.rows(low, high);
        Ok(FoundRows {
            cells: CowSlice::Borrowed(cells),
            is_all,
        })
    }

    /// Counts so many rows as looked at.
    pub fn look_at(&mut self, rows: u64)
        ensures looked { self.new.looked ≡ min (self.old.looked + rows) 18446744073709551615 }
        ensures risen { self.old.looked ≤ self.new.looked }
        ensures alike { IsAlike self.old self.new }
        ensures promised { IsSamePromise self.old self.new }
    {
        self.looked = self.looked.saturating_add(rows);
    }

    /// Gives the cells of one row, all its versions, in order. They are found in logarithmic time, and not copied. It is
    /// refused with `Memory` where the taker is.
    pub fn row_versions<D: Disk, T: CellTaker>(
        &mut self,
        disk: &mut D,
        key: &[u8],
        taker: &mut T,
    ) -> Result<(), LookFault>
        ensures given { (s : RegionData) (before : List CellData) → RegionHolds ⟦<D as Disk>⟧ self.old disk.old s → T.has_taken taker.old before
            → OnOk result ((row : List CellData) × IsRow s.cells key.now row × T.has_taken taker.new (before ++ row)) }
        ensures read { (before : List CellData) → T.has_taken taker.old before → OnOk result ((row : List CellData) × IsRow (read_of self.old) key.now row × T.has_taken taker.new (before ++ row)) }
        ensures looked { self.new.looked ≡ min (self.old.looked + 1) 18446744073709551615 }
        ensures alike { IsAlike self.old self.new }
        ensures promised { IsSamePromise self.old self.new }
        ensures untouched { disk.new ≡ disk.old }
    {
        let _disk = disk;
        self.looked = self.looked.saturating_add(1);
        match give_all(self.store.row(key), taker) {
            Ok(()) => Ok(()),
            Err(_) => Err(LookFault::Memory),
        }
    }

    /// How many rows were looked at: `row_versions` raises it by one, and `look_at` by the rows that were lent and read. It stands
    /// still at its last value.
    pub fn looked(&self) -> u64
        ensures { result ≡ self.now.looked }
    {
        self.looked
    }
}
