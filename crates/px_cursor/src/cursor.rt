// The cursor.
ghost use Rattle.std.specs.Prelude.{◌≡◌, ◌≢◌, ◌≤◌, ◌<◌, ◌+◌, ◌-◌, ◌∷◌, [], ℕ, List, length, IsTrue, IfOk, OnOk, Err};
ghost use Rattle.std.specs.Option.{option_copied};
ghost use Rattle.px_outside.specs.OnDisk.{Passes, Rose, Stays};
ghost use Rattle.px_cells.specs.CellData.{CellData};
ghost use Rattle.px_cells.specs.Rows.{AreRows};
ghost use Rattle.px_file.specs.Format.{cells_in};
ghost use Rattle.px_file.specs.Files.{HasBlocks};
ghost use Rattle.px_merge.specs.Taking.{IsHead};

use crate::part::{limit_of, part_of};
use px_cells::{Cell, Cells};
use px_file::{FileFault, RegionFile};
use px_outside::Disk;
use std::alloc::Global;

/// The cells of a file within a range of keys, of which those that were passed aren't given again.
#[derive(Drop)]
pub struct Cursor<'a> {
    pub(crate) file: &'a RegionFile,
    pub(crate) low: &'a [u8],
    pub(crate) high: Option<&'a [u8]>,
    /// The first block that may have a cell of the range, the next one to be read, and the first behind all that may.
    pub(crate) first: usize,
    pub(crate) next: usize,
    pub(crate) limit: usize,
    /// The block that is in memory. Its cells from `at` up to before `until` are within the range and weren't passed.
    pub(crate) block: Cells,
    pub(crate) at: usize,
    pub(crate) until: usize,
    ghost within: { until ≤ length block },
    ghost limited: { limit ≤ length file.now.index.entries.items },
    ghost begun: { first ≤ next },
    ghost few: { next - first ≤ limit - first },
}

impl<'a> Cursor<'a> {
    ghost use Rattle.px_cursor.specs.Cursor.{CursorGives, IsAt, IsSameRange, blocks_in, blocks_read, cells_in_memory};

    /// Begins at the first cell of the range: with it in memory, where there is one.
    pub fn begin<D: Disk>(
        alloc: Global,
        disk: &mut D,
        file: &'a RegionFile,
        low: &'a [u8],
        high: Option<&'a [u8]>,
    ) -> Result<Cursor<'a>, FileFault>
        ensures begun { (blocks : List (List CellData)) → IsTrue D.tells → HasBlocks ⟦<D as Disk>⟧ file.now disk.old blocks
            → IfOk result (λ cursor. (left : List CellData) × AreRows (cells_in blocks) low.now (option_copied high.entry) left × CursorGives ⟦<D as Disk>⟧ cursor disk.new left) }
        ensures sound { (blocks : List (List CellData)) (at place : ℕ) → IsTrue D.tells → HasBlocks ⟦<D as Disk>⟧ file.now disk.old blocks → result ≢ Err (FileFault.Damaged at place) }
        ensures file { (at place : ℕ) → result ≡ Err (FileFault.Damaged at place) → at ≡ file.now.file }
        ensures seen { D.seen disk.new ≡ D.seen disk.old }
        ensures quiet { Stays ⟦<D as Disk>⟧ disk.old disk.new }
        ensures failed { result ≡ Err FileFault.ReadFault → Rose ⟦<D as Disk>⟧ disk.old disk.new }
        ensures counts { IfOk result (λ cursor. Passes ⟦<D as Disk>⟧ disk.old disk.new (blocks_read cursor)) }
        ensures at_most { Passes ⟦<D as Disk>⟧ disk.old disk.new (length file.now.index.entries.items) }
    {
        let limit = limit_of(file, high);
        let first = file.first_block(low);
        let mut cursor = Cursor {
            file,
            low,
            high,
            first,
            next: first,
            limit,
            block: Cells::new(alloc),
            at: 0,
            until: 0,
        };
        match cursor.fill(alloc, disk) {
            Ok(()) => Ok(cursor),
            Err(fault) => {
                drop(cursor);
                Err(fault)
            }
        }
    }

    /// The next cell.
    pub fn head(&self) -> Option<&Cell>
        ensures { IsHead result (cells_in_memory self.now) }
    {
        if self.at < self.until {
            Some(&self.block.as_slice()[self.at])
        } else {
            None
        }
    }

    /// Passes the next cell. Where it is the last of its block, the next block is read, if that may have cells of the range.
    pub fn step<D: Disk>(&mut self, alloc: Global, disk: &mut D) -> Result<(), FileFault>
        ensures stepped { (c : CellData) (left : List CellData) → CursorGives ⟦<D as Disk>⟧ self.old disk.old (c ∷ left) → OnOk result (CursorGives ⟦<D as Disk>⟧ self.new disk.new left) }
        ensures sound { (left : List CellData) (at place : ℕ) → CursorGives ⟦<D as Disk>⟧ self.old disk.old left → result ≢ Err (FileFault.Damaged at place) }
        ensures file { (at place : ℕ) → result ≡ Err (FileFault.Damaged at place) → at ≡ self.old.file.now.file }
        ensures range { IsSameRange self.old self.new }
        ensures seen { D.seen disk.new ≡ D.seen disk.old }
        ensures quiet { Stays ⟦<D as Disk>⟧ disk.old disk.new }
        ensures failed { result ≡ Err FileFault.ReadFault → Rose ⟦<D as Disk>⟧ disk.old disk.new }
        ensures reads { blocks_read self.old ≤ blocks_read self.new }
        ensures counts { Passes ⟦<D as Disk>⟧ disk.old disk.new (blocks_read self.new - blocks_read self.old) }
    {
        if self.at < self.until {
            self.at += 1;
        }
        self.fill(alloc, disk)
    }

    /// Where no cell is left in memory, reads the next block, until there is one or no block is left.
    fn fill<D: Disk>(&mut self, alloc: Global, disk: &mut D) -> Result<(), FileFault>
        ensures filled { (left : List CellData) → IsAt ⟦<D as Disk>⟧ self.old disk.old left → OnOk result (CursorGives ⟦<D as Disk>⟧ self.new disk.new left) }
        ensures sound { (left : List CellData) (at place : ℕ) → IsAt ⟦<D as Disk>⟧ self.old disk.old left → result ≢ Err (FileFault.Damaged at place) }
        ensures file { (at place : ℕ) → result ≡ Err (FileFault.Damaged at place) → at ≡ self.old.file.now.file }
        ensures range { IsSameRange self.old self.new }
        ensures seen { D.seen disk.new ≡ D.seen disk.old }
        ensures quiet { Stays ⟦<D as Disk>⟧ disk.old disk.new }
        ensures failed { result ≡ Err FileFault.ReadFault → Rose ⟦<D as Disk>⟧ disk.old disk.new }
        ensures next { self.old.next ≤ self.new.next }
        ensures counts { Passes ⟦<D as Disk>⟧ disk.old disk.new (self.new.next - self.old.next) }
    {
        while self.at >= self.until && self.next < self.limit {
            match self.load(alloc, disk) {
                Ok(()) => {}
                Err(fault) => return Err(fault),
            }
        }
        Ok(())
    }

    /// Reads the next block. No cell of the one before it is left.
    fn load<D: Disk>(&mut self, alloc: Global, disk: &mut D) -> Result<(), FileFault>
        requires more { self.old.next < self.old.limit }
        requires none { self.old.until ≤ self.old.at }
        ensures loaded { (left : List CellData) → IsAt ⟦<D as Disk>⟧ self.old disk.old left → OnOk result (IsAt ⟦<D as Disk>⟧ self.new disk.new left) }
        ensures sound { (left : List CellData) (at place : ℕ) → IsAt ⟦<D as Disk>⟧ self.old disk.old left → result ≢ Err (FileFault.Damaged at place) }
        ensures file { (at place : ℕ) → result ≡ Err (FileFault.Damaged at place) → at ≡ self.old.file.now.file }
        ensures range { IsSameRange self.old self.new }
        ensures seen { D.seen disk.new ≡ D.seen disk.old }
        ensures quiet { Stays ⟦<D as Disk>⟧ disk.old disk.new }
        ensures failed { result ≡ Err FileFault.ReadFault → Rose ⟦<D as Disk>⟧ disk.old disk.new }
        ensures next { self.new.next ≡ self.old.next + 1 }
        ensures counts { Passes ⟦<D as Disk>⟧ disk.old disk.new 1 }
    {
        let number = self.next;
        self.next = number + 1;
        let block = self.file.block(alloc, disk, number)?;
        let (at, until) = part_of(block.as_slice(), self.low, self.high);
        self.block = block;
        self.at = at;
        self.until = until;
        Ok(())
    }
}
