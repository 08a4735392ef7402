// Reading an open file.
ghost use Rattle.std.specs.Prelude.{◌≡◌, ◌≢◌, ◌<◌, [], ℕ, List, length, get_or, IsTrue, IfOk, Err};
ghost use Rattle.px_outside.specs.OnDisk.{Passes, Rose, Stays};
ghost use Rattle.px_cells.specs.CellData.{CellData};
ghost use Rattle.px_cells.specs.Order.{IsCellList};
ghost use Rattle.px_file.specs.Files.{HasBlocks};

use crate::FileFault;
use crate::reads::{damaged, read_bytes};
use crate::region_file::RegionFile;
use px_block::read_block;
use px_cells::Cells;
use px_outside::Disk;
use std::alloc::Global;

impl RegionFile {
    /// The number of the file.
    pub fn number(&self) -> u64
        ensures { result ≡ self.now.file }
    {
        self.file
    }

    /// How many blocks the file has.
    pub fn blocks(&self) -> usize
        ensures { result ≡ length self.now.index.entries.items }
    {
        self.index.entries.len()
    }

    /// How many cells it has.
    pub fn cells(&self) -> u64
        ensures { result ≡ self.now.index.cells }
    {
        self.index.cells
    }

    /// Their greatest stamp, or 0.
    pub fn stamp(&self) -> u64
        ensures { result ≡ self.now.index.stamp }
    {
        self.index.stamp
    }

    /// Reads a block of the file, by one read. While nothing has changed the file, it isn't damaged.
    pub fn block<D: Disk>(
        &self,
        alloc: Global,
        disk: &mut D,
        number: usize,
    ) -> Result<Cells, FileFault>
        requires { number < length self.now.index.entries.items }
        ensures cells { (blocks : List (List CellData)) → HasBlocks ⟦<D as Disk>⟧ self.now disk.old blocks → IsTrue D.tells → IfOk result (λ cells. cells ≡ get_or blocks number []) }
        ensures listed { IfOk result (λ cells. IsCellList cells) }
        ensures damaged { (blocks : List (List CellData)) (at place : ℕ) → HasBlocks ⟦<D as Disk>⟧ self.now disk.old blocks → IsTrue D.tells → result ≢ Err (FileFault.Damaged at place) }
        ensures file { (at place : ℕ) → result ≡ Err (FileFault.Damaged at place) → at ≡ self.now.file }
        ensures seen { D.seen disk.new ≡ D.seen disk.old }
        ensures quiet { Stays ⟦<D as Disk>⟧ disk.old disk.new }
        ensures failed { result ≡ Err FileFault.ReadFault → Rose ⟦<D as Disk>⟧ disk.old disk.new }
        ensures counts { Passes ⟦<D as Disk>⟧ disk.old disk.new 1 }
    {
        let entry = &self.index.entries[number];
        let bytes = read_bytes(alloc, disk, self.file, entry.place, entry.len)?;
        match read_block(alloc, &bytes) {
            Ok(cells) => Ok(cells),
            Err(fault) => Err(damaged(self.file, entry.place, fault)),
        }
    }
}
