// Gathering the cells of files, step by step.
ghost use Rattle.std.specs.Prelude.{◌≡◌, ◌≢◌, ◌≤◌, ◌<◌, ◌+◌, ◌-◌, ◌++◌, [], ℕ, List, length, get_or, OnOk, IsErr, Ok, Err};
ghost use Rattle.px_outside.specs.OnDisk.{Passes, Rose, Stays};
ghost use Rattle.px_cells.specs.CellData.{CellData};
ghost use Rattle.px_cells.specs.Order.{IsAscending};
ghost use Rattle.px_merge.specs.Settle.{settle};
ghost use Rattle.px_file.specs.declared.region_file.RegionFile.{RegionFile as OpenFile};

use crate::reading::add_block;
use px_cells::{Cell, Cells};
use px_file::RegionFile;
use px_gatelog::StartFault;
use px_memstore::MemStore;
use px_outside::Disk;
use std::alloc::Global;
use std::mem;

/// Whether there is more to gather.
#[derive(Clone, Copy, Debug, PartialEq, Eq)]
pub enum GatherStep {
    More,
    /// All cells are gathered.
    Done,
}

/// The cells of some files, which are gathered from the oldest file to the newest. The newest stands first. After a call that
/// answered an error it is of no use.
#[derive(Drop)]
pub struct Gathering {
    alloc: Global,
    /// What is read of the files that were gathered whole.
    pub(crate) store: MemStore,
    /// How many files are left. Of the last of them so many blocks were read, which have these cells.
    pub(crate) left: usize,
    pub(crate) block: usize,
    pub(crate) cells: Vec<Cell>,
    ghost sorted: { ∥ IsAscending cells.items ∥₁ },
}

impl Gathering {
    ghost use Rattle.px_loading.specs.Gathering.{HasGathered, IsFresh};

    /// Nothing was gathered of so many files.
    pub fn begin(alloc: Global, count: usize) -> Gathering
        ensures { IsFresh count result }
    {
        Gathering {
            alloc,
            store: MemStore::new(alloc),
            left: count,
            block: 0,
            cells: Vec::new(alloc),
        }
    }

    /// How many files are left.
    pub fn left(&self) -> usize
        ensures { result ≡ self.now.left }
    {
        self.left
    }

    /// Reads the next block of the last file that is left.
    fn read<D: Disk>(&mut self, disk: &mut D, file: &RegionFile) -> Result<(), StartFault>
        requires within { self.old.block < length file.now.index.entries.items }
        ensures done { (files : List OpenFile) (blocks : List (List (List CellData))) → 0 < self.old.left → self.old.left ≤ length files → file.now ≡ get_or files (self.old.left - 1) file.now
            → HasGathered ⟦<D as Disk>⟧ self.old disk.old files blocks → OnOk result (HasGathered ⟦<D as Disk>⟧ self.new disk.new files blocks) }
        ensures sound { (files : List OpenFile) (blocks : List (List (List CellData))) (at place : ℕ) → 0 < self.old.left → self.old.left ≤ length files → file.now ≡ get_or files (self.old.left - 1) file.now
            → HasGathered ⟦<D as Disk>⟧ self.old disk.old files blocks → result ≢ Err (StartFault.Damaged at place) }
        ensures left { self.new.left ≡ self.old.left }
        ensures seen { D.seen disk.new ≡ D.seen disk.old }
        ensures quiet { Stays ⟦<D as Disk>⟧ disk.old disk.new }
        ensures read_failed { result ≡ Err StartFault.ReadFault → Rose ⟦<D as Disk>⟧ disk.old disk.new }
        ensures unwritten { result ≢ Err StartFault.WriteFault }
        ensures counts { Passes ⟦<D as Disk>⟧ disk.old disk.new 1 }
    {
        let mut cells = mem::replace(&mut self.cells, Vec::new(self.alloc));
        match add_block(self.alloc, disk, file, self.block, &mut cells) {
            Ok(()) => {
                self.cells = cells;
                self.block += 1;
                Ok(())
            }
            Err(fault) => {
                drop(cells);
                Err(fault)
            }
        }
    }

    /// Puts the cells of a file, of which all blocks were read, over those of the older ones.
    fn put(&mut self) -> Result<(), StartFault>
        requires { 0 < self.old.left }
        ensures done { OnOk result ((self.new.store.cells ≡ settle (self.old.cells.items ++ self.old.store.cells)) × (self.new.cells.items ≡ []) × (self.new.block ≡ 0)) }
        ensures left { self.new.left + 1 ≡ self.old.left }
        ensures fault { IsErr result → result ≡ Err StartFault.Memory }
    {
        let cells = mem::replace(&mut self.cells, Vec::new(self.alloc));
        self.left -= 1;
        self.block = 0;
        match self.store.reserve(cells.len() as u64) {
            Ok(()) => {
                self.store.put(Cells::from_vec(cells));
                Ok(())
            }
            Err(_) => {
                drop(cells);
                Err(StartFault::Memory)
            }
        }
    }

    /// Makes one step: reads a block of the files that it was begun for, or puts the cells of a whole file over those of the older ones. A
    /// stop in the call leaves nothing new. While the disk tells that the files are as they were opened, it isn't Damaged.
    pub fn step<D: Disk>(
        &mut self,
        disk: &mut D,
        files: &[RegionFile],
    ) -> Result<GatherStep, StartFault>
        requires { self.old.left ≤ length files.now }
        ensures done { (blocks : List (List (List CellData))) → HasGathered ⟦<D as Disk>⟧ self.old disk.old files.now blocks → OnOk result (HasGathered ⟦<D as Disk>⟧ self.new disk.new files.now blocks) }
        ensures all { result ≡ Ok GatherStep.Done → self.new.left ≡ 0 }
        ensures left { self.new.left ≤ self.old.left }
        ensures sound { (blocks : List (List (List CellData))) (at place : ℕ) → HasGathered ⟦<D as Disk>⟧ self.old disk.old files.now blocks → result ≢ Err (StartFault.Damaged at place) }
        ensures seen { D.seen disk.new ≡ D.seen disk.old }
        ensures quiet { Stays ⟦<D as Disk>⟧ disk.old disk.new }
        ensures read_failed { result ≡ Err StartFault.ReadFault → Rose ⟦<D as Disk>⟧ disk.old disk.new }
        ensures unwritten { result ≢ Err StartFault.WriteFault }
        ensures counts { Passes ⟦<D as Disk>⟧ disk.old disk.new 1 }
    {
        if self.left == 0 {
            return Ok(GatherStep::Done);
        }
        let file = &files[self.left - 1];
        if self.block < file.blocks() {
            return match self.read(disk, file) {
                Ok(()) => Ok(GatherStep::More),
                Err(fault) => Err(fault),
            };
        }
        match self.put() {
            Ok(()) => Ok(GatherStep::More),
            Err(fault) => Err(fault),
        }
    }

    /// What was gathered.
    pub fn into_cells(self) -> Cells
        ensures { result ≡ self.store.cells }
    {
        let Gathering {
            alloc: _,
            store,
            left: _,
            block: _,
            cells,
        } = self;
        drop(cells);
        store.into_cells()
    }
}
