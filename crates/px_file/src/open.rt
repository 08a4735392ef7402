// Opening a file.
ghost use Rattle.std.specs.Prelude.{◌≡◌, ◌≢◌, ◌≤◌, ◌<◌, ◌⊎◌, ◌+◌, ◌-◌, ◌*◌, ◌^◌, ◌++◌, ◌∷◌, [], ◌↔◌, ℕ, true, false, List, length, take, IsTrue, IfOk, IsErr, OnOk, Ok, Err};
ghost use Rattle.px_outside.specs.OnDisk.{Only, Passes, Rose, Stays};
ghost use Rattle.px_cells.specs.CellData.{CellData};
ghost use Rattle.px_block.specs.Block.{IsBlock, IsBlockFull, block_bytes};
ghost use Rattle.px_file.specs.Files.{HasBlocks};
ghost use Rattle.px_file.specs.Format.{letters};
ghost use Rattle.px_file.specs.IndexOf.{IsIndex};
ghost use Rattle.px_file.specs.Reading.{IsFirstWrongInFile};
ghost use Rattle.px_file.specs.inner.Walk.{HasIndex, HasWalked, IsWalked};

use crate::FileFault;
use crate::index::Index;
use crate::reads::{damaged, read_at, read_letters, read_tail};
use crate::region_file::RegionFile;
use crate::walk::Walk;
use px_block::{BLOCK_SIZE, Front, has_count, read_front};
use px_cells::Cells;
use px_outside::Disk;
use std::alloc::{AllocError, Global};

/// The most bytes that a block has: its count, 32,767 bytes of cells and the longest cell.
const BLOCK_MOST: usize = 163_855;

impl Walk {
    /// Nothing was read yet.
    fn new(alloc: Global) -> Walk
        ensures index { IsIndex result.index [] }
        ensures before { result.before ≡ [] }
        ensures more { result.more ≡ true }
    {
        Walk {
            index: Index::new(alloc),
            before: Cells::new(alloc),
            more: true,
        }
    }

    /// Goes on behind a block. The last one before it is let go.
    fn add(&mut self, alloc: Global, front: Front) -> Result<(), AllocError>
        requires block { IsBlock front.cells }
        requires end { front.end ≡ length (block_bytes front.cells) }
        requires count { length self.old.index.entries.items + 1 < 2 ^ 32 }
        ensures added { (blocks : List (List CellData)) → IsIndex self.old.index blocks → OnOk result (IsIndex self.new.index (blocks ++ front.cells ∷ [])) }
        ensures before { OnOk result (self.new.before ≡ front.cells) }
        ensures full { OnOk result ((self.new.more ≡ true) ↔ IsBlockFull front.cells) }
        ensures count { OnOk result (length self.new.index.entries.items ≡ length self.old.index.entries.items + 1) }
    {
        let Front { cells, end } = front;
        self.index.add(alloc, cells.as_slice(), end as u32)?;
        self.more = end >= BLOCK_SIZE + 4;
        self.before = cells;
        Ok(())
    }

    /// Reads the next block, where there is one.
    fn step<D: Disk>(
        &mut self,
        alloc: Global,
        disk: &mut D,
        file: u64,
        window: &mut [u8],
    ) -> Result<(), FileFault>
        requires window { length window.old ≡ 163855 }
        requires more { self.old.more ≡ true }
        requires count { length self.old.index.entries.items < 4294967295 }
        ensures done { (blocks : List (List CellData)) → HasWalked ⟦<D as Disk>⟧ file self.old disk.old blocks → OnOk result (IsWalked ⟦<D as Disk>⟧ file self.new disk.new) }
        ensures wrong { (blocks : List (List CellData)) (at place : ℕ) → HasWalked ⟦<D as Disk>⟧ file self.old disk.old blocks → result ≡ Err (FileFault.Damaged at place)
            → (at ≡ file) × (IsTrue D.tells → IsFirstWrongInFile (D.seen disk.old file) place) }
        ensures count { OnOk result (((self.new.more ≡ false) × (length self.new.index.entries.items ≡ length self.old.index.entries.items)) ⊎ (length self.new.index.entries.items ≡ length self.old.index.entries.items + 1)) }
        ensures window { length window.new ≡ 163855 }
        ensures seen { D.seen disk.new ≡ D.seen disk.old }
        ensures quiet { Stays ⟦<D as Disk>⟧ disk.old disk.new }
        ensures failed { result ≡ Err FileFault.ReadFault → Rose ⟦<D as Disk>⟧ disk.old disk.new }
        ensures counts { Passes ⟦<D as Disk>⟧ disk.old disk.new 1 }
    {
        let n = read_at(disk, file, self.index.end, window)?;
        let bytes = &window[..n];
        if !has_count(bytes) {
            self.more = false;
            return Ok(());
        }
        match read_front(alloc, bytes, self.before.as_slice()) {
            Ok(front) => {
                self.add(alloc, front)?;
                Ok(())
            }
            Err(fault) => Err(damaged(file, self.index.end, fault)),
        }
    }
}

/// Reads all blocks that are left.
fn read_blocks<D: Disk>(
    alloc: Global,
    disk: &mut D,
    file: u64,
    window: &mut [u8],
    walk: &mut Walk,
) -> Result<(), FileFault>
    requires { length window.old ≡ 163855 }
    ensures read { IsWalked ⟦<D as Disk>⟧ file walk.old disk.old → OnOk result (HasIndex ⟦<D as Disk>⟧ file walk.new.index disk.new) }
    ensures wrong { (at place : ℕ) → IsWalked ⟦<D as Disk>⟧ file walk.old disk.old → result ≡ Err (FileFault.Damaged at place) → (at ≡ file) × (IsTrue D.tells → IsFirstWrongInFile (D.seen disk.old file) place) }
    ensures seen { D.seen disk.new ≡ D.seen disk.old }
    ensures quiet { Stays ⟦<D as Disk>⟧ disk.old disk.new }
    ensures failed { result ≡ Err FileFault.ReadFault → Rose ⟦<D as Disk>⟧ disk.old disk.new }
    ensures faults { D.faults disk.old ≤ D.faults disk.new }
    ensures counts { OnOk result (Passes ⟦<D as Disk>⟧ disk.old disk.new (1 + (length walk.new.index.entries.items - length walk.old.index.entries.items))) }
{
    while walk.goes_on() {
        match walk.step(alloc, disk, file, window) {
            Ok(()) => {}
            Err(fault) => return Err(fault),
        }
    }
    Ok(())
}

/// Reads the blocks of a file that begins with the first letters, and answers their index.
fn read_index<D: Disk>(alloc: Global, disk: &mut D, file: u64) -> Result<Index, FileFault>
    ensures read { (IsTrue D.tells → take 8 (D.seen disk.old file) ≡ letters) → IfOk result (λ index. HasIndex ⟦<D as Disk>⟧ file index disk.new) }
    ensures wrong { (at place : ℕ) → (IsTrue D.tells → take 8 (D.seen disk.old file) ≡ letters) → result ≡ Err (FileFault.Damaged at place)
        → (at ≡ file) × (IsTrue D.tells → IsFirstWrongInFile (D.seen disk.old file) place) }
    ensures seen { D.seen disk.new ≡ D.seen disk.old }
    ensures quiet { Stays ⟦<D as Disk>⟧ disk.old disk.new }
    ensures failed { result ≡ Err FileFault.ReadFault → Rose ⟦<D as Disk>⟧ disk.old disk.new }
    ensures faults { D.faults disk.old ≤ D.faults disk.new }
    ensures counts { IfOk result (λ index. Passes ⟦<D as Disk>⟧ disk.old disk.new (1 + length index.entries.items)) }
{
    let mut walk = Walk::new(alloc);
    let mut window = vec![in alloc; 0u8; BLOCK_MOST]?;
    match read_blocks(alloc, disk, file, &mut window, &mut walk) {
        Ok(()) => {}
        Err(fault) => return Err(fault),
    }
    let Walk {
        index,
        before,
        more: _,
    } = walk;
    drop(before);
    Ok(index)
}

impl RegionFile {
    /// Opens a file: it is read whole, a block at a time, and tested. Of each block the cells are let go once the next is
    /// tested.
    pub fn open<D: Disk>(alloc: Global, disk: &mut D, file: u64) -> Result<RegionFile, FileFault>
        ensures opened { Only ⟦<D as Disk>⟧ disk.old file → IfOk result (λ opened. (blocks : List (List CellData)) × HasBlocks ⟦<D as Disk>⟧ opened disk.new blocks) }
        ensures file { IfOk result (λ opened. opened.file ≡ file) }
        ensures damaged { (at place : ℕ) → result ≡ Err (FileFault.Damaged at place) → (at ≡ file) × (IsTrue D.tells → IsFirstWrongInFile (D.seen disk.old file) place) }
        ensures seen { D.seen disk.new ≡ D.seen disk.old }
        ensures quiet { Stays ⟦<D as Disk>⟧ disk.old disk.new }
        ensures failed { result ≡ Err FileFault.ReadFault → Rose ⟦<D as Disk>⟧ disk.old disk.new }
        ensures faults { D.faults disk.old ≤ D.faults disk.new }

        // The letters, each block, perhaps a read that finds no further one, index and footer.
        ensures counts { IfOk result (λ opened. Passes ⟦<D as Disk>⟧ disk.old disk.new (3 + length opened.index.entries.items)) }
    {
        match read_letters(disk, file) {
            Ok(()) => {}
            Err(fault) => return Err(fault),
        }
        match read_index(alloc, disk, file) {
            Ok(index) => finish(alloc, disk, file, index),
            Err(fault) => Err(fault),
        }
    }
}

/// The file of an index, behind which index and footer must stand.
fn finish<D: Disk>(
    alloc: Global,
    disk: &mut D,
    file: u64,
    index: Index,
) -> Result<RegionFile, FileFault>
    ensures opened { HasIndex ⟦<D as Disk>⟧ file index disk.old → Only ⟦<D as Disk>⟧ disk.old file → IfOk result (λ opened. (blocks : List (List CellData)) × HasBlocks ⟦<D as Disk>⟧ opened disk.new blocks) }
    ensures file { IfOk result (λ opened. opened.file ≡ file) }
    ensures damaged { (at place : ℕ) → HasIndex ⟦<D as Disk>⟧ file index disk.old → result ≡ Err (FileFault.Damaged at place) → (at ≡ file) × (IsTrue D.tells → IsFirstWrongInFile (D.seen disk.old file) place) }
    ensures seen { D.seen disk.new ≡ D.seen disk.old }
    ensures quiet { Stays ⟦<D as Disk>⟧ disk.old disk.new }
    ensures failed { result ≡ Err FileFault.ReadFault → Rose ⟦<D as Disk>⟧ disk.old disk.new }
    ensures faults { D.faults disk.old ≤ D.faults disk.new }
    ensures index { IfOk result (λ opened. opened.index ≡ index) }
    ensures counts { Passes ⟦<D as Disk>⟧ disk.old disk.new 1 }
{
    match read_tail(alloc, disk, file, &index) {
        Ok(()) => Ok(RegionFile { file, index }),
        Err(fault) => {
            drop(index);
            Err(fault)
        }
    }
}
