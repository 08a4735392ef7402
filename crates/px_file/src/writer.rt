// Making a file.
ghost use Rattle.std.specs.Prelude.{◌≡◌, ◌≢◌, ◌≤◌, ◌<◌, ◌+◌, ◌*◌, ◌^◌, ◌++◌, ◌∷◌, [], ◌↔◌, ℕ, true, false, List, length, take, IsTrue, IfOk, IsErr, OnOk, Err};
ghost use Rattle.std.specs.List.{AllByRecursion};
ghost use Rattle.px_outside.specs.OnDisk.{Passes, Rose, TouchesOnly};
ghost use Rattle.px_cells.specs.CellData.{CellData};
ghost use Rattle.px_cellbytes.specs.Spelling.{IsShortEnough};
ghost use Rattle.px_cellbytes.specs.Reading.{IsWritten};
ghost use Rattle.px_block.specs.Block.{IsBlock, IsBlockFull, IsClosedBlock, block_bytes};
ghost use Rattle.px_block.specs.Reading.{ComesAfter};
ghost use Rattle.px_file.specs.Format.{cells_in};
ghost use Rattle.px_file.specs.Files.{HasBlocks, HasWrittenBlocks};

use crate::MakeFault;
use crate::index::Index;
use crate::region_file::RegionFile;
use crate::tail::tail;
use px_block::{BLOCK_SIZE, write_block};
use px_cellbytes::size_of;
use px_cells::Cell;
use px_outside::{Disk, write_through};
use std::alloc::{AllocError, Global};

/// The first bytes of a file, `PHXFIL01`.
pub(crate) const LETTERS: [u8; 8] = [80, 72, 88, 70, 73, 76, 48, 49];

/// How many blocks a file may have.
pub(crate) const MOST_BLOCKS: usize = 4_294_967_295;

/// A file that is being made, a block at a time. After a call that answered `WriteFault` it is of no use.
#[derive(Drop)]
pub struct FileWriter {
    pub(crate) file: u64,
    pub(crate) index: Index,
    /// Whether each block is full.
    pub(crate) full: bool,
}

/// How many of the cells make the next block.
fn block_len(cells: &[Cell]) -> usize
    requires some { 1 ≤ length cells.now }
    requires short { AllByRecursion IsShortEnough cells.now }
    ensures some { 1 ≤ result }
    ensures within { result ≤ length cells.now }
    ensures closed { IsClosedBlock (take result cells.now) }
    ensures full { result < length cells.now → IsBlockFull (take result cells.now) }
{
    let mut size = 0;
    for (i, cell) in cells.iter().enumerate() {
        size += size_of(cell);
        if size >= BLOCK_SIZE {
            return i + 1;
        }
    }
    cells.len()
}

/// The bytes of a block.
fn spell(alloc: Global, block: &[Cell]) -> Result<Vec<u8>, AllocError>
    requires { IsBlock block.now }
    ensures spelled { IfOk result (λ bytes. bytes.items ≡ block_bytes block.now) }
    ensures small { IfOk result (λ bytes. length bytes.items ≤ 163855) }
    ensures full { IfOk result (λ bytes. (32772 ≤ length bytes.items) ↔ IsBlockFull block.now) }
{
    let mut bytes = Vec::new(alloc);
    write_block(block, &mut bytes)?;
    Ok(bytes)
}

impl FileWriter {
    /// Begins a file: it is cut to nothing, this is brought to the disk, and the first bytes are written.
    pub fn begin<D: Disk>(alloc: Global, disk: &mut D, file: u64) -> Result<FileWriter, MakeFault>
        ensures begun { IfOk result (λ writer. HasWrittenBlocks ⟦<D as Disk>⟧ writer disk.new []) }
        ensures file { IfOk result (λ writer. (writer.file ≡ file) × (writer.full ≡ true)) }
        ensures failed { result ≡ Err MakeFault.WriteFault → Rose ⟦<D as Disk>⟧ disk.old disk.new }
        ensures never { result ≢ Err MakeFault.Full }
        ensures touches { TouchesOnly ⟦<D as Disk>⟧ disk.old disk.new (λ touched. touched ≡ file) }
        ensures counts { Passes ⟦<D as Disk>⟧ disk.old disk.new 3 }
    {
        disk.cut(file, 0)?;
        disk.sync(file)?;
        disk.write(file, 0, &LETTERS)?;
        Ok(FileWriter {
            file,
            index: Index::new(alloc),
            full: true,
        })
    }

    /// Whether a further block may be written: each so far is full.
    pub fn goes_on(&self) -> bool
        ensures { result ≡ self.now.full }
    {
        self.full
    }

    /// Writes the next block, and answers how many of the cells it has: so many that it is full, or all. Where it isn't
    /// full, it is the last. One block's bytes are in memory. Nothing was written where it is `Full` or memory was refused.
    pub fn step<D: Disk>(
        &mut self,
        alloc: Global,
        disk: &mut D,
        cells: &[Cell],
    ) -> Result<usize, MakeFault>
        requires goes_on { self.old.full ≡ true }
        requires some { 1 ≤ length cells.now }
        requires written { IsWritten cells.now }
        ensures done { (blocks : List (List CellData)) → HasWrittenBlocks ⟦<D as Disk>⟧ self.old disk.old blocks → ComesAfter (cells_in blocks) cells.now
            → IfOk result (λ n. HasWrittenBlocks ⟦<D as Disk>⟧ self.new disk.new (blocks ++ take n cells.now ∷ [])) }
        ensures taken { IfOk result (λ n. (1 ≤ n) × (n ≤ length cells.now)) }
        ensures goes_on { IfOk result (λ n. n < length cells.now → self.new.full ≡ true) }
        ensures file { self.new.file ≡ self.old.file }
        ensures full { result ≡ Err MakeFault.Full → length self.old.index.entries.items ≡ 4294967295 }
        ensures failed { result ≡ Err MakeFault.WriteFault → Rose ⟦<D as Disk>⟧ disk.old disk.new }
        ensures unwritten { IsErr result → result ≢ Err MakeFault.WriteFault → disk.new ≡ disk.old }
        ensures touches { TouchesOnly ⟦<D as Disk>⟧ disk.old disk.new (λ touched. touched ≡ self.old.file) }
        ensures counts { Passes ⟦<D as Disk>⟧ disk.old disk.new 1 }
    {
        if self.index.entries.len() >= MOST_BLOCKS {
            return Err(MakeFault::Full);
        }
        let n = block_len(cells);
        let block = &cells[..n];
        let bytes = spell(alloc, block)?;
        let at = self.index.end;
        self.index.add(alloc, block, bytes.len() as u32)?;
        self.full = bytes.len() >= BLOCK_SIZE + 4;
        disk.write(self.file, at, &bytes)?;
        Ok(n)
    }

    /// Writes the index and the footer, and brings the file to the disk.
    pub fn finish<D: Disk>(self, alloc: Global, disk: &mut D) -> Result<RegionFile, MakeFault>
        ensures done { (blocks : List (List CellData)) → HasWrittenBlocks ⟦<D as Disk>⟧ self disk.old blocks → IfOk result (λ file. HasBlocks ⟦<D as Disk>⟧ file disk.new blocks) }
        ensures file { IfOk result (λ file. file.file ≡ self.file) }
        ensures failed { result ≡ Err MakeFault.WriteFault → Rose ⟦<D as Disk>⟧ disk.old disk.new }
        ensures never { result ≢ Err MakeFault.Full }
        ensures touches { TouchesOnly ⟦<D as Disk>⟧ disk.old disk.new (λ touched. touched ≡ self.file) }
        ensures counts { Passes ⟦<D as Disk>⟧ disk.old disk.new 2 }
    {
        let FileWriter {
            file,
            index,
            full: _,
        } = self;
        let bytes = tail(alloc, &index)?;
        write_through(disk, file, index.end, &bytes)?;
        Ok(RegionFile { file, index })
    }
}
