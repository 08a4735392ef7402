// Making a file.
ghost use Rattle.std.specs.Prelude.{◌≡◌, ◌≢◌, ◌≤◌, ℕ, List, length, IfOk, OnOk, IsErr, Ok, Err};
ghost use Rattle.px_outside.specs.OnDisk.{Passes, Rose, TouchesOnly};
ghost use Rattle.px_cells.specs.CellData.{CellData};
ghost use Rattle.px_cellbytes.specs.Reading.{IsWritten};

use px_cells::Cell;
use px_file::{FileWriter, MakeFault, RegionFile};
use px_outside::Disk;
use std::alloc::Global;

/// Whether there are more cells to write.
#[derive(Clone, Copy, Debug, PartialEq, Eq)]
pub enum MakeStep {
    More,
    /// All cells are written: the file may be finished.
    Done,
}

/// A file that is being made of a list of cells. After a call that answered `WriteFault` it is of no use.
#[derive(Drop)]
pub struct Making {
    pub(crate) writer: FileWriter,
    /// How many of the cells are written.
    pub(crate) done: usize,
}

impl Making {
    ghost use Rattle.px_making.specs.Making.{HasCells, IsFileMade, IsMaking, file_made};

    /// Begins a file, whatever its cells will be: it is cut to nothing, and its first bytes are written.
    pub fn begin<D: Disk>(alloc: Global, disk: &mut D, file: u64) -> Result<Making, MakeFault>
        ensures begun { (cells : List CellData) → IfOk result (λ making. IsMaking ⟦<D as Disk>⟧ making disk.new cells) }
        ensures file { IfOk result (λ making. file_made making ≡ file) }
        ensures failed { result ≡ Err MakeFault.WriteFault → Rose ⟦<D as Disk>⟧ disk.old disk.new }
        ensures never { result ≢ Err MakeFault.Full }
        ensures touches { TouchesOnly ⟦<D as Disk>⟧ disk.old disk.new (λ touched. touched ≡ file) }
        ensures counts { Passes ⟦<D as Disk>⟧ disk.old disk.new 3 }
    {
        let writer = FileWriter::begin(alloc, disk, file)?;
        Ok(Making { writer, done: 0 })
    }

    /// Writes the next block of the cells, if there are more. Nothing was written where it is `Full` or memory was refused.
    pub fn step<D: Disk>(
        &mut self,
        alloc: Global,
        disk: &mut D,
        cells: &[Cell],
    ) -> Result<MakeStep, MakeFault>
        requires { IsWritten cells.now }
        ensures done { IsMaking ⟦<D as Disk>⟧ self.old disk.old cells.now → OnOk result (IsMaking ⟦<D as Disk>⟧ self.new disk.new cells.now) }
        ensures all { IsMaking ⟦<D as Disk>⟧ self.old disk.old cells.now → result ≡ Ok MakeStep.Done → HasCells ⟦<D as Disk>⟧ self.new disk.new cells.now }
        ensures file { file_made self.new ≡ file_made self.old }
        ensures failed { result ≡ Err MakeFault.WriteFault → Rose ⟦<D as Disk>⟧ disk.old disk.new }
        ensures unwritten { IsErr result → result ≢ Err MakeFault.WriteFault → disk.new ≡ disk.old }
        ensures touches { TouchesOnly ⟦<D as Disk>⟧ disk.old disk.new (λ touched. touched ≡ file_made self.old) }
        ensures counts { Passes ⟦<D as Disk>⟧ disk.old disk.new 1 }
    {
        if self.done >= cells.len() {
            return Ok(MakeStep::Done);
        }
        if !self.writer.goes_on() {
            return Ok(MakeStep::Done);
        }
        let n = self.writer.step(alloc, disk, &cells[self.done..])?;
        self.done += n;
        Ok(MakeStep::More)
    }

    /// Writes index and footer, and brings the file to the disk.
    pub fn finish<D: Disk>(self, alloc: Global, disk: &mut D) -> Result<RegionFile, MakeFault>
        ensures done { (cells : List CellData) → HasCells ⟦<D as Disk>⟧ self disk.old cells → IfOk result (λ file. IsFileMade ⟦<D as Disk>⟧ file disk.new cells) }
        ensures file { IfOk result (λ file. file.file ≡ file_made self) }
        ensures failed { result ≡ Err MakeFault.WriteFault → Rose ⟦<D as Disk>⟧ disk.old disk.new }
        ensures never { result ≢ Err MakeFault.Full }
        ensures touches { TouchesOnly ⟦<D as Disk>⟧ disk.old disk.new (λ touched. touched ≡ file_made self) }
        ensures counts { Passes ⟦<D as Disk>⟧ disk.old disk.new 2 }
    {
        let Making { writer, done: _ } = self;
        writer.finish(alloc, disk)
    }
}
