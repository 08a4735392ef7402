// The file of a flush, step by step.
ghost use Rattle.std.specs.Prelude.{◌≡◌, ◌≢◌, ℕ, List, IsTrue, Some, None, Err};
ghost use Rattle.px_outside.specs.OnDisk.{Passes, Rose, Stays, TouchesOnly};
ghost use Rattle.px_cells.specs.CellData.{CellData};
ghost use Rattle.px_cellbytes.specs.Reading.{IsWritten};
ghost use Rattle.px_making.specs.Making.{HasCells, IsFileMade, IsMaking, file_made};
ghost use Rattle.px_flushing.specs.Stage.{IsStage};
ghost use Rattle.px_flushing.specs.declared.fault.FlushFault.TheVariants.{Damaged, ReadFault, WriteFault};

use crate::FlushFault;
use crate::fault::of_make;
use px_cells::Cell;
use px_file::RegionFile;
use px_making::{MakeStep, Making};
use px_outside::Disk;
use std::alloc::Global;

/// How far the file of a flush is.
#[derive(Drop)]
pub enum Stage {
    /// Nothing of it counts.
    Frozen,
    /// Some of its cells are written.
    Making(Making),
    /// All are.
    Written(Making),
    /// It is made, and no manifest names it.
    Made(RegionFile),
    /// The same, and it has so many bytes.
    Measured(RegionFile, u64),
}

/// Begins the file.
fn begin<D: Disk>(alloc: Global, disk: &mut D, file: u64) -> (Stage, Option<FlushFault>)
    ensures stands { (cells : List CellData) → IsStage ⟦<D as Disk>⟧ file disk.new cells result.0 }
    ensures read_failed { result.1 ≢ Some ReadFault }
    ensures write_failed { result.1 ≡ Some WriteFault → Rose ⟦<D as Disk>⟧ disk.old disk.new }
    ensures sound { result.1 ≢ Some Damaged }
    ensures touches { TouchesOnly ⟦<D as Disk>⟧ disk.old disk.new (λ touched. touched ≡ file) }
    ensures counts { Passes ⟦<D as Disk>⟧ disk.old disk.new 3 }
{
    match Making::begin(alloc, disk, file) {
        Ok(making) => (Stage::Making(making), None),
        Err(fault) => (Stage::Frozen, Some(of_make(fault))),
    }
}

/// Writes the next block.
fn write<D: Disk>(
    alloc: Global,
    disk: &mut D,
    mut making: Making,
    cells: &[Cell],
) -> (Stage, Option<FlushFault>)
    requires { IsWritten cells.now }
    ensures stands { (file : ℕ) → file_made making ≡ file → IsMaking ⟦<D as Disk>⟧ making disk.old cells.now → IsStage ⟦<D as Disk>⟧ file disk.new cells.now result.0 }
    ensures read_failed { result.1 ≢ Some ReadFault }
    ensures write_failed { result.1 ≡ Some WriteFault → Rose ⟦<D as Disk>⟧ disk.old disk.new }
    ensures sound { result.1 ≢ Some Damaged }
    ensures touches { TouchesOnly ⟦<D as Disk>⟧ disk.old disk.new (λ touched. touched ≡ file_made making) }
    ensures counts { Passes ⟦<D as Disk>⟧ disk.old disk.new 1 }
{
    match making.step(alloc, disk, cells) {
        Ok(MakeStep::More) => (Stage::Making(making), None),
        Ok(MakeStep::Done) => (Stage::Written(making), None),
        Err(fault) => {
            drop(making);
            (Stage::Frozen, Some(of_make(fault)))
        }
    }
}

/// Writes what stands behind the blocks.
fn finish<D: Disk>(alloc: Global, disk: &mut D, making: Making) -> (Stage, Option<FlushFault>)
    ensures stands { (file : ℕ) (cells : List CellData) → file_made making ≡ file → HasCells ⟦<D as Disk>⟧ making disk.old cells → IsStage ⟦<D as Disk>⟧ file disk.new cells result.0 }
    ensures read_failed { result.1 ≢ Some ReadFault }
    ensures write_failed { result.1 ≡ Some WriteFault → Rose ⟦<D as Disk>⟧ disk.old disk.new }
    ensures sound { result.1 ≢ Some Damaged }
    ensures touches { TouchesOnly ⟦<D as Disk>⟧ disk.old disk.new (λ touched. touched ≡ file_made making) }
    ensures counts { Passes ⟦<D as Disk>⟧ disk.old disk.new 2 }
{
    match making.finish(alloc, disk) {
        Ok(made) => (Stage::Made(made), None),
        Err(fault) => (Stage::Frozen, Some(of_make(fault))),
    }
}

/// Finds out how many bytes the file has.
fn measure<D: Disk>(disk: &mut D, file: u64, made: RegionFile) -> (Stage, Option<FlushFault>)
    ensures stands { (cells : List CellData) → made.file ≡ file → IsFileMade ⟦<D as Disk>⟧ made disk.old cells → IsStage ⟦<D as Disk>⟧ file disk.new cells result.0 }
    ensures read_failed { result.1 ≡ Some ReadFault → Rose ⟦<D as Disk>⟧ disk.old disk.new }
    ensures write_failed { result.1 ≢ Some WriteFault }
    ensures sound { result.1 ≢ Some Damaged }
    ensures touches { TouchesOnly ⟦<D as Disk>⟧ disk.old disk.new (λ touched. touched ≡ file) }
    ensures counts { Passes ⟦<D as Disk>⟧ disk.old disk.new 1 }
{
    match disk.len(file) {
        Ok(len) => (Stage::Measured(made, len), None),
        Err(_) => (Stage::Made(made), Some(FlushFault::ReadFault)),
    }
}

/// Makes the next step of the file of these cells. Where it isn't made, the file is begun again, but for a length that couldn't
/// be read. A measured file stays.
pub(crate) fn advance<D: Disk>(
    alloc: Global,
    disk: &mut D,
    file: u64,
    cells: &[Cell],
    stage: Stage,
) -> (Stage, Option<FlushFault>)
    requires { IsWritten cells.now }
    ensures stands { IsStage ⟦<D as Disk>⟧ file disk.old cells.now stage → IsStage ⟦<D as Disk>⟧ file disk.new cells.now result.0 }
    ensures read_failed { result.1 ≡ Some ReadFault → Rose ⟦<D as Disk>⟧ disk.old disk.new }
    ensures write_failed { result.1 ≡ Some WriteFault → Rose ⟦<D as Disk>⟧ disk.old disk.new }
    ensures sound { result.1 ≢ Some Damaged }
    ensures touches { IsStage ⟦<D as Disk>⟧ file disk.old cells.now stage → TouchesOnly ⟦<D as Disk>⟧ disk.old disk.new (λ touched. touched ≡ file) }
    ensures counts { Passes ⟦<D as Disk>⟧ disk.old disk.new 4 }
{
    match stage {
        Stage::Frozen => begin(alloc, disk, file),
        Stage::Making(making) => write(alloc, disk, making, cells),
        Stage::Written(making) => finish(alloc, disk, making),
        Stage::Made(made) => measure(disk, file, made),
        Stage::Measured(made, len) => (Stage::Measured(made, len), None),
    }
}
