// Opening the files of a region.
ghost use Rattle.std.specs.Prelude.{◌≡◌, ◌≤◌, ◌+◌, ◌++◌, ◌∷◌, [], ℕ, List, map, length, IsTrue, IfOk, OnOk, Ok, Err};
ghost use Rattle.px_outside.specs.OnDisk.{Passes, Rose, Stays};
ghost use Rattle.px_cells.specs.CellData.{CellData};
ghost use Rattle.px_file.specs.Files.{HasBlocks};
ghost use Rattle.px_file.specs.Format.{cells_in};
ghost use Rattle.px_file.specs.Reading.{IsFirstWrongInFile};
ghost use Rattle.px_wal.specs.Files.{file_of};
ghost use Rattle.px_wal.specs.Snapshot.{FileData};
ghost use Rattle.px_wal.specs.SnapshotOf.{file_data};
ghost use Rattle.px_files.specs.Calls.{opening_calls};
ghost use Rattle.px_files.specs.Files.{HaveFiles, IsFirstBad};

use crate::fault::fault_of;
use px_file::RegionFile;
use px_gatelog::StartFault;
use px_outside::Disk;
use px_wal::{FileEntry, local_file};
use std::alloc::{AllocError, Global};

/// Opens a file. It is brought to the disk first, so that a stop leaves it as it is read.
fn open_one<D: Disk>(alloc: Global, disk: &mut D, file: u64) -> Result<RegionFile, StartFault>
    ensures opened { IfOk result (λ opened. (blocks : List (List CellData)) × HasBlocks ⟦<D as Disk>⟧ opened disk.new blocks) }
    ensures file { IfOk result (λ opened. opened.file ≡ file) }
    ensures damaged { (at place : ℕ) → result ≡ Err (StartFault.Damaged at place) → (at ≡ file) × (IsTrue D.tells → IsFirstWrongInFile (D.seen disk.old file) place) }
    ensures seen { D.seen disk.new ≡ D.seen disk.old }
    ensures quiet { Stays ⟦<D as Disk>⟧ disk.old disk.new }
    ensures read_failed { result ≡ Err StartFault.ReadFault → Rose ⟦<D as Disk>⟧ disk.old disk.new }
    ensures write_failed { result ≡ Err StartFault.WriteFault → Rose ⟦<D as Disk>⟧ disk.old disk.new }
    ensures faults { D.faults disk.old ≤ D.faults disk.new }
    ensures counts { IfOk result (λ opened. Passes ⟦<D as Disk>⟧ disk.old disk.new (4 + length opened.index.entries.items)) }
{
    if disk.sync(file).is_err() {
        return Err(StartFault::WriteFault);
    }
    match RegionFile::open(alloc, disk, file) {
        Ok(opened) => Ok(opened),
        Err(fault) => Err(fault_of(fault)),
    }
}

/// Adds a file behind others.
fn add_file(files: &mut Vec<RegionFile>, file: RegionFile) -> Result<(), AllocError>
    ensures { OnOk result (files.new.items ≡ files.old.items ++ file ∷ []) }
{
    files.push(file)?;
    Ok(())
}

/// Opens the files that a region's manifest names, in their order. A stop in the call leaves nothing new. It is Damaged at
/// exactly the first place of the first file that isn't of the format.
pub fn open_files<D: Disk>(
    alloc: Global,
    disk: &mut D,
    region: u32,
    entries: &[FileEntry],
) -> Result<Vec<RegionFile>, StartFault>
    ensures opened { IsTrue D.tells → IfOk result (λ files. (lists : List (List CellData)) × HaveFiles ⟦<D as Disk>⟧ region disk.new (map file_data entries.now) files.items lists) }
    ensures damaged { (file place : ℕ) → IsTrue D.tells → result ≡ Err (StartFault.Damaged file place) → IsFirstBad region (D.seen disk.old) (map file_data entries.now) file place }
    ensures seen { D.seen disk.new ≡ D.seen disk.old }
    ensures quiet { Stays ⟦<D as Disk>⟧ disk.old disk.new }
    ensures read_failed { result ≡ Err StartFault.ReadFault → Rose ⟦<D as Disk>⟧ disk.old disk.new }
    ensures write_failed { result ≡ Err StartFault.WriteFault → Rose ⟦<D as Disk>⟧ disk.old disk.new }
    ensures counts { IfOk result (λ files. Passes ⟦<D as Disk>⟧ disk.old disk.new (opening_calls files.items)) }
{
    let mut files = Vec::new(alloc);
    for entry in entries {
        let file = match open_one(alloc, disk, local_file(region, entry.local)) {
            Ok(file) => file,
            Err(fault) => {
                drop(files);
                return Err(fault);
            }
        };
        match add_file(&mut files, file) {
            Ok(()) => {}
            Err(_) => {
                drop(files);
                return Err(StartFault::Memory);
            }
        }
    }
    Ok(files)
}
