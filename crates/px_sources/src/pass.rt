// Passing a cell in several sources.
ghost use Rattle.std.specs.Prelude.{◌≡◌, ◌≢◌, ◌≤◌, ℕ, List, map, OnOk, Err};
ghost use Rattle.px_outside.specs.OnDisk.{Passes, Rose, Stays};
ghost use Rattle.px_cells.specs.CellData.{CellData};
ghost use Rattle.px_sources.specs.Passed.{behind, place_of};
ghost use Rattle.px_sources.specs.Sources.{AllGive, Gives};

use crate::Source;
use crate::last::Last;
use px_file::FileFault;
use px_outside::Disk;
use std::alloc::Global;

/// Passes the next cell of a source, if it is at a place.
fn pass_at<D: Disk>(
    alloc: Global,
    disk: &mut D,
    source: &mut Source<'_>,
    last: &Last,
) -> Result<(), FileFault>
    ensures passed { (left : List CellData) → Gives ⟦<D as Disk>⟧ source.old disk.old left → OnOk result (Gives ⟦<D as Disk>⟧ source.new disk.new (behind (place_of last.now) left)) }
    ensures sound { (left : List CellData) (at place : ℕ) → Gives ⟦<D as Disk>⟧ source.old disk.old left → result ≢ Err (FileFault.Damaged at place) }
    ensures seen { D.seen disk.new ≡ D.seen disk.old }
    ensures quiet { Stays ⟦<D as Disk>⟧ disk.old disk.new }
    ensures failed { result ≡ Err FileFault.ReadFault → Rose ⟦<D as Disk>⟧ disk.old disk.new }
    ensures faults { D.faults disk.old ≤ D.faults disk.new }
{
    match source.head() {
        None => Ok(()),
        Some(cell) => {
            if last.is_at(cell) {
                source.step(alloc, disk)
            } else {
                Ok(())
            }
        }
    }
}

/// Passes the next cell of each source that has one at a place.
pub(crate) fn pass<D: Disk>(
    alloc: Global,
    disk: &mut D,
    sources: &mut [Source<'_>],
    last: &Last,
) -> Result<(), FileFault>
    ensures passed { (lists : List (List CellData)) → AllGive ⟦<D as Disk>⟧ sources.old disk.old lists → OnOk result (AllGive ⟦<D as Disk>⟧ sources.new disk.new (map (behind (place_of last.now)) lists)) }
    ensures sound { (lists : List (List CellData)) (at place : ℕ) → AllGive ⟦<D as Disk>⟧ sources.old disk.old lists → result ≢ Err (FileFault.Damaged at place) }
    ensures seen { D.seen disk.new ≡ D.seen disk.old }
    ensures quiet { Stays ⟦<D as Disk>⟧ disk.old disk.new }
    ensures failed { result ≡ Err FileFault.ReadFault → Rose ⟦<D as Disk>⟧ disk.old disk.new }
    ensures faults { D.faults disk.old ≤ D.faults disk.new }
{
    for i in 0..sources.len() {
        match pass_at(alloc, disk, &mut sources[i], last) {
            Ok(()) => {}
            Err(fault) => return Err(fault),
        }
    }
    Ok(())
}
