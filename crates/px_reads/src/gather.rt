// Gathering what sources give.
ghost use Rattle.std.specs.Prelude.{◌≡◌, ◌≢◌, ℕ, List, IsTrue, IfOk, Err};
ghost use Rattle.px_outside.specs.OnDisk.{Rose, Stays};
ghost use Rattle.px_cells.specs.CellData.{CellData};
ghost use Rattle.px_file.specs.declared.fault.FileFault.TheVariants.{ReadFault, Damaged};
ghost use Rattle.px_merge.specs.Merged.{joined};
ghost use Rattle.px_merge.specs.Settle.{settle};
ghost use Rattle.px_sources.specs.Sources.{AllGive};
ghost use Rattle.px_reads.specs.inner.Fronts.{AreFrontRows};

use crate::copies::Copies;
use crate::fault::given;
use px_file::FileFault;
use px_outside::Disk;
use px_sources::{Source, give};
use std::alloc::Global;

/// Copies of the first rows of what sources have together, so many at most.
pub(crate) fn gather<D: Disk>(
    alloc: Global,
    disk: &mut D,
    sources: &mut [Source<'_>],
    most: u64,
) -> Result<Copies, FileFault>
    ensures front { (lists : List (List CellData)) → AllGive ⟦<D as Disk>⟧ sources.old disk.old lists → IfOk result (λ copies. AreFrontRows (settle (joined lists)) most copies.cells.items copies.rows) }
    ensures sound { (lists : List (List CellData)) (at place : ℕ) → AllGive ⟦<D as Disk>⟧ sources.old disk.old lists → result ≢ Err (Damaged at place) }
    ensures seen { D.seen disk.new ≡ D.seen disk.old }
    ensures quiet { Stays ⟦<D as Disk>⟧ disk.old disk.new }
    ensures failed { result ≡ Err ReadFault → Rose ⟦<D as Disk>⟧ disk.old disk.new }
{
    let mut copies = Copies::new(alloc, most);
    let mut looked = 0;
    match give(alloc, disk, sources, &mut copies, &mut looked) {
        Ok(()) => Ok(copies),
        Err(fault) => {
            drop(copies);
            Err(given(fault))
        }
    }
}
