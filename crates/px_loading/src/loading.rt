// Loading a region's files.
ghost use Rattle.std.specs.Prelude.{◌≡◌, ◌≢◌, ◌++◌, ℕ, List, IsTrue, IfOk, IsErr, Err};
ghost use Rattle.px_outside.specs.OnDisk.{Passes, Rose, Stays};
ghost use Rattle.px_cells.specs.CellData.{CellData};
ghost use Rattle.px_cells.specs.Order.{IsAscending};
ghost use Rattle.px_merge.specs.Merged.{joined};
ghost use Rattle.px_merge.specs.Settle.{settle};
ghost use Rattle.px_wal.specs.Snapshot.{FileData};
ghost use Rattle.px_files.specs.Files.{HaveFiles};
ghost use Rattle.px_loading.specs.Calls.{loading_calls};

use crate::reading::file_cells;
use px_cells::Cells;
use px_file::RegionFile;
use px_gatelog::StartFault;
use px_memstore::MemStore;
use px_outside::Disk;
use std::alloc::Global;

/// Puts newer cells over a store. Of two cells at one place the newer is kept.
fn put_over(store: MemStore, newer: Cells) -> Result<MemStore, StartFault>
    requires { IsAscending newer }
    ensures put { IfOk result (λ m. m.cells ≡ settle (newer ++ store.cells)) }
    ensures fault { IsErr result → result ≡ Err StartFault.Memory }
{
    let mut store = store;
    match store.reserve(newer.len() as u64) {
        Ok(()) => {}
        Err(_) => {
            drop(store);
            drop(newer);
            return Err(StartFault::Memory);
        }
    }
    store.put(newer);
    Ok(store)
}

/// The cells of some files. The newest stands first, and is put over the others.
fn load_files<D: Disk>(
    alloc: Global,
    disk: &mut D,
    files: &[RegionFile],
) -> Result<MemStore, StartFault>
    ensures loaded { (region : ℕ) (named : List FileData) (lists : List (List CellData)) → IsTrue D.tells → HaveFiles ⟦<D as Disk>⟧ region disk.old named files.now lists → IfOk result (λ m. m.cells ≡ settle (joined lists)) }
    ensures sound { (region : ℕ) (named : List FileData) (lists : List (List CellData)) → IsTrue D.tells → HaveFiles ⟦<D as Disk>⟧ region disk.old named files.now lists → (file place : ℕ) → result ≢ Err (StartFault.Damaged file place) }
    ensures seen { D.seen disk.new ≡ D.seen disk.old }
    ensures quiet { Stays ⟦<D as Disk>⟧ disk.old disk.new }
    ensures read_failed { result ≡ Err StartFault.ReadFault → Rose ⟦<D as Disk>⟧ disk.old disk.new }
    ensures unwritten { result ≢ Err StartFault.WriteFault }
    ensures counts { Passes ⟦<D as Disk>⟧ disk.old disk.new (loading_calls files.now) }
{
    match files {
        [] => Ok(MemStore::new(alloc)),
        [first, rest @ ..] => {
            let older = match load_files(alloc, disk, rest) {
                Ok(older) => older,
                Err(fault) => return Err(fault),
            };
            match file_cells(alloc, disk, first) {
                Ok(cells) => put_over(older, cells),
                Err(fault) => {
                    drop(older);
                    Err(fault)
                }
            }
        }
    }
}

/// The cells of a region's files with those of its log over them. Each block is read once. The newest file stands first, and
/// hides the older ones. Where there is no file, the log's store is given back. A stop in the call leaves nothing new, and it
/// isn't Damaged while the disk tells that the files are as they were opened.
pub fn load<D: Disk>(
    alloc: Global,
    disk: &mut D,
    store: MemStore,
    files: &[RegionFile],
) -> Result<MemStore, StartFault>
    ensures loaded { (region : ℕ) (named : List FileData) (lists : List (List CellData)) → IsTrue D.tells → HaveFiles ⟦<D as Disk>⟧ region disk.old named files.now lists → IfOk result (λ m. m.cells ≡ settle (store.cells ++ joined lists)) }
    ensures sound { (region : ℕ) (named : List FileData) (lists : List (List CellData)) → IsTrue D.tells → HaveFiles ⟦<D as Disk>⟧ region disk.old named files.now lists → (file place : ℕ) → result ≢ Err (StartFault.Damaged file place) }
    ensures seen { D.seen disk.new ≡ D.seen disk.old }
    ensures quiet { Stays ⟦<D as Disk>⟧ disk.old disk.new }
    ensures read_failed { result ≡ Err StartFault.ReadFault → Rose ⟦<D as Disk>⟧ disk.old disk.new }
    ensures unwritten { result ≢ Err StartFault.WriteFault }
    ensures counts { Passes ⟦<D as Disk>⟧ disk.old disk.new (loading_calls files.now) }
{
    if files.is_empty() {
        // A store's cells are sorted.
        let _count = store.piece_count();
        return Ok(store);
    }
    match load_files(alloc, disk, files) {
        Ok(older) => put_over(older, store.into_cells()),
        Err(fault) => {
            drop(store);
            Err(fault)
        }
    }
}
