// Opening a region.
ghost use Rattle.std.specs.Prelude.{◌≡◌, ◌+◌, ℕ, List, IsTrue, IfOk, Err};
ghost use Rattle.px_outside.specs.OnDisk.{Passes, Rose, Stays};

use crate::Region;
use crate::stamps::LeastStamps;
use px_flushing::Flushing;
use px_gatelog::StartFault;
use px_loading::load;
use px_outside::Disk;
use px_wal::{Manifest, Replayed, Wal};
use std::alloc::Global;

impl Region {
    ghost use Rattle.px_region.specs.Region.{RegionData, RegionHolds, RegionStands};
    ghost use Rattle.px_region.specs.Opened.{IsAssembled, IsFirstDamagedInRegion};
    ghost use Rattle.px_files.specs.Calls.{opening_calls};
    ghost use Rattle.px_files.specs.Files.{IsFirstBad};
    ghost use Rattle.px_loading.specs.Calls.{loading_calls};
    ghost use Rattle.px_region.specs.Calls.{IsOpenedBy};
    ghost use Rattle.px_wal.specs.Batches.{LogBatch};
    ghost use Rattle.px_wal.specs.Manifest.{HasSnapshot, named_snapshot};
    ghost use Rattle.px_wal.specs.Wal.{HasBatches, IsStoredAbove};

    /// The region of what was read of its manifest and its log, once its files are opened.
    fn assembled<D: Disk>(
        alloc: Global,
        disk: &mut D,
        number: u32,
        manifest: Manifest,
        replayed: Replayed,
    ) -> Result<Region, StartFault>
        ensures opened { (batches : List LogBatch) → IsTrue D.tells → HasSnapshot ⟦<D as Disk>⟧ number manifest disk.old → HasBatches ⟦<D as Disk>⟧ number (named_snapshot manifest).flushed replayed.wal disk.old batches → IsStoredAbove (named_snapshot manifest).flushed batches replayed
            → IfOk result (λ region. IsAssembled ⟦<D as Disk>⟧ number (D.seen disk.old) (named_snapshot manifest) batches region disk.new) }
        ensures damaged { (batches : List LogBatch) (file place : ℕ) → IsTrue D.tells → HasSnapshot ⟦<D as Disk>⟧ number manifest disk.old → HasBatches ⟦<D as Disk>⟧ number (named_snapshot manifest).flushed replayed.wal disk.old batches
            → result ≡ Err (StartFault.Damaged file place) → IsFirstBad number (D.seen disk.old) (named_snapshot manifest).files file place }
        ensures fresh { IfOk result (λ region. (region.number ≡ number) × (region.promised ≡ 0) × (region.promised_bytes ≡ 0) × (region.looked ≡ 0)) }
        ensures seen { D.seen disk.new ≡ D.seen disk.old }
        ensures quiet { Stays ⟦<D as Disk>⟧ disk.old disk.new }
        ensures read_failed { result ≡ Err StartFault.ReadFault → Rose ⟦<D as Disk>⟧ disk.old disk.new }
        ensures write_failed { result ≡ Err StartFault.WriteFault → Rose ⟦<D as Disk>⟧ disk.old disk.new }
        ensures counts { IfOk result (λ region. Passes ⟦<D as Disk>⟧ disk.old disk.new (opening_calls region.flushing.files.items + loading_calls region.flushing.files.items)) }
    {
        let flushing = match Flushing::open(alloc, disk, number, &manifest) {
            Ok(flushing) => flushing,
            Err(fault) => {
                drop(manifest);
                drop(replayed);
                return Err(fault);
            }
        };
        let Replayed {
            wal,
            store,
            cells,
            bytes,
        } = replayed;
        let mut stamps = LeastStamps::of_store(&store);
        let last = wal.last();
        // What was read is older than all that comes.
        stamps.age(last);
        let store = match load(alloc, disk, store, flushing.files()) {
            Ok(store) => store,
            Err(fault) => {
                drop(manifest);
                drop(wal);
                drop(flushing);
                return Err(fault);
            }
        };
        let horizon = manifest.snapshot().horizon;
        Ok(Region {
            alloc,
            number,
            wal,
            manifest,
            flushing,
            horizon,
            store,
            cells,
            bytes,
            promised: 0,
            promised_bytes: 0,
            looked: 0,
            ordered: 0,
            wanted: false,
            stamps,
        })
    }

    /// Opens the region that is in the files of its number: a region without a log or manifest has none of their cells.
    /// Nothing is promised, no row was looked at, and no flush is under way. A stop in the call leaves nothing new.
    ///
    /// It is Damaged at exactly the first place that isn't of the format, and a ReadFault or WriteFault where a call of the
    /// disk failed.
    pub fn reopen<D: Disk>(alloc: Global, disk: &mut D, number: u32) -> Result<Region, StartFault>
        ensures opened { IsTrue D.tells → IfOk result (λ region. (s : RegionData) × RegionStands number (D.seen disk.old) s × RegionHolds ⟦<D as Disk>⟧ region disk.new s) }
        ensures damaged { (file place : ℕ) → result ≡ Err (StartFault.Damaged file place) → IsTrue D.tells → IsFirstDamagedInRegion number (D.seen disk.old) file place }
        ensures fresh { IfOk result (λ region. (region.number ≡ number) × (region.promised ≡ 0) × (region.promised_bytes ≡ 0) × (region.looked ≡ 0)) }
        ensures seen { D.seen disk.new ≡ D.seen disk.old }
        ensures quiet { Stays ⟦<D as Disk>⟧ disk.old disk.new }
        ensures read_failed { result ≡ Err StartFault.ReadFault → Rose ⟦<D as Disk>⟧ disk.old disk.new }
        ensures write_failed { result ≡ Err StartFault.WriteFault → Rose ⟦<D as Disk>⟧ disk.old disk.new }

        // It takes as many calls as the files say that stand in its folder, at most.
        ensures counts { IfOk result (λ region. Passes ⟦<D as Disk>⟧ disk.old disk.new (12 + (opening_calls region.flushing.files.items + loading_calls region.flushing.files.items))) }
        ensures opened_by { (calls : ℕ) → IsTrue D.tells → IsOpenedBy number (D.seen disk.old) calls → IfOk result (λ region. Passes ⟦<D as Disk>⟧ disk.old disk.new calls) }
    {
        let manifest = Manifest::start(alloc, disk, number)?;
        let flushed = manifest.snapshot().flushed;
        match Wal::replay(alloc, disk, number, flushed) {
            Ok(replayed) => Region::assembled(alloc, disk, number, manifest, replayed),
            Err(fault) => {
                drop(manifest);
                Err(fault)
            }
        }
    }
}
