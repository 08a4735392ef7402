// A compaction that drops what no point from a horizon on can see.
ghost use Rattle.std.specs.Prelude.{◌≡◌, ◌≢◌, ◌≤◌, ◌<◌, ◌⊎◌, ◌↔◌, ℕ, List, IsTrue, None, Some, OnOk, Ok, Err, true, false, []};
ghost use Rattle.px_outside.specs.OnDisk.{LeavesOnly, Passes, Rose, TouchesOnly};
ghost use Rattle.px_cells.specs.CellData.{CellData};
ghost use Rattle.px_cells.specs.Order.{IsAscending};
ghost use Rattle.px_memstore.specs.Left.{left};
ghost use Rattle.px_merge.specs.Kept.{IsKeptList};
ghost use Rattle.px_wal.specs.Batches.{LogBatch};
ghost use Rattle.px_wal.specs.Files.{HasFile};
ghost use Rattle.px_wal.specs.declared.manifest.Manifest.{Manifest as Manifests};
ghost use Rattle.px_wal.specs.declared.wal.Wal.{Wal as Logs};
ghost use Rattle.px_frozen.specs.FrozenData.{FrozenData};
ghost use Rattle.px_flushing.specs.Flushing.{HasFlushing, forgetting_horizon, naming_of};
ghost use Rattle.px_region.specs.Stamps.{Allows};

use crate::flush::of_flush;
use crate::keeping::keeps_right;
use crate::{JobFault, JobStep, Region};
use px_flushing::{FlushStep, Flushing};
use px_memstore::MemStore;
use px_outside::Disk;

/// What a step of upkeep with a horizon answers.
#[derive(Clone, Copy, Debug, PartialEq, Eq)]
pub enum ForgetStep {
    /// There are more steps.
    More,
    /// A flush ended, or nothing is left to do.
    Done,
    /// What the horizon hides is forgotten, and none is wanted any more.
    Forgot,
}

/// What stands in no file stays in the store, and of the cells at or below the horizon those that a compaction kept. It takes no memory.
fn thin<D: Disk>(store: &mut MemStore, flushing: &mut Flushing, horizon: u64)
    ensures left { (kept : FrozenData) → flushing.old.kept ≡ Some kept → store.new.cells ≡ left kept.cells horizon store.old.cells }
    ensures sorted { (kept : FrozenData) → flushing.old.kept ≡ Some kept → IsAscending kept.cells }
    ensures room { store.old.room ≤ store.new.room }
    ensures held { (manifest : Manifests) (wal : Logs) (disk : D) (batches : List LogBatch) (lists : List (List CellData)) → HasFlushing ⟦<D as Disk>⟧ manifest wal flushing.old disk batches lists → HasFlushing ⟦<D as Disk>⟧ manifest wal flushing.new disk batches lists }
    ensures number { flushing.new.number ≡ flushing.old.number }
{
    match flushing.take_kept::<D>() {
        Some(kept) => {
            store.keep_only(kept.cells(), horizon);
            drop(kept);
        }
        None => {}
    }
}

impl Region {
    ghost use Rattle.px_region.specs.Region.{RegionData, RegionHolds, RegionStands, data_of, read_of};
    ghost use Rattle.px_region.specs.Forgetting.{Forgets, ForgetsBy, HasForgotten, IsForgetting, IsKeptRight, MayGoOn, MayName, StandsFrom, StandsKept, StaysWanted};
    ghost use Rattle.px_region.specs.Ordered.{IsFlushOrdered, IsSameOrder};
    ghost use Rattle.px_region.specs.Promise.{IsAlike, IsSamePromise};
    ghost use Rattle.px_region.specs.declared.fault.JobFault.TheVariants.{Memory, WriteFault};

    /// Orders a compaction that forgets, and that all which stands in the log be flushed before.
    pub fn order_compact(&mut self)
        ensures wanted { self.new.wanted ≡ true }
        ensures ordered { IsFlushOrdered self.new }
        ensures only { self.new.ordered ≡ self.new.wal.last }
        ensures alike { IsAlike self.old self.new }
        ensures promised { IsSamePromise self.old self.new }
        ensures read { read_of self.new ≡ read_of self.old }
        ensures looked { self.new.looked ≡ self.old.looked }
    {
        self.order_flush();
        self.wanted = true;
    }

    /// Whether a compaction that forgets is wanted: it is ordered, or eight others were made. It comes with `begin_forgetting`, and upkeep isn't due for it.
    pub fn wants_to_forget(&self) -> bool
        ensures { (result ≡ false) ↔ HasForgotten self.now }
    {
        self.wanted
    }

    /// Whether the compaction that forgets at this horizon can begin now: nothing is under way, log and manifest are open, the manifest has room, there is a
    /// file, and each cell that stands in no file is known to be above the horizon.
    pub fn may_forget(&self, horizon: u64) -> bool
        ensures idle { IsTrue result → self.now.flushing.flush ≡ None }
        ensures above { IsTrue result → Allows self.now.stamps horizon }
    {
        self.flushing.is_idle()
            && self.wal.is_open()
            && self.manifest.is_open()
            && !self.is_full()
            && self.file_count() > 0
            && self.horizon <= horizon
            && self.stamps.allows(horizon)
    }

    /// Whether it has no cell at all.
    fn is_empty(&self) -> bool
        ensures { IsTrue result → read_of self.now ≡ [] }
    {
        self.store.piece_count() == 1 && self.store.piece(0).is_empty()
    }

    /// Whether nothing is left to forget at this horizon.
    fn is_over(&self, horizon: u64) -> bool
        ensures { IsTrue result → (read_of self.now ≡ []) ⊎ (horizon < (data_of self.now).horizon) }
    {
        horizon < self.horizon || self.is_empty()
    }

    /// Begins the compaction that forgets at this horizon, where it can begin now. Where the region has no cell, or forgot at a later horizon, none is wanted
    /// any more; else what stands in the log is ordered to be flushed first. It makes no call.
    pub fn begin_forgetting<D: Disk>(&mut self, horizon: u64)
        ensures done { (s : RegionData) (disk : D) → RegionHolds ⟦<D as Disk>⟧ self.old disk s → RegionHolds ⟦<D as Disk>⟧ self.new disk s }
        ensures begun { IsForgetting self.new horizon ⊎ (IsFlushOrdered self.new ⊎ HasForgotten self.new) }
        ensures wanted { self.new.wanted ≢ self.old.wanted → (read_of self.old ≡ []) ⊎ (horizon < (data_of self.old).horizon) }
        ensures ordered { IsFlushOrdered self.old → IsFlushOrdered self.new }
        ensures promised { IsSamePromise self.old self.new }
        ensures read { read_of self.new ≡ read_of self.old }
        ensures number { self.new.number ≡ self.old.number }
        ensures horizon { (data_of self.new).horizon ≡ (data_of self.old).horizon }
        ensures looked { self.new.looked ≡ self.old.looked }
    {
        if self.may_forget(horizon) {
            self.flushing.forget_all::<D>(horizon);
        } else if self.is_over(horizon) {
            self.wanted = false;
        } else {
            self.ordered = self.wal.last();
        }
    }

    /// Makes one step of the flush of what stands in the log's older segment, or of the compaction that is under way. Where none can be made, a flush
    /// is ordered no more.
    pub(crate) fn files_step<D: Disk>(&mut self, disk: &mut D) -> Result<ForgetStep, JobFault>
        requires above { MayGoOn (forgetting_horizon self.old.flushing.flush) self.old.stamps }
        requires right { MayName (forgetting_horizon self.old.flushing.flush) (naming_of self.old.flushing.flush) (read_of self.old) }
        ensures done { (s : RegionData) → RegionHolds ⟦<D as Disk>⟧ self.old disk.old s → OnOk result (result ≢ Ok ForgetStep.Forgot → RegionHolds ⟦<D as Disk>⟧ self.new disk.new s) }
        ensures forgot { (s : RegionData) → RegionHolds ⟦<D as Disk>⟧ self.old disk.old s → result ≡ Ok ForgetStep.Forgot → RegionHolds ⟦<D as Disk>⟧ self.new disk.new (data_of self.new) × ForgetsBy (forgetting_horizon self.old.flushing.flush) s (data_of self.new) }
        ensures only { result ≡ Ok ForgetStep.Forgot → forgetting_horizon self.old.flushing.flush ≢ None }
        ensures forgot_at { (h : ℕ) → forgetting_horizon self.old.flushing.flush ≡ Some h → result ≡ Ok ForgetStep.Forgot → (data_of self.new).horizon ≡ h }
        ensures forgot_read { (h : ℕ) → forgetting_horizon self.old.flushing.flush ≡ Some h → result ≡ Ok ForgetStep.Forgot → IsKeptList (read_of self.old) h (read_of self.new) }

        // At each moment of the call a stop leaves the region as it is, or as what the horizon of its compaction keeps.
        ensures any_moment { (s : RegionData) → RegionHolds ⟦<D as Disk>⟧ self.old disk.old s → LeavesOnly ⟦<D as Disk>⟧ disk.old disk.new (λ moment image. StandsFrom (forgetting_horizon self.old.flushing.flush) self.old.number image s) }
        ensures failed { result ≡ Err WriteFault → Rose ⟦<D as Disk>⟧ disk.old disk.new }
        ensures refused { (s : RegionData) → RegionHolds ⟦<D as Disk>⟧ self.old disk.old s → result ≡ Err Memory → RegionHolds ⟦<D as Disk>⟧ self.new disk.new s }
        ensures touches { (s : RegionData) → RegionHolds ⟦<D as Disk>⟧ self.old disk.old s → TouchesOnly ⟦<D as Disk>⟧ disk.old disk.new (HasFile self.old.number) }
        ensures counts { Passes ⟦<D as Disk>⟧ disk.old disk.new 4 }
        ensures promised { IsSamePromise self.old self.new }
        ensures read { result ≢ Ok ForgetStep.Forgot → read_of self.new ≡ read_of self.old }
        ensures number { self.new.number ≡ self.old.number }
        ensures horizon { result ≢ Ok ForgetStep.Forgot → (data_of self.new).horizon ≡ (data_of self.old).horizon }
        ensures looked { self.new.looked ≡ self.old.looked }
        ensures ordered { OnOk result (IsSameOrder self.old self.new) }
        ensures wanted { OnOk result (result ≢ Ok ForgetStep.Forgot → StaysWanted self.old self.new) }
        ensures forgotten { result ≡ Ok ForgetStep.Forgot → HasForgotten self.new }
    {
        if self.flushing.upto() > self.wal.last() {
            self.ordered = 0;
            return Err(JobFault::Memory);
        }
        match self.flushing.step(disk, &mut self.manifest, &self.wal) {
            Ok(FlushStep::More) => Ok(ForgetStep::More),
            Ok(FlushStep::Merged) => {
                self.wanted |= self.manifest.snapshot().compactions == 0;
                Ok(ForgetStep::More)
            }
            Ok(FlushStep::Forgot { horizon }) => {
                self.horizon = horizon;
                self.wanted = false;
                thin::<D>(&mut self.store, &mut self.flushing, horizon);
                Ok(ForgetStep::Forgot)
            }
            Ok(FlushStep::Done) => Ok(ForgetStep::Done),
            Ok(FlushStep::Named { cells, bytes }) => {
                self.cells = self.cells.saturating_sub(cells);
                self.bytes = self.bytes.saturating_sub(bytes);
                let flushed = self.flushed();
                self.stamps.flush(flushed);
                Ok(ForgetStep::Done)
            }
            Err(fault) => {
                self.ordered = 0;
                Err(of_flush(fault))
            }
        }
    }

    /// Whether the compaction that is under way, and forgets at this horizon, may make its next step: where that names its file, the file has of what is read
    /// exactly the cells that the horizon keeps. A disk that gives back other bytes than were written could else take cells from memory.
    fn may_name(&self, horizon: u64) -> bool
        ensures { IsTrue result → IsKeptRight horizon (naming_of self.now.flushing.flush) (read_of self.now) }
    {
        match self.flushing.naming() {
            None => true,
            Some(kept) => match keeps_right(self.alloc, &self.store, kept.cells(), horizon) {
                Ok(right) => right,
                Err(_) => false,
            },
        }
    }

    /// Gives up what is under way. No compaction that forgets is wanted any more, and nothing is ordered.
    fn give_up<D: Disk>(&mut self)
        ensures done { (s : RegionData) (disk : D) → RegionHolds ⟦<D as Disk>⟧ self.old disk s → RegionHolds ⟦<D as Disk>⟧ self.new disk s }
        ensures promised { IsSamePromise self.old self.new }
        ensures read { read_of self.new ≡ read_of self.old }
        ensures number { self.new.number ≡ self.old.number }
        ensures horizon { (data_of self.new).horizon ≡ (data_of self.old).horizon }
        ensures looked { self.new.looked ≡ self.old.looked }
    {
        self.flushing.give_up::<D>();
        self.wanted = false;
        self.ordered = 0;
    }

    /// Makes one step of the compaction that is under way and forgets at this horizon. Where it finds no memory, or its file has other cells than the horizon
    /// keeps, none is wanted any more.
    fn kept_step<D: Disk>(&mut self, disk: &mut D, horizon: u64) -> Result<ForgetStep, JobFault>
        requires under { IsForgetting self.old horizon }
        requires above { Allows self.old.stamps horizon }
        ensures done { (s : RegionData) → RegionHolds ⟦<D as Disk>⟧ self.old disk.old s → OnOk result (result ≢ Ok ForgetStep.Forgot → RegionHolds ⟦<D as Disk>⟧ self.new disk.new s) }
        ensures forgot { (s : RegionData) → RegionHolds ⟦<D as Disk>⟧ self.old disk.old s → result ≡ Ok ForgetStep.Forgot → RegionHolds ⟦<D as Disk>⟧ self.new disk.new (data_of self.new) × Forgets horizon s (data_of self.new) × (s.horizon ≤ horizon) }
        ensures forgot_at { result ≡ Ok ForgetStep.Forgot → (data_of self.new).horizon ≡ horizon }
        ensures forgot_read { result ≡ Ok ForgetStep.Forgot → IsKeptList (read_of self.old) horizon (read_of self.new) }

        // At each moment of the call a stop leaves the region as it is, or as what the horizon keeps.
        ensures any_moment { (s : RegionData) → RegionHolds ⟦<D as Disk>⟧ self.old disk.old s → LeavesOnly ⟦<D as Disk>⟧ disk.old disk.new (λ moment image. RegionStands self.old.number image s ⊎ StandsKept self.old.number image horizon s) }
        ensures failed { result ≡ Err WriteFault → Rose ⟦<D as Disk>⟧ disk.old disk.new }
        ensures refused { (s : RegionData) → RegionHolds ⟦<D as Disk>⟧ self.old disk.old s → result ≡ Err Memory → RegionHolds ⟦<D as Disk>⟧ self.new disk.new s }
        ensures touches { (s : RegionData) → RegionHolds ⟦<D as Disk>⟧ self.old disk.old s → TouchesOnly ⟦<D as Disk>⟧ disk.old disk.new (HasFile self.old.number) }
        ensures counts { Passes ⟦<D as Disk>⟧ disk.old disk.new 4 }
        ensures promised { IsSamePromise self.old self.new }
        ensures read { result ≢ Ok ForgetStep.Forgot → read_of self.new ≡ read_of self.old }
        ensures number { self.new.number ≡ self.old.number }
        ensures horizon { result ≢ Ok ForgetStep.Forgot → (data_of self.new).horizon ≡ (data_of self.old).horizon }
        ensures looked { self.new.looked ≡ self.old.looked }
        ensures ordered { OnOk result (IsSameOrder self.old self.new) }
        ensures wanted { OnOk result (result ≢ Ok ForgetStep.Forgot → StaysWanted self.old self.new) }
        ensures forgotten { result ≡ Ok ForgetStep.Forgot → HasForgotten self.new }
    {
        if !self.may_name(horizon) {
            self.give_up::<D>();
            return Err(JobFault::Memory);
        }
        match self.files_step(disk) {
            Ok(ForgetStep::More) => {
                if self.flushing.is_idle() {
                    self.wanted = false;
                    self.ordered = 0;
                    return Err(JobFault::Memory);
                }
                Ok(ForgetStep::More)
            }
            Ok(ForgetStep::Forgot) => Ok(ForgetStep::Forgot),
            Ok(ForgetStep::Done) => Ok(ForgetStep::Done),
            Err(fault) => {
                self.wanted = false;
                Err(fault)
            }
        }
    }

    /// Whether the compaction that forgets at a horizon may go on with this one.
    fn fits(&self, under: u64, horizon: u64) -> bool
        ensures { IsTrue result → (under ≡ horizon) × Allows self.now.stamps horizon }
    {
        under == horizon && self.stamps.allows(horizon)
    }

    /// Makes one step of the compaction that is under way and forgets at this horizon; or, where none is under way, one of upkeep. One that forgets at another
    /// horizon, or beside which a cell came at or below it, is given up, and begins anew with `begin_forgetting` while it is wanted. What is read stays, and
    /// what the region stands for stays at each moment, until it forgot: then it has what the horizon keeps, and its manifest names that horizon.
    ///
    /// A WriteFault comes where a call of the disk failed, and then no call may follow. Where no memory is found, or the file that would be named has other
    /// cells than the horizon keeps, the region goes on, and a flush or a compaction that was ordered isn't any more.
    pub fn forget_step<D: Disk>(
        &mut self,
        disk: &mut D,
        horizon: u64,
    ) -> Result<ForgetStep, JobFault>
        ensures done { (s : RegionData) → RegionHolds ⟦<D as Disk>⟧ self.old disk.old s → OnOk result (result ≢ Ok ForgetStep.Forgot → RegionHolds ⟦<D as Disk>⟧ self.new disk.new s) }
        ensures forgot { (s : RegionData) → RegionHolds ⟦<D as Disk>⟧ self.old disk.old s → result ≡ Ok ForgetStep.Forgot → RegionHolds ⟦<D as Disk>⟧ self.new disk.new (data_of self.new) × Forgets horizon s (data_of self.new) × (s.horizon ≤ horizon) }
        ensures forgot_at { result ≡ Ok ForgetStep.Forgot → (data_of self.new).horizon ≡ horizon }
        ensures forgot_read { result ≡ Ok ForgetStep.Forgot → IsKeptList (read_of self.old) horizon (read_of self.new) }

        // At each moment of the call a stop leaves the region as it is, or as what the horizon keeps.
        ensures any_moment { (s : RegionData) → RegionHolds ⟦<D as Disk>⟧ self.old disk.old s → LeavesOnly ⟦<D as Disk>⟧ disk.old disk.new (λ moment image. RegionStands self.old.number image s ⊎ StandsKept self.old.number image horizon s) }
        ensures failed { result ≡ Err WriteFault → Rose ⟦<D as Disk>⟧ disk.old disk.new }
        ensures refused { (s : RegionData) → RegionHolds ⟦<D as Disk>⟧ self.old disk.old s → result ≡ Err Memory → RegionHolds ⟦<D as Disk>⟧ self.new disk.new s }
        ensures touches { (s : RegionData) → RegionHolds ⟦<D as Disk>⟧ self.old disk.old s → TouchesOnly ⟦<D as Disk>⟧ disk.old disk.new (HasFile self.old.number) }
        ensures counts { Passes ⟦<D as Disk>⟧ disk.old disk.new 4 }
        ensures promised { IsSamePromise self.old self.new }
        ensures read { result ≢ Ok ForgetStep.Forgot → read_of self.new ≡ read_of self.old }
        ensures number { self.new.number ≡ self.old.number }
        ensures horizon { result ≢ Ok ForgetStep.Forgot → (data_of self.new).horizon ≡ (data_of self.old).horizon }
        ensures looked { self.new.looked ≡ self.old.looked }
        ensures ordered { OnOk result (IsSameOrder self.old self.new) }
        ensures wanted { OnOk result (result ≢ Ok ForgetStep.Forgot → StaysWanted self.old self.new) }
        ensures forgotten { result ≡ Ok ForgetStep.Forgot → HasForgotten self.new }
    {
        match self.flushing.horizon() {
            Some(under) => {
                if self.fits(under, horizon) {
                    return self.kept_step(disk, horizon);
                }
                self.flushing.give_up::<D>();
                Ok(ForgetStep::More)
            }
            None => match self.upkeep_step(disk) {
                Ok(JobStep::More) => Ok(ForgetStep::More),
                Ok(JobStep::Done) => Ok(ForgetStep::Done),
                Err(fault) => Err(fault),
            },
        }
    }
}
