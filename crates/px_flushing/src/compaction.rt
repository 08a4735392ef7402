// A compaction: some of a region's newest files are merged to one, or all, of which one keeps what a horizon does.
ghost use Rattle.std.specs.Prelude.{◌≡◌, ◌≢◌, ◌≤◌, ◌<◌, ◌+◌, ◌*◌, ◌∷◌, [], ℕ, false, List, length, take, drop, IfOk, IsErr, OnOk, OnErr, Ok, Err, None, Some, vec_len, vec_capacity};
ghost use Rattle.std.specs.Option.{option_copied};
ghost use Rattle.px_outside.specs.OnDisk.{LeavesOnly, Passes, Rose, TouchesOnly};
ghost use Rattle.px_cells.specs.CellData.{CellData};
ghost use Rattle.px_cellbytes.specs.Reading.{IsWritten};
ghost use Rattle.px_merge.specs.Kept.{IsKeptList};
ghost use Rattle.px_merge.specs.Merged.{joined};
ghost use Rattle.px_merge.specs.Settle.{settle};
ghost use Rattle.px_wal.specs.Batches.{AreOverHorizon, LogBatch, batches_above, cells_over};
ghost use Rattle.px_wal.specs.Files.{HasFile as IsFileOf, file_of};
ghost use Rattle.px_wal.specs.Manifest.{HasSnapshot, is_manifest_open, manifest_files, named_snapshot};
ghost use Rattle.px_wal.specs.Snapshot.{IsSnapshot};
ghost use Rattle.px_wal.specs.SnapshotOf.{files_of, snapshot_of};
ghost use Rattle.px_wal.specs.declared.manifest.Manifest.{Manifest as Manifests};
ghost use Rattle.px_wal.specs.declared.wal.Wal.{Wal as Logs};
ghost use Rattle.px_naming.specs.Naming.{HasParts};
ghost use Rattle.px_flushing.specs.Flushing.{Goes, HasFlushing, HasForgot, HasForgottenFiles, HasKept, HasMerged, IsGathering, IsMerging, IsRegionRead, MayForget, ReadsFrom, forgetting_horizon, forgot_next, horizon_after, measured_of, merged_next, naming_of};
ghost use Rattle.px_flushing.specs.declared.fault.FlushFault.TheVariants.{Damaged, ReadFault, WriteFault};

use crate::fault::{of_append, of_read};
use crate::naming::{Naming, make_room, prepare_kept, prepare_merged, put_in_place};
use crate::stage::advance;
use crate::{FlushFault, FlushStep, Flushing, Gather, Job, Merge, Stage};
use px_cells::{Cells, is_cell_list};
use px_file::RegionFile;
use px_files::free_local;
use px_forgetting::{forget, name_forgotten};
use px_frozen::{Frozen, freeze_merged};
use px_gatelog::StartFault;
use px_loading::{GatherStep, Gathering};
use px_naming::name_merged;
use px_outside::Disk;
use px_wal::{FileEntry, Manifest, local_file};
use std::alloc::Global;

/// What a horizon keeps of cells that were gathered.
fn kept_at(alloc: Global, cells: Cells, horizon: u64) -> Result<Cells, FlushFault>
    ensures kept { IfOk result (λ kept. IsKeptList cells horizon kept) }
    ensures never { (result ≢ Err ReadFault) × (result ≢ Err WriteFault) }
    ensures sound { IsWritten cells → result ≢ Err Damaged }
{
    if !is_cell_list(cells.as_slice()) {
        drop(cells);
        return Err(FlushFault::Damaged);
    }
    match forget(alloc, cells, horizon) {
        Ok(kept) => Ok(kept),
        Err(_) => Err(FlushFault::Memory),
    }
}

/// What goes to a file of cells that were gathered: all, or what a horizon keeps of them.
fn kept_of(alloc: Global, cells: Cells, horizon: Option<u64>) -> Result<Cells, FlushFault>
    ensures kept { IfOk result (λ kept. HasKept horizon cells kept) }
    ensures never { (result ≢ Err ReadFault) × (result ≢ Err WriteFault) }
    ensures sound { IsWritten cells → result ≢ Err Damaged }
{
    match horizon {
        None => Ok(cells),
        Some(horizon) => kept_at(alloc, cells, horizon),
    }
}

impl Flushing {
    /// Whether a compaction may be begun: none of as many files found no memory.
    pub fn may_compact(&self) -> bool {
        self.files.len() > self.given_up
    }

    /// Begins a compaction of so many of the newest files, where there are so many, with a horizon or without. It makes no call.
    fn start<D: Disk>(&mut self, count: usize, horizon: Option<u64>)
        requires { self.old.flush ≡ None }
        ensures begun { (manifest : Manifests) (wal : Logs) (disk : D) (batches : List LogBatch) (lists : List (List CellData)) → HasFlushing ⟦<D as Disk>⟧ manifest wal self.old disk batches lists → HasFlushing ⟦<D as Disk>⟧ manifest wal self.new disk batches lists }
        ensures started { count ≤ length self.old.files.items → self.new.flush ≢ None }
        ensures horizon { count ≤ length self.old.files.items → forgetting_horizon self.new.flush ≡ horizon }
        ensures files { (self.new.number ≡ self.old.number) × (self.new.files ≡ self.old.files) }
    {
        self.given_up = 0;
        if count <= self.files.len() {
            self.keep(Job::Gather(Gather {
                count,
                horizon,
                gathering: Gathering::begin(self.alloc, count),
            }));
        }
    }

    /// Begins a compaction of so many of the newest files, where there are so many. It makes no call.
    pub fn compact<D: Disk>(&mut self, count: usize)
        requires { self.old.flush ≡ None }
        ensures begun { (manifest : Manifests) (wal : Logs) (disk : D) (batches : List LogBatch) (lists : List (List CellData)) → HasFlushing ⟦<D as Disk>⟧ manifest wal self.old disk batches lists → HasFlushing ⟦<D as Disk>⟧ manifest wal self.new disk batches lists }
        ensures started { count ≤ length self.old.files.items → self.new.flush ≢ None }
        ensures horizon { count ≤ length self.old.files.items → forgetting_horizon self.new.flush ≡ None }
        ensures files { (self.new.number ≡ self.old.number) × (self.new.files ≡ self.old.files) }
    {
        self.start::<D>(count, None);
    }

    /// Begins a compaction of all files, which is to keep what a horizon does. It makes no call.
    pub fn forget_all<D: Disk>(&mut self, horizon: u64)
        requires { self.old.flush ≡ None }
        ensures begun { (manifest : Manifests) (wal : Logs) (disk : D) (batches : List LogBatch) (lists : List (List CellData)) → HasFlushing ⟦<D as Disk>⟧ manifest wal self.old disk batches lists → HasFlushing ⟦<D as Disk>⟧ manifest wal self.new disk batches lists }
        ensures started { self.new.flush ≢ None }
        ensures horizon { forgetting_horizon self.new.flush ≡ Some horizon }
        ensures files { (self.new.number ≡ self.old.number) × (self.new.files ≡ self.old.files) }
    {
        let count = self.files.len();
        self.start::<D>(count, Some(horizon));
    }

    /// Gives up what is under way. No manifest names anything of it.
    pub fn give_up<D: Disk>(&mut self)
        ensures kept { (manifest : Manifests) (wal : Logs) (disk : D) (batches : List LogBatch) (lists : List (List CellData)) → HasFlushing ⟦<D as Disk>⟧ manifest wal self.old disk batches lists → HasFlushing ⟦<D as Disk>⟧ manifest wal self.new disk batches lists }
        ensures idle { self.new.flush ≡ None }
        ensures files { (self.new.number ≡ self.old.number) × (self.new.files ≡ self.old.files) }
    {
        self.flush = None;
    }

    /// Takes the cells that the last compaction kept that forgot, if they weren't taken yet.
    pub fn take_kept<D: Disk>(&mut self) -> Option<Frozen>
        ensures taken { result ≡ self.old.kept }
        ensures held { (manifest : Manifests) (wal : Logs) (disk : D) (batches : List LogBatch) (lists : List (List CellData)) → HasFlushing ⟦<D as Disk>⟧ manifest wal self.old disk batches lists → HasFlushing ⟦<D as Disk>⟧ manifest wal self.new disk batches lists }
        ensures same { (self.new.number ≡ self.old.number) × (self.new.files ≡ self.old.files) × (self.new.flush ≡ self.old.flush) }
    {
        self.kept.take()
    }

    /// The horizon of the compaction that is under way, if it forgets.
    pub fn horizon(&self) -> Option<u64>
        ensures { result ≡ forgetting_horizon self.now.flush }
    {
        match &self.flush {
            Some(Job::Gather(gather)) => gather.horizon,
            Some(Job::Merge(merge)) => merge.horizon,
            _ => None,
        }
    }

    /// The cells of the file that the next step names, where it is that of a compaction that forgets.
    pub fn naming(&self) -> Option<&Frozen>
        ensures { option_copied result ≡ naming_of self.now.flush }
    {
        match &self.flush {
            Some(Job::Merge(merge)) => merge.measured(),
            _ => None,
        }
    }

    /// A file is to be made of these cells.
    fn write_gathered<D: Disk>(
        &mut self,
        manifest: &Manifest,
        count: usize,
        horizon: Option<u64>,
        cells: Cells,
    ) -> Result<FlushStep, FlushFault>
        requires { self.old.flush ≡ None }
        ensures done { (wal : Logs) (disk : D) (batches : List LogBatch) (lists : List (List CellData)) → HasParts ⟦<D as Disk>⟧ self.old.number manifest.now wal disk batches self.old.files.items lists
            → HasKept horizon (settle (joined (take count lists))) cells → HasFlushing ⟦<D as Disk>⟧ manifest.now wal self.new disk batches lists }
        ensures more { OnOk result (result ≡ Ok FlushStep.More) }
        ensures never { (result ≢ Err ReadFault) × (result ≢ Err WriteFault) }
        ensures sound { IsWritten cells → result ≢ Err Damaged }
        ensures number { self.new.number ≡ self.old.number }
    {
        let local = match free_local(&manifest.snapshot().files) {
            Some(local) => local,
            None => {
                drop(cells);
                return Err(FlushFault::Full);
            }
        };
        match freeze_merged(cells) {
            Some(frozen) => {
                self.keep(Job::Merge(Merge {
                    count,
                    horizon,
                    frozen,
                    local,
                    stage: Stage::Frozen,
                }));
                Ok(FlushStep::More)
            }
            None => Err(FlushFault::Damaged),
        }
    }

    /// The cells are gathered: a file is to be made of them, or of what the horizon keeps. Where no memory is found for that, the compaction is given up.
    fn keep_gathered<D: Disk>(
        &mut self,
        manifest: &Manifest,
        count: usize,
        horizon: Option<u64>,
        cells: Cells,
    ) -> Result<FlushStep, FlushFault>
        requires { self.old.flush ≡ None }
        ensures done { (wal : Logs) (disk : D) (batches : List LogBatch) (lists : List (List CellData)) → HasParts ⟦<D as Disk>⟧ self.old.number manifest.now wal disk batches self.old.files.items lists
            → cells ≡ settle (joined (take count lists)) → HasFlushing ⟦<D as Disk>⟧ manifest.now wal self.new disk batches lists }
        ensures more { OnOk result (result ≡ Ok FlushStep.More) }
        ensures never { (result ≢ Err ReadFault) × (result ≢ Err WriteFault) }
        ensures sound { IsWritten cells → result ≢ Err Damaged }
        ensures number { self.new.number ≡ self.old.number }
    {
        match kept_of(self.alloc, cells, horizon) {
            Ok(kept) => self.write_gathered::<D>(manifest, count, horizon, kept),
            Err(FlushFault::Memory) => {
                self.given_up = self.files.len();
                Ok(FlushStep::More)
            }
            Err(fault) => Err(fault),
        }
    }

    /// Makes the next step of gathering the cells. Where it isn't made, the compaction is given up. For want of memory that is no fault: the
    /// files stay as they are.
    pub(crate) fn gather<D: Disk>(
        &mut self,
        disk: &mut D,
        manifest: &Manifest,
        gather: Gather,
    ) -> Result<FlushStep, FlushFault>
        requires { self.old.flush ≡ None }
        ensures done { (wal : Logs) (batches : List LogBatch) (lists : List (List CellData)) → HasParts ⟦<D as Disk>⟧ self.old.number manifest.now wal disk.old batches self.old.files.items lists
            → IsGathering ⟦<D as Disk>⟧ self.old.files.items lists disk.old gather → HasFlushing ⟦<D as Disk>⟧ manifest.now wal self.new disk.new batches lists }
        ensures more { OnOk result (result ≡ Ok FlushStep.More) }
        ensures sound { (lists : List (List CellData)) → IsGathering ⟦<D as Disk>⟧ self.old.files.items lists disk.old gather → result ≢ Err Damaged }
        ensures read_failed { result ≡ Err ReadFault → Rose ⟦<D as Disk>⟧ disk.old disk.new }
        ensures unwritten { result ≢ Err WriteFault }
        ensures touches { TouchesOnly ⟦<D as Disk>⟧ disk.old disk.new (λ touched. ⊥) }
        ensures counts { Passes ⟦<D as Disk>⟧ disk.old disk.new 1 }
        ensures number { self.new.number ≡ self.old.number }
    {
        let Gather {
            count,
            horizon,
            mut gathering,
        } = gather;
        if count > self.files.len() || gathering.left() > count {
            drop(gathering);
            return Ok(FlushStep::More);
        }
        match gathering.step(disk, &self.files[..count]) {
            Ok(GatherStep::More) => {
                self.keep(Job::Gather(Gather {
                    count,
                    horizon,
                    gathering,
                }));
                Ok(FlushStep::More)
            }
            Ok(GatherStep::Done) => {
                self.keep_gathered::<D>(manifest, count, horizon, gathering.into_cells())
            }
            Err(StartFault::Memory) => {
                drop(gathering);
                self.given_up = self.files.len();
                Ok(FlushStep::More)
            }
            Err(fault) => {
                drop(gathering);
                Err(of_read(fault))
            }
        }
    }

    /// Makes the next step of the file.
    fn write_merged<D: Disk>(&mut self, disk: &mut D, merge: Merge) -> Result<FlushStep, FlushFault>
        ensures done { (manifest : Manifests) (wal : Logs) (batches : List LogBatch) (lists : List (List CellData)) → HasParts ⟦<D as Disk>⟧ self.old.number manifest wal disk.old batches self.old.files.items lists
            → IsMerging ⟦<D as Disk>⟧ self.old.number (named_snapshot manifest) lists disk.old merge → HasFlushing ⟦<D as Disk>⟧ manifest wal self.new disk.new batches lists }
        ensures more { OnOk result (result ≡ Ok FlushStep.More) }
        ensures sound { result ≢ Err Damaged }
        ensures read_failed { result ≡ Err ReadFault → Rose ⟦<D as Disk>⟧ disk.old disk.new }
        ensures write_failed { result ≡ Err WriteFault → Rose ⟦<D as Disk>⟧ disk.old disk.new }
        ensures touches { (manifest : Manifests) (lists : List (List CellData)) → IsMerging ⟦<D as Disk>⟧ self.old.number (named_snapshot manifest) lists disk.old merge
            → TouchesOnly ⟦<D as Disk>⟧ disk.old disk.new (λ touched. touched ≡ file_of self.old.number merge.local) }
        ensures counts { Passes ⟦<D as Disk>⟧ disk.old disk.new 4 }
        ensures number { self.new.number ≡ self.old.number }
    {
        let Merge {
            count,
            horizon,
            frozen,
            local,
            stage,
        } = merge;
        let file = local_file(self.number, local);
        let (stage, fault) = advance(self.alloc, disk, file, frozen.cells(), stage);
        self.keep(Job::Merge(Merge {
            count,
            horizon,
            frozen,
            local,
            stage,
        }));
        match fault {
            None => Ok(FlushStep::More),
            Some(fault) => Err(fault),
        }
    }

    /// Takes the memory that naming a file in place of others needs.
    fn ready_merged(
        &mut self,
        manifest: &Manifest,
        count: usize,
        local: u32,
        file: &RegionFile,
        len: u64,
    ) -> Result<Naming, FlushFault>
        ensures same { (self.new.number ≡ self.old.number) × (self.new.files.items ≡ self.old.files.items) × (self.new.flush ≡ self.old.flush) }
        ensures first { OnOk result ((vec_len self.new.files < vec_capacity self.new.files) × (count ≤ length self.new.files.items)) }
        ensures some { OnOk result (1 ≤ count) }
        ensures may { OnOk result (is_manifest_open manifest.now × (manifest.now.rolling ≡ false)) }
        ensures right { IfOk result (λ n. IsSnapshot (snapshot_of n.after)) }
        ensures after { IfOk result (λ n. snapshot_of n.after ≡ merged_next (named_snapshot manifest.now) count local len file.now) }
        ensures room { IfOk result (λ n. 26 + 20 * length (files_of n.after) ≤ n.frame.room) }
        ensures never { (result ≢ Err ReadFault) × (result ≢ Err WriteFault) × (result ≢ Err Damaged) }
    {
        match make_room(&mut self.files) {
            Ok(()) => {}
            Err(_) => return Err(FlushFault::Memory),
        }
        if count > self.files.len() {
            return Err(FlushFault::NotReady);
        }
        let entry = FileEntry {
            local,
            len,
            cells: file.cells(),
        };
        prepare_merged(self.alloc, manifest, count, entry)
    }

    /// Names the file in place of those that it was merged of.
    fn name_one<D: Disk>(
        &mut self,
        disk: &mut D,
        manifest: &mut Manifest,
        count: usize,
        frozen: Frozen,
        local: u32,
        file: RegionFile,
        len: u64,
    ) -> Result<FlushStep, FlushFault>
        requires { self.old.flush ≡ None }
        ensures named { IfOk result (λ step. (step ≡ FlushStep.Merged) × (self.new.flush ≡ None) × (named_snapshot manifest.new ≡ merged_next (named_snapshot manifest.old) count local len file)) }
        ensures some { OnOk result (1 ≤ count) }
        ensures done { (wal : Logs) (batches : List LogBatch) (lists : List (List CellData)) → HasParts ⟦<D as Disk>⟧ self.old.number manifest.old wal disk.old batches self.old.files.items lists
            → IsMerging ⟦<D as Disk>⟧ self.old.number (named_snapshot manifest.old) lists disk.old (record { count = count; horizon = None; frozen = frozen; local = local; stage = Stage.Measured file len })
            → OnOk result (HasFlushing ⟦<D as Disk>⟧ manifest.new wal self.new disk.new batches (frozen.cells ∷ drop count lists)) }
        ensures kept { (wal : Logs) (batches : List LogBatch) (lists : List (List CellData)) → HasParts ⟦<D as Disk>⟧ self.old.number manifest.old wal disk.old batches self.old.files.items lists
            → IsMerging ⟦<D as Disk>⟧ self.old.number (named_snapshot manifest.old) lists disk.old (record { count = count; horizon = None; frozen = frozen; local = local; stage = Stage.Measured file len })
            → OnErr result (result ≢ Err WriteFault → (manifest.new ≡ manifest.old) × HasFlushing ⟦<D as Disk>⟧ manifest.new wal self.new disk.new batches lists) }

        // At each moment of the call a stop leaves the region's files as they are read now.
        ensures any_moment { (wal : Logs) (batches : List LogBatch) (lists : List (List CellData)) → HasParts ⟦<D as Disk>⟧ self.old.number manifest.old wal disk.old batches self.old.files.items lists
            → IsMerging ⟦<D as Disk>⟧ self.old.number (named_snapshot manifest.old) lists disk.old (record { count = count; horizon = None; frozen = frozen; local = local; stage = Stage.Measured file len })
            → LeavesOnly ⟦<D as Disk>⟧ disk.old disk.new (λ moment image. IsRegionRead self.old.number image (named_snapshot manifest.old).horizon (cells_over (named_snapshot manifest.old).flushed batches lists)) }
        ensures never { (result ≢ Err ReadFault) × (result ≢ Err Damaged) }
        ensures unnamed { IsErr result → named_snapshot manifest.new ≡ named_snapshot manifest.old }
        ensures horizon { ((named_snapshot manifest.new).horizon ≡ (named_snapshot manifest.old).horizon) × ((named_snapshot manifest.new).flushed ≡ (named_snapshot manifest.old).flushed) }
        ensures write_failed { result ≡ Err WriteFault → Rose ⟦<D as Disk>⟧ disk.old disk.new }
        ensures touches { HasSnapshot ⟦<D as Disk>⟧ self.old.number manifest.old disk.old → TouchesOnly ⟦<D as Disk>⟧ disk.old disk.new (manifest_files self.old.number) }
        ensures counts { Passes ⟦<D as Disk>⟧ disk.old disk.new 4 }
        ensures number { self.new.number ≡ self.old.number }
    {
        let Naming { after, mut frame } = match self.ready_merged(
            manifest, count, local, &file, len,
        ) {
            Ok(naming) => naming,
            Err(fault) => {
                self.keep(Job::Merge(Merge {
                    count,
                    horizon: None,
                    frozen,
                    local,
                    stage: Stage::Measured(file, len),
                }));
                return Err(fault);
            }
        };
        match name_merged(disk, manifest, &mut frame, after) {
            Ok(()) => {
                put_in_place(&mut self.files, count, file);
                drop(frozen);
                Ok(FlushStep::Merged)
            }
            Err(fault) => {
                self.keep(Job::Merge(Merge {
                    count,
                    horizon: None,
                    frozen,
                    local,
                    stage: Stage::Measured(file, len),
                }));
                Err(of_append(fault))
            }
        }
    }

    /// Takes the memory that naming a file in place of all needs, with a horizon.
    fn ready_kept(
        &mut self,
        manifest: &Manifest,
        count: usize,
        horizon: u64,
        local: u32,
        file: &RegionFile,
        len: u64,
    ) -> Result<Naming, FlushFault>
        ensures same { (self.new.number ≡ self.old.number) × (self.new.files.items ≡ self.old.files.items) × (self.new.flush ≡ self.old.flush) }
        ensures first { OnOk result ((vec_len self.new.files < vec_capacity self.new.files) × (count ≡ length self.new.files.items)) }
        ensures raised { OnOk result ((named_snapshot manifest.now).horizon ≤ horizon) }
        ensures may { OnOk result (is_manifest_open manifest.now × (manifest.now.rolling ≡ false)) }
        ensures right { IfOk result (λ n. IsSnapshot (snapshot_of n.after)) }
        ensures after { IfOk result (λ n. snapshot_of n.after ≡ forgot_next (named_snapshot manifest.now) horizon local len file.now) }
        ensures room { IfOk result (λ n. 26 + 20 * length (files_of n.after) ≤ n.frame.room) }
        ensures never { (result ≢ Err ReadFault) × (result ≢ Err WriteFault) × (result ≢ Err Damaged) }
    {
        match make_room(&mut self.files) {
            Ok(()) => {}
            Err(_) => return Err(FlushFault::Memory),
        }
        if count != self.files.len() {
            return Err(FlushFault::NotReady);
        }
        let entry = FileEntry {
            local,
            len,
            cells: file.cells(),
        };
        prepare_kept(self.alloc, manifest, horizon, entry)
    }

    /// Names the file in place of all files, with the horizon that tells what it keeps of them.
    fn name_kept<D: Disk>(
        &mut self,
        disk: &mut D,
        manifest: &mut Manifest,
        count: usize,
        horizon: u64,
        frozen: Frozen,
        local: u32,
        file: RegionFile,
        len: u64,
    ) -> Result<FlushStep, FlushFault>
        requires { self.old.flush ≡ None }
        ensures named { IfOk result (λ step. (step ≡ FlushStep.Forgot horizon) × (self.new.flush ≡ None) × (named_snapshot manifest.new ≡ forgot_next (named_snapshot manifest.old) horizon local len file)) }
        ensures raised { OnOk result ((named_snapshot manifest.old).horizon ≤ horizon) }
        ensures held { OnOk result (self.new.kept ≡ Some frozen) }
        ensures done { (wal : Logs) (batches : List LogBatch) (lists : List (List CellData)) → HasParts ⟦<D as Disk>⟧ self.old.number manifest.old wal disk.old batches self.old.files.items lists
            → IsMerging ⟦<D as Disk>⟧ self.old.number (named_snapshot manifest.old) lists disk.old (record { count = count; horizon = Some horizon; frozen = frozen; local = local; stage = Stage.Measured file len }) → AreOverHorizon horizon (batches_above (named_snapshot manifest.old).flushed batches)
            → OnOk result (HasFlushing ⟦<D as Disk>⟧ manifest.new wal self.new disk.new batches (frozen.cells ∷ [])) }
        ensures whole { (wal : Logs) (batches : List LogBatch) (lists : List (List CellData)) → HasParts ⟦<D as Disk>⟧ self.old.number manifest.old wal disk.old batches self.old.files.items lists
            → IsMerging ⟦<D as Disk>⟧ self.old.number (named_snapshot manifest.old) lists disk.old (record { count = count; horizon = Some horizon; frozen = frozen; local = local; stage = Stage.Measured file len }) → AreOverHorizon horizon (batches_above (named_snapshot manifest.old).flushed batches)
            → OnOk result (IsKeptList (cells_over (named_snapshot manifest.old).flushed batches lists) horizon (cells_over (named_snapshot manifest.new).flushed batches (frozen.cells ∷ []))) }
        ensures kept { (wal : Logs) (batches : List LogBatch) (lists : List (List CellData)) → HasParts ⟦<D as Disk>⟧ self.old.number manifest.old wal disk.old batches self.old.files.items lists
            → IsMerging ⟦<D as Disk>⟧ self.old.number (named_snapshot manifest.old) lists disk.old (record { count = count; horizon = Some horizon; frozen = frozen; local = local; stage = Stage.Measured file len })
            → OnErr result (result ≢ Err WriteFault → (manifest.new ≡ manifest.old) × HasFlushing ⟦<D as Disk>⟧ manifest.new wal self.new disk.new batches lists) }

        // At each moment of the call a stop leaves the region's files as they are read now, or what the horizon keeps, under it.
        ensures any_moment { (wal : Logs) (batches : List LogBatch) (lists : List (List CellData)) → HasParts ⟦<D as Disk>⟧ self.old.number manifest.old wal disk.old batches self.old.files.items lists
            → IsMerging ⟦<D as Disk>⟧ self.old.number (named_snapshot manifest.old) lists disk.old (record { count = count; horizon = Some horizon; frozen = frozen; local = local; stage = Stage.Measured file len }) → AreOverHorizon horizon (batches_above (named_snapshot manifest.old).flushed batches)
            → LeavesOnly ⟦<D as Disk>⟧ disk.old disk.new (λ moment image. ReadsFrom (Some horizon) self.old.number image (named_snapshot manifest.old).horizon (cells_over (named_snapshot manifest.old).flushed batches lists)) }
        ensures never { (result ≢ Err ReadFault) × (result ≢ Err Damaged) }
        ensures unnamed { IsErr result → named_snapshot manifest.new ≡ named_snapshot manifest.old }
        ensures write_failed { result ≡ Err WriteFault → Rose ⟦<D as Disk>⟧ disk.old disk.new }
        ensures touches { HasSnapshot ⟦<D as Disk>⟧ self.old.number manifest.old disk.old → TouchesOnly ⟦<D as Disk>⟧ disk.old disk.new (manifest_files self.old.number) }
        ensures counts { Passes ⟦<D as Disk>⟧ disk.old disk.new 4 }
        ensures number { self.new.number ≡ self.old.number }
    {
        let Naming { after, mut frame } = match self.ready_kept(
            manifest, count, horizon, local, &file, len,
        ) {
            Ok(naming) => naming,
            Err(fault) => {
                self.keep(Job::Merge(Merge {
                    count,
                    horizon: Some(horizon),
                    frozen,
                    local,
                    stage: Stage::Measured(file, len),
                }));
                return Err(fault);
            }
        };
        match name_forgotten(disk, manifest, &mut frame, after) {
            Ok(()) => {
                put_in_place(&mut self.files, count, file);
                self.kept = Some(frozen);
                Ok(FlushStep::Forgot { horizon })
            }
            Err(fault) => {
                self.keep(Job::Merge(Merge {
                    count,
                    horizon: Some(horizon),
                    frozen,
                    local,
                    stage: Stage::Measured(file, len),
                }));
                Err(of_append(fault))
            }
        }
    }

    /// Names the file of a compaction, which is measured.
    fn name_measured<D: Disk>(
        &mut self,
        disk: &mut D,
        manifest: &mut Manifest,
        count: usize,
        horizon: Option<u64>,
        frozen: Frozen,
        local: u32,
        file: RegionFile,
        len: u64,
    ) -> Result<FlushStep, FlushFault>
        requires { self.old.flush ≡ None }
        ensures done { (wal : Logs) (batches : List LogBatch) (lists : List (List CellData)) → HasParts ⟦<D as Disk>⟧ self.old.number manifest.old wal disk.old batches self.old.files.items lists
            → IsMerging ⟦<D as Disk>⟧ self.old.number (named_snapshot manifest.old) lists disk.old (record { count = count; horizon = horizon; frozen = frozen; local = local; stage = Stage.Measured file len }) → MayForget horizon (batches_above (named_snapshot manifest.old).flushed batches) → result ≢ Err WriteFault
            → (after : List (List CellData)) × HasFlushing ⟦<D as Disk>⟧ manifest.new wal self.new disk.new batches after × Goes result (cells_over (named_snapshot manifest.old).flushed batches lists) (cells_over (named_snapshot manifest.new).flushed batches after) × HasForgot result self.new after }
        ensures any_moment { (wal : Logs) (batches : List LogBatch) (lists : List (List CellData)) → HasParts ⟦<D as Disk>⟧ self.old.number manifest.old wal disk.old batches self.old.files.items lists
            → IsMerging ⟦<D as Disk>⟧ self.old.number (named_snapshot manifest.old) lists disk.old (record { count = count; horizon = horizon; frozen = frozen; local = local; stage = Stage.Measured file len }) → MayForget horizon (batches_above (named_snapshot manifest.old).flushed batches)
            → LeavesOnly ⟦<D as Disk>⟧ disk.old disk.new (λ moment image. ReadsFrom horizon self.old.number image (named_snapshot manifest.old).horizon (cells_over (named_snapshot manifest.old).flushed batches lists)) }
        ensures only { (result ≢ Ok FlushStep.Done) × ((cells bytes : ℕ) → result ≢ Ok (FlushStep.Named cells bytes)) }
        ensures merged { result ≡ Ok FlushStep.Merged → (self.new.flush ≡ None) × HasMerged (named_snapshot manifest.old) (named_snapshot manifest.new) }
        ensures forgot { (h : ℕ) → result ≡ Ok (FlushStep.Forgot h) → (self.new.flush ≡ None) × (horizon ≡ Some h) × HasForgottenFiles (named_snapshot manifest.old) (named_snapshot manifest.new) h }
        ensures keeps { (h : ℕ) → result ≡ Ok (FlushStep.Forgot h) → self.new.kept ≡ Some frozen }
        ensures horizon { ((named_snapshot manifest.new).horizon ≡ horizon_after result (named_snapshot manifest.old).horizon) × ((named_snapshot manifest.new).flushed ≡ (named_snapshot manifest.old).flushed) }
        ensures still { result ≢ Ok FlushStep.Merged → ((h : ℕ) → result ≢ Ok (FlushStep.Forgot h)) → named_snapshot manifest.new ≡ named_snapshot manifest.old }
        ensures sound { result ≢ Err Damaged }
        ensures read_failed { result ≢ Err ReadFault }
        ensures write_failed { result ≡ Err WriteFault → Rose ⟦<D as Disk>⟧ disk.old disk.new }
        ensures touches { HasSnapshot ⟦<D as Disk>⟧ self.old.number manifest.old disk.old → TouchesOnly ⟦<D as Disk>⟧ disk.old disk.new (manifest_files self.old.number) }
        ensures counts { Passes ⟦<D as Disk>⟧ disk.old disk.new 4 }
        ensures number { self.new.number ≡ self.old.number }
    {
        match horizon {
            None => self.name_one(disk, manifest, count, frozen, local, file, len),
            Some(horizon) => {
                self.name_kept(disk, manifest, count, horizon, frozen, local, file, len)
            }
        }
    }

    /// Makes the next step of the file of a compaction, or names it.
    pub(crate) fn merge<D: Disk>(
        &mut self,
        disk: &mut D,
        manifest: &mut Manifest,
        merge: Merge,
    ) -> Result<FlushStep, FlushFault>
        requires { self.old.flush ≡ None }
        ensures done { (wal : Logs) (batches : List LogBatch) (lists : List (List CellData)) → HasParts ⟦<D as Disk>⟧ self.old.number manifest.old wal disk.old batches self.old.files.items lists
            → IsMerging ⟦<D as Disk>⟧ self.old.number (named_snapshot manifest.old) lists disk.old merge → MayForget merge.horizon (batches_above (named_snapshot manifest.old).flushed batches) → result ≢ Err WriteFault
            → (after : List (List CellData)) × HasFlushing ⟦<D as Disk>⟧ manifest.new wal self.new disk.new batches after × Goes result (cells_over (named_snapshot manifest.old).flushed batches lists) (cells_over (named_snapshot manifest.new).flushed batches after) × HasForgot result self.new after }

        // At each moment of the call a stop leaves the region's files as they are read now, or what the horizon keeps, under it.
        ensures any_moment { (wal : Logs) (batches : List LogBatch) (lists : List (List CellData)) → HasParts ⟦<D as Disk>⟧ self.old.number manifest.old wal disk.old batches self.old.files.items lists
            → IsMerging ⟦<D as Disk>⟧ self.old.number (named_snapshot manifest.old) lists disk.old merge → MayForget merge.horizon (batches_above (named_snapshot manifest.old).flushed batches)
            → LeavesOnly ⟦<D as Disk>⟧ disk.old disk.new (λ moment image. ReadsFrom merge.horizon self.old.number image (named_snapshot manifest.old).horizon (cells_over (named_snapshot manifest.old).flushed batches lists)) }
        ensures only { (result ≢ Ok FlushStep.Done) × ((cells bytes : ℕ) → result ≢ Ok (FlushStep.Named cells bytes)) }
        ensures merged { result ≡ Ok FlushStep.Merged → (self.new.flush ≡ None) × HasMerged (named_snapshot manifest.old) (named_snapshot manifest.new) }
        ensures forgot { (horizon : ℕ) → result ≡ Ok (FlushStep.Forgot horizon) → (self.new.flush ≡ None) × (merge.horizon ≡ Some horizon) × HasForgottenFiles (named_snapshot manifest.old) (named_snapshot manifest.new) horizon }
        ensures keeps { (horizon : ℕ) → result ≡ Ok (FlushStep.Forgot horizon) → (measured_of merge.horizon merge.stage merge.frozen ≡ Some merge.frozen) × (self.new.kept ≡ Some merge.frozen) }
        ensures horizon { ((named_snapshot manifest.new).horizon ≡ horizon_after result (named_snapshot manifest.old).horizon) × ((named_snapshot manifest.new).flushed ≡ (named_snapshot manifest.old).flushed) }
        ensures still { result ≢ Ok FlushStep.Merged → ((horizon : ℕ) → result ≢ Ok (FlushStep.Forgot horizon)) → named_snapshot manifest.new ≡ named_snapshot manifest.old }
        ensures sound { result ≢ Err Damaged }
        ensures read_failed { result ≡ Err ReadFault → Rose ⟦<D as Disk>⟧ disk.old disk.new }
        ensures write_failed { result ≡ Err WriteFault → Rose ⟦<D as Disk>⟧ disk.old disk.new }
        ensures touches { (wal : Logs) (batches : List LogBatch) (lists : List (List CellData)) → HasParts ⟦<D as Disk>⟧ self.old.number manifest.old wal disk.old batches self.old.files.items lists
            → IsMerging ⟦<D as Disk>⟧ self.old.number (named_snapshot manifest.old) lists disk.old merge → TouchesOnly ⟦<D as Disk>⟧ disk.old disk.new (IsFileOf self.old.number) }
        ensures counts { Passes ⟦<D as Disk>⟧ disk.old disk.new 4 }
        ensures number { self.new.number ≡ self.old.number }
    {
        let Merge {
            count,
            horizon,
            frozen,
            local,
            stage,
        } = merge;
        match stage {
            Stage::Measured(file, len) => self.name_measured(
                disk, manifest, count, horizon, frozen, local, file, len,
            ),
            stage => self.write_merged(
                disk,
                Merge {
                    count,
                    horizon,
                    frozen,
                    local,
                    stage,
                },
            ),
        }
    }
}
