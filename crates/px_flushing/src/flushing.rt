// A region's open files, and the flush of its log.
ghost use Rattle.std.specs.Prelude.{◌≡◌, ◌≢◌, ◌≤◌, ◌<◌, ◌+◌, ◌*◌, ◌∷◌, ◌↔◌, ℕ, false, List, length, IsTrue, IfOk, IsErr, OnOk, OnErr, Ok, Err, None, Some, max, vec_len, vec_capacity};
ghost use Rattle.px_outside.specs.OnDisk.{LeavesOnly, Passes, Rose, Stays, TouchesOnly};
ghost use Rattle.px_cells.specs.CellData.{CellData};
ghost use Rattle.px_wal.specs.Batches.{LogBatch, batches_above, cells_over};
ghost use Rattle.px_wal.specs.Files.{HasFile as IsFileOf, file_of};
ghost use Rattle.px_wal.specs.Manifest.{HasSnapshot, is_manifest_open, manifest_files, named_snapshot};
ghost use Rattle.px_wal.specs.Snapshot.{IsSnapshot};
ghost use Rattle.px_wal.specs.SnapshotOf.{files_of, snapshot_of};
ghost use Rattle.px_wal.specs.Wal.{HasBatches};
ghost use Rattle.px_wal.specs.declared.manifest.Manifest.{Manifest as Manifests};
ghost use Rattle.px_wal.specs.declared.wal.Wal.{Wal as Logs};
ghost use Rattle.px_files.specs.Calls.{opening_calls};
ghost use Rattle.px_files.specs.Files.{IsFirstBad};
ghost use Rattle.px_frozen.specs.FrozenData.{FrozenData};
ghost use Rattle.px_naming.specs.Naming.{HasParts};
ghost use Rattle.px_flushing.specs.Flushing.{Goes, HasFlushing, HasForgot, HasForgottenFiles, IsBegun, IsFreshFlushing, HasMerged, IsRaised, IsRegionRead, MayForget, ReadsFrom, horizon_after, forgetting_horizon, named_next, naming_of, upto_of};
ghost use Rattle.px_flushing.specs.declared.fault.FlushFault.TheVariants.{Damaged, ReadFault, WriteFault};

use crate::fault::{of_append, of_read};
use crate::naming::{Naming, make_room, prepare, put_first};
use crate::stage::advance;
use crate::{Flush, FlushFault, Job, Stage};
use px_file::RegionFile;
use px_files::{free_local, open_files};
use px_frozen::{Frozen, freeze};
use px_gatelog::StartFault;
use px_naming::name_file;
use px_outside::Disk;
use px_wal::{FileEntry, Manifest, Wal, local_file};
use std::alloc::Global;

/// What a step of a flush answers.
#[derive(Clone, Copy, Debug, PartialEq, Eq)]
pub enum FlushStep {
    /// There are more steps.
    More,
    /// The file is named: so many cells and bytes of batches don't stand above the flushed number any more. No flush is under way.
    Named { cells: u64, bytes: u64 },
    /// One file is named in place of some of the newest. No compaction is under way.
    Merged,
    /// One file of what a horizon keeps is named in place of all, with the horizon. No compaction is under way.
    Forgot { horizon: u64 },
    /// No batch of the log's older segment stands above the flushed number. No flush is under way.
    Done,
}

/// The open files of a region that its manifest names, and the flush or the compaction that may be under way.
#[derive(Drop)]
pub struct Flushing {
    pub(crate) alloc: Global,
    pub(crate) number: u32,
    pub(crate) files: Vec<RegionFile>,
    pub(crate) flush: Option<Job>,
    /// With so many files a compaction found no memory.
    pub(crate) given_up: usize,
    /// The cells that the last compaction kept that forgot, until they are taken.
    pub(crate) kept: Option<Frozen>,
}

/// Whether no batch of the log's older segment stands above the flushed number.
fn is_flushed(manifest: &Manifest, wal: &Wal) -> bool
    ensures { IsTrue result ↔ (wal.now.older_to ≤ (named_snapshot manifest.now).flushed) }
{
    wal.older_to() <= manifest.snapshot().flushed
}

impl Flushing {
    /// The files of a region of which no file was ever written: none. No flush is under way, and no call is made.
    pub fn fresh(alloc: Global, number: u32) -> Flushing
        ensures { IsFreshFlushing number result }
    {
        Flushing {
            alloc,
            number,
            files: Vec::new(alloc),
            flush: None,
            given_up: 0,
            kept: None,
        }
    }

    /// Opens the files that a region's manifest names. No flush is under way. A stop in the call leaves nothing new.
    pub fn open<D: Disk>(
        alloc: Global,
        disk: &mut D,
        number: u32,
        manifest: &Manifest,
    ) -> Result<Flushing, StartFault>
        ensures opened { (wal : Logs) (batches : List LogBatch) → IsTrue D.tells → HasSnapshot ⟦<D as Disk>⟧ number manifest.now disk.old → HasBatches ⟦<D as Disk>⟧ number (named_snapshot manifest.now).flushed wal disk.old batches
            → IfOk result (λ flushing. (lists : List (List CellData)) × HasFlushing ⟦<D as Disk>⟧ manifest.now wal flushing disk.new batches lists) }
        ensures idle { IfOk result (λ flushing. (flushing.number ≡ number) × (flushing.flush ≡ None)) }
        ensures damaged { (file place : ℕ) → IsTrue D.tells → result ≡ Err (StartFault.Damaged file place) → IsFirstBad number (D.seen disk.old) (named_snapshot manifest.now).files file place }
        ensures seen { D.seen disk.new ≡ D.seen disk.old }
        ensures quiet { Stays ⟦<D as Disk>⟧ disk.old disk.new }
        ensures read_failed { result ≡ Err StartFault.ReadFault → Rose ⟦<D as Disk>⟧ disk.old disk.new }
        ensures write_failed { result ≡ Err StartFault.WriteFault → Rose ⟦<D as Disk>⟧ disk.old disk.new }
        ensures counts { IfOk result (λ flushing. Passes ⟦<D as Disk>⟧ disk.old disk.new (opening_calls flushing.files.items)) }
    {
        match open_files(alloc, disk, number, &manifest.snapshot().files) {
            Ok(files) => Ok(Flushing {
                alloc,
                number,
                files,
                flush: None,
                given_up: 0,
                kept: None,
            }),
            Err(fault) => Err(fault),
        }
    }

    /// The open files, the newest first.
    pub fn files(&self) -> &[RegionFile]
        ensures { result.now ≡ self.now.files.items }
    {
        &self.files
    }

    /// Whether neither a flush nor a compaction is under way.
    pub fn is_idle(&self) -> bool
        ensures { IsTrue result ↔ (self.now.flush ≡ None) }
    {
        self.flush.is_none()
    }

    /// The number of the last batch of the flush that is under way, 0 where none is.
    pub fn upto(&self) -> u64
        ensures { result ≡ upto_of self.now.flush }
    {
        match &self.flush {
            Some(Job::Flush(flush)) => flush.frozen.upto(),
            _ => 0,
        }
    }

    /// Keeps what is under way.
    pub(crate) fn keep(&mut self, job: Job)
        ensures flush { self.new.flush ≡ Some job }
        ensures files { (self.new.number ≡ self.old.number) × (self.new.files ≡ self.old.files) }
    {
        self.flush = Some(job);
    }

    /// Begins a flush, where a batch of the log's older segment stands above the flushed number.
    fn begin<D: Disk>(
        &mut self,
        disk: &mut D,
        manifest: &Manifest,
        wal: &Wal,
    ) -> Result<FlushStep, FlushFault>
        requires { self.old.flush ≡ None }
        ensures done { (batches : List LogBatch) (lists : List (List CellData)) → HasFlushing ⟦<D as Disk>⟧ manifest.now wal.now self.old disk.old batches lists → HasFlushing ⟦<D as Disk>⟧ manifest.now wal.now self.new disk.new batches lists }
        ensures ended { result ≡ Ok FlushStep.Done → (self.new.flush ≡ None) × (wal.now.older_to ≤ (named_snapshot manifest.now).flushed) }
        ensures unnamed { ((cells bytes : ℕ) → result ≢ Ok (FlushStep.Named cells bytes)) × (result ≢ Ok FlushStep.Merged) × ((horizon : ℕ) → result ≢ Ok (FlushStep.Forgot horizon)) }
        ensures sound { (batches : List LogBatch) (lists : List (List CellData)) → HasFlushing ⟦<D as Disk>⟧ manifest.now wal.now self.old disk.old batches lists → result ≢ Err Damaged }
        ensures read_failed { result ≡ Err ReadFault → Rose ⟦<D as Disk>⟧ disk.old disk.new }
        ensures write_failed { result ≡ Err WriteFault → Rose ⟦<D as Disk>⟧ disk.old disk.new }
        ensures touches { TouchesOnly ⟦<D as Disk>⟧ disk.old disk.new (λ touched. ⊥) }
        ensures counts { Passes ⟦<D as Disk>⟧ disk.old disk.new 2 }
        ensures number { self.new.number ≡ self.old.number }
    {
        if is_flushed(manifest, wal) {
            return Ok(FlushStep::Done);
        }
        let named = manifest.snapshot();
        let local = match free_local(&named.files) {
            Some(local) => local,
            None => return Err(FlushFault::Full),
        };
        match freeze(self.alloc, disk, self.number, named.flushed, wal) {
            Ok(frozen) => {
                self.keep(Job::Flush(Flush {
                    frozen,
                    local,
                    stage: Stage::Frozen,
                }));
                Ok(FlushStep::More)
            }
            Err(fault) => Err(of_read(fault)),
        }
    }

    /// Makes the next step of the file.
    fn write<D: Disk>(
        &mut self,
        disk: &mut D,
        frozen: Frozen,
        local: u32,
        stage: Stage,
    ) -> Result<FlushStep, FlushFault>
        ensures done { (manifest : Manifests) (wal : Logs) (batches : List LogBatch) (lists : List (List CellData)) → HasParts ⟦<D as Disk>⟧ self.old.number manifest wal disk.old batches self.old.files.items lists
            → IsBegun ⟦<D as Disk>⟧ self.old.number (named_snapshot manifest) batches disk.old (record { frozen = frozen; local = local; stage = stage }) → HasFlushing ⟦<D as Disk>⟧ manifest wal self.new disk.new batches lists }
        ensures more { OnOk result (result ≡ Ok FlushStep.More) }
        ensures sound { result ≢ Err Damaged }
        ensures read_failed { result ≡ Err ReadFault → Rose ⟦<D as Disk>⟧ disk.old disk.new }
        ensures write_failed { result ≡ Err WriteFault → Rose ⟦<D as Disk>⟧ disk.old disk.new }
        ensures touches { (manifest : Manifests) (batches : List LogBatch) → IsBegun ⟦<D as Disk>⟧ self.old.number (named_snapshot manifest) batches disk.old (record { frozen = frozen; local = local; stage = stage })
            → TouchesOnly ⟦<D as Disk>⟧ disk.old disk.new (λ touched. touched ≡ file_of self.old.number local) }
        ensures counts { Passes ⟦<D as Disk>⟧ disk.old disk.new 4 }
        ensures number { self.new.number ≡ self.old.number }
    {
        let file = local_file(self.number, local);
        let (stage, fault) = advance(self.alloc, disk, file, frozen.cells(), stage);
        self.keep(Job::Flush(Flush {
            frozen,
            local,
            stage,
        }));
        match fault {
            None => Ok(FlushStep::More),
            Some(fault) => Err(fault),
        }
    }

    /// Takes the memory that naming a file needs.
    fn ready(
        &mut self,
        manifest: &Manifest,
        upto: u64,
        local: u32,
        file: &RegionFile,
        len: u64,
    ) -> Result<Naming, FlushFault>
        ensures same { (self.new.number ≡ self.old.number) × (self.new.files.items ≡ self.old.files.items) × (self.new.flush ≡ self.old.flush) }
        ensures first { OnOk result (vec_len self.new.files < vec_capacity self.new.files) }
        ensures may { OnOk result (is_manifest_open manifest.now × (manifest.now.rolling ≡ false)) }
        ensures right { IfOk result (λ n. IsSnapshot (snapshot_of n.after)) }
        ensures after { IfOk result (λ n. snapshot_of n.after ≡ named_next (named_snapshot manifest.now) upto local len file.now) }
        ensures room { IfOk result (λ n. 26 + 20 * length (files_of n.after) ≤ n.frame.room) }
        ensures never { (result ≢ Err ReadFault) × (result ≢ Err WriteFault) × (result ≢ Err Damaged) }
    {
        match make_room(&mut self.files) {
            Ok(()) => {}
            Err(_) => return Err(FlushFault::Memory),
        }
        let entry = FileEntry {
            local,
            len,
            cells: file.cells(),
        };
        prepare(self.alloc, manifest, upto, file.stamp(), entry)
    }

    /// Names the file.
    fn name<D: Disk>(
        &mut self,
        disk: &mut D,
        manifest: &mut Manifest,
        frozen: Frozen,
        local: u32,
        file: RegionFile,
        len: u64,
    ) -> Result<FlushStep, FlushFault>
        requires { self.old.flush ≡ None }
        ensures named { IfOk result (λ step. (step ≡ FlushStep.Named frozen.count frozen.bytes) × (self.new.flush ≡ None) × (named_snapshot manifest.new ≡ named_next (named_snapshot manifest.old) frozen.upto local len file)) }
        ensures done { (wal : Logs) (batches : List LogBatch) (lists : List (List CellData)) → HasParts ⟦<D as Disk>⟧ self.old.number manifest.old wal disk.old batches self.old.files.items lists
            → IsBegun ⟦<D as Disk>⟧ self.old.number (named_snapshot manifest.old) batches disk.old (record { frozen = frozen; local = local; stage = Stage.Measured file len }) → OnOk result (HasFlushing ⟦<D as Disk>⟧ manifest.new wal self.new disk.new batches (frozen.cells ∷ lists)) }
        ensures kept { (wal : Logs) (batches : List LogBatch) (lists : List (List CellData)) → HasParts ⟦<D as Disk>⟧ self.old.number manifest.old wal disk.old batches self.old.files.items lists
            → IsBegun ⟦<D as Disk>⟧ self.old.number (named_snapshot manifest.old) batches disk.old (record { frozen = frozen; local = local; stage = Stage.Measured file len })
            → OnErr result (result ≢ Err WriteFault → (manifest.new ≡ manifest.old) × HasFlushing ⟦<D as Disk>⟧ manifest.new wal self.new disk.new batches lists) }

        // At each moment of the call a stop leaves the region's files as they are read now.
        ensures any_moment { (wal : Logs) (batches : List LogBatch) (lists : List (List CellData)) → HasParts ⟦<D as Disk>⟧ self.old.number manifest.old wal disk.old batches self.old.files.items lists
            → IsBegun ⟦<D as Disk>⟧ self.old.number (named_snapshot manifest.old) batches disk.old (record { frozen = frozen; local = local; stage = Stage.Measured file len })
            → LeavesOnly ⟦<D as Disk>⟧ disk.old disk.new (λ moment image. IsRegionRead self.old.number image (named_snapshot manifest.old).horizon (cells_over (named_snapshot manifest.old).flushed batches lists)) }
        ensures never { (result ≢ Err ReadFault) × (result ≢ Err Damaged) }
        ensures unnamed { IsErr result → named_snapshot manifest.new ≡ named_snapshot manifest.old }
        ensures horizon { (named_snapshot manifest.new).horizon ≡ (named_snapshot manifest.old).horizon }
        ensures write_failed { result ≡ Err WriteFault → Rose ⟦<D as Disk>⟧ disk.old disk.new }
        ensures touches { HasSnapshot ⟦<D as Disk>⟧ self.old.number manifest.old disk.old → TouchesOnly ⟦<D as Disk>⟧ disk.old disk.new (manifest_files self.old.number) }
        ensures counts { Passes ⟦<D as Disk>⟧ disk.old disk.new 4 }
        ensures number { self.new.number ≡ self.old.number }
    {
        let Naming { after, mut frame } = match self.ready(
            manifest,
            frozen.upto(),
            local,
            &file,
            len,
        ) {
            Ok(naming) => naming,
            Err(fault) => {
                self.keep(Job::Flush(Flush {
                    frozen,
                    local,
                    stage: Stage::Measured(file, len),
                }));
                return Err(fault);
            }
        };
        match name_file(disk, manifest, &mut frame, after) {
            Ok(()) => {
                let named = FlushStep::Named {
                    cells: frozen.count(),
                    bytes: frozen.bytes(),
                };
                put_first(&mut self.files, file);
                drop(frozen);
                Ok(named)
            }
            Err(fault) => {
                self.keep(Job::Flush(Flush {
                    frozen,
                    local,
                    stage: Stage::Measured(file, len),
                }));
                Err(of_append(fault))
            }
        }
    }

    /// Makes the next step of a flush that was begun.
    fn go_on<D: Disk>(
        &mut self,
        disk: &mut D,
        manifest: &mut Manifest,
        flush: Flush,
    ) -> Result<FlushStep, FlushFault>
        requires { self.old.flush ≡ None }
        ensures done { (wal : Logs) (batches : List LogBatch) (lists : List (List CellData)) → HasParts ⟦<D as Disk>⟧ self.old.number manifest.old wal disk.old batches self.old.files.items lists
            → IsBegun ⟦<D as Disk>⟧ self.old.number (named_snapshot manifest.old) batches disk.old flush → result ≢ Err WriteFault
            → (after : List (List CellData)) × HasFlushing ⟦<D as Disk>⟧ manifest.new wal self.new disk.new batches after × (cells_over (named_snapshot manifest.new).flushed batches after ≡ cells_over (named_snapshot manifest.old).flushed batches lists) }

        // At each moment of the call a stop leaves the region's files as they are read now.
        ensures any_moment { (wal : Logs) (batches : List LogBatch) (lists : List (List CellData)) → HasParts ⟦<D as Disk>⟧ self.old.number manifest.old wal disk.old batches self.old.files.items lists
            → IsBegun ⟦<D as Disk>⟧ self.old.number (named_snapshot manifest.old) batches disk.old flush
            → LeavesOnly ⟦<D as Disk>⟧ disk.old disk.new (λ moment image. IsRegionRead self.old.number image (named_snapshot manifest.old).horizon (cells_over (named_snapshot manifest.old).flushed batches lists)) }
        ensures only { (result ≢ Ok FlushStep.Done) × (result ≢ Ok FlushStep.Merged) × ((horizon : ℕ) → result ≢ Ok (FlushStep.Forgot horizon)) }
        ensures named { (batches : List LogBatch) (cells bytes : ℕ) → IsBegun ⟦<D as Disk>⟧ self.old.number (named_snapshot manifest.old) batches disk.old flush → result ≡ Ok (FlushStep.Named cells bytes)
            → (self.new.flush ≡ None) × IsRaised (named_snapshot manifest.old).flushed (named_snapshot manifest.new).flushed batches cells bytes }
        ensures horizon { (named_snapshot manifest.new).horizon ≡ (named_snapshot manifest.old).horizon }
        ensures still { ((cells bytes : ℕ) → result ≢ Ok (FlushStep.Named cells bytes)) → named_snapshot manifest.new ≡ named_snapshot manifest.old }
        ensures flushed { (named_snapshot manifest.new).flushed ≤ max (named_snapshot manifest.old).flushed flush.frozen.upto }
        ensures sound { result ≢ Err Damaged }
        ensures read_failed { result ≡ Err ReadFault → Rose ⟦<D as Disk>⟧ disk.old disk.new }
        ensures write_failed { result ≡ Err WriteFault → Rose ⟦<D as Disk>⟧ disk.old disk.new }
        ensures touches { (wal : Logs) (batches : List LogBatch) (lists : List (List CellData)) → HasParts ⟦<D as Disk>⟧ self.old.number manifest.old wal disk.old batches self.old.files.items lists
            → IsBegun ⟦<D as Disk>⟧ self.old.number (named_snapshot manifest.old) batches disk.old flush → TouchesOnly ⟦<D as Disk>⟧ disk.old disk.new (IsFileOf self.old.number) }
        ensures counts { Passes ⟦<D as Disk>⟧ disk.old disk.new 4 }
        ensures number { self.new.number ≡ self.old.number }
    {
        let Flush {
            frozen,
            local,
            stage,
        } = flush;
        match stage {
            Stage::Measured(file, len) => self.name(disk, manifest, frozen, local, file, len),
            stage => self.write(disk, frozen, local, stage),
        }
    }

    /// Makes one step of a flush: takes the cells of the batches of the log's older segment that are above the flushed number, or
    /// makes one step of their file, or names it; or of the compaction that is under way: reads a block of its files, or makes one step of the file
    /// that they are merged to, or names it. Batches may be written between two steps, which neither takes. What is read of the region's
    /// files stays at each moment, but for a compaction that forgets: once its file is named what is read is what its horizon keeps. Where the
    /// answer isn't `WriteFault` the region goes on, and the step may be made again; a compaction that finds no memory for its cells is given up,
    /// and isn't asked for again until there are more files.
    pub fn step<D: Disk>(
        &mut self,
        disk: &mut D,
        manifest: &mut Manifest,
        wal: &Wal,
    ) -> Result<FlushStep, FlushFault>
        ensures done { (batches : List LogBatch) (lists : List (List CellData)) → HasFlushing ⟦<D as Disk>⟧ manifest.old wal.now self.old disk.old batches lists → MayForget (forgetting_horizon self.old.flush) (batches_above (named_snapshot manifest.old).flushed batches) → result ≢ Err WriteFault
            → (after : List (List CellData)) × HasFlushing ⟦<D as Disk>⟧ manifest.new wal.now self.new disk.new batches after × Goes result (cells_over (named_snapshot manifest.old).flushed batches lists) (cells_over (named_snapshot manifest.new).flushed batches after) × HasForgot result self.new after }

        // At each moment of the call a stop leaves the region's files as they are read now, or with what the horizon keeps at which it forgets.
        ensures any_moment { (batches : List LogBatch) (lists : List (List CellData)) → HasFlushing ⟦<D as Disk>⟧ manifest.old wal.now self.old disk.old batches lists → MayForget (forgetting_horizon self.old.flush) (batches_above (named_snapshot manifest.old).flushed batches)
            → LeavesOnly ⟦<D as Disk>⟧ disk.old disk.new (λ moment image. ReadsFrom (forgetting_horizon self.old.flush) self.old.number image (named_snapshot manifest.old).horizon (cells_over (named_snapshot manifest.old).flushed batches lists)) }
        ensures ended { result ≡ Ok FlushStep.Done → (self.new.flush ≡ None) × (wal.now.older_to ≤ (named_snapshot manifest.old).flushed) }
        ensures named { (batches : List LogBatch) (lists : List (List CellData)) (cells bytes : ℕ) → HasFlushing ⟦<D as Disk>⟧ manifest.old wal.now self.old disk.old batches lists → result ≡ Ok (FlushStep.Named cells bytes)
            → (self.new.flush ≡ None) × IsRaised (named_snapshot manifest.old).flushed (named_snapshot manifest.new).flushed batches cells bytes }
        ensures merged { result ≡ Ok FlushStep.Merged → (self.new.flush ≡ None) × HasMerged (named_snapshot manifest.old) (named_snapshot manifest.new) }
        ensures forgot { (horizon : ℕ) → result ≡ Ok (FlushStep.Forgot horizon) → (self.new.flush ≡ None) × (forgetting_horizon self.old.flush ≡ Some horizon) × HasForgottenFiles (named_snapshot manifest.old) (named_snapshot manifest.new) horizon }
        ensures keeps { (horizon : ℕ) → result ≡ Ok (FlushStep.Forgot horizon) → (kept : FrozenData) × (naming_of self.old.flush ≡ Some kept) × (self.new.kept ≡ Some kept) }
        ensures horizon { (named_snapshot manifest.new).horizon ≡ horizon_after result (named_snapshot manifest.old).horizon }
        ensures still { ((cells bytes : ℕ) → result ≢ Ok (FlushStep.Named cells bytes)) → result ≢ Ok FlushStep.Merged → ((horizon : ℕ) → result ≢ Ok (FlushStep.Forgot horizon)) → named_snapshot manifest.new ≡ named_snapshot manifest.old }
        ensures flushed { (named_snapshot manifest.new).flushed ≤ max (named_snapshot manifest.old).flushed (upto_of self.old.flush) }
        ensures sound { (batches : List LogBatch) (lists : List (List CellData)) → HasFlushing ⟦<D as Disk>⟧ manifest.old wal.now self.old disk.old batches lists → result ≢ Err Damaged }
        ensures read_failed { result ≡ Err ReadFault → Rose ⟦<D as Disk>⟧ disk.old disk.new }
        ensures write_failed { result ≡ Err WriteFault → Rose ⟦<D as Disk>⟧ disk.old disk.new }
        ensures touches { (batches : List LogBatch) (lists : List (List CellData)) → HasFlushing ⟦<D as Disk>⟧ manifest.old wal.now self.old disk.old batches lists → TouchesOnly ⟦<D as Disk>⟧ disk.old disk.new (IsFileOf self.old.number) }
        ensures counts { Passes ⟦<D as Disk>⟧ disk.old disk.new 4 }
        ensures number { self.new.number ≡ self.old.number }
    {
        match self.flush.take() {
            None => self.begin(disk, manifest, wal),
            Some(Job::Flush(flush)) => self.go_on(disk, manifest, flush),
            Some(Job::Gather(gather)) => self.gather(disk, manifest, gather),
            Some(Job::Merge(merge)) => self.merge(disk, manifest, merge),
        }
    }
}
