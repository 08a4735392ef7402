// The flush of a region, the compaction of its files, and when they are due.
ghost use Rattle.std.specs.Prelude.{◌≡◌, IsTrue, None, OnOk, OnSome, Err, false};
ghost use Rattle.px_wal.specs.Wal.{MaySwitch};
ghost use Rattle.px_region.specs.Faults.{job_fault};
ghost use Rattle.px_outside.specs.OnDisk.{LeavesOnly, Passes, Rose, TouchesOnly};
ghost use Rattle.px_wal.specs.Files.{HasFile};

use crate::{ForgetStep, JobFault, JobStep, Region};
use px_flushing::FlushFault;
use px_gatelog::{AppendFault, Frame, Rolled};
use px_outside::Disk;
use px_wal::FileEntry;

/// The most files that a manifest names.
const MOST_FILES: usize = 255;

/// With more cells or bytes than these above its flushed number, a log is flushed. A batch takes as many at most.
const FLUSHED_CELLS: u64 = 8_192;

const FLUSHED_BYTES: u64 = 8_388_608;

/// How many bytes the records of all cells and bytes take that may stand in a log above its flushed number, each cell in a batch of its own.
const ALL_BYTES: u64 = 17_088_512;

/// So many files at least are merged to one.
const MERGED_FILES: usize = 4;

/// How many of the newest files a compaction takes: up to the oldest one that has no more cells than all newer ones together. So each time that a
/// cell is written again its file gets twice as large at least, and of the files that aren't taken each is larger than all newer ones.
fn run_len(files: &[FileEntry]) -> usize {
    let mut run = 0;
    let mut newer: u64 = 0;
    for (place, file) in files.iter().enumerate() {
        if file.cells <= newer || place == 0 {
            run = place + 1;
        }
        newer = newer.saturating_add(file.cells);
    }
    run
}

/// What a fault of a flush is to a job. A log that isn't read as it was written is put aside like want of memory: while the disk tells, that
/// doesn't come.
pub(crate) fn of_flush(fault: FlushFault) -> JobFault
    ensures { result ≡ job_fault fault }
{
    match fault {
        FlushFault::ReadFault | FlushFault::WriteFault => JobFault::WriteFault,
        FlushFault::Memory | FlushFault::Full | FlushFault::NotReady | FlushFault::Damaged => {
            JobFault::Memory
        }
    }
}

impl Region {
    ghost use Rattle.px_region.specs.Region.{RegionData, RegionHolds, RegionStands, data_of, read_of};
    ghost use Rattle.px_region.specs.Ordered.{HasFlushed, IsFlushOrdered, IsSameOrder, flushed_of};
    ghost use Rattle.px_flushing.specs.Flushing.{forgetting_horizon};
    ghost use Rattle.px_region.specs.Forgetting.{StaysWanted};
    ghost use Rattle.px_region.specs.Promise.{IsAlike, IsSamePromise};
    ghost use Rattle.px_region.specs.declared.fault.JobFault.TheVariants.{Memory, WriteFault};

    /// Whether the log may switch to its other segment, so that what stands there can be flushed: nothing is promised, all of the older segment was
    /// flushed, and there is something else.
    fn may_switch(&self) -> bool
        ensures { IsTrue result → MaySwitch (flushed_of self.now) self.now.wal × (self.now.promised ≡ 0) × (self.now.promised_bytes ≡ 0) × (self.now.flushing.flush ≡ None) }
    {
        let flushed = self.flushed();
        self.flushing.is_idle()
            && self.promised == 0
            && self.promised_bytes == 0
            && self.wal.may_switch(flushed)
            && flushed < self.wal.last()
    }

    /// Whether the manifest is to be renewed: its segment has no room to name other files, or the next one is under way.
    pub(crate) fn is_full(&self) -> bool {
        self.manifest.is_open()
            && (self.manifest.is_rolling() || !self.manifest.has_room(MOST_FILES as u64))
    }

    /// How many of the newest files are to be merged to one, if a compaction is due and can begin.
    fn due_run(&self) -> Option<usize>
        ensures { OnSome result (self.now.flushing.flush ≡ None) }
    {
        if !self.flushing.is_idle() || !self.flushing.may_compact() {
            return None;
        }
        let run = run_len(&self.manifest.snapshot().files);
        if run >= MERGED_FILES && !self.is_full() {
            Some(run)
        } else {
            None
        }
    }

    /// Whether a file more can be named, at once or after a compaction.
    fn may_add(&self) -> bool {
        let files = &self.manifest.snapshot().files;
        files.len() < MOST_FILES || run_len(files) >= MERGED_FILES
    }

    /// Whether a flush or a compaction is under way, or a flush would make room: something stands above the flushed number, and the manifest can name a file
    /// more.
    pub fn may_flush(&self) -> bool {
        !self.flushing.is_idle() || self.flushed() < self.wal.last() && self.may_add()
    }

    /// Whether room that is lacking now may come: by a flush, or from what was promised.
    pub fn may_free(&self) -> bool {
        self.promised > 0 || self.may_flush()
    }

    /// Whether so much stands above the flushed number that it is to be flushed.
    fn is_large(&self) -> bool {
        self.cells > FLUSHED_CELLS || self.bytes > FLUSHED_BYTES || !self.wal.has_room(ALL_BYTES)
    }

    /// Orders that all that stands in the log be flushed: upkeep is due until it is. What comes behind isn't ordered.
    pub fn order_flush(&mut self)
        ensures ordered { IsFlushOrdered self.new }
        ensures only { self.new.ordered ≡ self.new.wal.last }
        ensures alike { IsAlike self.old self.new }
        ensures promised { IsSamePromise self.old self.new }
        ensures read { read_of self.new ≡ read_of self.old }
        ensures looked { self.new.looked ≡ self.old.looked }
    {
        self.ordered = self.wal.last();
    }

    /// Whether upkeep has a step to make: its log isn't open, a flush or a compaction is under way, a flush is ordered, one of both is due and can
    /// begin, or the manifest is to be renewed.
    pub fn is_due(&self) -> bool
        ensures { result ≡ false → HasFlushed self.now }
    {
        let flushed = self.flushed();
        if !self.wal.is_open() || !self.flushing.is_idle() || flushed < self.ordered {
            return true;
        }
        if self.is_full() || self.due_run().is_some() {
            return true;
        }
        self.may_flush() && self.is_large() && (self.may_switch() || self.wal.older_to() > flushed)
    }

    /// Makes one step of the switch of the log to its other segment. Where none can be made, a flush is ordered no more.
    fn switch_step<D: Disk>(&mut self, disk: &mut D) -> Result<JobStep, JobFault>
        requires may { MaySwitch (flushed_of self.old) self.old.wal }
        requires none { (self.old.promised ≡ 0) × (self.old.promised_bytes ≡ 0) }
        requires idle { self.old.flushing.flush ≡ None }
        ensures done { (s : RegionData) → RegionHolds ⟦<D as Disk>⟧ self.old disk.old s → OnOk result (RegionHolds ⟦<D as Disk>⟧ self.new disk.new s) }

        // At each moment of the call a stop leaves the region as it is.
        ensures any_moment { (s : RegionData) → RegionHolds ⟦<D as Disk>⟧ self.old disk.old s → LeavesOnly ⟦<D as Disk>⟧ disk.old disk.new (λ moment image. RegionStands self.old.number image s) }
        ensures failed { result ≡ Err WriteFault → Rose ⟦<D as Disk>⟧ disk.old disk.new }
        ensures refused { (s : RegionData) → RegionHolds ⟦<D as Disk>⟧ self.old disk.old s → result ≡ Err Memory → RegionHolds ⟦<D as Disk>⟧ self.new disk.new s }
        ensures touches { (s : RegionData) → RegionHolds ⟦<D as Disk>⟧ self.old disk.old s → TouchesOnly ⟦<D as Disk>⟧ disk.old disk.new (HasFile self.old.number) }
        ensures counts { Passes ⟦<D as Disk>⟧ disk.old disk.new 4 }
        ensures promised { IsSamePromise self.old self.new }
        ensures read { read_of self.new ≡ read_of self.old }
        ensures number { self.new.number ≡ self.old.number }
        ensures horizon { (data_of self.new).horizon ≡ (data_of self.old).horizon }
        ensures looked { self.new.looked ≡ self.old.looked }
        ensures ordered { OnOk result (IsSameOrder self.old self.new) }
        ensures wanted { OnOk result (StaysWanted self.old self.new) }
    {
        match self.wal.switch_step(disk) {
            Ok(Rolled::More) => Ok(JobStep::More),
            Ok(Rolled::Rolled) => {
                let last = self.wal.last();
                self.stamps.age(last);
                Ok(JobStep::More)
            }
            Err(AppendFault::WriteFault) => Err(JobFault::WriteFault),
            Err(AppendFault::Full) => {
                self.ordered = 0;
                Err(JobFault::Memory)
            }
        }
    }

    /// Makes one step of the manifest's next segment, which begins with what is named. Where none can be made, a flush is ordered no more.
    fn renew_step<D: Disk>(&mut self, disk: &mut D) -> Result<JobStep, JobFault>
        ensures done { (s : RegionData) → RegionHolds ⟦<D as Disk>⟧ self.old disk.old s → OnOk result (RegionHolds ⟦<D as Disk>⟧ self.new disk.new s) }

        // At each moment of the call a stop leaves the region as it is.
        ensures any_moment { (s : RegionData) → RegionHolds ⟦<D as Disk>⟧ self.old disk.old s → LeavesOnly ⟦<D as Disk>⟧ disk.old disk.new (λ moment image. RegionStands self.old.number image s) }
        ensures failed { result ≡ Err WriteFault → Rose ⟦<D as Disk>⟧ disk.old disk.new }
        ensures refused { (s : RegionData) → RegionHolds ⟦<D as Disk>⟧ self.old disk.old s → result ≡ Err Memory → RegionHolds ⟦<D as Disk>⟧ self.new disk.new s }
        ensures touches { (s : RegionData) → RegionHolds ⟦<D as Disk>⟧ self.old disk.old s → TouchesOnly ⟦<D as Disk>⟧ disk.old disk.new (HasFile self.old.number) }
        ensures counts { Passes ⟦<D as Disk>⟧ disk.old disk.new 4 }
        ensures promised { IsSamePromise self.old self.new }
        ensures read { read_of self.new ≡ read_of self.old }
        ensures number { self.new.number ≡ self.old.number }
        ensures horizon { (data_of self.new).horizon ≡ (data_of self.old).horizon }
        ensures looked { self.new.looked ≡ self.old.looked }
        ensures ordered { OnOk result (IsSameOrder self.old self.new) }
        ensures wanted { OnOk result (StaysWanted self.old self.new) }
    {
        let mut frame = match Frame::with_room(self.alloc, self.manifest.snapshot().body_len()) {
            Ok(frame) => frame,
            Err(_) => {
                self.ordered = 0;
                return Err(JobFault::Memory);
            }
        };
        match self.manifest.roll_step(disk, &mut frame) {
            Ok(_) => Ok(JobStep::More),
            Err(AppendFault::WriteFault) => Err(JobFault::WriteFault),
            Err(AppendFault::Full) => {
                self.ordered = 0;
                Err(JobFault::Memory)
            }
        }
    }

    /// Begins a compaction of so many of the newest files. It makes no call.
    fn begin_compaction<D: Disk>(&mut self, count: usize)
        requires { self.old.flushing.flush ≡ None }
        ensures done { (s : RegionData) (disk : D) → RegionHolds ⟦<D as Disk>⟧ self.old disk s → RegionHolds ⟦<D as Disk>⟧ self.new disk s }
        ensures promised { IsSamePromise self.old self.new }
        ensures read { read_of self.new ≡ read_of self.old }
        ensures number { self.new.number ≡ self.old.number }
        ensures horizon { (data_of self.new).horizon ≡ (data_of self.old).horizon }
        ensures looked { self.new.looked ≡ self.old.looked }
        ensures ordered { IsSameOrder self.old self.new }
        ensures wanted { StaysWanted self.old self.new }
    {
        self.flushing.compact::<D>(count);
    }

    /// Makes one step of the flush of what stands in the log's older segment, or of the compaction that is under way, which forgets nothing. Where none
    /// can be made, a flush is ordered no more.
    fn plain_step<D: Disk>(&mut self, disk: &mut D) -> Result<JobStep, JobFault>
        requires { forgetting_horizon self.old.flushing.flush ≡ None }
        ensures done { (s : RegionData) → RegionHolds ⟦<D as Disk>⟧ self.old disk.old s → OnOk result (RegionHolds ⟦<D as Disk>⟧ self.new disk.new s) }

        // At each moment of the call a stop leaves the region as it is.
        ensures any_moment { (s : RegionData) → RegionHolds ⟦<D as Disk>⟧ self.old disk.old s → LeavesOnly ⟦<D as Disk>⟧ disk.old disk.new (λ moment image. RegionStands self.old.number image s) }
        ensures failed { result ≡ Err WriteFault → Rose ⟦<D as Disk>⟧ disk.old disk.new }
        ensures refused { (s : RegionData) → RegionHolds ⟦<D as Disk>⟧ self.old disk.old s → result ≡ Err Memory → RegionHolds ⟦<D as Disk>⟧ self.new disk.new s }
        ensures touches { (s : RegionData) → RegionHolds ⟦<D as Disk>⟧ self.old disk.old s → TouchesOnly ⟦<D as Disk>⟧ disk.old disk.new (HasFile self.old.number) }
        ensures counts { Passes ⟦<D as Disk>⟧ disk.old disk.new 4 }
        ensures promised { IsSamePromise self.old self.new }
        ensures read { read_of self.new ≡ read_of self.old }
        ensures number { self.new.number ≡ self.old.number }
        ensures horizon { (data_of self.new).horizon ≡ (data_of self.old).horizon }
        ensures looked { self.new.looked ≡ self.old.looked }
        ensures ordered { OnOk result (IsSameOrder self.old self.new) }
        ensures wanted { OnOk result (StaysWanted self.old self.new) }
    {
        match self.files_step(disk) {
            Ok(ForgetStep::More) => Ok(JobStep::More),
            Ok(ForgetStep::Forgot) => Ok(JobStep::More),
            Ok(ForgetStep::Done) => Ok(JobStep::Done),
            Err(fault) => Err(fault),
        }
    }

    /// Makes one step of the flush of what stands in the log's older segment, or of the compaction that is under way. Where none can be made, a flush
    /// is ordered no more. A compaction that forgets is given up, since it goes on with its horizon alone, by `forget_step`.
    fn flush_step<D: Disk>(&mut self, disk: &mut D) -> Result<JobStep, JobFault>
        ensures done { (s : RegionData) → RegionHolds ⟦<D as Disk>⟧ self.old disk.old s → OnOk result (RegionHolds ⟦<D as Disk>⟧ self.new disk.new s) }

        // At each moment of the call a stop leaves the region as it is.
        ensures any_moment { (s : RegionData) → RegionHolds ⟦<D as Disk>⟧ self.old disk.old s → LeavesOnly ⟦<D as Disk>⟧ disk.old disk.new (λ moment image. RegionStands self.old.number image s) }
        ensures failed { result ≡ Err WriteFault → Rose ⟦<D as Disk>⟧ disk.old disk.new }
        ensures refused { (s : RegionData) → RegionHolds ⟦<D as Disk>⟧ self.old disk.old s → result ≡ Err Memory → RegionHolds ⟦<D as Disk>⟧ self.new disk.new s }
        ensures touches { (s : RegionData) → RegionHolds ⟦<D as Disk>⟧ self.old disk.old s → TouchesOnly ⟦<D as Disk>⟧ disk.old disk.new (HasFile self.old.number) }
        ensures counts { Passes ⟦<D as Disk>⟧ disk.old disk.new 4 }
        ensures promised { IsSamePromise self.old self.new }
        ensures read { read_of self.new ≡ read_of self.old }
        ensures number { self.new.number ≡ self.old.number }
        ensures horizon { (data_of self.new).horizon ≡ (data_of self.old).horizon }
        ensures looked { self.new.looked ≡ self.old.looked }
        ensures ordered { OnOk result (IsSameOrder self.old self.new) }
        ensures wanted { OnOk result (StaysWanted self.old self.new) }
    {
        match self.flushing.horizon() {
            None => self.plain_step(disk),
            Some(_) => {
                self.flushing.give_up::<D>();
                Ok(JobStep::More)
            }
        }
    }

    /// Makes one step of upkeep: of its log or its manifest, where one isn't open or the manifest is full; of a compaction that is due; of the switch of
    /// the log to its other segment; or of a flush. What is read stays, and what the region stands for stays at each moment. `Done` comes where a flush
    /// ended, or nothing is left to do.
    ///
    /// A WriteFault comes where a call of the disk failed, and then no call may follow. Where no memory is found the step may be made again; and a
    /// flush that was ordered isn't any more, so that an order which can't be met is told once.
    pub fn upkeep_step<D: Disk>(&mut self, disk: &mut D) -> Result<JobStep, JobFault>
        ensures done { (s : RegionData) → RegionHolds ⟦<D as Disk>⟧ self.old disk.old s → OnOk result (RegionHolds ⟦<D as Disk>⟧ self.new disk.new s) }

        // At each moment of the call a stop leaves the region as it is.
        ensures any_moment { (s : RegionData) → RegionHolds ⟦<D as Disk>⟧ self.old disk.old s → LeavesOnly ⟦<D as Disk>⟧ disk.old disk.new (λ moment image. RegionStands self.old.number image s) }
        ensures failed { result ≡ Err WriteFault → Rose ⟦<D as Disk>⟧ disk.old disk.new }
        ensures refused { (s : RegionData) → RegionHolds ⟦<D as Disk>⟧ self.old disk.old s → result ≡ Err Memory → RegionHolds ⟦<D as Disk>⟧ self.new disk.new s }
        ensures touches { (s : RegionData) → RegionHolds ⟦<D as Disk>⟧ self.old disk.old s → TouchesOnly ⟦<D as Disk>⟧ disk.old disk.new (HasFile self.old.number) }
        ensures counts { Passes ⟦<D as Disk>⟧ disk.old disk.new 4 }
        ensures promised { IsSamePromise self.old self.new }
        ensures read { read_of self.new ≡ read_of self.old }
        ensures number { self.new.number ≡ self.old.number }
        ensures horizon { (data_of self.new).horizon ≡ (data_of self.old).horizon }
        ensures looked { self.new.looked ≡ self.old.looked }
        ensures ordered { OnOk result (IsSameOrder self.old self.new) }
        ensures wanted { OnOk result (StaysWanted self.old self.new) }
    {
        if !self.wal.is_open() || !self.manifest.is_open() {
            return self.prepare_step(disk);
        }
        if self.is_full() {
            return self.renew_step(disk);
        }
        if let Some(count) = self.due_run() {
            self.begin_compaction::<D>(count);
            return Ok(JobStep::More);
        }
        if self.may_switch() {
            return self.switch_step(disk);
        }
        self.flush_step(disk)
    }
}
