// The log of a region.
ghost use Rattle.std.specs.Prelude.{◌≡◌, ◌≢◌, ◌≤◌, ◌<◌, ◌+◌, ◌^◌, ◌⊎◌, ◌++◌, ◌∷◌, [], ◌↔◌, ℕ, List, length, IsTrue, IfOk, IsErr, OnOk, Ok, Err, None};
ghost use Rattle.px_outside.specs.OnDisk.{LeavesOnly, Passes, Rose, Stays, TouchesOnly};
ghost use Rattle.px_cellbytes.specs.Reading.{IsWritten};
ghost use Rattle.px_cellbytes.specs.Spelling.{all_bytes};
ghost use Rattle.px_wal.specs.Batches.{LogBatch};

use crate::files::local_file;
use crate::frames::fill_batch;
use crate::reader::BatchReader;
use px_cells::Cells;
use px_gatelog::{AppendFault, Frame, GateLog, Rolled, StartFault};
use px_memstore::MemStore;
use px_outside::{Disk, Failed};
use std::alloc::Global;

/// The log of a region, to which batches of cells are appended.
#[derive(Drop)]
pub struct Wal {
    pub(crate) log: GateLog,
    /// The number of the last batch; the flushed number where there is none.
    pub(crate) last: u64,
    /// The number up to which the batches of the older of two open segments go. Where it has none, it is one that was flushed.
    pub(crate) older_to: u64,
}

/// A log that was read, and the cells of its batches above the flushed number.
#[derive(Drop)]
pub struct Replayed {
    pub wal: Wal,
    pub store: MemStore,
    /// How many cells these batches have, and the sum of their bytes.
    pub cells: u64,
    pub bytes: u64,
}

/// The cells of batches that were read again.
#[derive(Drop)]
pub struct Reread {
    pub store: MemStore,
    /// How many cells these batches have, and the sum of their bytes.
    pub cells: u64,
    pub bytes: u64,
}

impl Wal {
    ghost use Rattle.px_wal.specs.Wal.{HasBatches, IsFreshLog, LogStands, is_wal_open, log_files, next_batch, room_of_wal};
    ghost use Rattle.px_gatelog.specs.GateLog.{steps_left};

    /// The log of a region of which no file was ever written. It makes no call.
    pub fn fresh(region: u32) -> Wal
        ensures fresh { IsFreshLog region result }
    {
        let first = local_file(region, 0);
        let second = local_file(region, 1);
        Wal {
            log: GateLog::fresh(first, second),
            last: 0,
            older_to: 0,
        }
    }

    /// Whether the log has an open segment.
    pub fn is_open(&self) -> bool
        ensures { IsTrue result ↔ is_wal_open self.now }
    {
        self.log.is_open()
    }

    /// The number of the last batch.
    pub fn last(&self) -> u64
        ensures { result ≡ self.now.last }
    {
        self.last
    }

    /// The number up to which the batches of the older of two open segments go: those that a flush writes, where it is above the
    /// flushed number. Where that segment has none, it is one that was flushed.
    pub fn older_to(&self) -> u64
        ensures { result ≡ self.now.older_to }
    {
        self.older_to
    }

    /// Whether the newest segment has room for a record with a body of so many bytes.
    pub fn has_room(&self, body: u64) -> bool
        requires short { body < 2 ^ 32 }
        ensures { IsTrue result ↔ (7 + body ≤ room_of_wal self.now) }
    {
        self.log.has_room(body)
    }

    /// Appends a batch, and answers its number. After `Ok` it is there. A stop in the call leaves it whole or not at all.
    /// It takes no memory. It is full where no number is left, or the batch passes the segment's size, and then no call
    /// is made.
    pub fn append<D: Disk>(
        &mut self,
        disk: &mut D,
        cells: &Cells,
        frame: &mut Frame,
    ) -> Result<u64, AppendFault>
        requires open { is_wal_open self.old }
        requires written { IsWritten cells.now }
        requires counted { length cells.now < 2 ^ 32 }
        requires room { 12 + length (all_bytes cells.now) ≤ frame.old.room }
        requires small { 12 + length (all_bytes cells.now) < 2 ^ 32 }
        ensures done { (region flushed : ℕ) (batches : List LogBatch) → HasBatches ⟦<D as Disk>⟧ region flushed self.old disk.old batches
            → OnOk result (HasBatches ⟦<D as Disk>⟧ region flushed self.new disk.new (batches ++ next_batch self.old cells.now ∷ [])) }

        // At each moment of the call a stop leaves the log without the batch, or with it.
        ensures any_moment { (region flushed : ℕ) (batches : List LogBatch) → HasBatches ⟦<D as Disk>⟧ region flushed self.old disk.old batches
            → LeavesOnly ⟦<D as Disk>⟧ disk.old disk.new (λ moment image. LogStands region flushed image batches ⊎ LogStands region flushed image (batches ++ next_batch self.old cells.now ∷ [])) }
        ensures full { (result ≡ Err AppendFault.Full) ↔ ((room_of_wal self.old < 19 + length (all_bytes cells.now)) ⊎ (self.old.last ≡ 18446744073709551615)) }
        ensures untouched { result ≡ Err AppendFault.Full → (disk.new ≡ disk.old) × (self.new ≡ self.old) }
        ensures failed { result ≡ Err AppendFault.WriteFault → Rose ⟦<D as Disk>⟧ disk.old disk.new }
        ensures number { IfOk result (λ n. n ≡ self.old.last + 1) }
        ensures last { OnOk result (self.new.last ≡ self.old.last + 1) }
        ensures touches { (region flushed : ℕ) (batches : List LogBatch) → HasBatches ⟦<D as Disk>⟧ region flushed self.old disk.old batches → TouchesOnly ⟦<D as Disk>⟧ disk.old disk.new (log_files region) }
        ensures counts { Passes ⟦<D as Disk>⟧ disk.old disk.new 4 }
        ensures open { is_wal_open self.new }
        ensures room { OnOk result (room_of_wal self.new + (18 + length (all_bytes cells.now)) ≡ room_of_wal self.old) }
        ensures frame { frame.old.room ≤ frame.new.room }
    {
        let Some(number) = self.last.checked_add(1) else {
            return Err(AppendFault::Full);
        };
        fill_batch(frame, number, cells);
        self.log.append(disk, frame)?;
        self.last = number;
        Ok(number)
    }

    /// Makes one step of the log's first segment: closes the gate of its file where it may be open, or writes the segment
    /// behind the gate, or opens the gate. The log has the same batches at each moment. It takes no memory.
    pub fn roll_step<D: Disk>(&mut self, disk: &mut D) -> Result<Rolled, Failed>
        requires closed { is_wal_open self.old → ⊥ }
        ensures done { (region flushed : ℕ) (batches : List LogBatch) → HasBatches ⟦<D as Disk>⟧ region flushed self.old disk.old batches → OnOk result (HasBatches ⟦<D as Disk>⟧ region flushed self.new disk.new batches) }

        // At each moment of the call a stop leaves the log with the same batches.
        ensures any_moment { (region flushed : ℕ) (batches : List LogBatch) → HasBatches ⟦<D as Disk>⟧ region flushed self.old disk.old batches
            → LeavesOnly ⟦<D as Disk>⟧ disk.old disk.new (λ moment image. LogStands region flushed image batches) }
        ensures failed { IsErr result → Rose ⟦<D as Disk>⟧ disk.old disk.new }
        ensures touches { (region flushed : ℕ) (batches : List LogBatch) → HasBatches ⟦<D as Disk>⟧ region flushed self.old disk.old batches → TouchesOnly ⟦<D as Disk>⟧ disk.old disk.new (log_files region) }
        ensures counts { Passes ⟦<D as Disk>⟧ disk.old disk.new 3 }

        // With the last step the segment is open.
        ensures opened { result ≡ Ok Rolled.Rolled → is_wal_open self.new }
        ensures more { result ≡ Ok Rolled.More → (is_wal_open self.new → ⊥) × (steps_left self.new.log + 1 ≡ steps_left self.old.log) }
        ensures last { self.new.last ≡ self.old.last }
        ensures older { self.new.older_to ≡ self.old.older_to }
    {
        match self.log.roll_step(disk, None) {
            Ok(rolled) => Ok(rolled),
            Err(_fault) => Err(Failed),
        }
    }
}

impl Wal {
    ghost use Rattle.px_gatelog.specs.GateLog.{newest_generation, steps_left};
    ghost use Rattle.px_wal.specs.Batches.{IsRest};
    ghost use Rattle.px_wal.specs.Wal.{HasBatches, IsReread, LogStands, MaySwitch, is_wal_open, log_files, room_of_wal};

    /// Whether another segment may take the appends, where the log was flushed up to a number. The older one goes with it, so it
    /// may have no batch above that number: a stop can leave such a one, and then its batches are to be flushed first.
    pub fn may_switch(&self, flushed: u64) -> bool
        ensures { IsTrue result ↔ MaySwitch flushed self.now }
    {
        self.older_to <= flushed && flushed <= self.last
    }

    /// Makes one step of the switch to another segment: closes the gate of the older one where it may be open, or writes the new
    /// one behind the gate, or opens the gate. From then on batches are appended to it, and all that were there before stand in
    /// the older one. No batch above the flushed number goes. It takes no memory. It is full where no generation is left, and
    /// then no call is made.
    pub fn switch_step<D: Disk>(&mut self, disk: &mut D) -> Result<Rolled, AppendFault>
        ensures done { (region flushed : ℕ) (batches : List LogBatch) → HasBatches ⟦<D as Disk>⟧ region flushed self.old disk.old batches → MaySwitch flushed self.old
            → OnOk result ((rest : List LogBatch) × IsRest flushed batches rest × HasBatches ⟦<D as Disk>⟧ region flushed self.new disk.new rest) }

        // At each moment of the call a stop leaves the log with the same batches above the flushed number.
        ensures any_moment { (region flushed : ℕ) (batches : List LogBatch) → HasBatches ⟦<D as Disk>⟧ region flushed self.old disk.old batches → MaySwitch flushed self.old
            → LeavesOnly ⟦<D as Disk>⟧ disk.old disk.new (λ moment image. (rest : List LogBatch) × IsRest flushed batches rest × LogStands region flushed image rest) }
        ensures full { (result ≡ Err AppendFault.Full) ↔ (newest_generation self.old.log ≡ 18446744073709551615) }
        ensures untouched { result ≡ Err AppendFault.Full → (disk.new ≡ disk.old) × (self.new ≡ self.old) }
        ensures failed { result ≡ Err AppendFault.WriteFault → Rose ⟦<D as Disk>⟧ disk.old disk.new }
        ensures touches { (region flushed : ℕ) (batches : List LogBatch) → HasBatches ⟦<D as Disk>⟧ region flushed self.old disk.old batches → TouchesOnly ⟦<D as Disk>⟧ disk.old disk.new (log_files region) }
        ensures counts { Passes ⟦<D as Disk>⟧ disk.old disk.new 3 }
        ensures open { is_wal_open self.old → OnOk result (is_wal_open self.new) }
        ensures opened { result ≡ Ok Rolled.Rolled → is_wal_open self.new }
        ensures more { result ≡ Ok Rolled.More → (steps_left self.new.log + 1 ≡ steps_left self.old.log) × (self.new.older_to ≡ self.old.older_to) }

        // With the last step all batches stand in the older segment.
        ensures left { result ≡ Ok Rolled.Rolled → self.new.older_to ≡ self.old.last }
        ensures room { (region flushed : ℕ) (batches : List LogBatch) → HasBatches ⟦<D as Disk>⟧ region flushed self.old disk.old batches → OnOk result (room_of_wal self.old ≤ room_of_wal self.new) }
        ensures last { self.new.last ≡ self.old.last }
    {
        match self.log.roll_step(disk, None) {
            Ok(Rolled::More) => Ok(Rolled::More),
            Ok(Rolled::Rolled) => {
                self.older_to = self.last;
                Ok(Rolled::Rolled)
            }
            Err(fault) => Err(fault),
        }
    }

    /// Reads again the batches of the older segment that are above the flushed number. The log is on the disk, so nothing is
    /// brought to it, and two calls are made. It isn't Damaged while the disk tells that the log is as it was written.
    pub fn read_older<D: Disk>(
        &self,
        alloc: Global,
        disk: &mut D,
        flushed: u64,
    ) -> Result<Reread, StartFault>
        ensures read { (region : ℕ) (batches : List LogBatch) → HasBatches ⟦<D as Disk>⟧ region flushed self.now disk.old batches → IfOk result (λ r. IsReread flushed self.now.older_to batches r) }
        ensures sound { (region : ℕ) (batches : List LogBatch) → HasBatches ⟦<D as Disk>⟧ region flushed self.now disk.old batches → (file place : ℕ) → result ≢ Err (StartFault.Damaged file place) }
        ensures quiet { Stays ⟦<D as Disk>⟧ disk.old disk.new }
        ensures seen { D.seen disk.new ≡ D.seen disk.old }
        ensures read_failed { result ≡ Err StartFault.ReadFault → Rose ⟦<D as Disk>⟧ disk.old disk.new }
        ensures unwritten { result ≢ Err StartFault.WriteFault }
        ensures counts { Passes ⟦<D as Disk>⟧ disk.old disk.new 2 }
    {
        let mut reader = BatchReader::new(alloc, flushed);
        match self.log.read_older(alloc, disk, &mut reader) {
            Ok(()) => Ok(reader.into_reread()),
            Err(fault) => {
                drop(reader);
                Err(fault)
            }
        }
    }
}

impl Wal {
    ghost use Rattle.px_gatelog.specs.Damage.{IsFirstWrong};
    ghost use Rattle.px_wal.specs.Files.{file_of};
    ghost use Rattle.px_wal.specs.Form.{wal_form};
    ghost use Rattle.px_wal.specs.Wal.{IsReplayed};

    /// Opens the log of a region that was flushed up to a number: 0 where there is no manifest. Batches up to it are
    /// tested and passed over.
    pub fn replay<D: Disk>(
        alloc: Global,
        disk: &mut D,
        region: u32,
        flushed: u64,
    ) -> Result<Replayed, StartFault>
        ensures replayed { IsTrue D.tells → IfOk result (λ r. IsReplayed ⟦<D as Disk>⟧ region flushed disk.old disk.new r) }
        ensures damaged { (file place : ℕ) → result ≡ Err (StartFault.Damaged file place) → IsTrue D.tells
            → IsFirstWrong (wal_form flushed) (file_of region 0) (file_of region 1) (D.seen disk.old (file_of region 0)) (D.seen disk.old (file_of region 1)) file place }
        ensures quiet { Stays ⟦<D as Disk>⟧ disk.old disk.new }
        ensures seen { D.seen disk.new ≡ D.seen disk.old }
        ensures read_failed { result ≡ Err StartFault.ReadFault → Rose ⟦<D as Disk>⟧ disk.old disk.new }
        ensures write_failed { result ≡ Err StartFault.WriteFault → Rose ⟦<D as Disk>⟧ disk.old disk.new }
        ensures counts { Passes ⟦<D as Disk>⟧ disk.old disk.new 6 }
    {
        let first = local_file(region, 0);
        let second = local_file(region, 1);
        let mut reader = BatchReader::new(alloc, flushed);
        let log = GateLog::start(alloc, disk, first, second, &mut reader)?;
        Ok(reader.into_replayed(log))
    }
}
