// A log in two segment files.
ghost use Rattle.std.specs.Prelude.{◌≡◌, ◌≢◌, ◌≤◌, ◌<◌, ◌+◌, ◌^◌, ◌⊎◌, ◌++◌, ◌∷◌, [], ◌↔◌, ℕ, List, length, IsTrue, IfOk, IsErr, OnOk, Ok, Err};
ghost use Rattle.px_outside.specs.OnDisk.{LeavesOnly, Only, Passes, Rose, Stays, TouchesOnly};
ghost use Rattle.px_gatelog.specs.Format.{LogForm, LogRecord, SegmentRead, older_of, records_of, segments_of};

use crate::append::add_record;
use crate::replay::replay;
use crate::segment::{SEGMENT_LIMIT, Segment};
use crate::start::{is_shut, read_whole, settle};
use crate::{AppendFault, Frame, LogReader, StartFault};
use px_outside::Disk;
use std::alloc::Global;

/// A log. Of its two segment files the newest open one takes the appends.
#[derive(Drop)]
pub struct GateLog {
    pub(crate) first: u64,
    pub(crate) second: u64,
    pub(crate) newest: Option<Segment>,
    /// Whether a closed gate stands at the beginning of the first file. A write over it could open it.
    pub(crate) first_shut: bool,
    pub(crate) second_shut: bool,
    /// Where the next segment stands behind a closed gate, the place of the gate behind its records.
    pub(crate) laid: Option<u64>,
    ghost distinct: { first ≢ second },
}

impl GateLog {
    ghost use Rattle.px_gatelog.specs.Framed.{record_of};
    ghost use Rattle.px_gatelog.specs.GateLog.{IsLaid, IsSameLog, file_at, is_log_open, is_newest_file, room_of_log, steps_left};
    ghost use Rattle.px_gatelog.specs.Records.{IsNeverWritten};
    ghost use Rattle.px_gatelog.specs.Start.{IsStart};
    ghost use Rattle.px_gatelog.specs.Steps.{Commits, IsAppend, LogReaches};

    /// Adds a record to the newest segment. After `Ok` it is there. A stop in the call leaves it whole or not at all.
    /// It takes no memory.
    pub fn append<D: Disk>(&mut self, disk: &mut D, frame: &Frame) -> Result<(), AppendFault>
        requires open { is_log_open self.old }

        ensures done { OnOk result (LogReaches ⟦<D as Disk>⟧ self.old self.new disk.old disk.new (IsAppend (record_of frame.now))) }

        // At each moment of the call a stop leaves the log without the record, or with it.
        ensures any_moment { Commits ⟦<D as Disk>⟧ self.old disk.old disk.new (IsAppend (record_of frame.now)) }

        // The record passes the segment's size, and then no call is made.
        ensures full { (result ≡ Err AppendFault.Full) ↔ (room_of_log self.old < 7 + length frame.now.body) }
        ensures untouched { result ≡ Err AppendFault.Full → (disk.new ≡ disk.old) × (self.new ≡ self.old) }
        ensures room { OnOk result (room_of_log self.new + (6 + length frame.now.body) ≡ room_of_log self.old) }
        ensures failed { result ≡ Err AppendFault.WriteFault → Rose ⟦<D as Disk>⟧ disk.old disk.new }
        ensures unfailed { OnOk result (D.faults disk.new ≡ D.faults disk.old) }
        ensures touches { TouchesOnly ⟦<D as Disk>⟧ disk.old disk.new (is_newest_file self.old) }
        ensures counts { Passes ⟦<D as Disk>⟧ disk.old disk.new 4 }
        ensures same { IsSameLog self.old self.new }
        ensures open { is_log_open self.new }

        // A next segment that is laid out stays so.
        ensures laid { (records : List LogRecord) → IsLaid ⟦<D as Disk>⟧ self.old disk.old records → IsLaid ⟦<D as Disk>⟧ self.new disk.new records }
        ensures steps { steps_left self.new ≡ steps_left self.old }
    {
        match self.newest {
            None => unreachable!(),
            Some(segment) => {
                let behind = frame.bytes().len() as u64;
                if segment.end >= SEGMENT_LIMIT || SEGMENT_LIMIT - segment.end <= behind {
                    return Err(AppendFault::Full);
                }
                let file = self.file(segment.in_second);
                add_record(disk, file, segment.end, frame)?;
                self.newest = Some(Segment {
                    in_second: segment.in_second,
                    generation: segment.generation,
                    end: segment.end + behind,
                });
                Ok(())
            }
        }
    }

    /// The first or the second file.
    pub(crate) fn file(&self, in_second: bool) -> u64
        ensures { result ≡ file_at self.now in_second }
    {
        if in_second { self.second } else { self.first }
    }

    /// The log in two files that were never written. It makes no call.
    pub fn fresh(first: u64, second: u64) -> GateLog
        requires distinct { first ≢ second }
        ensures fresh { IsNeverWritten result first second }
    {
        GateLog {
            first,
            second,
            newest: None,
            first_shut: false,
            second_shut: false,
            laid: None,
        }
    }

    /// Whether the log has an open segment.
    pub fn is_open(&self) -> bool
        ensures { IsTrue result ↔ is_log_open self.now }
    {
        self.newest.is_some()
    }

    /// Whether the newest segment has room for a record with a body of so many bytes. Without an open segment there is
    /// none.
    pub fn has_room(&self, body: u64) -> bool
        requires short { body < 2 ^ 32 }
        ensures { IsTrue result ↔ (7 + body ≤ room_of_log self.now) }
    {
        match self.newest {
            None => false,
            Some(segment) => segment.end < SEGMENT_LIMIT && SEGMENT_LIMIT - segment.end >= 7 + body,
        }
    }

    /// Whether the next segment is laid out behind its closed gate, so that one step of its making is left.
    pub fn is_laid(&self) -> bool
        ensures { IsTrue result ↔ (steps_left self.now ≡ 1) }
    {
        self.laid.is_some()
    }

    /// Opens the log that is in two files. The reader takes the records that count, in order.
    pub fn start<D: Disk, R: LogReader>(
        alloc: Global,
        disk: &mut D,
        first: u64,
        second: u64,
        reader: &mut R,
    ) -> Result<GateLog, StartFault>
        requires distinct { first ≢ second }

        // What the files stand for, or the first place that isn't of the format.
        ensures start { R.has_read reader.old [] → IsTrue D.tells → IsStart ⟦<D as Disk>⟧ (R.form reader.old) (R.has_read reader.new) first second disk.old disk.new result }
        ensures taken { R.has_read reader.old [] → OnOk result ((records : List LogRecord) × R.has_read reader.new records) }

        // The reader was told which records come before those of the newest segment.
        ensures older { R.has_read reader.old [] → IsTrue D.tells → OnOk result ((segments : List SegmentRead) → segments_of (R.form reader.old) (D.seen disk.old first) (D.seen disk.old second) ≡ Ok segments
            → R.has_older reader.new (records_of (older_of segments))) }

        // A stop in the call leaves nothing new.
        ensures quiet { Stays ⟦<D as Disk>⟧ disk.old disk.new }
        ensures seen { D.seen disk.new ≡ D.seen disk.old }
        ensures read_failed { result ≡ Err StartFault.ReadFault → Rose ⟦<D as Disk>⟧ disk.old disk.new }
        ensures write_failed { result ≡ Err StartFault.WriteFault → Rose ⟦<D as Disk>⟧ disk.old disk.new }
        ensures unfailed { result ≢ Err StartFault.ReadFault → result ≢ Err StartFault.WriteFault → D.faults disk.new ≡ D.faults disk.old }
        ensures files { IfOk result (λ log. (log.first ≡ first) × (log.second ≡ second)) }

        // No segment is laid out yet.
        ensures unlaid { IfOk result (λ log. 1 < steps_left log) }
        ensures counts { Passes ⟦<D as Disk>⟧ disk.old disk.new 6 }

        // The reader asks the same of records.
        ensures same { R.form reader.new ≡ R.form reader.old }
    {
        match settle(disk, first, second) {
            Ok(()) => {}
            Err(_) => return Err(StartFault::WriteFault),
        }
        let in_first = read_whole(alloc, disk, first)?;
        let in_second = read_whole(alloc, disk, second)?;
        let newest = replay(first, second, &in_first, &in_second, reader)?;
        Ok(GateLog {
            first,
            second,
            newest,
            first_shut: is_shut(&in_first),
            second_shut: is_shut(&in_second),
            laid: None,
        })
    }
}
