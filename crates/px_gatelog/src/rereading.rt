// Reading the older of two open segments again.
ghost use Rattle.std.specs.Prelude.{◌≡◌, ◌≢◌, [], ℕ, List, true, IsTrue, OnOk, Err, Option};
ghost use Rattle.px_outside.specs.OnDisk.{Passes, Rose, Stays};
ghost use Rattle.px_gatelog.specs.Format.{SegmentRead, older_of, records_of};
ghost use Rattle.px_gatelog.specs.GateLog.{IsOlder, before_of};

use crate::fault::ReplayFault;
use crate::replay::{Opened, header, read_segment};
use crate::start::read_whole;
use crate::{GateLog, LogReader, StartFault};
use px_outside::Disk;
use std::alloc::Global;

/// Takes the records of a file that is no newest segment's, where a segment is open in it.
fn take_open<R: LogReader>(
    file: u64,
    in_second: bool,
    bytes: &[u8],
    reader: &mut R,
) -> Result<(), ReplayFault>
    requires { (R.form reader.old).both ≡ true }
    ensures taken { (generation : ℕ) (older : Option SegmentRead) → R.has_read reader.old [] → IsOlder (R.form reader.old) generation bytes.now older → OnOk result (R.has_read reader.new (before_of older)) }
    ensures sound { (generation : ℕ) (older : Option SegmentRead) → R.has_read reader.old [] → IsOlder (R.form reader.old) generation bytes.now older → (at place : ℕ) → result ≢ Err (ReplayFault.Damaged at place) }
    ensures same { R.form reader.new ≡ R.form reader.old }
{
    let generation = match header(file, bytes) {
        Ok(Some(generation)) => generation,
        Ok(None) => return Ok(()),
        Err(fault) => return Err(fault),
    };
    let opened = Opened {
        file,
        in_second,
        generation,
        bytes,
    };
    match read_segment(&opened, reader) {
        Ok(_) => Ok(()),
        Err(fault) => Err(fault),
    }
}

impl GateLog {
    ghost use Rattle.px_gatelog.specs.GateLog.{IsLogSettled};

    /// Takes again the records that come before those of the newest segment. The log is on the disk, so nothing is brought
    /// to it: one file is read, by two calls. It isn't Damaged while the disk tells that the log is as it was written.
    pub fn read_older<D: Disk, R: LogReader>(
        &self,
        alloc: Global,
        disk: &mut D,
        reader: &mut R,
    ) -> Result<(), StartFault>
        ensures taken { (segments : List SegmentRead) → R.has_read reader.old [] → IsLogSettled ⟦<D as Disk>⟧ (R.form reader.old) self.now disk.old segments → OnOk result (R.has_read reader.new (records_of (older_of segments))) }
        ensures sound { (segments : List SegmentRead) → R.has_read reader.old [] → IsLogSettled ⟦<D as Disk>⟧ (R.form reader.old) self.now disk.old segments → (file place : ℕ) → result ≢ Err (StartFault.Damaged file place) }

        // A stop in the call leaves nothing new.
        ensures quiet { Stays ⟦<D as Disk>⟧ disk.old disk.new }
        ensures seen { D.seen disk.new ≡ D.seen disk.old }
        ensures read_failed { result ≡ Err StartFault.ReadFault → Rose ⟦<D as Disk>⟧ disk.old disk.new }
        ensures unwritten { result ≢ Err StartFault.WriteFault }
        ensures unfailed { result ≢ Err StartFault.ReadFault → D.faults disk.new ≡ D.faults disk.old }
        ensures counts { Passes ⟦<D as Disk>⟧ disk.old disk.new 2 }
        ensures same { R.form reader.new ≡ R.form reader.old }
    {
        let Some(newest) = self.newest else {
            return Ok(());
        };
        if !reader.reads_both() {
            return Ok(());
        }
        let file = self.file(!newest.in_second);
        let bytes = read_whole(alloc, disk, file)?;
        match take_open(file, !newest.in_second, &bytes, reader) {
            Ok(()) => Ok(()),
            Err(ReplayFault::Damaged { file: at, place }) => Err(StartFault::Damaged {
                file: at,
                place,
            }),
            Err(ReplayFault::Memory) => Err(StartFault::Memory),
        }
    }
}
