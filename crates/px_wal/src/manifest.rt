// The manifest of a region.
ghost use Rattle.std.specs.Prelude.{◌≡◌, ◌≢◌, ◌≤◌, ◌<◌, ◌+◌, ◌*◌, ◌^◌, ◌⊎◌, ◌↔◌, ℕ, false, length, IsTrue, IfOk, IsErr, OnOk, Ok, Err};
ghost use Rattle.px_outside.specs.OnDisk.{LeavesOnly, Passes, Rose, Stays, TouchesOnly};
ghost use Rattle.px_gatelog.specs.GateLog.{steps_left};

use crate::files::local_file;
use crate::snapshot::Snapshot;
use crate::snapshot_body::fill_snapshot;
use crate::snapshot_reader::SnapshotReader;
use px_gatelog::{AppendFault, Frame, GateLog, Rolled, StartFault};
use px_outside::Disk;
use std::alloc::Global;

/// A manifest, of which the last record counts.
#[derive(Drop)]
pub struct Manifest {
    pub(crate) log: GateLog,
    pub(crate) snapshot: Snapshot,
    /// Whether a next segment may stand behind its closed gate. It has what is named now, so nothing else can be named.
    pub(crate) rolling: bool,
    ghost unlaid: { rolling ≡ false → steps_left log ≢ 1 },
}

impl Manifest {
    ghost use Rattle.px_gatelog.specs.GateLog.{newest_generation};
    ghost use Rattle.px_gatelog.specs.Damage.{IsFirstWrong};
    ghost use Rattle.px_wal.specs.Files.{file_of};
    ghost use Rattle.px_wal.specs.Snapshot.{IsSnapshot, manifest_form};
    ghost use Rattle.px_wal.specs.SnapshotOf.{files_of, snapshot_of};
    ghost use Rattle.px_wal.specs.Manifest.{HasSnapshot, IsFreshManifest, IsStarted, SnapshotStands, is_manifest_open, manifest_files, named_snapshot, room_of_manifest};

    /// The manifest of a region of which no file was ever written. It names nothing, and makes no call.
    pub fn fresh(alloc: Global, region: u32) -> Manifest
        ensures fresh { IsFreshManifest region result }
    {
        let first = local_file(region, 2);
        let second = local_file(region, 3);
        Manifest {
            log: GateLog::fresh(first, second),
            snapshot: Snapshot::nothing(alloc),
            rolling: false,
        }
    }

    /// Opens the manifest of a region.
    pub fn start<D: Disk>(alloc: Global, disk: &mut D, region: u32) -> Result<Manifest, StartFault>
        ensures started { IsTrue D.tells → IfOk result (λ m. IsStarted ⟦<D as Disk>⟧ region disk.old disk.new m) }
        ensures damaged { (file place : ℕ) → result ≡ Err (StartFault.Damaged file place) → IsTrue D.tells
            → IsFirstWrong manifest_form (file_of region 2) (file_of region 3) (D.seen disk.old (file_of region 2)) (D.seen disk.old (file_of region 3)) file place }
        ensures quiet { Stays ⟦<D as Disk>⟧ disk.old disk.new }
        ensures seen { D.seen disk.new ≡ D.seen disk.old }
        ensures read_failed { result ≡ Err StartFault.ReadFault → Rose ⟦<D as Disk>⟧ disk.old disk.new }
        ensures write_failed { result ≡ Err StartFault.WriteFault → Rose ⟦<D as Disk>⟧ disk.old disk.new }
        ensures counts { Passes ⟦<D as Disk>⟧ disk.old disk.new 6 }
    {
        let first = local_file(region, 2);
        let second = local_file(region, 3);
        let mut reader = SnapshotReader::new(alloc);
        let log = GateLog::start(alloc, disk, first, second, &mut reader)?;
        Ok(reader.into_manifest(log))
    }

    /// What it names.
    pub fn snapshot(&self) -> &Snapshot
        ensures { result.now ≡ self.now.snapshot }
    {
        &self.snapshot
    }

    /// Whether it has an open segment.
    pub fn is_open(&self) -> bool
        ensures { IsTrue result ↔ is_manifest_open self.now }
    {
        self.log.is_open()
    }

    /// Whether a next segment may stand behind its closed gate.
    pub fn is_rolling(&self) -> bool
        ensures { result ≡ self.now.rolling }
    {
        self.rolling
    }

    /// Whether it has an open segment with room for a snapshot of so many files.
    pub fn has_room(&self, files: u64) -> bool
        requires few { files < 256 }
        ensures { IsTrue result ↔ (33 + 20 * files ≤ room_of_manifest self.now) }
    {
        self.log.has_room(26 + 20 * files)
    }

    /// Appends what is named from now on. After `Ok` it is named. A stop in the call leaves what was named, or this. It
    /// takes no memory. It is full where the record passes the segment's size, and then no call is made.
    pub fn append<D: Disk>(
        &mut self,
        disk: &mut D,
        snapshot: Snapshot,
        frame: &mut Frame,
    ) -> Result<(), AppendFault>
        requires open { is_manifest_open self.old }
        requires still { self.old.rolling ≡ false }
        requires right { IsSnapshot (snapshot_of snapshot) }
        requires room { 26 + 20 * length (files_of snapshot) ≤ frame.old.room }
        ensures done { (region : ℕ) → HasSnapshot ⟦<D as Disk>⟧ region self.old disk.old → OnOk result (HasSnapshot ⟦<D as Disk>⟧ region self.new disk.new) }
        ensures named { OnOk result (named_snapshot self.new ≡ snapshot_of snapshot) }
        ensures kept { IsErr result → named_snapshot self.new ≡ named_snapshot self.old }

        // At each moment of the call a stop leaves what was named, or what is named now.
        ensures any_moment { (region : ℕ) → HasSnapshot ⟦<D as Disk>⟧ region self.old disk.old
            → LeavesOnly ⟦<D as Disk>⟧ disk.old disk.new (λ moment image. SnapshotStands region image (named_snapshot self.old) ⊎ SnapshotStands region image (snapshot_of snapshot)) }
        ensures full { (result ≡ Err AppendFault.Full) ↔ (room_of_manifest self.old < 33 + 20 * length (files_of snapshot)) }
        ensures untouched { result ≡ Err AppendFault.Full → (disk.new ≡ disk.old) × (self.new ≡ self.old) }
        ensures failed { result ≡ Err AppendFault.WriteFault → Rose ⟦<D as Disk>⟧ disk.old disk.new }
        ensures touches { (region : ℕ) → HasSnapshot ⟦<D as Disk>⟧ region self.old disk.old → TouchesOnly ⟦<D as Disk>⟧ disk.old disk.new (manifest_files region) }
        ensures counts { Passes ⟦<D as Disk>⟧ disk.old disk.new 4 }
        ensures open { is_manifest_open self.new }
        ensures still { self.new.rolling ≡ false }
        ensures frame { frame.old.room ≤ frame.new.room }
    {
        fill_snapshot(frame, &snapshot);
        match self.log.append(disk, frame) {
            Ok(()) => {
                self.snapshot = snapshot;
                Ok(())
            }
            Err(fault) => {
                drop(snapshot);
                Err(fault)
            }
        }
    }

    /// Makes one step of the next segment, which begins with what is named: closes the gate of its file where it may be
    /// open, or writes the segment behind the gate, or opens the gate. What is named stays at each moment. It takes no
    /// memory. It is full where no generation is left, and then no call is made.
    pub fn roll_step<D: Disk>(
        &mut self,
        disk: &mut D,
        frame: &mut Frame,
    ) -> Result<Rolled, AppendFault>
        requires { 26 + 20 * length (files_of self.old.snapshot) ≤ frame.old.room }
        ensures done { (region : ℕ) → HasSnapshot ⟦<D as Disk>⟧ region self.old disk.old → OnOk result (HasSnapshot ⟦<D as Disk>⟧ region self.new disk.new) }
        ensures named { named_snapshot self.new ≡ named_snapshot self.old }

        // At each moment of the call a stop leaves what is named.
        ensures any_moment { (region : ℕ) → HasSnapshot ⟦<D as Disk>⟧ region self.old disk.old → LeavesOnly ⟦<D as Disk>⟧ disk.old disk.new (λ moment image. SnapshotStands region image (named_snapshot self.old)) }
        ensures full { (result ≡ Err AppendFault.Full) ↔ (newest_generation self.old.log ≡ 18446744073709551615) }
        ensures untouched { result ≡ Err AppendFault.Full → (disk.new ≡ disk.old) × (self.new ≡ self.old) }
        ensures failed { result ≡ Err AppendFault.WriteFault → Rose ⟦<D as Disk>⟧ disk.old disk.new }
        ensures touches { (region : ℕ) → HasSnapshot ⟦<D as Disk>⟧ region self.old disk.old → TouchesOnly ⟦<D as Disk>⟧ disk.old disk.new (manifest_files region) }
        ensures counts { Passes ⟦<D as Disk>⟧ disk.old disk.new 3 }

        // With the last step the new segment is open, and something else can be named.
        ensures opened { result ≡ Ok Rolled.Rolled → is_manifest_open self.new × (self.new.rolling ≡ false) }
        ensures more { result ≡ Ok Rolled.More → steps_left self.new.log + 1 ≡ steps_left self.old.log }
        ensures frame { frame.old.room ≤ frame.new.room }
    {
        fill_snapshot(frame, &self.snapshot);
        let rolling = self.rolling;
        self.rolling = true;
        match self.log.roll_step(disk, Some(&*frame)) {
            Ok(Rolled::More) => Ok(Rolled::More),
            Ok(Rolled::Rolled) => {
                self.rolling = false;
                Ok(Rolled::Rolled)
            }
            Err(AppendFault::Full) => {
                self.rolling = rolling;
                Err(AppendFault::Full)
            }
            Err(AppendFault::WriteFault) => Err(AppendFault::WriteFault),
        }
    }
}
