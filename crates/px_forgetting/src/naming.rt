// Naming a file that has what a horizon keeps.
ghost use Rattle.std.specs.Prelude.{◌≡◌, ◌≤◌, ◌<◌, ◌+◌, ◌*◌, ◌∷◌, ◌⊎◌, [], ◌↔◌, ℕ, false, List, length, IfOk, IsErr, OnOk, Ok, Err};
ghost use Rattle.px_outside.specs.OnDisk.{LeavesOnly, Passes, Rose, TouchesOnly};
ghost use Rattle.px_cells.specs.CellData.{CellData};
ghost use Rattle.px_file.specs.declared.region_file.RegionFile.{RegionFile as OpenFile};
ghost use Rattle.px_merge.specs.Kept.{IsKeptList};
ghost use Rattle.px_wal.specs.Batches.{LogBatch, cells_over};
ghost use Rattle.px_wal.specs.Manifest.{HasSnapshot, is_manifest_open, manifest_files, named_snapshot, room_of_manifest};
ghost use Rattle.px_wal.specs.Snapshot.{IsSnapshot};
ghost use Rattle.px_wal.specs.SnapshotOf.{file_data, files_of, snapshot_of};
ghost use Rattle.px_wal.specs.declared.wal.Wal.{Wal as Logs};
ghost use Rattle.px_naming.specs.Naming.{HasParts, RegionReads, one_compaction_more};
ghost use Rattle.px_forgetting.specs.Forgetting.{IsForgotten};

use px_gatelog::{AppendFault, Frame};
use px_naming::merged_after;
use px_outside::Disk;
use px_wal::{FileEntry, Manifest, Snapshot};
use std::alloc::{AllocError, Global};

/// What is named after one file was made of what a horizon keeps of all files: it stands alone, with the horizon.
pub fn forgotten_after(
    alloc: Global,
    named: &Snapshot,
    horizon: u64,
    file: FileEntry,
) -> Result<Snapshot, AllocError>
    requires { 1 ≤ length named.now.files.items }
    ensures { IfOk result (λ after. snapshot_of after ≡ record { flushed = named.now.flushed; horizon = horizon; stamp = named.now.stamp; compactions = one_compaction_more named.now.compactions; files = file_data file ∷ [] }) }
{
    let mut after = merged_after(alloc, named, named.files.len(), file)?;
    after.horizon = horizon;
    Ok(after)
}

/// Names a file of what a horizon keeps in place of all files, and the horizon with it. A stop in the call leaves the region's files as they are
/// read now, with the horizon of now, or the new file with its horizon. It takes no memory. It is full where the record passes the segment's
/// size, and then no call is made.
pub fn name_forgotten<D: Disk>(
    disk: &mut D,
    manifest: &mut Manifest,
    frame: &mut Frame,
    after: Snapshot,
) -> Result<(), AppendFault>
    requires open { is_manifest_open manifest.old }
    requires still { manifest.old.rolling ≡ false }
    requires right { IsSnapshot (snapshot_of after) }
    requires room { 26 + 20 * length (files_of after) ≤ frame.old.room }
    ensures done { (region : ℕ) (wal : Logs) (batches : List LogBatch) (files : List OpenFile) (lists : List (List CellData)) (file : OpenFile) (list : List CellData)
        → HasParts ⟦<D as Disk>⟧ region manifest.old wal disk.old batches files lists → IsForgotten ⟦<D as Disk>⟧ region disk.old (named_snapshot manifest.old) (snapshot_of after) batches lists file list
        → OnOk result (HasParts ⟦<D as Disk>⟧ region manifest.new wal disk.new batches (file ∷ []) (list ∷ [])) }
    ensures kept_whole { (region : ℕ) (wal : Logs) (batches : List LogBatch) (files : List OpenFile) (lists : List (List CellData)) (file : OpenFile) (list : List CellData)
        → HasParts ⟦<D as Disk>⟧ region manifest.old wal disk.old batches files lists → IsForgotten ⟦<D as Disk>⟧ region disk.old (named_snapshot manifest.old) (snapshot_of after) batches lists file list
        → IsKeptList (cells_over (named_snapshot manifest.old).flushed batches lists) (snapshot_of after).horizon (cells_over (snapshot_of after).flushed batches (list ∷ [])) }

    // At each moment of the call a stop leaves what is read now under the old snapshot, or what the horizon keeps of it under the new one.
    ensures any_moment { (region : ℕ) (wal : Logs) (batches : List LogBatch) (files : List OpenFile) (lists : List (List CellData)) (file : OpenFile) (list : List CellData)
        → HasParts ⟦<D as Disk>⟧ region manifest.old wal disk.old batches files lists → IsForgotten ⟦<D as Disk>⟧ region disk.old (named_snapshot manifest.old) (snapshot_of after) batches lists file list
        → LeavesOnly ⟦<D as Disk>⟧ disk.old disk.new (λ moment image. RegionReads region image (named_snapshot manifest.old) (cells_over (named_snapshot manifest.old).flushed batches lists) ⊎ RegionReads region image (snapshot_of after) (cells_over (snapshot_of after).flushed batches (list ∷ []))) }
    ensures named { OnOk result (named_snapshot manifest.new ≡ snapshot_of after) }
    ensures kept { IsErr result → named_snapshot manifest.new ≡ named_snapshot manifest.old }
    ensures full { (result ≡ Err AppendFault.Full) ↔ (room_of_manifest manifest.old < 33 + 20 * length (files_of after)) }
    ensures untouched { result ≡ Err AppendFault.Full → (disk.new ≡ disk.old) × (manifest.new ≡ manifest.old) }
    ensures failed { result ≡ Err AppendFault.WriteFault → Rose ⟦<D as Disk>⟧ disk.old disk.new }
    ensures touches { (region : ℕ) → HasSnapshot ⟦<D as Disk>⟧ region manifest.old disk.old → TouchesOnly ⟦<D as Disk>⟧ disk.old disk.new (manifest_files region) }
    ensures counts { Passes ⟦<D as Disk>⟧ disk.old disk.new 4 }
    ensures open { is_manifest_open manifest.new }
    ensures still { manifest.new.rolling ≡ false }
    ensures frame { frame.old.room ≤ frame.new.room }
{
    manifest.append(disk, after, frame)
}
