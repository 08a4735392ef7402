// Naming a file.
ghost use Rattle.std.specs.Prelude.{◌≡◌, ◌≢◌, ◌≤◌, ◌<◌, ◌+◌, ◌*◌, ◌∷◌, [], ◌↔◌, ℕ, false, List, length, map, max, take, drop, IsTrue, IfOk, IsErr, OnOk, Ok, Err};
ghost use Rattle.px_outside.specs.OnDisk.{LeavesOnly, Passes, Rose, TouchesOnly};
ghost use Rattle.px_cells.specs.CellData.{CellData};
ghost use Rattle.px_file.specs.declared.region_file.RegionFile.{RegionFile as OpenFile};
ghost use Rattle.px_wal.specs.Batches.{LogBatch, cells_over};
ghost use Rattle.px_wal.specs.Manifest.{HasSnapshot, is_manifest_open, manifest_files, named_snapshot, room_of_manifest};
ghost use Rattle.px_wal.specs.Snapshot.{IsSnapshot};
ghost use Rattle.px_wal.specs.SnapshotOf.{file_data, files_of, snapshot_of};
ghost use Rattle.px_wal.specs.Wal.{HasBatches};
ghost use Rattle.px_wal.specs.declared.wal.Wal.{Wal as Logs};
ghost use Rattle.px_files.specs.Files.{HasFileCells, HaveFiles};
ghost use Rattle.px_naming.specs.Naming.{HasParts, IsCompactedFile, IsFlushed, ReadsByEither, one_compaction_more};

use px_gatelog::{AppendFault, Frame};
use px_outside::Disk;
use px_wal::{FileEntry, Manifest, Snapshot};
use std::alloc::{AllocError, Global};

/// What is named after a flush up to a number made a file: it stands before the others.
pub fn named_after(
    alloc: Global,
    named: &Snapshot,
    flushed: u64,
    stamp: u64,
    file: FileEntry,
) -> Result<Snapshot, AllocError>
    requires { length named.now.files.items < 255 }
    ensures { IfOk result (λ after. snapshot_of after
        ≡ record { flushed = flushed; horizon = named.now.horizon; stamp = max named.now.stamp stamp; compactions = named.now.compactions; files = file_data file ∷ map file_data named.now.files.items }) }
{
    let mut files = Vec::new(alloc);
    files.push(file)?;
    files.extend_from_slice(&named.files)?;
    Ok(Snapshot {
        flushed,
        horizon: named.horizon,
        stamp: named.stamp.max(stamp),
        compactions: named.compactions,
        files,
    })
}

/// The number of compactions, modulo 8, after one more.
fn count_one(compactions: u8) -> u8
    ensures { result ≡ one_compaction_more compactions }
{
    if compactions < 7 { compactions + 1 } else { 0 }
}

/// What is named after a compaction made a file of so many of the newest files: it stands in place of these.
pub fn merged_after(
    alloc: Global,
    named: &Snapshot,
    count: usize,
    file: FileEntry,
) -> Result<Snapshot, AllocError>
    requires some { 1 ≤ count }
    requires within { count ≤ length named.now.files.items }
    ensures { IfOk result (λ after. snapshot_of after
        ≡ record { flushed = named.now.flushed; horizon = named.now.horizon; stamp = named.now.stamp; compactions = one_compaction_more named.now.compactions; files = file_data file ∷ drop count (map file_data named.now.files.items) }) }
{
    let horizon = named.horizon;
    let mut files = Vec::new(alloc);
    files.push(file)?;
    files.extend_from_slice(&named.files[count..])?;
    Ok(Snapshot {
        flushed: named.flushed,
        horizon,
        stamp: named.stamp,
        compactions: count_one(named.compactions),
        files,
    })
}

/// Names a file, the newest, in place of the batches that it has. A stop in the call leaves the region's files as they are
/// read now, by the old snapshot or by the new one. It takes no memory. It is full where the record passes the segment's
/// size, and then no call is made.
pub fn name_file<D: Disk>(
    disk: &mut D,
    manifest: &mut Manifest,
    frame: &mut Frame,
    after: Snapshot,
) -> Result<(), AppendFault>
    requires open { is_manifest_open manifest.old }
    requires still { manifest.old.rolling ≡ false }
    requires right { IsSnapshot (snapshot_of after) }
    requires room { 26 + 20 * length (files_of after) ≤ frame.old.room }
    ensures done { (region : ℕ) (wal : Logs) (batches : List LogBatch) (files : List OpenFile) (lists : List (List CellData)) (file : OpenFile) (list : List CellData)
        → HasParts ⟦<D as Disk>⟧ region manifest.old wal disk.old batches files lists → IsFlushed ⟦<D as Disk>⟧ region disk.old (named_snapshot manifest.old) (snapshot_of after) batches file list
        → OnOk result (HasParts ⟦<D as Disk>⟧ region manifest.new wal disk.new batches (file ∷ files) (list ∷ lists)) }
    ensures same { (region : ℕ) (wal : Logs) (batches : List LogBatch) (files : List OpenFile) (lists : List (List CellData)) (file : OpenFile) (list : List CellData)
        → HasParts ⟦<D as Disk>⟧ region manifest.old wal disk.old batches files lists → IsFlushed ⟦<D as Disk>⟧ region disk.old (named_snapshot manifest.old) (snapshot_of after) batches file list
        → cells_over (snapshot_of after).flushed batches (list ∷ lists) ≡ cells_over (named_snapshot manifest.old).flushed batches lists }

    // At each moment of the call a stop leaves the region's files as they are read now.
    ensures any_moment { (region : ℕ) (wal : Logs) (batches : List LogBatch) (files : List OpenFile) (lists : List (List CellData)) (file : OpenFile) (list : List CellData)
        → HasParts ⟦<D as Disk>⟧ region manifest.old wal disk.old batches files lists → IsFlushed ⟦<D as Disk>⟧ region disk.old (named_snapshot manifest.old) (snapshot_of after) batches file list
        → LeavesOnly ⟦<D as Disk>⟧ disk.old disk.new (λ moment image. ReadsByEither region image (named_snapshot manifest.old) (snapshot_of after) (cells_over (named_snapshot manifest.old).flushed batches lists)) }
    ensures named { OnOk result (named_snapshot manifest.new ≡ snapshot_of after) }
    ensures kept { IsErr result → named_snapshot manifest.new ≡ named_snapshot manifest.old }
    ensures full { (result ≡ Err AppendFault.Full) ↔ (room_of_manifest manifest.old < 33 + 20 * length (files_of after)) }
    ensures untouched { result ≡ Err AppendFault.Full → (disk.new ≡ disk.old) × (manifest.new ≡ manifest.old) }
    ensures failed { result ≡ Err AppendFault.WriteFault → Rose ⟦<D as Disk>⟧ disk.old disk.new }
    ensures touches { (region : ℕ) → HasSnapshot ⟦<D as Disk>⟧ region manifest.old disk.old → TouchesOnly ⟦<D as Disk>⟧ disk.old disk.new (manifest_files region) }
    ensures counts { Passes ⟦<D as Disk>⟧ disk.old disk.new 4 }
    ensures open { is_manifest_open manifest.new }
    ensures still { manifest.new.rolling ≡ false }
    ensures frame { frame.old.room ≤ frame.new.room }
{
    manifest.append(disk, after, frame)
}

/// Names a file in place of so many of the newest files, which it was merged of. A stop in the call leaves the region's files as
/// they are read now, by the old snapshot or by the new one. It takes no memory. It is full where the record passes the segment's
/// size, and then no call is made.
pub fn name_merged<D: Disk>(
    disk: &mut D,
    manifest: &mut Manifest,
    frame: &mut Frame,
    after: Snapshot,
) -> Result<(), AppendFault>
    requires open { is_manifest_open manifest.old }
    requires still { manifest.old.rolling ≡ false }
    requires right { IsSnapshot (snapshot_of after) }
    requires room { 26 + 20 * length (files_of after) ≤ frame.old.room }
    ensures done { (region : ℕ) (wal : Logs) (batches : List LogBatch) (files : List OpenFile) (lists : List (List CellData)) (count : ℕ) (file : OpenFile) (list : List CellData)
        → HasParts ⟦<D as Disk>⟧ region manifest.old wal disk.old batches files lists → IsCompactedFile ⟦<D as Disk>⟧ region disk.old (named_snapshot manifest.old) (snapshot_of after) lists count file list
        → OnOk result (HasParts ⟦<D as Disk>⟧ region manifest.new wal disk.new batches (file ∷ drop count files) (list ∷ drop count lists)) }
    ensures same { (region : ℕ) (batches : List LogBatch) (lists : List (List CellData)) (count : ℕ) (file : OpenFile) (list : List CellData)
        → IsCompactedFile ⟦<D as Disk>⟧ region disk.old (named_snapshot manifest.old) (snapshot_of after) lists count file list
        → cells_over (snapshot_of after).flushed batches (list ∷ drop count lists) ≡ cells_over (named_snapshot manifest.old).flushed batches lists }

    // At each moment of the call a stop leaves the region's files as they are read now.
    ensures any_moment { (region : ℕ) (wal : Logs) (batches : List LogBatch) (files : List OpenFile) (lists : List (List CellData)) (count : ℕ) (file : OpenFile) (list : List CellData)
        → HasParts ⟦<D as Disk>⟧ region manifest.old wal disk.old batches files lists → IsCompactedFile ⟦<D as Disk>⟧ region disk.old (named_snapshot manifest.old) (snapshot_of after) lists count file list
        → LeavesOnly ⟦<D as Disk>⟧ disk.old disk.new (λ moment image. ReadsByEither region image (named_snapshot manifest.old) (snapshot_of after) (cells_over (named_snapshot manifest.old).flushed batches lists)) }
    ensures named { OnOk result (named_snapshot manifest.new ≡ snapshot_of after) }
    ensures kept { IsErr result → named_snapshot manifest.new ≡ named_snapshot manifest.old }
    ensures full { (result ≡ Err AppendFault.Full) ↔ (room_of_manifest manifest.old < 33 + 20 * length (files_of after)) }
    ensures untouched { result ≡ Err AppendFault.Full → (disk.new ≡ disk.old) × (manifest.new ≡ manifest.old) }
    ensures failed { result ≡ Err AppendFault.WriteFault → Rose ⟦<D as Disk>⟧ disk.old disk.new }
    ensures touches { (region : ℕ) → HasSnapshot ⟦<D as Disk>⟧ region manifest.old disk.old → TouchesOnly ⟦<D as Disk>⟧ disk.old disk.new (manifest_files region) }
    ensures counts { Passes ⟦<D as Disk>⟧ disk.old disk.new 4 }
    ensures open { is_manifest_open manifest.new }
    ensures still { manifest.new.rolling ≡ false }
    ensures frame { frame.old.room ≤ frame.new.room }
{
    manifest.append(disk, after, frame)
}
