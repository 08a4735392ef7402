// What naming a flush's file takes.
ghost use Rattle.std.specs.Prelude.{◌≡◌, ◌≢◌, ◌≤◌, ◌<◌, ◌+◌, ◌*◌, ◌∷◌, ◌↔◌, [], false, length, map, max, drop, IsTrue, IfOk, OnOk, Err, vec_len, vec_capacity};
ghost use Rattle.std.specs.List.{AllByRecursion};
ghost use Rattle.px_wal.specs.Manifest.{is_manifest_open, named_snapshot};
ghost use Rattle.px_wal.specs.Snapshot.{IsEntry, IsSnapshot};
ghost use Rattle.px_wal.specs.SnapshotOf.{file_data, files_of, snapshot_of};
ghost use Rattle.px_naming.specs.Naming.{one_compaction_more};
ghost use Rattle.px_flushing.specs.declared.fault.FlushFault.TheVariants.{Damaged, ReadFault, WriteFault};

use crate::FlushFault;
use px_file::RegionFile;
use px_forgetting::forgotten_after;
use px_gatelog::Frame;
use px_naming::{merged_after, named_after};
use px_wal::{FileEntry, Manifest, Snapshot};
use std::alloc::{AllocError, Global};

/// What is to be named, and the room for its record.
#[derive(Drop)]
pub(crate) struct Naming {
    pub(crate) after: Snapshot,
    pub(crate) frame: Frame,
}

/// The most files that a manifest names.
const MOST_FILES: usize = 255;

/// Whether a file has a local number of its own kind.
fn is_entry(file: &FileEntry) -> bool
    ensures { IsTrue result → IsEntry (file_data file.now) }
{
    let _len = file.len;
    let _cells = file.cells;
    file.local >= 4
}

/// Whether each of the files has.
fn are_entries(files: &[FileEntry]) -> bool
    ensures { IsTrue result → AllByRecursion IsEntry (map file_data files.now) }
{
    match files {
        [] => true,
        [file, rest @ ..] => is_entry(file) && are_entries(rest),
    }
}

/// Whether a snapshot has a record.
fn is_right(snapshot: &Snapshot) -> bool
    ensures { IsTrue result → IsSnapshot (snapshot_of snapshot.now) }
{
    let _flushed = snapshot.flushed;
    let _horizon = snapshot.horizon;
    let _stamp = snapshot.stamp;
    snapshot.compactions < 8 && snapshot.files.len() <= MOST_FILES && are_entries(&snapshot.files)
}

/// Whether the manifest may name something else, as far as its segment goes.
fn may_name(manifest: &Manifest) -> bool
    ensures { IsTrue result → is_manifest_open manifest.now × (manifest.now.rolling ≡ false) }
{
    manifest.is_open() && !manifest.is_rolling()
}

/// Tests what is to be named, and takes the room for its record.
fn framed(alloc: Global, after: Snapshot) -> Result<Naming, FlushFault>
    ensures right { IfOk result (λ n. IsSnapshot (snapshot_of n.after)) }
    ensures after { IfOk result (λ n. snapshot_of n.after ≡ snapshot_of after) }
    ensures room { IfOk result (λ n. 26 + 20 * length (files_of n.after) ≤ n.frame.room) }
    ensures never { (result ≢ Err ReadFault) × (result ≢ Err WriteFault) × (result ≢ Err Damaged) }
{
    if !is_right(&after) {
        drop(after);
        return Err(FlushFault::NotReady);
    }
    match Frame::with_room(alloc, after.body_len()) {
        Ok(frame) => Ok(Naming { after, frame }),
        Err(_) => {
            drop(after);
            Err(FlushFault::Memory)
        }
    }
}

/// Takes the memory that naming a file, flushed up to a number, needs. It makes no call.
pub(crate) fn prepare(
    alloc: Global,
    manifest: &Manifest,
    upto: u64,
    stamp: u64,
    entry: FileEntry,
) -> Result<Naming, FlushFault>
    ensures may { OnOk result (is_manifest_open manifest.now × (manifest.now.rolling ≡ false)) }
    ensures right { IfOk result (λ n. IsSnapshot (snapshot_of n.after)) }
    ensures after { IfOk result (λ n. snapshot_of n.after ≡ record { flushed = upto; horizon = (named_snapshot manifest.now).horizon; stamp = max (named_snapshot manifest.now).stamp stamp; compactions = (named_snapshot manifest.now).compactions; files = file_data entry ∷ (named_snapshot manifest.now).files }) }
    ensures room { IfOk result (λ n. 26 + 20 * length (files_of n.after) ≤ n.frame.room) }
    ensures never { (result ≢ Err ReadFault) × (result ≢ Err WriteFault) × (result ≢ Err Damaged) }
{
    if !may_name(manifest) {
        return Err(FlushFault::NotReady);
    }
    let named = manifest.snapshot();
    if named.files.len() >= MOST_FILES {
        return Err(FlushFault::Full);
    }
    match named_after(alloc, named, upto, stamp, entry) {
        Ok(after) => framed(alloc, after),
        Err(_) => Err(FlushFault::Memory),
    }
}

/// Takes the memory that naming a file in place of so many of the newest needs. It makes no call.
pub(crate) fn prepare_merged(
    alloc: Global,
    manifest: &Manifest,
    count: usize,
    entry: FileEntry,
) -> Result<Naming, FlushFault>
    ensures some { OnOk result (1 ≤ count) }
    ensures may { OnOk result (is_manifest_open manifest.now × (manifest.now.rolling ≡ false)) }
    ensures right { IfOk result (λ n. IsSnapshot (snapshot_of n.after)) }
    ensures after { IfOk result (λ n. snapshot_of n.after ≡ record { flushed = (named_snapshot manifest.now).flushed; horizon = (named_snapshot manifest.now).horizon; stamp = (named_snapshot manifest.now).stamp; compactions = one_compaction_more (named_snapshot manifest.now).compactions; files = file_data entry ∷ drop count (named_snapshot manifest.now).files }) }
    ensures room { IfOk result (λ n. 26 + 20 * length (files_of n.after) ≤ n.frame.room) }
    ensures never { (result ≢ Err ReadFault) × (result ≢ Err WriteFault) × (result ≢ Err Damaged) }
{
    if !may_name(manifest) {
        return Err(FlushFault::NotReady);
    }
    let named = manifest.snapshot();
    if count == 0 || count > named.files.len() {
        return Err(FlushFault::NotReady);
    }
    match merged_after(alloc, named, count, entry) {
        Ok(after) => framed(alloc, after),
        Err(_) => Err(FlushFault::Memory),
    }
}

/// Takes the memory that naming a file in place of all needs, with a horizon that isn't below the one that is named. It makes no call.
pub(crate) fn prepare_kept(
    alloc: Global,
    manifest: &Manifest,
    horizon: u64,
    entry: FileEntry,
) -> Result<Naming, FlushFault>
    ensures raised { OnOk result ((named_snapshot manifest.now).horizon ≤ horizon) }
    ensures may { OnOk result (is_manifest_open manifest.now × (manifest.now.rolling ≡ false)) }
    ensures right { IfOk result (λ n. IsSnapshot (snapshot_of n.after)) }
    ensures after { IfOk result (λ n. snapshot_of n.after ≡ record { flushed = (named_snapshot manifest.now).flushed; horizon = horizon; stamp = (named_snapshot manifest.now).stamp; compactions = one_compaction_more (named_snapshot manifest.now).compactions; files = file_data entry ∷ [] }) }
    ensures room { IfOk result (λ n. 26 + 20 * length (files_of n.after) ≤ n.frame.room) }
    ensures never { (result ≢ Err ReadFault) × (result ≢ Err WriteFault) × (result ≢ Err Damaged) }
{
    if !may_name(manifest) {
        return Err(FlushFault::NotReady);
    }
    let named = manifest.snapshot();
    if named.files.len() == 0 || named.horizon > horizon {
        return Err(FlushFault::NotReady);
    }
    match forgotten_after(alloc, named, horizon, entry) {
        Ok(after) => framed(alloc, after),
        Err(_) => Err(FlushFault::Memory),
    }
}

/// Puts a file before the others, where there is room.
pub(crate) fn put_first(files: &mut Vec<RegionFile>, file: RegionFile)
    requires { vec_len files.old < vec_capacity files.old }
    ensures { files.new.items ≡ file ∷ files.old.items }
{
    let _ = files.insert(0, file);
}

/// Takes room for one file more.
pub(crate) fn make_room(files: &mut Vec<RegionFile>) -> Result<(), AllocError>
    ensures room { OnOk result (vec_len files.new < vec_capacity files.new) }
    ensures same { files.new.items ≡ files.old.items }
{
    files.reserve(1)
}

/// Puts a file in place of the first ones, where there is room.
pub(crate) fn put_in_place(files: &mut Vec<RegionFile>, count: usize, file: RegionFile)
    requires room { vec_len files.old < vec_capacity files.old }
    requires within { count ≤ length files.old.items }
    ensures { files.new.items ≡ file ∷ drop count files.old.items }
{
    for _ in 0..count {
        drop(files.remove(0));
    }
    put_first(files, file);
}
