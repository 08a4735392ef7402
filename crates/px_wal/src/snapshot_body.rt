// A snapshot as the body of a record.
ghost use Rattle.std.specs.Prelude.{◌≡◌, ◌≢◌, ◌≤◌, ◌<◌, ◌+◌, ◌*◌, ◌^◌, ◌++◌, ◌∷◌, [], ℕ, length, map, take, drop, get_or, Some, None, Err, IfOk, IfErr, OnOk, IfSome};
ghost use Rattle.std.specs.Int.{from_be_bytes, w32};
ghost use Rattle.std.specs.List.{AllByRecursion};
ghost use Rattle.px_gatelog.specs.Framed.{record_of};
ghost use Rattle.px_wal.specs.Snapshot.{IsEntry, IsSnapshot, file_record_bytes, files_bytes, half_word_bytes, head_bytes, snapshot_body, snapshot_record, word_bytes, wrong_body, wrong_file as first_wrong, wrong_files, wrong_head as head_wrong};
ghost use Rattle.px_wal.specs.SnapshotOf.{file_data, files_of, snapshot_of};
ghost use Rattle.px_wal.specs.declared.snapshot_body.SnapshotFault.TheVariants.{Wrong};

use crate::snapshot::{FileEntry, Snapshot};
use byteorder::{BigEndian, ByteOrder};
use px_gatelog::Frame;
use std::alloc::{AllocError, Global};

/// The kind of a manifest's record.
pub(crate) const SNAPSHOT_RECORD: u8 = 1;

/// How many bytes stand before the files, and how many each of them has.
const HEAD: usize = 26;

const ENTRY: usize = 20;

/// Why a body has no snapshot.
#[derive(Clone, Copy, Debug, PartialEq, Eq)]
pub(crate) enum SnapshotFault {
    /// The place is the first that isn't of the format.
    Wrong(u64),
    NoMemory,
}

/// The number in eight bytes at a place.
#[tactic(auto, unfolding(crate::specs::Snapshot::word_bytes))]
fn word_at(body: &[u8], at: usize) -> u64
    requires { at + 8 ≤ length body.now }
    ensures { take (at + 8) body.now ≡ take at body.now ++ word_bytes result }
{
    BigEndian::read_u64(&body[at..at + 8])
}

/// The first wrong place of what stands before the files.
fn wrong_head(body: &[u8]) -> Option<u64>
    ensures wrong { result ≡ head_wrong body.now }
    ensures within { IfSome result (λ place. place ≤ length body.now) }
    ensures long { result ≡ None → 26 ≤ length body.now }
    ensures few { result ≡ None → get_or body.now 24 0 < 8 }
{
    if body.len() < 8 {
        return Some(0);
    }
    if body.len() < 16 {
        return Some(8);
    }
    if body.len() < 24 {
        return Some(16);
    }
    if body.len() < 25 || body[24] >= 8 {
        return Some(24);
    }
    if body.len() < HEAD {
        return Some(25);
    }
    None
}

/// The number in four bytes at a place.
#[tactic(auto, unfolding(crate::specs::Snapshot::half_word_bytes))]
fn half_word_at(body: &[u8], at: usize) -> u32
    requires { at + 4 ≤ length body.now }
    ensures spelled { take (at + 4) body.now ≡ take at body.now ++ half_word_bytes result }
    ensures number { result ≡ from_be_bytes w32 (take 4 (drop at body.now)) }
{
    BigEndian::read_u32(&body[at..at + 4])
}

/// The file at a place, or its first wrong place, counted from there.
fn entry_at(body: &[u8], at: usize) -> Result<FileEntry, u64>
    requires { at ≤ length body.now }
    ensures spelled { IfOk result (λ f. take (at + 20) body.now ≡ take at body.now ++ file_record_bytes (file_data f)) }
    ensures entry { IfOk result (λ f. IsEntry (file_data f)) }
    ensures right { OnOk result (first_wrong (drop at body.now) ≡ None) }
    ensures long { OnOk result (at + 20 ≤ length body.now) }
    ensures wrong { IfErr result (λ place. first_wrong (drop at body.now) ≡ Some place) }
    ensures within { IfErr result (λ place. at + place ≤ length body.now) }
{
    let left = body.len() - at;
    if left < 4 {
        return Err(0);
    }
    let local = half_word_at(body, at);
    if local < 4 {
        return Err(3);
    }
    if left < 12 {
        return Err(4);
    }
    if left < ENTRY {
        return Err(12);
    }
    Ok(FileEntry {
        local,
        len: word_at(body, at + 4),
        cells: word_at(body, at + 12),
    })
}

fn add_entry(files: &mut Vec<FileEntry>, file: FileEntry) -> Result<(), AllocError>
    ensures { OnOk result (files.new.items ≡ files.old.items ++ file ∷ []) }
{
    files.push(file)?;
    Ok(())
}

/// So many files behind the head of a body, or the first wrong place.
fn read_files(alloc: Global, body: &[u8], count: u8) -> Result<Vec<FileEntry>, SnapshotFault>
    requires long { 26 ≤ length body.now }
    requires short { length body.now < 2 ^ 32 }
    ensures spelled { IfOk result (λ files. body.now ≡ take 26 body.now ++ files_bytes (map file_data files.items)) }
    ensures counted { IfOk result (λ files. length files.items ≡ count) }
    ensures entries { IfOk result (λ files. AllByRecursion IsEntry (map file_data files.items)) }
    ensures right { OnOk result (wrong_files count 26 (drop 26 body.now) ≡ None) }
    ensures wrong { (place : ℕ) → result ≡ Err (Wrong place) → wrong_files count 26 (drop 26 body.now) ≡ Some place }
    ensures within { (place : ℕ) → result ≡ Err (Wrong place) → place ≤ length body.now }
{
    let mut files = Vec::new(alloc);
    for i in 0..count as usize {
        let at = HEAD + ENTRY * i;
        let file = match entry_at(body, at) {
            Ok(file) => file,
            Err(place) => return Err(SnapshotFault::Wrong(at as u64 + place)),
        };
        match add_entry(&mut files, file) {
            Ok(()) => {}
            Err(_) => return Err(SnapshotFault::NoMemory),
        }
    }
    let end = HEAD + ENTRY * count as usize;
    if end < body.len() {
        return Err(SnapshotFault::Wrong(end as u64));
    }
    Ok(files)
}

/// The snapshot of a body, or its first wrong place.
pub(crate) fn read_snapshot(alloc: Global, body: &[u8]) -> Result<Snapshot, SnapshotFault>
    requires short { length body.now < 2 ^ 32 }
    ensures body { IfOk result (λ s. body.now ≡ snapshot_body (snapshot_of s)) }
    ensures snapshot { IfOk result (λ s. IsSnapshot (snapshot_of s)) }
    ensures right { OnOk result (wrong_body body.now ≡ None) }
    ensures wrong { (place : ℕ) → result ≡ Err (Wrong place) → wrong_body body.now ≡ Some place }
    ensures within { (place : ℕ) → result ≡ Err (Wrong place) → place ≤ length body.now }
{
    if let Some(place) = wrong_head(body) {
        return Err(SnapshotFault::Wrong(place));
    }
    let files = match read_files(alloc, body, body[25]) {
        Ok(files) => files,
        Err(fault) => return Err(fault),
    };
    Ok(Snapshot {
        flushed: word_at(body, 0),
        horizon: word_at(body, 8),
        stamp: word_at(body, 16),
        compactions: body[24],
        files,
    })
}

/// Fills a frame with the record of a snapshot. It takes no memory.
pub(crate) fn fill_snapshot(frame: &mut Frame, snapshot: &Snapshot)
    requires { 26 + 20 * length (files_of snapshot.now) ≤ frame.old.room }
    ensures filled { record_of frame.new ≡ snapshot_record (snapshot_of snapshot.now) }
    ensures long { length frame.new.body ≡ 26 + 20 * length (files_of snapshot.now) }
    ensures room { frame.old.room ≤ frame.new.room }
{
    frame.begin(SNAPSHOT_RECORD);
    push_word(frame, snapshot.flushed);
    push_word(frame, snapshot.horizon);
    push_word(frame, snapshot.stamp);
    push_counts(frame, snapshot.compactions, snapshot.files.len() as u8);
    push_files(frame, &snapshot.files);
}

#[tactic(auto, unfolding(crate::specs::Snapshot::word_bytes))]
fn push_word(frame: &mut Frame, n: u64)
    requires room { length frame.old.body + 8 ≤ frame.old.room }
    requires small { length frame.old.body + 8 < 2 ^ 32 }
    ensures pushed { frame.new.body ≡ frame.old.body ++ word_bytes n }
    ensures kind { frame.new.kind ≡ frame.old.kind }
    ensures long { length frame.new.body ≡ length frame.old.body + 8 }
    ensures room { frame.old.room ≤ frame.new.room }
{
    frame.push(&n.to_be_bytes());
}

#[tactic(auto, unfolding(crate::specs::Snapshot::half_word_bytes))]
fn push_half_word(frame: &mut Frame, n: u32)
    requires room { length frame.old.body + 4 ≤ frame.old.room }
    requires small { length frame.old.body + 4 < 2 ^ 32 }
    ensures pushed { frame.new.body ≡ frame.old.body ++ half_word_bytes n }
    ensures kind { frame.new.kind ≡ frame.old.kind }
    ensures long { length frame.new.body ≡ length frame.old.body + 4 }
    ensures room { frame.old.room ≤ frame.new.room }
{
    frame.push(&n.to_be_bytes());
}

fn push_counts(frame: &mut Frame, compactions: u8, files: u8)
    requires room { length frame.old.body + 2 ≤ frame.old.room }
    requires small { length frame.old.body + 2 < 2 ^ 32 }
    ensures pushed { frame.new.body ≡ frame.old.body ++ compactions ∷ files ∷ [] }
    ensures kind { frame.new.kind ≡ frame.old.kind }
    ensures long { length frame.new.body ≡ length frame.old.body + 2 }
    ensures room { frame.old.room ≤ frame.new.room }
{
    frame.push(&[compactions, files]);
}

fn push_entry(frame: &mut Frame, file: FileEntry)
    requires room { length frame.old.body + 20 ≤ frame.old.room }
    requires small { length frame.old.body + 20 < 2 ^ 32 }
    ensures pushed { frame.new.body ≡ frame.old.body ++ file_record_bytes (file_data file) }
    ensures kind { frame.new.kind ≡ frame.old.kind }
    ensures long { length frame.new.body ≡ length frame.old.body + 20 }
    ensures room { frame.old.room ≤ frame.new.room }
{
    push_half_word(frame, file.local);
    push_word(frame, file.len);
    push_word(frame, file.cells);
}

fn push_files(frame: &mut Frame, files: &[FileEntry])
    requires room { length frame.old.body + 20 * length files.now ≤ frame.old.room }
    requires small { length frame.old.body + 20 * length files.now < 2 ^ 32 }
    ensures pushed { frame.new.body ≡ frame.old.body ++ files_bytes (map file_data files.now) }
    ensures kind { frame.new.kind ≡ frame.old.kind }
    ensures long { length frame.new.body ≡ length frame.old.body + 20 * length files.now }
    ensures room { frame.old.room ≤ frame.new.room }
{
    for file in files {
        push_entry(frame, *file);
    }
}
