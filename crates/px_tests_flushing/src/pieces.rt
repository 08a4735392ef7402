// What the tests of flushes have together.

use px_cellbytes::read_cells;
use px_cells::{Cell, CellKind, Cells};
use px_cursor::Cursor;
use px_file::RegionFile;
use px_flushing::{FlushStep, Flushing};
use px_gatelog::{Frame, Rolled};
use px_outside::MemDisk;
use px_sources::{Source, give};
use px_tests_storage::{Seen, push_cell};
use px_wal::{FileEntry, Manifest, Replayed, Wal};
use std::alloc::Global;

/// A region with its open files.
#[derive(Drop)]
pub struct Parts {
    pub manifest: Manifest,
    pub wal: Wal,
    pub flushing: Flushing,
}

/// Opens the manifest of region 1, and its next segment where none is open.
fn manifest_of(alloc: Global, disk: &mut MemDisk) -> Option<Manifest> {
    let mut manifest = Manifest::start(alloc, disk, 1).ok()?;
    match open_manifest(alloc, disk, &mut manifest) {
        Some(()) => Some(manifest),
        None => {
            drop(manifest);
            None
        }
    }
}

fn open_manifest(alloc: Global, disk: &mut MemDisk, manifest: &mut Manifest) -> Option<()> {
    for _ in 0..3 {
        if !manifest.is_open() {
            let mut frame = Frame::with_room(alloc, manifest.snapshot().body_len()).ok()?;
            let rolled = manifest.roll_step(disk, &mut frame).is_ok();
            drop(frame);
            if !rolled {
                return None;
            }
        }
    }
    Some(())
}

/// Opens the log, and its first segment where there is none.
fn wal_of(alloc: Global, disk: &mut MemDisk, flushed: u64) -> Option<Wal> {
    let Replayed {
        mut wal,
        store,
        cells: _,
        bytes: _,
    } = Wal::replay(alloc, disk, 1, flushed).ok()?;
    drop(store);
    match open_wal(disk, &mut wal) {
        Some(()) => Some(wal),
        None => {
            drop(wal);
            None
        }
    }
}

fn open_wal(disk: &mut MemDisk, wal: &mut Wal) -> Option<()> {
    for _ in 0..3 {
        if !wal.is_open() {
            wal.roll_step(disk).ok()?;
        }
    }
    Some(())
}

/// Opens region 1.
pub fn opened(alloc: Global, disk: &mut MemDisk) -> Option<Parts> {
    let manifest = manifest_of(alloc, disk)?;
    match wal_of(alloc, disk, manifest.snapshot().flushed) {
        Some(wal) => opened_over(alloc, disk, manifest, wal),
        None => {
            drop(manifest);
            None
        }
    }
}

fn opened_over(alloc: Global, disk: &mut MemDisk, manifest: Manifest, wal: Wal) -> Option<Parts> {
    match Flushing::open(alloc, disk, 1, &manifest) {
        Ok(flushing) => Some(Parts {
            manifest,
            wal,
            flushing,
        }),
        Err(_) => {
            drop(manifest);
            drop(wal);
            None
        }
    }
}

/// Writes a batch of one cell.
fn write(
    alloc: Global,
    disk: &mut MemDisk,
    parts: &mut Parts,
    row: u8,
    stamp: u8,
    kind: CellKind,
    len: u16,
) -> Option<()> {
    let mut bytes = Vec::new(alloc);
    push_cell(&mut bytes, row, stamp, kind.code(), len).ok()?;
    if bytes.len() > 1_000_000 || !parts.wal.is_open() {
        return None;
    }
    let cells = read_cells(alloc, &bytes, 1).ok()?;
    let written = match Frame::with_room(alloc, 12 + bytes.len() as u64) {
        Ok(mut frame) => {
            let appended = parts.wal.append(disk, &cells, &mut frame).ok();
            drop(frame);
            appended
        }
        Err(_) => None,
    };
    drop(cells);
    written?;
    Some(())
}

/// Writes a batch of one put, with a value of so many bytes.
pub fn put(
    alloc: Global,
    disk: &mut MemDisk,
    parts: &mut Parts,
    row: u8,
    stamp: u8,
    len: u16,
) -> Option<()> {
    write(alloc, disk, parts, row, stamp, CellKind::Put, len)
}

/// Writes a batch of one marker, which hides a column.
pub fn mark(
    alloc: Global,
    disk: &mut MemDisk,
    parts: &mut Parts,
    row: u8,
    stamp: u8,
) -> Option<()> {
    write(alloc, disk, parts, row, stamp, CellKind::DeleteColumn, 0)
}

/// Has all batches stand in the log's older segment, where one isn't flushed yet and none of that segment is left.
pub fn switch(disk: &mut MemDisk, parts: &mut Parts) -> Option<()> {
    let flushed = parts.manifest.snapshot().flushed;
    if parts.wal.last() <= flushed || !parts.wal.may_switch(flushed) {
        return Some(());
    }
    for _ in 0..4 {
        match parts.wal.switch_step(disk).ok()? {
            Rolled::More => {}
            Rolled::Rolled => return Some(()),
        }
    }
    None
}

/// Makes one step of a flush.
pub fn step(disk: &mut MemDisk, parts: &mut Parts) -> Option<FlushStep> {
    parts
        .flushing
        .step(disk, &mut parts.manifest, &parts.wal)
        .ok()
}

/// Switches the log and makes the steps of a flush, and answers the number of these.
pub fn flush(disk: &mut MemDisk, parts: &mut Parts) -> Option<u64> {
    switch(disk, parts)?;
    for steps in 1..100u64 {
        match step(disk, parts)? {
            FlushStep::More => {}
            FlushStep::Merged | FlushStep::Forgot { .. } => return None,
            FlushStep::Named { .. } | FlushStep::Done => return Some(steps),
        }
    }
    None
}

/// Begins a compaction of so many of the newest files.
pub fn begin(parts: &mut Parts, count: usize) -> Option<()> {
    if !parts.flushing.is_idle() {
        return None;
    }
    parts.flushing.compact::<MemDisk>(count);
    Some(())
}

/// Makes the steps of a compaction that was begun, and answers the number of these.
pub fn merge(disk: &mut MemDisk, parts: &mut Parts) -> Option<u64> {
    for steps in 1..100u64 {
        match step(disk, parts)? {
            FlushStep::More => {}
            FlushStep::Merged => return Some(steps),
            FlushStep::Forgot { .. } | FlushStep::Named { .. } | FlushStep::Done => return None,
        }
    }
    None
}

/// Begins a compaction of all files, which keeps what a horizon does.
pub fn begin_forgetting(parts: &mut Parts, horizon: u64) -> Option<()> {
    if !parts.flushing.is_idle() {
        return None;
    }
    parts.flushing.forget_all::<MemDisk>(horizon);
    Some(())
}

/// Makes the steps of one that was begun, and answers the horizon that it named.
pub fn forget(disk: &mut MemDisk, parts: &mut Parts) -> Option<u64> {
    for _ in 0..100u64 {
        match step(disk, parts)? {
            FlushStep::More => {}
            FlushStep::Forgot { horizon } => return Some(horizon),
            FlushStep::Merged | FlushStep::Named { .. } | FlushStep::Done => return None,
        }
    }
    None
}

/// The newest file that the manifest names.
pub fn newest(parts: &Parts) -> Option<FileEntry> {
    match parts.manifest.snapshot().files.as_slice() {
        [] => None,
        [file, ..] => Some(*file),
    }
}

/// The cells of region 1, as it is read from its files.
pub fn shown(alloc: Global, disk: &mut MemDisk) -> Option<Vec<u64>> {
    let manifest = Manifest::start(alloc, disk, 1).ok()?;
    let seen = shown_by(alloc, disk, &manifest);
    drop(manifest);
    seen
}

fn shown_by(alloc: Global, disk: &mut MemDisk, manifest: &Manifest) -> Option<Vec<u64>> {
    let unflushed = unflushed_of(alloc, disk, manifest.snapshot().flushed)?;
    let seen = match Flushing::open(alloc, disk, 1, manifest) {
        Ok(flushing) => {
            let seen = seen_in(alloc, disk, flushing.files(), unflushed.as_slice());
            drop(flushing);
            seen
        }
        Err(_) => None,
    };
    drop(unflushed);
    seen
}

/// The cells that only the log has.
fn unflushed_of(alloc: Global, disk: &mut MemDisk, flushed: u64) -> Option<Cells> {
    let Replayed {
        wal,
        store,
        cells: _,
        bytes: _,
    } = Wal::replay(alloc, disk, 1, flushed).ok()?;
    drop(wal);
    Some(store.into_cells())
}

fn seen_in(
    alloc: Global,
    disk: &mut MemDisk,
    files: &[RegionFile],
    unflushed: &[Cell],
) -> Option<Vec<u64>> {
    let mut sources = Vec::new(alloc);
    let seen = match add_sources(alloc, disk, files, unflushed, &mut sources) {
        Some(()) => given(alloc, disk, &mut sources),
        None => None,
    };
    drop(sources);
    seen
}

fn add_sources<'a>(
    alloc: Global,
    disk: &mut MemDisk,
    files: &'a [RegionFile],
    unflushed: &'a [Cell],
    to: &mut Vec<Source<'a>>,
) -> Option<()> {
    to.push(Source::Slice(unflushed)).ok()?;
    for file in files {
        let cursor = Cursor::begin(alloc, disk, file, &[], None).ok()?;
        to.push(Source::File(cursor)).ok()?;
    }
    Some(())
}

fn given(alloc: Global, disk: &mut MemDisk, sources: &mut [Source<'_>]) -> Option<Vec<u64>> {
    let mut taker = Seen {
        cells: Vec::new(alloc),
    };
    let mut looked = 0;
    give(alloc, disk, sources, &mut taker, &mut looked).ok()?;
    Some(taker.cells)
}
