// Runs on disks in memory, and what they print.
ghost use Rattle.px_outside.specs.MemDisk.{mem_calls as calls_of, mem_faults as faults_of, mem_first_fault as first_fault_of};
ghost use Rattle.std.specs.Prelude.{◌≡◌};

use px_outside::{FixedClock, MemDisk, MemSink, MemSource};
use px_program::{Outcome, Status, phoenix};
use std::alloc::{AllocError, Global};
use std::sync::Wait;
use std::thread::Threads;

/// The first segment of KV's log after K 'a', V 'b' at stamp 1.
pub const FIRST_SEGMENT: [u8; 68] = [
    1, 0x50, 0x48, 0x58, 0x53, 0x45, 0x47, 0x31, 0, 0, 0, 0, 0, 0, 0, 1, 1, 2, 0, 0, 0, 0x2d, 0, 0,
    0, 0, 0, 0, 0, 1, 0, 0, 0, 2, 0, 2, 0x61, 0, 1, 0, 0, 0, 0, 0, 0, 0, 1, 4, 0, 0, 0, 2, 0x61, 0,
    3, 0, 0, 0, 0, 0, 0, 0, 1, 4, 0, 1, 0x62, 0,
];

pub const FIRST_SCRIPT: &str = "UPSERT INTO KV VALUES ('a','b'); SELECT * FROM KV;\n";

/// A run on a disk that had no call yet: its status, how many entries its trail has, the disk after it, and what it printed.
#[derive(Drop)]
pub struct Run {
    pub status: Status,
    pub entries: u64,
    pub disk: MemDisk,
    pub printed: MemSink,
}

/// What the tests look at of an outcome.
fn run_of(outcome: Outcome<MemDisk>, printed: MemSink) -> Run {
    let Outcome {
        status,
        disk,
        trail,
        late,
        transcripts,
        memory: _,
    } = outcome;
    let entries = trail.len();
    drop(trail);
    drop(late);
    drop(transcripts);
    Run {
        status,
        entries,
        disk,
        printed,
    }
}

pub fn bytes_of(alloc: Global, text: &str) -> Result<Vec<u8>, AllocError> {
    let mut bytes = Vec::new(alloc);
    bytes.extend_from_slice(text.as_bytes())?;
    Ok(bytes)
}

/// The words of a line, which are parted by blanks; none of an empty line.
pub fn words_of(alloc: Global, line: &str) -> Result<Vec<String>, AllocError> {
    let mut words = Vec::new(alloc);
    match push_words(alloc, line, &mut words) {
        Ok(()) => Ok(words),
        Err(fault) => {
            drop(words);
            Err(fault)
        }
    }
}

/// Adds the words of a line.
fn push_words(alloc: Global, line: &str, words: &mut Vec<String>) -> Result<(), AllocError> {
    if line.is_empty() {
        return Ok(());
    }
    for word in line.split(' ') {
        words.push(String::from_str(alloc, word)?)?;
    }
    Ok(())
}

/// A run of these words on a disk, between this input and this output.
pub fn run_between<R: Threads + Wait + Sync>(
    rt: &R,
    alloc: Global,
    line: &str,
    disk: MemDisk,
    mut input: MemSource,
    mut printed: MemSink,
) -> Result<Run, AllocError>
    requires fresh { (calls_of disk ≡ 0) × (faults_of disk ≡ 0) × (first_fault_of disk ≡ 0) }
{
    match words_of(alloc, line) {
        Ok(words) => {
            let outcome = phoenix(
                rt,
                alloc,
                &words,
                disk,
                FixedClock(0),
                &mut input,
                &mut printed,
            );
            drop(words);
            drop(input);
            Ok(run_of(outcome, printed))
        }
        Err(fault) => {
            drop(disk);
            drop(input);
            drop(printed);
            Err(fault)
        }
    }
}

pub fn run_words<R: Threads + Wait + Sync>(
    rt: &R,
    alloc: Global,
    line: &str,
    disk: MemDisk,
    script: &str,
) -> Result<Run, AllocError>
    requires fresh { (calls_of disk ≡ 0) × (faults_of disk ≡ 0) × (first_fault_of disk ≡ 0) }
{
    match bytes_of(alloc, script) {
        Ok(bytes) => {
            let input = MemSource::of(bytes);
            run_between(rt, alloc, line, disk, input, MemSink::new(alloc))
        }
        Err(fault) => {
            drop(disk);
            Err(fault)
        }
    }
}

/// The disk after a run.
pub fn disk_of(run: Run) -> MemDisk {
    let Run {
        status: _,
        entries: _,
        disk,
        printed,
    } = run;
    drop(printed);
    disk
}

/// A run on what is left of a disk.
pub fn run_again<R: Threads + Wait + Sync>(
    rt: &R,
    alloc: Global,
    disk: MemDisk,
    script: &str,
) -> Result<Run, AllocError> {
    run_words(rt, alloc, "run folder", disk.image(), script)
}

pub fn is_printed(run: &Run, status: Status, text: &str) -> bool {
    run.status == status && run.printed.held() == text.as_bytes()
}

/// The same, and lets go of the run.
pub fn prints(run: Run, status: Status, text: &str) -> bool {
    let printed = is_printed(&run, status, text);
    drop(run);
    printed
}

/// A run on an empty folder.
pub fn run_new<R: Threads + Wait + Sync>(
    rt: &R,
    alloc: Global,
    script: &str,
) -> Result<Run, AllocError> {
    run_words(rt, alloc, "run folder", MemDisk::new(alloc), script)
}

/// Whether a script ends so on an empty folder, and prints this.
pub fn ends<R: Threads + Wait + Sync>(
    rt: &R,
    alloc: Global,
    script: &str,
    status: Status,
    text: &str,
) -> Result<bool, AllocError> {
    let run = run_new(rt, alloc, script)?;
    Ok(prints(run, status, text))
}

/// One text behind another.
pub fn joined(alloc: Global, first: &str, second: &str) -> Result<String, AllocError> {
    let mut text = String::from_str(alloc, first)?;
    text.push_str(second)?;
    Ok(text)
}

/// Whether these statements, behind those of a set-up and what it prints, end so and print this.
pub fn ends_behind<R: Threads + Wait + Sync>(
    rt: &R,
    alloc: Global,
    set_up: (&str, &str),
    statements: &str,
    status: Status,
    text: &str,
) -> Result<bool, AllocError> {
    let script = joined(alloc, set_up.0, statements)?;
    let printed = joined(alloc, set_up.1, text)?;
    ends(rt, alloc, &script, status, &printed)
}
