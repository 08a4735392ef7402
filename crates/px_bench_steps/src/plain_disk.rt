// A disk in memory that keeps no calls: a write copies its own bytes alone.
ghost use Rattle.std.specs.Prelude.{◌≡◌, ◌<◌, ◌≤◌, ◌+◌, ◌==◌, if◌then◌else◌, [], false, length, IfSome};
ghost use Rattle.px_outside.specs.Disk.{at_last, fault_count, first_after};

use px_outside::{Disk, Failed};
use std::alloc::{AllocError, Global};

#[derive(Drop)]
struct PlainFile {
    number: u64,
    bytes: Vec<u8>,
}

/// How many calls were made, how many have failed, and which one first.
#[derive(Clone, Copy)]
struct Counts {
    calls: u64,
    faults: u64,
    first_fault: u64,
}

/// Numbered files. What they hold is told to nobody.
#[derive(Drop)]
pub struct PlainDisk {
    alloc: Global,
    files: Vec<PlainFile>,
    counts: Counts,
}

fn first_of(before: u64, number: u64) -> u64
    ensures { result ≡ (if before == 0 then number else before) }
{
    if before == 0 { number } else { before }
}

impl Counts {
    fn are_spent(self) -> bool
        ensures { result ≡ at_last self.calls self.faults }
    {
        self.calls == u64::MAX || self.faults == u64::MAX
    }

    /// The counts after a call.
    fn after<T>(self, outcome: &Result<T, Failed>) -> Counts
        requires { at_last self.calls self.faults ≡ false }
        ensures calls { result.calls ≡ self.calls + 1 }
        ensures faults { result.faults ≡ self.faults + fault_count outcome.now }
        ensures first { result.first_fault ≡ first_after self.first_fault (self.calls + 1) outcome.now }
    {
        let calls = self.calls + 1;
        match outcome {
            Ok(_) => Counts { calls, ..self },
            Err(_) => Counts {
                calls,
                faults: self.faults + 1,
                first_fault: first_of(self.first_fault, calls),
            },
        }
    }
}

fn place_of(files: &[PlainFile], number: u64) -> Option<usize>
    ensures { IfSome result (λ i. i < length files.now) }
{
    for place in 0..files.len() {
        if files[place].number == number {
            return Some(place);
        }
    }
    None
}

fn bytes_of(files: &[PlainFile], number: u64) -> &[u8] {
    match place_of(files, number) {
        Some(place) => files[place].bytes.as_slice(),
        None => &[],
    }
}

/// Puts bytes at a place, behind a gap of zeros where it lies past the end.
fn put(bytes: &mut Vec<u8>, at: usize, from: &[u8]) -> Result<(), AllocError> {
    if bytes.len() < at {
        bytes.resize(at, 0)?;
    }
    if bytes.len() == at {
        return bytes.extend_from_slice(from);
    }
    let mut place = at;
    for byte in from {
        match bytes.get_mut(place) {
            Some(old) => *old = *byte,
            None => bytes.push(*byte)?,
        }
        place = place.saturating_add(1);
    }
    Ok(())
}

/// Fills the front of a buffer.
fn fill(bytes: &[u8], at: usize, into: &mut [u8]) -> usize
    ensures { result ≤ length into.old }
{
    if at >= bytes.len() {
        return 0;
    }
    let from = &bytes[at..];
    let n = from.len().min(into.len());
    into[..n].copy_from_slice(&from[..n]);
    n
}

impl PlainDisk {
    /// An empty disk.
    pub fn new(alloc: Global) -> PlainDisk
        ensures { (result.counts.calls ≡ 0) × (result.counts.faults ≡ 0) × (result.counts.first_fault ≡ 0) }
    {
        PlainDisk {
            alloc,
            files: Vec::new(alloc),
            counts: Counts {
                calls: 0,
                faults: 0,
                first_fault: 0,
            },
        }
    }

    /// Counts a call.
    fn counted<T>(&mut self, outcome: Result<T, Failed>) -> Result<T, Failed>
        requires { at_last self.old.counts.calls self.old.counts.faults ≡ false }
        ensures value { result ≡ outcome }
        ensures calls { self.new.counts.calls ≡ self.old.counts.calls + 1 }
        ensures faults { self.new.counts.faults ≡ self.old.counts.faults + fault_count result }
        ensures first { self.new.counts.first_fault ≡ first_after self.old.counts.first_fault (self.old.counts.calls + 1) result }
    {
        self.counts = self.counts.after(&outcome);
        outcome
    }

    fn written(&mut self, number: u64, at: usize, from: &[u8]) -> Result<(), AllocError>
        ensures { self.new.counts ≡ self.old.counts }
    {
        if let Some(place) = place_of(&self.files, number) {
            return put(&mut self.files[place].bytes, at, from);
        }
        let mut bytes = Vec::new(self.alloc);
        put(&mut bytes, at, from)?;
        match self.files.push(PlainFile { number, bytes }) {
            Ok(()) => Ok(()),
            Err(failed) => {
                drop(failed);
                Err(AllocError)
            }
        }
    }
}

impl Disk for PlainDisk {
    ghost tells = { false };

    ghost seen = { λ disk file. [] };

    ghost first = { λ disk file. [] };

    ghost left = { λ disk moment file bytes. ⊥ };

    ghost calls = { λ disk. disk.counts.calls };

    ghost faults = { λ disk. disk.counts.faults };

    ghost first_fault = { λ disk. disk.counts.first_fault };

    ghost told = { λ disk moment file bytes left. absurd left };

    ghost up_to_now = { λ disk moment file bytes left. absurd left };

    fn len(&mut self, file: u64) -> Result<u64, Failed> {
        if self.counts.are_spent() {
            return Err(Failed);
        }
        let len = bytes_of(&self.files, file).len() as u64;
        self.counted(Ok(len))
    }

    fn read(&mut self, file: u64, at: u64, into: &mut [u8]) -> Result<usize, Failed> {
        if self.counts.are_spent() {
            return Err(Failed);
        }
        let done = fill(bytes_of(&self.files, file), at as usize, into);
        self.counted(Ok(done))
    }

    fn write(&mut self, file: u64, at: u64, from: &[u8]) -> Result<(), Failed> {
        if self.counts.are_spent() {
            return Err(Failed);
        }
        let outcome = match self.written(file, at as usize, from) {
            Ok(()) => Ok(()),
            Err(_) => Err(Failed),
        };
        self.counted(outcome)
    }

    fn cut(&mut self, file: u64, to: u64) -> Result<(), Failed> {
        if self.counts.are_spent() {
            return Err(Failed);
        }
        if let Some(place) = place_of(&self.files, file) {
            self.files[place].bytes.truncate(to as usize);
        }
        self.counted(Ok(()))
    }

    fn sync(&mut self, _file: u64) -> Result<(), Failed> {
        if self.counts.are_spent() {
            return Err(Failed);
        }
        self.counted(Ok(()))
    }
}
