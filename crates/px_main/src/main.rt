//! The program: it makes the disk of the folder that its words name, and the real clock, input and output, and runs
//! `px_program` on them, whose call `phoenix` has the whole claim as its contract. It tells the status on standard error and to
//! the system.
#![tactic(auto)]

use px_outside::{MemDisk, StdSink, StdSource, WallClock};
use px_program::{Status, folder_disk, phoenix, tell, tell_fault};
use std::alloc::AllocError;
use std::fs::File;
use std::process::ExitCode;
use std::sync::Wait;
use std::thread::Threads;
use std::{env, io};

/// The null device, open for reading. Three of them take the descriptors of input, output and errors where these were
/// closed, so that no file of the folder gets one: a closed input is then empty, and a write to a closed output fails.
fn null_device(rt: &HostRuntime) -> Option<File> {
    File::open(rt, "/dev/null").ok()
}

/// The words after the program's name.
fn words_of(rt: &HostRuntime) -> io::Result<Vec<String>> {
    let mut words = Vec::new(rt.alloc());
    for word in env::args(rt)?.skip(1) {
        words.push(word)?;
    }
    Ok(words)
}

/// Tells the status on standard error, and hands it on.
fn told(rt: &HostRuntime, status: Status) -> Status {
    tell(rt, status);
    status
}

/// Runs the program on the folder that the words name, and tells its status; where they name none, on no folder. The sessions
/// wait for their turns by `wait`.
fn run_in<W: Threads + Wait + Sync>(
    rt: &HostRuntime,
    wait: &W,
    words: &[String],
) -> Result<Status, AllocError> {
    let alloc = rt.alloc();
    let clock = WallClock::new(rt);
    let (mut input, mut out) = (StdSource::new(rt), StdSink::new(rt));
    match folder_disk(rt, alloc, words)? {
        None => {
            let disk = MemDisk::new(alloc);
            let status = phoenix(wait, alloc, words, disk, clock, &mut input, &mut out).status;
            Ok(told(rt, status))
        }
        Some(disk) => {
            let outcome = phoenix(wait, alloc, words, disk, clock, &mut input, &mut out);
            let status = told(rt, outcome.status);
            tell_fault(rt, outcome.disk.fault());
            drop(outcome);
            Ok(status)
        }
    }
}

fn main(rt: HostRuntime) -> ExitCode {
    let _input = null_device(&rt);
    let _output = null_device(&rt);
    let _errors = null_device(&rt);
    let status = match words_of(&rt) {
        Ok(words) => match run_in(&rt, &rt, &words) {
            Ok(status) => status,
            Err(_) => told(&rt, Status::Memory),
        },
        Err(error) if error.kind() == io::ErrorKind::OutOfMemory => told(&rt, Status::Memory),
        Err(_) => told(&rt, Status::BadWords),
    };
    ExitCode::from(status.code())
}
