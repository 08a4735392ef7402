// A load in which the disk or the output fails.
use px_outside::{MemDisk, MemSink, MemSource, Numbers};
use px_program::Status;
use px_tests_program::runs::{
    Run, bytes_of, disk_of, is_printed, run_again, run_between, run_words,
};
use std::alloc::{AllocError, Global};
use std::sync::Wait;
use std::thread::Threads;

const WORDS: &str = "load d --number 5 --rows 3";

/// Whether one line at most was printed, which is of a refusal for the disk's sake.
fn tells_a_fault(run: &Run) -> bool {
    let printed = run.printed.held();
    printed.is_empty()
        || printed.starts_with(b"F") && printed.iter().filter(|b| **b == b'\n').count() == 1
}

/// Whether a disk can be loaded, or has the table already.
fn can_be_loaded<R: Threads + Wait + Sync>(
    rt: &R,
    alloc: Global,
    left: MemDisk,
) -> Result<bool, AllocError> {
    let again = run_words(rt, alloc, WORDS, left.image(), "")?;
    let is_there = is_printed(&again, Status::Refused, "E03 name exists: LOAD\n");
    let is_loaded = again.status == Status::Done;
    Ok(is_there || is_loaded)
}

/// Whether the run where that call fails tells it, and leaves a folder that goes on; none where it isn't made.
fn failed<R: Threads + Wait + Sync>(
    rt: &R,
    alloc: Global,
    call: u64,
) -> Result<Option<bool>, AllocError> {
    let failing = MemDisk::new(alloc).fail_at(Numbers::of(vec![in alloc; call]?));
    let run = run_words(rt, alloc, WORDS, failing, "")?;
    if run.status == Status::Done {
        drop(run);
        return Ok(None);
    }
    let is_told = run.status == Status::Device { call } && tells_a_fault(&run);
    Ok(Some(is_told && can_be_loaded(rt, alloc, disk_of(run))?))
}

#[test]
fn each_call_that_fails_is_told(rt: HostRuntime) {
    let alloc = rt.alloc();
    let mut calls = 0;
    for call in 1..400 {
        let Ok(found) = failed(&rt, alloc, call) else {
            panic!(rt; "no memory")
        };
        let Some(is_right) = found else {
            break;
        };
        assert!(rt; is_right, "call {call}");
        calls = call;
    }
    assert!(rt; calls >= 12);
}

const ROWS: &str = "SELECT /*+ NO_INDEX */ ID FROM LOAD;\n";

/// Whether an output that fails at its first call is told, and the rows are there.
fn is_lost<R: Threads + Wait + Sync>(rt: &R, alloc: Global) -> Result<bool, AllocError> {
    let out = MemSink::new(alloc).fail_at(Numbers::of(vec![in alloc; 1]?));
    let input = MemSource::of(bytes_of(alloc, "")?);
    let run = run_between(
        rt,
        alloc,
        "load d --number 0 --rows 1",
        MemDisk::new(alloc),
        input,
        out,
    )?;
    let is_told = is_printed(&run, Status::SinkFault, "");
    let asked = run_again(rt, alloc, disk_of(run), ROWS)?;
    Ok(is_told && is_printed(&asked, Status::Done, "0\n1 row selected\n"))
}

#[test]
fn an_output_that_fails_is_told(rt: HostRuntime) {
    assert!(rt; is_lost(&rt, rt.alloc()) == Ok(true));
}
