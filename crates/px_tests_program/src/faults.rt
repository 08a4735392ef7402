// Runs in which the disk, the input or the output fails.
use crate::runs::{
    FIRST_SCRIPT, Run, bytes_of, disk_of, is_printed, prints, run_again, run_between, run_words,
};
use px_outside::{MemDisk, MemSink, MemSource, Numbers};
use px_program::Status;
use std::alloc::{AllocError, Global};
use std::sync::Wait;
use std::thread::Threads;

const NO_ROW: &str = "0 rows selected\n";

const ITS_ROW: &str = "'a', 'b'\n1 row selected\n";

fn only(alloc: Global, number: u64) -> Result<Numbers, AllocError> {
    Ok(Numbers::of(vec![in alloc; number]?))
}

/// Whether the first run has this status, entries and replies where that call alone fails, and a run on what is left
/// shows these rows.
fn ends_so<R: Threads + Wait + Sync>(
    rt: &R,
    alloc: Global,
    call: u64,
    status: Status,
    entries: u64,
    replies: &str,
    left: &str,
) -> Result<bool, AllocError> {
    let failing = only(alloc, call)?;
    let disk = MemDisk::new(alloc).fail_at(failing);
    let run = run_words(rt, alloc, "run folder", disk, FIRST_SCRIPT)?;
    let as_said = is_printed(&run, status, replies) && run.entries == entries;
    let next = run_again(rt, alloc, disk_of(run), "SELECT * FROM KV")?;
    let is_left = prints(next, Status::Done, left);
    Ok(as_said && is_left)
}

/// The same, for each call from the first to the last.
fn end_so<R: Threads + Wait + Sync>(
    rt: &R,
    alloc: Global,
    first: u64,
    last: u64,
    entries: u64,
    replies: &str,
    left: &str,
) -> Result<bool, AllocError> {
    for call in first..=last {
        if !ends_so(
            rt,
            alloc,
            call,
            Status::Device { call },
            entries,
            replies,
            left,
        )? {
            return Ok(false);
        }
    }
    Ok(true)
}

// The first run makes 37 calls.
#[test]
fn each_failed_call_of_the_disk_is_answered(rt: HostRuntime) {
    let alloc = rt.alloc();
    let failed = "F2 write fault\n";
    // The opening, with a fresh catalogue.
    assert!(rt; end_so(&rt, alloc, 1, 27, 0, "", NO_ROW) == Ok(true));
    // The log of the table's region: a segment with its gate closed, its header, its gate opened, each with a sync.
    assert!(rt; end_so(&rt, alloc, 28, 33, 1, failed, NO_ROW) == Ok(true));
    // The record and its sync, and the write that opens its gate. The batch has begun, and its first phase is done.
    assert!(rt; end_so(&rt, alloc, 34, 36, 3, failed, NO_ROW) == Ok(true));
    // The sync of that gate, which stays open here.
    assert!(rt; end_so(&rt, alloc, 37, 37, 3, failed, ITS_ROW) == Ok(true));
    // There is no call more.
    let whole = "1 row affected\n'a', 'b'\n1 row selected\n";
    assert!(rt; ends_so(&rt, alloc, 38, Status::Done, 7, whole, ITS_ROW) == Ok(true));
}

/// A run whose input fails at its call of this number.
fn run_with_input<R: Threads + Wait + Sync>(
    rt: &R,
    alloc: Global,
    call: u64,
) -> Result<Run, AllocError> {
    let failing = only(alloc, call)?;
    let input = MemSource::of(bytes_of(alloc, FIRST_SCRIPT)?).fail_at(failing);
    run_between(
        rt,
        alloc,
        "run folder",
        MemDisk::new(alloc),
        input,
        MemSink::new(alloc),
    )
}

/// A run whose output fails at its first call, and whose disk fails at its call of this number.
fn run_with_output<R: Threads + Wait + Sync>(
    rt: &R,
    alloc: Global,
    call: u64,
) -> Result<Run, AllocError> {
    let (of_disk, of_output) = (only(alloc, call)?, only(alloc, 1)?);
    let input = MemSource::of(bytes_of(alloc, FIRST_SCRIPT)?);
    let disk = MemDisk::new(alloc).fail_at(of_disk);
    let printed = MemSink::new(alloc).fail_at(of_output);
    run_between(rt, alloc, "run folder", disk, input, printed)
}

fn is_unrun(run: Run, status: Status) -> bool {
    let printed = is_printed(&run, status, "");
    let touched_nothing = run.entries == 0 && run.disk.calls_made().is_empty();
    drop(run);
    printed && touched_nothing
}

#[test]
fn a_failed_input_or_output_is_answered(rt: HostRuntime) {
    let alloc = rt.alloc();
    // The input is read twice: the script, and its end.
    for call in 1..3 {
        let run = run_with_input(&rt, alloc, call).expect(&rt, "no memory");
        assert!(rt; is_unrun(run, Status::SourceFault));
    }
    // The output is written once, behind all statements. Its fault goes before one of the disk.
    for call in 34..39 {
        let run = run_with_output(&rt, alloc, call).expect(&rt, "no memory");
        assert!(rt; prints(run, Status::SinkFault, ""));
    }
    let run = run_with_output(&rt, alloc, 38).expect(&rt, "no memory");
    let next = run_again(&rt, alloc, disk_of(run), "SELECT * FROM KV").expect(&rt, "no memory");
    assert!(rt; prints(next, Status::Done, ITS_ROW));
}
