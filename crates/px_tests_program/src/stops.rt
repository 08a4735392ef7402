// Runs that a stop ends, and folders whose bytes were changed.
ghost use Rattle.px_outside.specs.MemDisk.{mem_calls as calls_of, mem_faults as faults_of, mem_first_fault as first_fault_of, calls_made};
ghost use Rattle.std.specs.Prelude.{◌≡◌, []};

use crate::runs::{
    FIRST_SCRIPT, FIRST_SEGMENT, Run, disk_of, is_printed, prints, run_again, run_words,
};
use px_outside::{Choice, Disk, MemDisk};
use px_program::Status;
use std::alloc::{AllocError, Global};
use std::sync::Wait;
use std::thread::Threads;

const SELECT: &str = "SELECT * FROM KV";

const TWO_ROWS: &str = "UPSERT INTO KV VALUES ('a','b'); UPSERT INTO KV VALUES ('c','d');";

/// What a stop in that call leaves, at which the run ends.
pub fn stopped<R: Threads + Wait + Sync>(
    rt: &R,
    alloc: Global,
    disk: MemDisk,
    call: u64,
    choice: Choice,
    script: &str,
) -> Result<Option<MemDisk>, AllocError>
    requires fresh { (calls_of disk ≡ 0) × (faults_of disk ≡ 0) × (first_fault_of disk ≡ 0) }
    requires none_made { calls_made disk ≡ [] }
{
    let run = run_words(rt, alloc, "run folder", disk.stop_at(call, choice), script)?;
    if run.status != (Status::Device { call }) {
        drop(run);
        return Ok(None);
    }
    Ok(Some(disk_of(run).image()))
}

/// Whether a run on a disk shows these rows, also behind stops in its opening.
fn shows<R: Threads + Wait + Sync>(
    rt: &R,
    alloc: Global,
    disk: MemDisk,
    choice: Choice,
    rows: &str,
) -> Result<bool, AllocError> {
    let mut left = disk;
    for call in 1..7 {
        match stopped(rt, alloc, left.image(), call, choice, SELECT)? {
            None => return Ok(false),
            Some(next) => left = next,
        }
    }
    let run = run_again(rt, alloc, left, SELECT)?;
    Ok(prints(run, Status::Done, rows))
}

/// Whether a stop in that call of a run on a new disk leaves these rows.
fn leaves<R: Threads + Wait + Sync>(
    rt: &R,
    alloc: Global,
    call: u64,
    choice: Choice,
    script: &str,
    rows: &str,
) -> Result<bool, AllocError> {
    match stopped(rt, alloc, MemDisk::new(alloc), call, choice, script)? {
        None => Ok(false),
        Some(disk) => shows(rt, alloc, disk, choice, rows),
    }
}

/// Whether the gate's byte is 1 after a stop in its write or sync.
fn opens_gate(choice: Choice) -> bool {
    matches!(choice, Choice::New | Choice::Fill(1))
}

// The opening of a new folder takes 27 calls, and the log of a region six. Each append ends with the write of its gate and a sync: the
// calls 36 and 37, and 40 and 41.
#[test]
fn a_stop_leaves_what_was_acknowledged(rt: HostRuntime) {
    let alloc = rt.alloc();
    let (none, one) = ("0 rows selected\n", "'a', 'b'\n1 row selected\n");
    let two = "'a', 'b'\n'c', 'd'\n2 rows selected\n";
    for choice in [
        Choice::Old,
        Choice::New,
        Choice::Fill(0),
        Choice::Fill(1),
        Choice::Fill(255),
    ] {
        for call in 1..38 {
            let rows = if call >= 36 && opens_gate(choice) {
                one
            } else {
                none
            };
            assert!(rt; leaves(&rt, alloc, call, choice, FIRST_SCRIPT, rows) == Ok(true));
        }
        for call in 38..42 {
            let rows = if call >= 40 && opens_gate(choice) {
                two
            } else {
                one
            };
            assert!(rt; leaves(&rt, alloc, call, choice, TWO_ROWS, rows) == Ok(true));
        }
    }
}

/// What a folder with one changed byte opens to.
#[derive(Clone, Copy)]
enum Opens {
    ItsRow,
    NoRow,
    Damaged(u64),
    /// By its cells: what a byte of them tells is tried with the crate that reads them.
    Cells,
}

/// What the first run's file opens to where the byte at a place has another value. By hand, from the format: the
/// segment's gate, letters and generation; the record's gate, kind and length; its number and count of cells; the cells; the closed
/// gate behind.
fn opens_to(place: u64, value: u8) -> Opens {
    match place {
        0 | 16 => Opens::NoRow,
        8..=14 => Opens::ItsRow,
        15 => if value == 0 {
            Opens::Damaged(8)
        } else {
            Opens::ItsRow
        },
        18..=20 => Opens::Damaged(16),
        21 => if value > 45 {
            Opens::Damaged(16)
        } else {
            Opens::Cells
        },
        // A record that is flushed is passed over.
        29 => if value == 0 {
            Opens::NoRow
        } else {
            Opens::Damaged(29)
        },
        30..=66 => Opens::Cells,
        67 => if value == 1 {
            Opens::Damaged(67)
        } else {
            Opens::ItsRow
        },
        _ => Opens::Damaged(place),
    }
}

/// Whether a run told a damaged place of the log, or showed the row or none.
fn is_by_cells(run: &Run) -> bool {
    match run.status {
        Status::Damaged { file, place } => {
            file == 4_294_967_296
                && (place == 0 || (place >= 22 && place <= 67))
                && run.printed.held().is_empty()
        }
        Status::Done => {
            run.printed.held().ends_with(b"1 row selected\n")
                || run.printed.held() == b"0 rows selected\n".as_slice()
        }
        _ => false,
    }
}

/// Whether a folder with this file opens so.
fn file_opens<R: Threads + Wait + Sync>(
    rt: &R,
    alloc: Global,
    bytes: &[u8],
    opens: Opens,
) -> Result<bool, AllocError> {
    let mut disk = MemDisk::new(alloc);
    let file = 4_294_967_296;
    let written = disk.write(file, 0, bytes).is_ok() && disk.sync(file).is_ok();
    let run = run_again(rt, alloc, disk, SELECT)?;
    let is_right = match opens {
        Opens::Damaged(place) => is_printed(&run, Status::Damaged { file, place }, ""),
        Opens::NoRow => is_printed(&run, Status::Done, "0 rows selected\n"),
        Opens::ItsRow => is_printed(&run, Status::Done, "'a', 'b'\n1 row selected\n"),
        Opens::Cells => is_by_cells(&run),
    };
    drop(run);
    Ok(written && is_right)
}

/// The values that each byte is given: around those that the format has, and the ends.
const VALUES: &[u8] = &[
    0, 1, 2, 3, 4, 5, 7, 8, 12, 14, 17, 31, 32, 39, 44, 45, 46, 97, 127, 128, 255,
];

#[test]
fn each_changed_byte_is_refused_or_tells_a_row(rt: HostRuntime) {
    let alloc = rt.alloc();
    for place in 0..68 {
        for value in VALUES {
            let value = *value;
            let mut bytes = FIRST_SEGMENT;
            let opens = if bytes[place] == value {
                Opens::ItsRow
            } else {
                opens_to(place as u64, value)
            };
            bytes[place] = value;
            assert!(rt; file_opens(&rt, alloc, &bytes, opens) == Ok(true));
        }
    }
}
