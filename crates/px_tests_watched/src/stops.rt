// A stop at each call of the disk while a table with an index is made, filled and emptied, and at each call of what opens the folder again, reads
// it and repairs the index.
use px_opening::{Opened, open};
use px_outside::{CallMade, Choice, MemDisk};
use px_reply::{Reply, Transcript};
use px_tables::IndexState;
use px_tests_runs::copies::{add_files, copied};
use px_tests_runs::doubts::doubts;
use px_tests_runs::model::{Version, add_late, add_written, as_of, settle};
use px_tests_runs::plain::{are_told, has_stamp};
use px_tests_runs::queries::{Order, Query, Which, is_answer};
use px_tests_runs::runs::{Outcome, Ran, disk_of, run};
use px_trail::{Act, Entry, Trail};
use std::alloc::{AllocError, Global};
use std::sync::Wait;
use std::thread::Threads;

/// A point behind all stamps.
const NEWEST: u64 = 1_000_000;

/// Rows come, move, lose their values and go.
const SCRIPT: &str =
    "CREATE TABLE ORDERS (ID BIGINT NOT NULL PRIMARY KEY, CUST VARCHAR, AMT INTEGER, NOTE VARCHAR);
CREATE INDEX BY_CUST ON ORDERS (CUST) INCLUDE (AMT);
UPSERT INTO ORDERS (ID, CUST, AMT) VALUES (1,'b',5);
UPSERT INTO ORDERS (ID, CUST, AMT) VALUES (2,'a',7);
UPSERT INTO ORDERS (ID, CUST, AMT) VALUES (3,'b',9);
UPSERT INTO ORDERS (ID, CUST) VALUES (1,'c');
UPSERT INTO ORDERS (ID, CUST, AMT) VALUES (2,'',NULL);
DELETE FROM ORDERS WHERE CUST = 'c';
DELETE FROM ORDERS;
";

/// All rows by the table and by the index.
const READ: &str = "SELECT /*+ NO_INDEX */ ID, CUST, AMT FROM ORDERS;
SELECT /*+ INDEX(ORDERS BY_CUST) */ ID, CUST, AMT FROM ORDERS;
";

const BY_TABLE: Query = Query {
    table: 0,
    order: Order::ById,
    which: Which::All,
};

const BY_INDEX: Query = Query {
    table: 0,
    order: Order::ByA,
    which: Which::All,
};

/// How many stops there were in the script, and how many in what reads the folder again; how many doubts were met there.
#[derive(Clone, Copy, Debug)]
struct Tally {
    stops: u64,
    again: u64,
    doubts: u64,
}

/// What is there behind a stop: rows with their dates, those behind the settled ones of the step that was stopped; and whether the table and the
/// index stand; none where they may.
#[derive(Drop)]
struct Left {
    versions: Vec<Version>,
    settled: usize,
    files: Vec<u64>,
    table: Option<bool>,
    index: Option<bool>,
}

#[derive(Clone, Copy, PartialEq, Eq)]
enum Part {
    Table,
    Index,
}

fn part_of(act: &Act) -> Option<Part> {
    match act {
        Act::Made { .. } => Some(Part::Table),
        Act::IndexState { state, .. } => if *state == IndexState::Active {
            Some(Part::Index)
        } else {
            None
        },
        _ => None,
    }
}

/// Whether a part stands; none where its record was under way.
fn stands(trail: &Trail, late: &Option<Entry>, part: Part) -> Option<bool> {
    for place in 0..trail.len() {
        if part_of(&trail.entry(place).act) == Some(part) {
            return Some(true);
        }
    }
    match late {
        Some(entry) => if part_of(&entry.act) == Some(part) {
            None
        } else {
            Some(false)
        },
        None => Some(false),
    }
}

/// What a run tells of what it left.
fn left_by(alloc: Global, ran: &Ran<MemDisk>) -> Result<Left, AllocError> {
    let mut left = Left {
        versions: Vec::new(alloc),
        settled: 0,
        files: Vec::new(alloc),
        table: stands(&ran.trail, &ran.late, Part::Table),
        index: stands(&ran.trail, &ran.late, Part::Index),
    };
    match left.add(alloc, ran) {
        Ok(()) => Ok(left),
        Err(failed) => {
            drop(left);
            Err(failed)
        }
    }
}

/// What is there behind a stop in the opening of an empty folder.
fn nothing(alloc: Global, disk: &MemDisk) -> Result<Left, AllocError> {
    let mut files = Vec::new(alloc);
    add_files(disk.calls_made(), &mut files)?;
    Ok(Left {
        versions: Vec::new(alloc),
        settled: 0,
        files,
        table: Some(false),
        index: Some(false),
    })
}

/// Whether the table stands in a folder, and its index, which is active then.
fn parts_in(opened: &Opened) -> (bool, bool) {
    for group in opened.groups.as_slice() {
        if group.table.name.as_str() == "ORDERS" {
            return match group.indexes.as_slice() {
                [index] => (true, index.index.state == IndexState::Active),
                _ => (true, false),
            };
        }
    }
    (false, false)
}

impl Left {
    /// Adds the files and the rows of a run.
    fn add(&mut self, alloc: Global, ran: &Ran<MemDisk>) -> Result<(), AllocError> {
        add_files(ran.disk.calls_made(), &mut self.files)?;
        add_written(alloc, &ran.trail, &mut self.versions)?;
        settle(&mut self.versions);
        self.settled = self.versions.len();
        add_late(alloc, &ran.trail, &ran.late, &mut self.versions)
    }

    /// Takes off the rows of the stopped step, and keeps those that have a cell.
    fn take_late(
        &mut self,
        alloc: Global,
        opened: &Opened,
        kept: &mut Vec<Version>,
    ) -> Result<(), AllocError> {
        let count = self.versions.len();
        for _ in self.settled..count {
            if let Some(version) = self.versions.pop() {
                let (table, id, stamp) = (version.table, version.fields.id, version.stamp);
                if has_stamp(alloc, opened, table, id, stamp)? {
                    kept.push(version)?;
                }
            }
        }
        Ok(())
    }

    fn put_back(&mut self, kept: &[Version]) -> Result<(), AllocError> {
        for version in kept {
            self.versions.push(*version)?;
        }
        Ok(())
    }

    /// Settles what the stop left open, by what is there: each row of the stopped step by its cells, and whether the table and the index stand.
    fn decide(&mut self, alloc: Global, opened: &Opened) -> Result<(), AllocError> {
        let mut kept = Vec::new(alloc);
        let done = match self.take_late(alloc, opened, &mut kept) {
            Ok(()) => self.put_back(&kept),
            Err(failed) => Err(failed),
        };
        drop(kept);
        done?;
        let (table, index) = parts_in(opened);
        self.table = Some(self.table.unwrap_or(table));
        self.index = Some(self.index.unwrap_or(index));
        Ok(())
    }

    /// Whether a folder holds all that is there, and nothing else, as of each stamp.
    fn is_in(&self, alloc: Global, opened: &Opened) -> bool {
        let (table, index) = parts_in(opened);
        for point in 1..12 {
            if are_told(alloc, opened, &self.versions, u64::MAX, point) != Ok(true) {
                return false;
            }
        }
        self.table == Some(table)
            && self.index == Some(index)
            && are_told(alloc, opened, &self.versions, u64::MAX, NEWEST) == Ok(true)
    }

    /// The same of what a disk holds.
    fn is_on(&self, alloc: Global, disk: &mut MemDisk) -> bool {
        match open(alloc, disk) {
            Ok(opened) => {
                let is_in = self.is_in(alloc, &opened);
                drop(opened);
                is_in
            }
            Err(_) => false,
        }
    }

    /// Settles what the stop left open on a disk. Whether it holds all that is there, and nothing else.
    fn settles(&mut self, alloc: Global, disk: &mut MemDisk) -> bool {
        match open(alloc, disk) {
            Ok(opened) => {
                let is_decided = self.decide(alloc, &opened).is_ok();
                let is_in = self.is_in(alloc, &opened);
                drop(opened);
                is_decided && is_in
            }
            Err(_) => false,
        }
    }

    /// Whether a query was answered by the rows that are there.
    fn is_answered(
        &self,
        alloc: Global,
        transcript: &Transcript,
        place: usize,
        query: Query,
    ) -> bool {
        let Some(version) = self.versions.as_slice().first() else {
            return true;
        };
        let view = as_of(version.table, NEWEST);
        let Some(item) = transcript.items.as_slice().get(place) else {
            return false;
        };
        match &item.reply {
            Reply::Rows(rows) => {
                is_answer(alloc, &self.versions, view, query, rows.as_slice()) == Ok(true)
            }
            _ => false,
        }
    }

    /// Whether both queries were answered by the rows that are there.
    fn are_answered(&self, alloc: Global, transcripts: &[Transcript]) -> bool {
        let [transcript] = transcripts else {
            return false;
        };
        let by_index = if self.index == Some(true) {
            BY_INDEX
        } else {
            BY_TABLE
        };
        self.is_answered(alloc, transcript, 0, BY_TABLE)
            && self.is_answered(alloc, transcript, 1, by_index)
    }
}

fn has_failed(made: &[CallMade]) -> bool {
    made.iter().any(|call| call.failed)
}

/// What a stop in the script left, and whether one came; none where memory was lacked.
fn stopped<R: Threads + Wait + Sync>(
    rt: &R,
    alloc: Global,
    call: u64,
    choice: Choice,
) -> Option<(MemDisk, Left, bool)> {
    match run(
        rt,
        alloc,
        MemDisk::new(alloc).stop_at(call, choice),
        SCRIPT,
        &[],
    ) {
        Outcome::Ran(ran) => {
            let left = left_by(alloc, &ran);
            let is_stopped = has_failed(ran.disk.calls_made());
            let disk = disk_of(ran).image();
            match left {
                Ok(left) => Some((disk, left, is_stopped)),
                Err(_) => {
                    drop(disk);
                    None
                }
            }
        }
        Outcome::Unopened(disk) => {
            let left = nothing(alloc, &disk);
            let disk = disk.image();
            match left {
                Ok(left) => Some((disk, left, true)),
                Err(_) => {
                    drop(disk);
                    None
                }
            }
        }
        Outcome::Lacked => None,
    }
}

/// What a stop in a run that reads left, and whether one came; none where the answers of a run without one aren't those of the rows that are there.
fn read<R: Threads + Wait + Sync>(
    rt: &R,
    alloc: Global,
    disk: MemDisk,
    again: u64,
    choice: Choice,
    left: &Left,
) -> Option<(MemDisk, bool)> {
    match run(rt, alloc, disk.image().stop_at(again, choice), READ, &[]) {
        Outcome::Ran(ran) => {
            let is_stopped = has_failed(ran.disk.calls_made());
            let is_right = is_stopped || left.are_answered(alloc, ran.transcripts.as_slice());
            let disk = disk_of(ran).image();
            if is_right {
                return Some((disk, is_stopped));
            }
            drop(disk);
            None
        }
        Outcome::Unopened(disk) => Some((disk.image(), true)),
        Outcome::Lacked => None,
    }
}

/// How many stops there are in a run that reads a folder; none where one left something else than what is there, or a doubt is left without one.
fn all_again<R: Threads + Wait + Sync>(
    rt: &R,
    alloc: Global,
    disk: &mut MemDisk,
    choice: Choice,
    left: &Left,
) -> Option<u64> {
    for again in 1..400 {
        let copy = copied(alloc, disk, left.files.as_slice())?;
        let (mut after, is_stopped) = read(rt, alloc, copy, again, choice, left)?;
        let is_on = left.is_on(alloc, &mut after);
        let unmended = doubts(alloc, &mut after);
        drop(after);
        if !is_on || (!is_stopped && unmended != Some(0)) {
            return None;
        }
        if !is_stopped {
            return Some(again - 1);
        }
    }
    None
}

/// How many doubts a stop left, and how many stops there are in a run that reads the folder then; none where one left something else than what is
/// there.
fn mended<R: Threads + Wait + Sync>(
    rt: &R,
    alloc: Global,
    disk: MemDisk,
    left: &mut Left,
    choice: Choice,
) -> Option<(u64, u64)> {
    let mut disk = disk.image();
    let Some(mut first) = copied(alloc, &mut disk, left.files.as_slice()) else {
        drop(disk);
        return None;
    };
    let settles = left.settles(alloc, &mut first);
    let count = doubts(alloc, &mut first);
    drop(first);
    let again = if settles {
        all_again(rt, alloc, &mut disk, choice, left)
    } else {
        None
    };
    drop(disk);
    Some((count? as u64, again?))
}

/// What was done where each third call of the script was stopped, from this one on; or the call whose stop left something else than what is there.
fn all_stopped<R: Threads + Wait + Sync>(
    rt: &R,
    alloc: Global,
    first: u64,
    choice: Choice,
) -> Result<Tally, u64> {
    let mut tally = Tally {
        stops: 0,
        again: 0,
        doubts: 0,
    };
    for step in 0..400 {
        let call = first.saturating_add(step * 3);
        let Some((disk, mut left, is_stopped)) = stopped(rt, alloc, call, choice) else {
            return Err(call);
        };
        let found = mended(rt, alloc, disk, &mut left, choice);
        drop(left);
        let Some((doubts, again)) = found else {
            return Err(call);
        };
        if !is_stopped {
            return Ok(tally);
        }
        tally.stops = tally.stops.saturating_add(1);
        tally.again = tally.again.saturating_add(again);
        tally.doubts = tally.doubts.saturating_add(doubts);
    }
    Err(0)
}

/// Whether there were enough stops of each kind, and doubts.
fn is_whole(done: &Result<Tally, u64>) -> bool {
    match done {
        Ok(tally) => tally.stops >= 30 && tally.again >= 1_000 && tally.doubts >= 3,
        Err(_) => false,
    }
}

// Nine tests, since each has its own time: each stops at a third of the calls.
#[test]
fn stops_that_leave_the_old_bytes_at_each_third_call_from_the_first(rt: HostRuntime) {
    let done = all_stopped(&rt, rt.alloc(), 1, Choice::Old);
    assert!(rt; is_whole(&done), "{done:?}");
}

#[test]
fn stops_that_leave_the_old_bytes_at_each_third_call_from_the_second(rt: HostRuntime) {
    let done = all_stopped(&rt, rt.alloc(), 2, Choice::Old);
    assert!(rt; is_whole(&done), "{done:?}");
}

#[test]
fn stops_that_leave_the_old_bytes_at_each_third_call_from_the_third(rt: HostRuntime) {
    let done = all_stopped(&rt, rt.alloc(), 3, Choice::Old);
    assert!(rt; is_whole(&done), "{done:?}");
}

#[test]
fn stops_that_leave_the_new_bytes_at_each_third_call_from_the_first(rt: HostRuntime) {
    let done = all_stopped(&rt, rt.alloc(), 1, Choice::New);
    assert!(rt; is_whole(&done), "{done:?}");
}

#[test]
fn stops_that_leave_the_new_bytes_at_each_third_call_from_the_second(rt: HostRuntime) {
    let done = all_stopped(&rt, rt.alloc(), 2, Choice::New);
    assert!(rt; is_whole(&done), "{done:?}");
}

#[test]
fn stops_that_leave_the_new_bytes_at_each_third_call_from_the_third(rt: HostRuntime) {
    let done = all_stopped(&rt, rt.alloc(), 3, Choice::New);
    assert!(rt; is_whole(&done), "{done:?}");
}

#[test]
fn stops_that_leave_open_gates_at_each_third_call_from_the_first(rt: HostRuntime) {
    let done = all_stopped(&rt, rt.alloc(), 1, Choice::Fill(1));
    assert!(rt; is_whole(&done), "{done:?}");
}

#[test]
fn stops_that_leave_open_gates_at_each_third_call_from_the_second(rt: HostRuntime) {
    let done = all_stopped(&rt, rt.alloc(), 2, Choice::Fill(1));
    assert!(rt; is_whole(&done), "{done:?}");
}

#[test]
fn stops_that_leave_open_gates_at_each_third_call_from_the_third(rt: HostRuntime) {
    let done = all_stopped(&rt, rt.alloc(), 3, Choice::Fill(1));
    assert!(rt; is_whole(&done), "{done:?}");
}
