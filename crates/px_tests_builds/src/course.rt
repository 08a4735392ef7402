// Runs on one disk, each stopped somewhere or not, and what is there behind each of them.
use crate::asked::{Came, answered};
use crate::checks::{Check, check_of, decide, judged};
use crate::counts::{NOTHING, Tally, count, files_made, flushes_within};
use crate::plans::{LOOKER, Plan, planned, set_up};
use crate::stands::{NONE, Stands, after_late, as_opened, stands_in};
use px_opening::{Opened, open};
use px_outside::{CallMade, Choice, MemDisk};
use px_reply::Transcript;
use px_tests_runs::copies::{add_files, copied};
use px_tests_runs::dice::Dice;
use px_tests_runs::model::{Version, add_late, add_written, last_stamp, settle, tables_made};
use px_tests_runs::runs::{Outcome, Ran, disk_of, run, run_read};
use px_trail::{Entry, Trail};
use std::alloc::{AllocError, Global};
use std::sync::Wait;
use std::thread::Threads;

/// What was wrong.
#[derive(Clone, Copy, Debug, PartialEq, Eq)]
pub enum Wrong {
    SetUp,
    /// An answer while others acted.
    Answer,
    /// The folder isn't opened.
    Folder,
    /// The indexes aren't as the entries tell.
    Indexes,
    /// An answer behind a run.
    Dated,
    Memory,
}

/// How a course is made: of how many rows at least at first, how many runs, how many turns in each, how many calls of the disk its first run is thought to
/// make, and as of how many random stamps the rows are asked behind each.
#[derive(Clone, Copy)]
pub struct Making {
    pub rows: u32,
    pub runs: u32,
    pub turns: u32,
    pub calls: u32,
    pub points: u32,
}

/// The dated rows of the table of this number, of which those from a place on may be there or not; the numbers of its disk's files, the indexes, the greatest
/// stamp, how many files the table's rows have, and how many the last run's flushes made; how many calls of the disk open its folder, how many the last
/// run made behind its opening that wasn't stopped, the greatest key, and what was met.
#[derive(Drop)]
pub struct Course {
    table: u32,
    versions: Vec<Version>,
    settled: usize,
    files: Vec<u64>,
    stands: Stands,
    last: u64,
    row_files: u64,
    files_made: u64,
    opening: u32,
    calls: u32,
    keys: u32,
    tally: Tally,
}

/// Whether a call failed.
fn has_failed(made: &[CallMade]) -> bool {
    made.iter().any(|call| call.failed)
}

fn choice(dice: &mut Dice) -> Choice {
    match dice.below(5) {
        0 => Choice::Old,
        1 => Choice::New,
        2 => Choice::Fill(0),
        3 => Choice::Fill(1),
        _ => Choice::Fill(255),
    }
}

/// What an opened folder has: its indexes, and how many files the rows of the table have.
#[derive(Clone, Copy)]
struct Found {
    stands: Stands,
    row_files: u64,
}

fn found_in(folder: &Opened) -> Found {
    let mut row_files = 0;
    for group in folder.groups.as_slice() {
        if group.table.name.as_str() == "T" {
            row_files = group.rows.file_count();
        }
    }
    Found {
        stands: stands_in(folder.catalog.standing()),
        row_files,
    }
}

/// How many calls a disk had.
fn calls_of(disk: &MemDisk) -> u32 {
    disk.calls_made().len().min(100_000) as u32
}

/// Opens the folder of a disk, and tells what it has.
fn found_on(alloc: Global, disk: &mut MemDisk) -> Result<Found, Wrong> {
    match open(alloc, disk) {
        Ok(folder) => {
            let found = found_in(&folder);
            drop(folder);
            Ok(found)
        }
        Err(_) => Err(Wrong::Folder),
    }
}

impl Course {
    /// Adds what the run wrote that made the table.
    fn begin(&mut self, alloc: Global, ran: &Ran<MemDisk>) -> Result<(), AllocError> {
        add_files(ran.disk.calls_made(), &mut self.files)?;
        add_written(alloc, &ran.trail, &mut self.versions)?;
        settle(&mut self.versions);
        self.settled = self.versions.len();
        let tables = tables_made(alloc, &ran.trail)?;
        self.table = match tables.as_slice() {
            [table, ..] => *table,
            _ => 0,
        };
        Ok(())
    }

    /// Counts the right answers of a session beside others. Whether none is wrong.
    fn count_looks(
        &mut self,
        alloc: Global,
        trail: &Trail,
        transcript: &Transcript,
        plan: &Plan,
    ) -> Result<bool, AllocError> {
        let items = transcript.items.as_slice();
        for place in 0..items.len() {
            let Some(by) = plan.asked.get(place / 2) else {
                continue;
            };
            if place % 2 == 0 {
                continue;
            }
            let (table, seat, item) = (self.table, transcript.session, &items[place]);
            let (stands, versions) = (self.stands, self.versions.as_slice());
            match answered(alloc, trail, stands, versions, table, seat, item, *by)? {
                Came::Exact { by_index: true } => count(&mut self.tally.answers),
                Came::Wrong => return Ok(false),
                _ => {}
            }
        }
        Ok(true)
    }

    /// The same of whichever session only asks.
    fn are_looks_right(
        &mut self,
        alloc: Global,
        trail: &Trail,
        transcripts: &[Transcript],
        plan: &Plan,
    ) -> Result<bool, AllocError> {
        for transcript in transcripts {
            if transcript.session == LOOKER {
                return self.count_looks(alloc, trail, transcript, plan);
            }
        }
        Ok(true)
    }

    /// Adds what a run wrote and did. Whether all answers in it are right.
    fn add(&mut self, alloc: Global, ran: &Ran<MemDisk>, plan: &Plan) -> Result<bool, AllocError> {
        add_files(ran.disk.calls_made(), &mut self.files)?;
        add_written(alloc, &ran.trail, &mut self.versions)?;
        let all = ran.transcripts.as_slice();
        let is_right = self.are_looks_right(alloc, &ran.trail, all, plan)?;
        settle(&mut self.versions);
        self.settled = self.versions.len();
        add_late(alloc, &ran.trail, &ran.late, &mut self.versions)?;
        self.last = self.last.max(last_stamp(&ran.trail));
        self.files_made = files_made(&ran.trail, all);
        let within = flushes_within(&ran.trail, all, self.stands);
        self.tally.flushed = self.tally.flushed.saturating_add(within);
        self.stands = self.tally.add_trail(&ran.trail, self.stands);
        if has_failed(ran.disk.calls_made()) {
            count(&mut self.tally.stops);
        } else {
            self.calls = calls_of(&ran.disk).saturating_sub(self.opening);
        }
        Ok(is_right)
    }

    /// Takes the indexes as an opened folder has them. Whether they are as the entries tell, or as they were to be behind the stopped step.
    fn take(&mut self, found: Found, late: &Option<Entry>) -> bool {
        let there = as_opened(found.stands);
        let (before, after) = (self.stands, after_late(self.stands, late));
        let files = self.row_files.saturating_add(self.files_made);
        let merged = files.saturating_sub(found.row_files);
        self.tally.merged = self.tally.merged.saturating_add(merged);
        self.row_files = found.row_files;
        self.files_made = 0;
        self.stands = there;
        there == as_opened(before) || there == as_opened(after)
    }

    /// Judges the answers behind a run.
    fn judge(
        &mut self,
        alloc: Global,
        transcripts: &[Transcript],
        asked: &Check,
    ) -> Result<bool, AllocError> {
        let [transcript] = transcripts else {
            return Ok(false);
        };
        let table = self.table;
        decide(alloc, &mut self.versions, self.settled, table, transcript)?;
        self.settled = self.versions.len();
        match judged(alloc, &self.versions, table, transcript, asked)? {
            Some(more) => {
                self.tally.dated = self.tally.dated.saturating_add(more);
                Ok(true)
            }
            None => Ok(false),
        }
    }

    /// Asks a folder.
    fn asked<R: Threads + Wait + Sync>(
        &mut self,
        rt: &R,
        alloc: Global,
        disk: MemDisk,
        asked: &Check,
    ) -> Result<(), Wrong> {
        match run(rt, alloc, disk.image(), &asked.text, &[]) {
            Outcome::Ran(ran) => {
                let is_right = self.judge(alloc, ran.transcripts.as_slice(), asked);
                drop(disk_of(ran));
                match is_right {
                    Ok(true) => Ok(()),
                    Ok(false) => Err(Wrong::Dated),
                    Err(_) => Err(Wrong::Memory),
                }
            }
            Outcome::Unopened(disk) => {
                drop(disk);
                Err(Wrong::Folder)
            }
            Outcome::Lacked => Err(Wrong::Memory),
        }
    }

    /// Opens and asks a copy of what a run left.
    fn checked<R: Threads + Wait + Sync>(
        &mut self,
        rt: &R,
        alloc: Global,
        dice: &mut Dice,
        points: u32,
        mut copy: MemDisk,
        late: &Option<Entry>,
    ) -> Result<(), Wrong> {
        let found = match found_on(alloc, &mut copy) {
            Ok(found) => found,
            Err(wrong) => {
                drop(copy);
                return Err(wrong);
            }
        };
        self.opening = calls_of(&copy);
        if !self.take(found, late) {
            drop(copy);
            return Err(Wrong::Indexes);
        }
        let Ok(asked) = check_of(alloc, dice, self.stands, self.last, points) else {
            drop(copy);
            return Err(Wrong::Memory);
        };
        let came = self.asked(rt, alloc, copy, &asked);
        drop(asked);
        came
    }

    /// The disk behind a run, where all is right that was answered in it and is there.
    fn left<R: Threads + Wait + Sync>(
        &mut self,
        rt: &R,
        alloc: Global,
        dice: &mut Dice,
        points: u32,
        ran: Ran<MemDisk>,
        plan: &Plan,
    ) -> Result<MemDisk, Wrong> {
        let is_right = self.add(alloc, &ran, plan);
        let Ran {
            disk,
            trail,
            late,
            transcripts,
            printed,
            whole: _,
        } = ran;
        drop(trail);
        drop(transcripts);
        drop(printed);
        let mut disk = disk.image();
        let came = match (is_right, copied(alloc, &mut disk, &self.files)) {
            (Ok(true), Some(copy)) => self.checked(rt, alloc, dice, points, copy, &late),
            (Ok(false), copy) => {
                drop(copy);
                Err(Wrong::Answer)
            }
            (_, copy) => {
                drop(copy);
                Err(Wrong::Memory)
            }
        };
        drop(late);
        match came {
            Ok(()) => Ok(disk),
            Err(wrong) => {
                drop(disk);
                Err(wrong)
            }
        }
    }

    /// The disk behind a stop in the opening.
    fn unopened(&mut self, disk: MemDisk) -> Result<MemDisk, Wrong> {
        count(&mut self.tally.unopened);
        if add_files(disk.calls_made(), &mut self.files).is_ok() {
            return Ok(disk);
        }
        drop(disk);
        Err(Wrong::Memory)
    }

    /// At which call of the disk the next run is stopped: now and then in its opening, and about every sixth time behind its end.
    fn stop(&self, dice: &mut Dice) -> u64 {
        let call = if dice.below(10) == 0 {
            dice.below(self.opening)
        } else {
            let calls = self.calls.saturating_add(self.calls / 5);
            dice.below(calls).saturating_add(self.opening)
        };
        u64::from(call).saturating_add(1)
    }

    /// A run of a plan, which is stopped somewhere or comes to its end.
    fn run<R: Threads + Wait + Sync>(
        &mut self,
        rt: &R,
        alloc: Global,
        dice: &mut Dice,
        disk: MemDisk,
        plan: &Plan,
        making: Making,
    ) -> Result<MemDisk, Wrong> {
        let call = self.stop(dice);
        count(&mut self.tally.runs);
        let stopping = disk.image().stop_at(call, choice(dice));
        match run_read(rt, alloc, stopping, &plan.script, &plan.schedule) {
            Outcome::Ran(ran) => self.left(rt, alloc, dice, making.points, ran, plan),
            Outcome::Unopened(disk) => self.unopened(disk),
            Outcome::Lacked => Err(Wrong::Memory),
        }
    }

    /// The disk after all runs.
    fn all_run<R: Threads + Wait + Sync>(
        &mut self,
        rt: &R,
        alloc: Global,
        dice: &mut Dice,
        disk: MemDisk,
        making: Making,
    ) -> Result<MemDisk, Wrong> {
        let mut disk = disk;
        for _ in 0..making.runs {
            let Ok(plan) = planned(alloc, dice, self.keys, self.last, making.turns) else {
                drop(disk);
                return Err(Wrong::Memory);
            };
            let left = self.run(rt, alloc, dice, disk, &plan, making);
            drop(plan);
            disk = left?;
        }
        Ok(disk)
    }
}

/// The beginning of a course: what the run left that made its table.
fn begun(
    alloc: Global,
    ran: &Ran<MemDisk>,
    rows: u32,
    making: Making,
) -> Result<Course, AllocError> {
    let mut course = Course {
        table: 0,
        versions: Vec::new(alloc),
        settled: 0,
        files: Vec::new(alloc),
        stands: NONE,
        last: last_stamp(&ran.trail),
        row_files: 0,
        files_made: 0,
        opening: 0,
        calls: making.calls,
        keys: rows.saturating_add(20),
        tally: NOTHING,
    };
    match course.begin(alloc, ran) {
        Ok(()) => Ok(course),
        Err(failed) => {
            drop(course);
            Err(failed)
        }
    }
}

/// The same, opened once.
fn opened_first(
    alloc: Global,
    mut disk: MemDisk,
    mut course: Course,
) -> Result<(MemDisk, Course), Wrong> {
    let found = found_on(alloc, &mut disk);
    course.opening = calls_of(&disk);
    if let (Ok(found), Ok(())) = (found, add_files(disk.calls_made(), &mut course.files)) {
        course.row_files = found.row_files;
        return Ok((disk, course));
    }
    drop(disk);
    drop(course);
    Err(Wrong::SetUp)
}

/// The table with its rows, on a new disk.
fn first<R: Threads + Wait + Sync>(
    rt: &R,
    alloc: Global,
    dice: &mut Dice,
    making: Making,
) -> Result<(MemDisk, Course), Wrong> {
    let rows = making.rows.saturating_add(dice.below(31));
    let Ok(text) = set_up(alloc, dice, rows) else {
        return Err(Wrong::Memory);
    };
    let outcome = run(rt, alloc, MemDisk::new(alloc), &text, &[]);
    drop(text);
    match outcome {
        Outcome::Ran(ran) => {
            let course = begun(alloc, &ran, rows, making);
            let disk = disk_of(ran).image();
            match course {
                Ok(course) => opened_first(alloc, disk, course),
                Err(_) => {
                    drop(disk);
                    Err(Wrong::Memory)
                }
            }
        }
        Outcome::Unopened(disk) => {
            drop(disk);
            Err(Wrong::SetUp)
        }
        Outcome::Lacked => Err(Wrong::Memory),
    }
}

/// What was met in a course, where all came out right.
pub fn met<R: Threads + Wait + Sync>(
    rt: &R,
    alloc: Global,
    dice: &mut Dice,
    making: Making,
) -> Result<Tally, Wrong> {
    let (disk, mut course) = first(rt, alloc, dice, making)?;
    let left = course.all_run(rt, alloc, dice, disk, making);
    let tally = course.tally;
    drop(course);
    match left {
        Ok(disk) => {
            drop(disk);
            Ok(tally)
        }
        Err(wrong) => Err(wrong),
    }
}
