// Runs on one disk, each watched step by step and stopped somewhere.
use crate::images::{NEWEST, has_failed, images_held};
use crate::plans::{DATED, Plan, SESSIONS, planned};
use px_opening::{Opened, open};
use px_outside::{Choice, MemDisk};
use px_reply::Transcript;
use px_tests_runs::answers::answered;
use px_tests_runs::copies::{add_files, copied};
use px_tests_runs::dice::Dice;
use px_tests_runs::model::{Version, add_late, add_written, settle, tables_made};
use px_tests_runs::plain::{are_told, has_stamp};
use px_tests_runs::queries::QUERIES;
use px_tests_runs::runs::{Outcome, Ran, disk_of, run, run_read};
use px_tests_runs::scripts::SET_UP;
use px_trail::{Act, Entry, Trail};
use std::alloc::{AllocError, Global};
use std::sync::Wait;
use std::thread::Threads;

/// What was wrong.
#[derive(Clone, Copy, Debug, PartialEq, Eq)]
pub enum Wrong {
    SetUp,
    /// An answer after a step.
    Answer,
    /// What the disk held after a step.
    Image,
    /// What a stop left.
    Left,
    Memory,
}

/// After how many steps each path gave the rows of then, how many answers were right, how often the disk held the rows after a step, how many runs
/// were stopped, and how many batches were open at once at most.
#[derive(Clone, Copy, Debug)]
pub struct Tally {
    pub steps: u64,
    pub answers: u64,
    pub images: u64,
    pub stops: u64,
    pub open: u64,
}

/// The dated rows on a disk, the numbers of its tables and of its files, and what was done.
#[derive(Drop)]
pub struct Course {
    versions: Vec<Version>,
    tables: Vec<u32>,
    files: Vec<u64>,
    tally: Tally,
}

/// How many batches were open at once at most.
fn most_open(trail: &Trail) -> u64 {
    let (mut open, mut most): (u64, u64) = (0, 0);
    for place in 0..trail.len() {
        match &trail.entry(place).act {
            Act::Begun { .. } => open = open.saturating_add(1),
            Act::Ended { .. } => open = open.saturating_sub(1),
            _ => {}
        }
        most = most.max(open);
    }
    most
}

/// How many answers of a session that asks are right, of the newest rows and as of an earlier stamp; none where one is wrong.
fn right_answers(
    alloc: Global,
    trail: &Trail,
    versions: &[Version],
    transcript: &Transcript,
    asked: &[usize],
    tables: &[u32],
) -> Result<Option<(usize, usize)>, AllocError> {
    let (mut newest, mut dated): (usize, usize) = (0, 0);
    let items = transcript.items.as_slice();
    for place in 0..items.len() {
        if place == QUERIES.len() {
            continue;
        }
        let is_newest = place < QUERIES.len();
        let Some(query) = asked_at(asked, place) else {
            return Ok(None);
        };
        let (seat, item) = (transcript.session, &items[place]);
        match answered(alloc, trail, versions, seat, item, query, tables)? {
            Some(true) => if is_newest {
                newest = newest.saturating_add(1);
            } else {
                dated = dated.saturating_add(1);
            },
            Some(false) => return Ok(None),
            None => {}
        }
    }
    Ok(Some((newest, dated)))
}

/// Which query an item of a session that asks is: each of the newest rows, a command, and those as of an earlier stamp.
fn asked_at(asked: &[usize], place: usize) -> Option<usize> {
    if place < QUERIES.len() {
        return Some(place);
    }
    asked
        .get(place.wrapping_sub(QUERIES.len()).wrapping_sub(1))
        .copied()
}

/// The queries as of earlier stamps of a session that asks.
fn asked_by(plan: &Plan, session: u32) -> &[usize] {
    let place = session.saturating_sub(SESSIONS).saturating_sub(1) as usize;
    let from = place.wrapping_mul(DATED);
    match plan.asked.as_slice().get(from..from.wrapping_add(DATED)) {
        Some(asked) => asked,
        None => &[],
    }
}

impl Course {
    /// Counts the right answers of a run. Whether none is wrong.
    fn count_answers(
        &mut self,
        alloc: Global,
        trail: &Trail,
        transcripts: &[Transcript],
        plan: &Plan,
    ) -> Result<bool, AllocError> {
        for transcript in transcripts {
            if transcript.session <= SESSIONS {
                continue;
            }
            let asked = asked_by(plan, transcript.session);
            let Some((newest, dated)) = right_answers(
                alloc,
                trail,
                &self.versions,
                transcript,
                asked,
                &self.tables,
            )?
            else {
                return Ok(false);
            };
            let count = newest.saturating_add(dated) as u64;
            self.tally.answers = self.tally.answers.saturating_add(count);
            if newest == QUERIES.len() {
                self.tally.steps = self.tally.steps.saturating_add(1);
            }
        }
        Ok(true)
    }

    /// Counts what the disk held after each step of a run. Whether that was right each time.
    fn count_images(
        &mut self,
        alloc: Global,
        before: &mut MemDisk,
        ran: &Ran<MemDisk>,
        dice: &mut Dice,
    ) -> bool {
        let (files, made) = (self.files.as_slice(), ran.disk.calls_made());
        match images_held(alloc, before, files, made, &ran.trail, &self.versions, dice) {
            Some(count) => {
                self.tally.images = self.tally.images.saturating_add(count);
                true
            }
            None => false,
        }
    }

    /// Adds what a run wrote, and what it would have written where it was stopped. Whether all that was seen of it is right.
    fn add(
        &mut self,
        alloc: Global,
        before: &mut MemDisk,
        ran: &Ran<MemDisk>,
        plan: &Plan,
        dice: &mut Dice,
    ) -> Result<(), Wrong> {
        if add_written(alloc, &ran.trail, &mut self.versions).is_err()
            || add_files(ran.disk.calls_made(), &mut self.files).is_err()
        {
            return Err(Wrong::Memory);
        }
        self.tally.open = self.tally.open.max(most_open(&ran.trail));
        match self.count_answers(alloc, &ran.trail, ran.transcripts.as_slice(), plan) {
            Ok(true) => {}
            Ok(false) => return Err(Wrong::Answer),
            Err(_) => return Err(Wrong::Memory),
        }
        if !self.count_images(alloc, before, ran, dice) {
            return Err(Wrong::Image);
        }
        settle(&mut self.versions);
        Ok(())
    }

    /// Adds the rows that the stopped step was to write, where they are there. Whether all of them are, or none.
    fn add_left(
        &mut self,
        alloc: Global,
        opened: &Opened,
        trail: &Trail,
        late: &Option<Entry>,
    ) -> Result<bool, AllocError> {
        let settled = self.versions.len();
        add_late(alloc, trail, late, &mut self.versions)?;
        let mut there: usize = 0;
        for place in settled..self.versions.len() {
            let version = self.versions[place];
            let (table, id, stamp) = (version.table, version.fields.id, version.stamp);
            if has_stamp(alloc, opened, table, id, stamp)? {
                there = there.saturating_add(1);
            }
        }
        let late = self.versions.len().saturating_sub(settled);
        if there == 0 {
            self.versions.truncate(settled);
        }
        Ok(there == 0 || there == late)
    }

    /// Whether a folder that was opened again tells all rows, as of each stamp.
    fn is_left(
        &mut self,
        alloc: Global,
        opened: &Opened,
        trail: &Trail,
        late: &Option<Entry>,
    ) -> Result<bool, AllocError> {
        if !self.add_left(alloc, opened, trail, late)? {
            return Ok(false);
        }
        for point in 1..30 {
            if !are_told(alloc, opened, &self.versions, u64::MAX, point)? {
                return Ok(false);
            }
        }
        are_told(alloc, opened, &self.versions, u64::MAX, NEWEST)
    }

    /// What a run left, opened again.
    fn left(
        &mut self,
        alloc: Global,
        disk: MemDisk,
        trail: &Trail,
        late: &Option<Entry>,
    ) -> Result<MemDisk, Wrong> {
        if has_failed(disk.calls_made()) {
            self.tally.stops = self.tally.stops.saturating_add(1);
        }
        let mut disk = disk.image();
        let is_left = match open(alloc, &mut disk) {
            Ok(opened) => {
                let is_left = self.is_left(alloc, &opened, trail, late);
                drop(opened);
                is_left
            }
            Err(_) => Ok(false),
        };
        let is_known = add_files(disk.calls_made(), &mut self.files).is_ok();
        if is_known && is_left == Ok(true) {
            return Ok(disk);
        }
        drop(disk);
        Err(Wrong::Left)
    }

    /// The disk after a run, where all that was seen of it is right.
    fn seen(
        &mut self,
        alloc: Global,
        before: &mut MemDisk,
        ran: Ran<MemDisk>,
        plan: &Plan,
        dice: &mut Dice,
    ) -> Result<MemDisk, Wrong> {
        if let Err(wrong) = self.add(alloc, before, &ran, plan, dice) {
            drop(ran);
            return Err(wrong);
        }
        let Ran {
            disk,
            trail,
            late,
            transcripts,
            printed,
            whole: _,
        } = ran;
        drop(transcripts);
        drop(printed);
        let left = self.left(alloc, disk, &trail, &late);
        drop(trail);
        drop(late);
        left
    }

    /// The disk after a stop in the opening.
    fn unopened(&mut self, disk: MemDisk) -> Result<MemDisk, Wrong> {
        if add_files(disk.calls_made(), &mut self.files).is_ok() {
            return Ok(disk);
        }
        drop(disk);
        Err(Wrong::Memory)
    }

    /// A run of a plan, which is stopped at one of so many calls behind its opening, or comes to its end.
    fn run<R: Threads + Wait + Sync>(
        &mut self,
        rt: &R,
        alloc: Global,
        dice: &mut Dice,
        disk: MemDisk,
        plan: &Plan,
        calls: u32,
    ) -> Result<MemDisk, Wrong> {
        let mut disk = disk.image();
        let Some(mut before) = copied(alloc, &mut disk, self.files.as_slice()) else {
            drop(disk);
            return Err(Wrong::Memory);
        };
        let opening = opening_calls(alloc, &mut before, self.files.as_slice());
        let call = u64::from(dice.below(calls)).saturating_add(opening.saturating_add(1));
        let stopping = disk.image().stop_at(call, choice(dice));
        let left = match run_read(rt, alloc, stopping, &plan.script, plan.schedule.as_slice()) {
            Outcome::Ran(ran) => self.seen(alloc, &mut before, ran, plan, dice),
            Outcome::Unopened(disk) => self.unopened(disk),
            Outcome::Lacked => Err(Wrong::Memory),
        };
        drop(before);
        left
    }
}

/// How many calls of a disk its opening makes. A copy is opened.
fn opening_calls(alloc: Global, disk: &mut MemDisk, files: &[u64]) -> u64 {
    let Some(mut copy) = copied(alloc, disk, files) else {
        return 0;
    };
    match open(alloc, &mut copy) {
        Ok(opened) => drop(opened),
        Err(_) => {}
    }
    let count = copy.calls_made().len() as u64;
    drop(copy);
    count
}

fn choice(dice: &mut Dice) -> Choice {
    match dice.below(4) {
        0 => Choice::Old,
        1 => Choice::New,
        2 => Choice::Fill(0),
        _ => Choice::Fill(1),
    }
}

/// The beginning of a course: what the run left that made its tables.
fn begun(alloc: Global, ran: &Ran<MemDisk>, tally: Tally) -> Result<Course, AllocError> {
    let mut files = Vec::new(alloc);
    add_files(ran.disk.calls_made(), &mut files)?;
    let tables = tables_made(alloc, &ran.trail)?;
    Ok(Course {
        versions: Vec::new(alloc),
        tables,
        files,
        tally,
    })
}

/// The three tables with their indexes, on a new disk.
fn set_up<R: Threads + Wait + Sync>(
    rt: &R,
    alloc: Global,
    tally: Tally,
) -> Result<(MemDisk, Course), Wrong> {
    let Some(ran) = run(rt, alloc, MemDisk::new(alloc), SET_UP, &[]).ran() else {
        return Err(Wrong::SetUp);
    };
    let course = begun(alloc, &ran, tally);
    let disk = disk_of(ran);
    match course {
        Ok(course) => Ok((disk, course)),
        Err(_) => {
            drop(disk);
            Err(Wrong::Memory)
        }
    }
}

/// So many runs of so many steps on one disk.
#[derive(Clone, Copy)]
pub struct Making {
    pub runs: u32,
    pub steps: u32,
    pub calls: u32,
}

/// The disk after all runs.
fn all_run<R: Threads + Wait + Sync>(
    rt: &R,
    alloc: Global,
    dice: &mut Dice,
    making: Making,
    disk: MemDisk,
    course: &mut Course,
) -> Result<MemDisk, Wrong> {
    let mut disk = disk;
    for _ in 0..making.runs {
        let Ok(plan) = planned(alloc, dice, making.steps) else {
            drop(disk);
            return Err(Wrong::Memory);
        };
        let left = course.run(rt, alloc, dice, disk, &plan, making.calls);
        drop(plan);
        disk = left?;
    }
    Ok(disk)
}

/// What was done in a course and those before it, where all came out right.
pub fn watched<R: Threads + Wait + Sync>(
    rt: &R,
    alloc: Global,
    dice: &mut Dice,
    making: Making,
    tally: Tally,
) -> Result<Tally, Wrong> {
    let (disk, mut course) = set_up(rt, alloc, tally)?;
    let left = all_run(rt, alloc, dice, making, disk, &mut course);
    let tally = course.tally;
    drop(course);
    match left {
        Ok(disk) => {
            drop(disk);
            Ok(tally)
        }
        Err(wrong) => Err(wrong),
    }
}
