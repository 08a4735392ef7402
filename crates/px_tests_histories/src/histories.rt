// Whole histories: runs of sessions on one disk, each stopped somewhere, and then each query as of each stamp.
use crate::told::{Tally, Told};
use px_outside::{Choice, MemDisk};
use px_tests_runs::answers::{are_right, are_rows};
use px_tests_runs::dice::Dice;
use px_tests_runs::doubts::doubts;
use px_tests_runs::model::tables_made;
use px_tests_runs::queries::TEXTS;
use px_tests_runs::runs::{Outcome, disk_of, run};
use px_tests_runs::scripts::{Planned, SET_UP, add_changes, add_scn};
use px_trail::Trail;
use std::alloc::{AllocError, Global};
use std::sync::Wait;
use std::thread::Threads;

/// What was wrong in a history.
#[derive(Clone, Copy, Debug, PartialEq, Eq)]
pub enum Wrong {
    SetUp,
    /// An answer while others acted.
    Answer,
    /// The folder isn't opened.
    Folder,
    /// An answer as of a stamp.
    Dated,
    /// A doubt is left.
    Doubt,
    Memory,
}

/// What is told of the tables of a new disk.
fn fresh(alloc: Global, trail: &Trail, tally: Tally) -> Result<Told, Wrong> {
    let Ok(tables) = tables_made(alloc, trail) else {
        return Err(Wrong::Memory);
    };
    Ok(Told {
        versions: Vec::new(alloc),
        settled: 0,
        tables,
        last: 4,
        tally,
    })
}

/// The three tables with their indexes, on a new disk.
fn set_up<R: Threads + Wait + Sync>(
    rt: &R,
    alloc: Global,
    tally: Tally,
) -> Result<(MemDisk, Told), Wrong> {
    let Some(ran) = run(rt, alloc, MemDisk::new(alloc), SET_UP, &[]).ran() else {
        return Err(Wrong::SetUp);
    };
    let told = fresh(alloc, &ran.trail, tally);
    let disk = disk_of(ran);
    match told {
        Ok(told) => Ok((disk, told)),
        Err(wrong) => {
            drop(disk);
            Err(wrong)
        }
    }
}

fn choice(dice: &mut Dice) -> Choice {
    match dice.below(5) {
        0 => Choice::Old,
        1 => Choice::New,
        2 => Choice::Fill(0),
        3 => Choice::Fill(1),
        _ => Choice::Fill(255),
    }
}

/// The rows of each table by the table alone, which repairs nothing.
const TABLE_ROWS: &str = "SELECT /*+ NO_INDEX */ ID, A, B FROM T;
SELECT /*+ NO_INDEX */ ID, A, B FROM U;
SELECT /*+ NO_INDEX */ ID, A, B FROM V;
";

/// The disk after a run, and whether its answers are those as of each stamp to the last one, or of the newest rows where none is named.
fn judged(
    alloc: Global,
    outcome: Outcome,
    told: &Told,
    last: Option<u64>,
) -> Result<(MemDisk, bool), Wrong> {
    match outcome {
        Outcome::Ran(ran) => {
            let all = ran.transcripts.as_slice();
            let is_right = match last {
                Some(last) => are_right(alloc, &told.versions, all, last, &told.tables),
                None => are_rows(alloc, &told.versions, all, &told.tables),
            };
            let disk = disk_of(ran);
            match is_right {
                Ok(is_right) => Ok((disk, is_right)),
                Err(_) => {
                    drop(disk);
                    Err(Wrong::Memory)
                }
            }
        }
        Outcome::Unopened(disk) => {
            drop(disk);
            Err(Wrong::Folder)
        }
        Outcome::Lacked => Err(Wrong::Memory),
    }
}

/// Leaves of the last versions, which a stopped step was to write, what is there: all or none of them.
fn decided<R: Threads + Wait + Sync>(
    rt: &R,
    alloc: Global,
    disk: MemDisk,
    told: &mut Told,
) -> Result<MemDisk, Wrong> {
    if told.versions.len() == told.settled {
        return Ok(disk);
    }
    let outcome = run(rt, alloc, disk.image(), TABLE_ROWS, &[]);
    let (disk, is_written) = judged(alloc, outcome, told, None)?;
    if !is_written {
        told.versions.truncate(told.settled);
    }
    told.settled = told.versions.len();
    Ok(disk)
}

/// The disk after a run of what was planned, where each answer was right.
fn told_of(
    alloc: Global,
    outcome: Outcome,
    told: &mut Told,
    planned: &Planned,
) -> Result<MemDisk, Wrong> {
    match outcome {
        Outcome::Ran(ran) => {
            let all = ran.transcripts.as_slice();
            let (looker, asked) = (planned.looker, planned.asked.as_slice());
            let added = told.add(alloc, &ran.trail, &ran.late, all, looker, asked);
            let disk = disk_of(ran);
            match added {
                Ok(true) => Ok(disk),
                Ok(false) => {
                    drop(disk);
                    Err(Wrong::Answer)
                }
                Err(_) => {
                    drop(disk);
                    Err(Wrong::Memory)
                }
            }
        }
        Outcome::Unopened(disk) => Ok(disk),
        Outcome::Lacked => Err(Wrong::Memory),
    }
}

/// A run of sessions, which is stopped somewhere or comes to its end.
fn lived<R: Threads + Wait + Sync>(
    rt: &R,
    alloc: Global,
    dice: &mut Dice,
    making: Making,
    disk: MemDisk,
    told: &mut Told,
) -> Result<MemDisk, Wrong> {
    let call = u64::from(making.from.saturating_add(dice.below(making.calls)));
    let disk = disk.image().stop_at(call, choice(dice));
    let mut planned = Planned::new(alloc, making.sessions.saturating_add(1));
    if planned.fill(dice, making.each).is_err() {
        drop(planned);
        drop(disk);
        return Err(Wrong::Memory);
    }
    let outcome = run(rt, alloc, disk, &planned.text, &planned.schedule);
    let left = told_of(alloc, outcome, told, &planned);
    drop(planned);
    match left {
        Ok(disk) => decided(rt, alloc, disk, told),
        Err(wrong) => Err(wrong),
    }
}

/// Adds all queries as of an SCN, or without one behind the last.
fn add_list(text: &mut String, below: u64, last: u64) -> Result<(), AllocError> {
    if below > last {
        text.push_str("!scn off\n")?;
    } else {
        add_scn(text, below)?;
    }
    text.push_str(TEXTS)
}

/// Adds all queries as of each SCN to the last one, and then without one.
fn add_lists(text: &mut String, last: u64) -> Result<(), AllocError> {
    for below in 1..last.saturating_add(2) {
        add_list(text, below, last)?;
    }
    Ok(())
}

/// How many doubts a folder has.
fn doubts_of(alloc: Global, disk: &mut MemDisk) -> Result<u64, Wrong> {
    match doubts(alloc, disk) {
        Some(count) => Ok(count as u64),
        None => Err(Wrong::Folder),
    }
}

/// The disk after all queries, where each was answered by the dated rows.
fn queried<R: Threads + Wait + Sync>(
    rt: &R,
    alloc: Global,
    disk: MemDisk,
    told: &Told,
) -> Result<MemDisk, Wrong> {
    let mut text = String::new(alloc);
    if add_lists(&mut text, told.last).is_err() {
        drop(text);
        drop(disk);
        return Err(Wrong::Memory);
    }
    let outcome = run(rt, alloc, disk.image(), &text, &[]);
    drop(text);
    let (disk, is_right) = judged(alloc, outcome, told, Some(told.last))?;
    if is_right {
        return Ok(disk);
    }
    drop(disk);
    Err(Wrong::Dated)
}

/// How many doubts the last queries met. Each is answered by the dated rows, and no doubt is left then.
fn ended<R: Threads + Wait + Sync>(
    rt: &R,
    alloc: Global,
    disk: MemDisk,
    told: &Told,
) -> Result<u64, Wrong> {
    let mut disk = disk.image();
    let met = doubts_of(alloc, &mut disk);
    let mut disk = queried(rt, alloc, disk, told)?;
    let left = doubts_of(alloc, &mut disk);
    drop(disk);
    match left {
        Ok(0) => met,
        Ok(_) => Err(Wrong::Doubt),
        Err(wrong) => Err(wrong),
    }
}

/// How a history is made: how many sessions there are, how many statements each has in a run, from which call of the disk on a run is stopped and within
/// how many, and how many runs there are at most.
#[derive(Clone, Copy)]
pub struct Making {
    pub sessions: u32,
    pub each: u32,
    pub from: u32,
    pub calls: u32,
    pub runs: u32,
}

/// The disk after the runs of a history.
fn all_lived<R: Threads + Wait + Sync>(
    rt: &R,
    alloc: Global,
    dice: &mut Dice,
    making: Making,
    disk: MemDisk,
    told: &mut Told,
) -> Result<MemDisk, Wrong> {
    let mut disk = disk;
    for _ in 0..dice.below(making.runs).saturating_add(1) {
        disk = lived(rt, alloc, dice, making, disk, told)?;
    }
    Ok(disk)
}

/// What was done in a history and those before it, where all came out right.
pub fn history<R: Threads + Wait + Sync>(
    rt: &R,
    alloc: Global,
    dice: &mut Dice,
    making: Making,
    tally: Tally,
) -> Result<Tally, Wrong> {
    let (disk, mut told) = set_up(rt, alloc, tally)?;
    let met = match all_lived(rt, alloc, dice, making, disk, &mut told) {
        Ok(disk) => ended(rt, alloc, disk, &told),
        Err(wrong) => Err(wrong),
    };
    let tally = told.tally;
    drop(told);
    match met {
        Ok(met) => Ok(Tally {
            doubts: tally.doubts.saturating_add(met),
            ..tally
        }),
        Err(wrong) => Err(wrong),
    }
}

/// How many doubts a seat leaves beside which nobody acts.
pub fn alone<R: Threads + Wait + Sync>(
    rt: &R,
    alloc: Global,
    dice: &mut Dice,
) -> Result<u64, Wrong> {
    let mut text = String::new(alloc);
    if text.push_str(SET_UP).is_err() || add_changes(&mut text, dice, 1, 12).is_err() {
        return Err(Wrong::Memory);
    }
    match run(rt, alloc, MemDisk::new(alloc), &text, &[]) {
        Outcome::Ran(ran) => {
            let mut disk = disk_of(ran);
            let left = doubts_of(alloc, &mut disk);
            drop(disk);
            left
        }
        Outcome::Unopened(disk) => {
            drop(disk);
            Err(Wrong::Folder)
        }
        Outcome::Lacked => Err(Wrong::Memory),
    }
}
