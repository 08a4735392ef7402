// What is run: six sessions whose steps come at random, and behind each step a session of its own that asks for all rows by each path.
use px_script::{Script, SessionText};
use px_tests_runs::dice::Dice;
use px_tests_runs::queries::{QUERIES, TEXTS};
use px_tests_runs::scripts::{add_scn, add_statement};
use px_values::{Items, Text};
use std::alloc::{AllocError, Global};

/// The sessions that change rows.
pub const SESSIONS: u32 = 6;

/// How many queries as of an earlier stamp stand behind those of the newest rows.
pub const DATED: usize = 3;

/// More calls than a session needs that asks for all rows.
const CALLS: u32 = 200;

/// The texts of all sessions, whose steps are next, and which queries each session that asks puts as of an earlier stamp.
#[derive(Drop)]
pub struct Plan {
    pub script: Script,
    pub schedule: Vec<u32>,
    pub asked: Vec<usize>,
}

/// Statements of a session.
fn changes(alloc: Global, dice: &mut Dice, count: u32) -> Result<String, AllocError> {
    let mut text = String::new(alloc);
    for _ in 0..count {
        add_statement(&mut text, dice, "")?;
    }
    Ok(text)
}

/// Adds a query of all of them.
fn add_query(text: &mut String, query: usize) -> Result<(), AllocError> {
    text.push_str(TEXTS.lines().nth(query).unwrap_or(""))?;
    text.push_str("\n")
}

/// All queries, and some as of an earlier stamp.
fn looks(alloc: Global, dice: &mut Dice, asked: &mut Vec<usize>) -> Result<String, AllocError> {
    let mut text = String::from_str(alloc, TEXTS)?;
    add_scn(&mut text, u64::from(dice.below(20)).saturating_add(2))?;
    for _ in 0..DATED {
        let query = dice.place(QUERIES.len());
        add_query(&mut text, query)?;
        asked.push(query)?;
    }
    Ok(text)
}

/// Adds a random step, and behind it all those of the session that asks then.
fn add_step(schedule: &mut Vec<u32>, dice: &mut Dice, asking: u32) -> Result<(), AllocError> {
    schedule.push(dice.below(SESSIONS).saturating_add(1))?;
    for _ in 0..CALLS {
        schedule.push(asking)?;
    }
    Ok(())
}

/// Adds the texts of the sessions that change rows.
fn add_changes(
    alloc: Global,
    dice: &mut Dice,
    steps: u32,
    texts: &mut Vec<SessionText>,
) -> Result<(), AllocError> {
    for place in 0..SESSIONS {
        let text = changes(alloc, dice, steps / 20)?;
        texts.push(SessionText {
            session: place.saturating_add(1),
            text: Text::of(text),
        })?;
    }
    Ok(())
}

/// Adds so many random steps, and the texts of the sessions that ask behind them.
fn add_looks(
    alloc: Global,
    dice: &mut Dice,
    steps: u32,
    texts: &mut Vec<SessionText>,
    schedule: &mut Vec<u32>,
    asked: &mut Vec<usize>,
) -> Result<(), AllocError> {
    for step in 0..steps {
        let session = step.saturating_add(SESSIONS).saturating_add(1);
        let text = looks(alloc, dice, asked)?;
        texts.push(SessionText {
            session,
            text: Text::of(text),
        })?;
        add_step(schedule, dice, session)?;
    }
    Ok(())
}

/// A script of one round.
fn one_round(alloc: Global, texts: Vec<SessionText>) -> Result<Script, AllocError> {
    let mut rounds = Vec::new(alloc);
    match rounds.push(Items::of(texts)) {
        Ok(()) => Ok(Items::of(rounds)),
        Err(failed) => {
            drop(failed);
            drop(rounds);
            Err(AllocError)
        }
    }
}

/// The texts of all sessions. Fills whose steps are next, and what is asked as of an earlier stamp.
fn filled(
    alloc: Global,
    dice: &mut Dice,
    steps: u32,
    schedule: &mut Vec<u32>,
    asked: &mut Vec<usize>,
) -> Result<Script, AllocError> {
    let mut texts = Vec::new(alloc);
    let done = match add_changes(alloc, dice, steps, &mut texts) {
        Ok(()) => add_looks(alloc, dice, steps, &mut texts, schedule, asked),
        Err(failed) => Err(failed),
    };
    match done {
        Ok(()) => one_round(alloc, texts),
        Err(failed) => {
            drop(texts);
            Err(failed)
        }
    }
}

/// A plan of so many steps.
pub fn planned(alloc: Global, dice: &mut Dice, steps: u32) -> Result<Plan, AllocError> {
    let (mut schedule, mut asked) = (Vec::new(alloc), Vec::new(alloc));
    match filled(alloc, dice, steps, &mut schedule, &mut asked) {
        Ok(script) => Ok(Plan {
            script,
            schedule,
            asked,
        }),
        Err(failed) => {
            drop(schedule);
            drop(asked);
            Err(failed)
        }
    }
}
