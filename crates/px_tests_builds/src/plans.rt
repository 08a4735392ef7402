// What is run next: the texts of all sessions, and whose steps are next.
use crate::asked::{By, text_of};
use px_script::{Script, SessionText};
use px_tests_runs::dice::Dice;
use px_tests_runs::scripts::add_scn;
use px_values::{Items, Text};
use std::alloc::{AllocError, Global};

/// The sessions that write.
const WRITERS: u32 = 3;

/// The session that flushes.
pub const FLUSHER: u32 = 6;

/// The session that asks.
pub const LOOKER: u32 = 7;

/// Whose step may be next, each as often as is likely. Two sessions make and change an index each.
const TURNS: [u32; 17] = [1, 1, 2, 2, 3, 3, 4, 4, 5, 5, 6, 6, 6, 6, 6, 7, 7];

const LETTERS: [&str; 8] = ["NULL", "'a'", "'b'", "'c'", "'d'", "'e'", "'f'", "'g'"];

/// One call beside which its session has nothing open.
const PAUSE: &str = "SELECT ID FROM NOWHERE;\n";

/// One batch of several rows.
const TWO: &str = "!autocommit off
UPSERT INTO T VALUES (#, $, %);
UPSERT INTO T VALUES (#, $, %);
!autocommit on
";

const FOUR: &str = "!autocommit off
UPSERT INTO T VALUES (#, $, %);
UPSERT INTO T (ID, A) VALUES (#, $);
DELETE FROM T WHERE ID = #;
UPSERT INTO T VALUES (#, $, %);
!autocommit on
";

const FIVE: &str = "!autocommit off
UPSERT INTO T (ID, B) VALUES (#, %);
UPSERT INTO T VALUES (#, $, %);
UPSERT INTO T VALUES (#, $, %);
UPSERT INTO T (ID, A) VALUES (#, $);
UPSERT INTO T VALUES (#, $, %);
!autocommit on
";

/// Statements of writers, in which `#` stands for a key, `$` for a letter and `%` for a number.
const CHANGES: [&str; 14] = [
    PAUSE,
    PAUSE,
    PAUSE,
    "UPSERT INTO T VALUES (#, $, %);\n",
    "UPSERT INTO T VALUES (#, $, %);\n",
    "UPSERT INTO T VALUES (#, $, %);\n",
    "UPSERT INTO T (ID, A) VALUES (#, $);\n",
    "UPSERT INTO T (ID, B) VALUES (#, %);\n",
    "DELETE FROM T WHERE ID = #;\n",
    "DELETE FROM T WHERE ID IN (#, #, #);\n",
    "DELETE FROM T WHERE A = $ AND B = %;\n",
    TWO,
    FOUR,
    FIVE,
];

/// The first statement on the first index, and on the second.
const MADE: [&str; 2] = [
    "CREATE INDEX IF NOT EXISTS T_A ON T (A) INCLUDE (B);\n",
    "CREATE INDEX IF NOT EXISTS T_B ON T (B DESC);\n",
];

/// Statements on the first index, and on the second.
const FIRST: [&str; 8] = [
    "CREATE INDEX IF NOT EXISTS T_A ON T (A) INCLUDE (B);\n",
    "ALTER INDEX T_A ON T REBUILD;\n",
    "ALTER INDEX T_A ON T REBUILD;\n",
    "ALTER INDEX T_A ON T REBUILD;\n",
    "ALTER INDEX T_A ON T REBUILD;\n",
    "ALTER INDEX T_A ON T DISABLE;\n",
    "ALTER INDEX T_A ON T DISABLE;\n",
    "DROP INDEX IF EXISTS T_A ON T;\n",
];

const SECOND: [&str; 8] = [
    "CREATE INDEX IF NOT EXISTS T_B ON T (B DESC);\n",
    "ALTER INDEX T_B ON T REBUILD;\n",
    "ALTER INDEX T_B ON T REBUILD;\n",
    "ALTER INDEX T_B ON T REBUILD;\n",
    "ALTER INDEX T_B ON T REBUILD;\n",
    "ALTER INDEX T_B ON T DISABLE;\n",
    "ALTER INDEX T_B ON T DISABLE;\n",
    "DROP INDEX IF EXISTS T_B ON T;\n",
];

/// Before each flush the session writes rows, so that each makes a file, and four of these are merged.
const FLUSHES: [&str; 2] = [
    "UPSERT INTO T VALUES (#, $, %);\n!flush\n",
    "DELETE FROM T WHERE ID IN (#, #);\n!flush\n",
];

/// The texts of all sessions, whose steps are next, and by which paths the session asks that only reads.
#[derive(Drop)]
pub struct Plan {
    pub script: Script,
    pub schedule: Vec<u32>,
    pub asked: Vec<By>,
}

/// One of some words.
fn word(dice: &mut Dice, words: &[&'static str]) -> &'static str {
    match words.get(dice.place(words.len())) {
        Some(word) => *word,
        None => "",
    }
}

/// Adds a number from 1 to another.
fn add_number(text: &mut String, dice: &mut Dice, most: u32) -> Result<(), AllocError> {
    let mut digits = itoa::Buffer::new();
    text.push_str(digits.format(dice.below(most).saturating_add(1)))
}

/// Adds a letter of a statement, or what it stands for.
fn add_letter(
    text: &mut String,
    dice: &mut Dice,
    keys: u32,
    letter: char,
) -> Result<(), AllocError> {
    match letter {
        '#' => add_number(text, dice, keys),
        '$' => text.push_str(word(dice, &LETTERS)),
        '%' => add_number(text, dice, 9),
        _ => text.push(letter),
    }
}

fn add_statement(
    text: &mut String,
    dice: &mut Dice,
    keys: u32,
    statement: &str,
) -> Result<(), AllocError> {
    for letter in statement.chars() {
        add_letter(text, dice, keys, letter)?;
    }
    Ok(())
}

/// Adds rows of the first so many keys.
fn add_rows(text: &mut String, dice: &mut Dice, rows: u32) -> Result<(), AllocError> {
    for row in 0..rows {
        let mut digits = itoa::Buffer::new();
        text.push_str("UPSERT INTO T VALUES (")?;
        text.push_str(digits.format(row.saturating_add(1)))?;
        add_statement(text, dice, rows, ", $, %);\n")?;
    }
    text.push_str("!commit\n!flush\n")
}

/// The text that makes a table with rows of the first so many keys.
pub fn set_up(alloc: Global, dice: &mut Dice, rows: u32) -> Result<String, AllocError> {
    let mut text = String::from_str(
        alloc,
        "CREATE TABLE T (ID BIGINT NOT NULL PRIMARY KEY, A VARCHAR, B INTEGER);\n!autocommit off\n",
    )?;
    match add_rows(&mut text, dice, rows) {
        Ok(()) => Ok(text),
        Err(failed) => {
            drop(text);
            Err(failed)
        }
    }
}

/// So many of some statements.
fn statements(
    alloc: Global,
    dice: &mut Dice,
    keys: u32,
    words: &[&'static str],
    count: u32,
) -> Result<String, AllocError> {
    let mut text = String::new(alloc);
    for _ in 0..count {
        let statement = word(dice, words);
        add_statement(&mut text, dice, keys, statement)?;
    }
    Ok(text)
}

/// The statements of a session on an index: it is made, if it isn't there, and then changed.
fn definitions(
    alloc: Global,
    dice: &mut Dice,
    first: &str,
    words: &[&'static str],
) -> Result<String, AllocError> {
    let mut text = String::from_str(alloc, first)?;
    let rest = statements(alloc, dice, 0, words, 4)?;
    text.push_str(rest.as_str())?;
    Ok(text)
}

/// Adds an SCN up to some stamps behind the last one, or none.
fn add_random_scn(text: &mut String, dice: &mut Dice, last: u64) -> Result<(), AllocError> {
    if dice.below(3) == 0 {
        return text.push_str("!scn off\n");
    }
    let back = u64::from(dice.below(24));
    add_scn(text, last.saturating_add(18).saturating_sub(back).max(1))
}

/// Queries, each behind an SCN or none.
fn looks(
    alloc: Global,
    dice: &mut Dice,
    last: u64,
    asked: &mut Vec<By>,
    count: u32,
) -> Result<String, AllocError> {
    let mut text = String::new(alloc);
    for _ in 0..count {
        add_random_scn(&mut text, dice, last)?;
        let by = if dice.below(2) == 0 {
            By::Letter
        } else {
            By::Number
        };
        text.push_str(text_of(by))?;
        asked.push(by)?;
    }
    Ok(text)
}

/// How many steps a session makes in a row: now and then a statement's, so that nothing is open behind it, or a query's, so that nobody acts beside it.
fn streak(dice: &mut Dice, session: u32) -> u32 {
    match (session, dice.below(8)) {
        (LOOKER, 0..=2) => 30,
        (FLUSHER, 0) => 12,
        (1..=3, 0) => 9,
        (4..=5, 0) => 4,
        _ => 1,
    }
}

fn add_streak(schedule: &mut Vec<u32>, session: u32, count: u32) -> Result<(), AllocError> {
    for _ in 0..count {
        schedule.push(session)?;
    }
    Ok(())
}

/// Random steps. In half of the runs an index is made or changed before the others begin.
fn turns(alloc: Global, dice: &mut Dice, count: u32) -> Result<Vec<u32>, AllocError> {
    let mut schedule = Vec::new(alloc);
    let first = dice.below(4);
    if first < 2 {
        add_streak(&mut schedule, first + 4, 3)?;
    }
    for _ in 0..count {
        let session = match TURNS.get(dice.place(TURNS.len())) {
            Some(session) => *session,
            None => 0,
        };
        let steps = streak(dice, session);
        add_streak(&mut schedule, session, steps)?;
    }
    Ok(schedule)
}

fn add_session(texts: &mut Vec<SessionText>, session: u32, text: String) -> Result<(), AllocError> {
    texts.push(SessionText {
        session,
        text: Text::of(text),
    })?;
    Ok(())
}

/// Adds the texts of the sessions that write.
fn add_writers(
    texts: &mut Vec<SessionText>,
    alloc: Global,
    dice: &mut Dice,
    keys: u32,
) -> Result<(), AllocError> {
    for place in 0..WRITERS {
        let count = dice.below(6).saturating_add(4);
        let text = statements(alloc, dice, keys, &CHANGES, count)?;
        add_session(texts, place.saturating_add(1), text)?;
    }
    Ok(())
}

/// Adds the texts of the sessions that change rows, indexes and files.
fn add_changes(
    texts: &mut Vec<SessionText>,
    alloc: Global,
    dice: &mut Dice,
    keys: u32,
) -> Result<(), AllocError> {
    add_writers(texts, alloc, dice, keys)?;
    let first = definitions(alloc, dice, MADE[0], &FIRST)?;
    add_session(texts, 4, first)?;
    let second = definitions(alloc, dice, MADE[1], &SECOND)?;
    add_session(texts, 5, second)?;
    let flushes = statements(alloc, dice, keys, &FLUSHES, 5)?;
    add_session(texts, FLUSHER, flushes)
}

/// Adds the texts of all sessions, and by which paths the one asks that only reads.
fn add_all(
    texts: &mut Vec<SessionText>,
    alloc: Global,
    dice: &mut Dice,
    keys: u32,
    last: u64,
    asked: &mut Vec<By>,
) -> Result<(), AllocError> {
    add_changes(texts, alloc, dice, keys)?;
    let text = looks(alloc, dice, last, asked, 6)?;
    add_session(texts, LOOKER, text)
}

/// A script of one round.
fn one_round(alloc: Global, texts: Vec<SessionText>) -> Result<Script, AllocError> {
    let mut rounds = Vec::new(alloc);
    match rounds.push(Items::of(texts)) {
        Ok(()) => Ok(Items::of(rounds)),
        Err(failed) => {
            drop(failed);
            drop(rounds);
            Err(AllocError)
        }
    }
}

/// The texts of all sessions. Fills by which paths the one asks that only reads.
fn script_of(
    alloc: Global,
    dice: &mut Dice,
    keys: u32,
    last: u64,
    asked: &mut Vec<By>,
) -> Result<Script, AllocError> {
    let mut texts = Vec::new(alloc);
    match add_all(&mut texts, alloc, dice, keys, last, asked) {
        Ok(()) => one_round(alloc, texts),
        Err(failed) => {
            drop(texts);
            Err(failed)
        }
    }
}

/// A plan of so many turns, for rows of so many keys and stamps behind the last one.
pub fn planned(
    alloc: Global,
    dice: &mut Dice,
    keys: u32,
    last: u64,
    count: u32,
) -> Result<Plan, AllocError> {
    let mut asked = Vec::new(alloc);
    let script = match script_of(alloc, dice, keys, last, &mut asked) {
        Ok(script) => script,
        Err(failed) => {
            drop(asked);
            return Err(failed);
        }
    };
    match turns(alloc, dice, count) {
        Ok(schedule) => Ok(Plan {
            script,
            schedule,
            asked,
        }),
        Err(failed) => {
            drop(script);
            drop(asked);
            Err(failed)
        }
    }
}
