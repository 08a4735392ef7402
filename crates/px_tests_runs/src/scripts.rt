// Random scripts, and lists of whose step is next.
use crate::dice::Dice;
use crate::queries::{QUERIES, TEXTS};
use std::alloc::{AllocError, Global};

/// Three tables, with four indexes, two and one, all of the same columns.
pub const SET_UP: &str = "CREATE TABLE T (ID BIGINT NOT NULL PRIMARY KEY, A VARCHAR, B INTEGER);
CREATE TABLE U (ID BIGINT NOT NULL PRIMARY KEY, A VARCHAR, B INTEGER);
CREATE TABLE V (ID BIGINT NOT NULL PRIMARY KEY, A VARCHAR, B INTEGER);
CREATE INDEX T_A ON T (A) INCLUDE (B);
CREATE INDEX T_B ON T (B DESC) INCLUDE (A);
CREATE INDEX T_AB ON T (A, B);
CREATE INDEX T_BA ON T (B, A DESC);
CREATE INDEX U_A ON U (A) INCLUDE (B);
CREATE INDEX U_BA ON U (B, A DESC);
CREATE INDEX V_B ON V (B DESC) INCLUDE (A);
";

const TABLES: [&str; 3] = ["T", "U", "V"];

const SESSIONS: [&str; 8] = ["@1 ", "@2 ", "@3 ", "@4 ", "@5 ", "@6 ", "@7 ", "@8 "];

const IDS: [&str; 4] = ["1", "2", "3", "4"];

const LETTERS: [&str; 4] = ["NULL", "'a'", "'b'", "'c'"];

const NUMBERS: [&str; 4] = ["NULL", "1", "2", "3"];

/// Statements, in which `~` stands for a table, `#` for a key, `$` for a letter and `%` for a number.
const STATEMENTS: [&str; 10] = [
    "UPSERT INTO ~ VALUES (#, $, %);\n",
    "UPSERT INTO ~ VALUES (#, $, %);\n",
    "UPSERT INTO ~ VALUES (#, $, %);\n",
    "UPSERT INTO ~ (ID, A) VALUES (#, $);\n",
    "UPSERT INTO ~ (ID, A) VALUES (#, $);\n",
    "UPSERT INTO ~ (ID, B) VALUES (#, %);\n",
    "DELETE FROM ~ WHERE ID = #;\n",
    "DELETE FROM ~ WHERE A >= 'b';\n",
    "SELECT ID, A, B FROM ~ WHERE A > 'a';\n",
    "SELECT ID FROM ~ WHERE B < 3;\n",
];

/// One of some words.
fn word(dice: &mut Dice, words: &[&'static str]) -> &'static str {
    match words.get(dice.place(words.len())) {
        Some(word) => *word,
        None => "",
    }
}

/// The beginning of a session's line.
fn line_of(session: u32) -> &'static str {
    match SESSIONS.get(session.saturating_sub(1) as usize) {
        Some(line) => *line,
        None => "",
    }
}

/// Adds a letter of a statement, or what it stands for.
fn add_letter(script: &mut String, dice: &mut Dice, letter: char) -> Result<(), AllocError> {
    match letter {
        '~' => script.push_str(word(dice, &TABLES)),
        '#' => script.push_str(word(dice, &IDS)),
        '$' => script.push_str(word(dice, &LETTERS)),
        '%' => script.push_str(word(dice, &NUMBERS)),
        _ => script.push(letter),
    }
}

/// Adds a random statement of a session.
pub fn add_statement(script: &mut String, dice: &mut Dice, line: &str) -> Result<(), AllocError> {
    script.push_str(line)?;
    for letter in word(dice, &STATEMENTS).chars() {
        add_letter(script, dice, letter)?;
    }
    Ok(())
}

/// Adds statements of so many sessions.
pub fn add_changes(
    script: &mut String,
    dice: &mut Dice,
    sessions: u32,
    each: u32,
) -> Result<(), AllocError> {
    for place in 0..sessions.saturating_mul(each) {
        add_statement(
            script,
            dice,
            line_of((place % sessions.max(1)).saturating_add(1)),
        )?;
    }
    Ok(())
}

/// Adds a command that sets an SCN.
pub fn add_scn(script: &mut String, scn: u64) -> Result<(), AllocError> {
    let mut digits = itoa::Buffer::new();
    script.push_str("!scn ")?;
    script.push_str(digits.format(scn))?;
    script.push_str("\n")
}

/// Adds an SCN or none.
fn add_random_scn(script: &mut String, dice: &mut Dice) -> Result<(), AllocError> {
    if dice.below(3) == 0 {
        return add_scn(script, u64::from(dice.below(30)).saturating_add(2));
    }
    script.push_str("!scn off\n")
}

/// Adds a query behind an SCN or none.
fn add_look(
    script: &mut String,
    dice: &mut Dice,
    line: &str,
    query: usize,
) -> Result<(), AllocError> {
    script.push_str(line)?;
    add_random_scn(script, dice)?;
    script.push_str(line)?;
    script.push_str(TEXTS.lines().nth(query).unwrap_or(""))?;
    script.push_str("\n")
}

/// What is run next: the text of the sessions, whose steps are next, and which queries the session behind them asks.
#[derive(Drop)]
pub struct Planned {
    pub text: String,
    pub schedule: Vec<u32>,
    pub looker: u32,
    pub asked: Vec<usize>,
}

impl Planned {
    /// Nothing to run.
    pub fn new(alloc: Global, looker: u32) -> Planned {
        Planned {
            text: String::new(alloc),
            schedule: Vec::new(alloc),
            looker,
            asked: Vec::new(alloc),
        }
    }

    /// Adds random queries of the session behind the others.
    fn add_looks(&mut self, dice: &mut Dice, count: u32) -> Result<(), AllocError> {
        let line = line_of(self.looker);
        for _ in 0..count {
            let query = dice.place(QUERIES.len());
            add_look(&mut self.text, dice, line, query)?;
            self.asked.push(query)?;
        }
        Ok(())
    }

    /// Adds whose steps are next: those of the others at random, and now and then some of the session behind them.
    fn add_steps(&mut self, dice: &mut Dice, count: u32) -> Result<(), AllocError> {
        let mut looks: u32 = 0;
        for _ in 0..count {
            if looks == 0 {
                let others = self.looker.saturating_sub(1);
                self.schedule.push(dice.below(others).saturating_add(1))?;
                looks = if dice.below(3) == 0 { 12 } else { 0 };
            } else {
                self.schedule.push(self.looker)?;
                looks = looks.saturating_sub(1);
            }
        }
        Ok(())
    }

    /// Adds statements of the sessions, so many of each, and queries of the one behind them.
    pub fn fill(&mut self, dice: &mut Dice, each: u32) -> Result<(), AllocError> {
        let sessions = self.looker.saturating_sub(1);
        let steps = sessions.saturating_mul(each).saturating_mul(10);
        add_changes(&mut self.text, dice, sessions, each)?;
        self.add_looks(dice, steps / 3)?;
        self.add_steps(dice, steps.saturating_mul(5))
    }
}
