// What is asked of a folder behind a run: the rows by both indexes as of their births and stamps behind them, and newest; and once they are built again.
use crate::asked::{Ask, By, exact_answers, is_exact, text_of};
use crate::stands::{Stand, Stands};
use px_reply::{Reply, Transcript};
use px_tables::IndexState;
use px_tests_runs::dice::Dice;
use px_tests_runs::model::{Version, as_of};
use px_tests_runs::queries::Order;
use px_tests_runs::scripts::add_scn;
use std::alloc::{AllocError, Global};

/// The text of a session by itself, and what it asks.
#[derive(Drop)]
pub struct Check {
    pub text: String,
    pub asked: Vec<Option<Ask>>,
    stands: Stands,
}

/// An index as it stands once it is built again.
fn built(stand: Option<Stand>) -> Option<Stand> {
    match stand {
        Some(old) => Some(Stand {
            state: IndexState::Active,
            birth: 0,
            ..old
        }),
        None => None,
    }
}

fn birth_of(stand: Option<Stand>) -> u64 {
    match stand {
        Some(stand) => stand.birth,
        None => 0,
    }
}

impl Check {
    fn add_query(&mut self, by: By, below: u64) -> Result<(), AllocError> {
        self.text.push_str(text_of(by))?;
        self.asked.push(Some(Ask {
            by,
            below,
            stands: self.stands,
        }))?;
        Ok(())
    }

    fn add_command(&mut self, text: &str) -> Result<(), AllocError> {
        self.text.push_str(text)?;
        self.asked.push(None)?;
        Ok(())
    }

    /// Adds queries by both indexes as of a stamp.
    fn add_point(&mut self, below: u64) -> Result<(), AllocError> {
        add_scn(&mut self.text, below)?;
        self.asked.push(None)?;
        self.add_query(By::Letter, below)?;
        self.add_query(By::Number, below)
    }

    /// Adds queries of the newest rows.
    fn add_newest(&mut self) -> Result<(), AllocError> {
        self.add_query(By::Letter, u64::MAX)?;
        self.add_query(By::Number, u64::MAX)
    }

    /// Adds queries as of the birth of an index, and as of the stamps around it.
    fn add_birth(&mut self, birth: u64) -> Result<(), AllocError> {
        for more in 0..3 {
            self.add_point(birth.saturating_add(more).max(1))?;
        }
        Ok(())
    }

    /// Adds queries as of so many stamps from a birth to the last one.
    fn add_points(
        &mut self,
        dice: &mut Dice,
        birth: u64,
        last: u64,
        count: u32,
    ) -> Result<(), AllocError> {
        let stamps = last.saturating_sub(birth).min(1_000) as u32;
        for _ in 0..count {
            let more = u64::from(dice.below(stamps));
            self.add_point(birth.saturating_add(more).saturating_add(1))?;
        }
        Ok(())
    }

    /// Has both indexes built again, where they stand.
    fn add_rebuilding(&mut self) -> Result<(), AllocError> {
        if self.stands.first.is_some() {
            self.add_command("ALTER INDEX T_A ON T REBUILD;\n")?;
        }
        if self.stands.second.is_some() {
            self.add_command("ALTER INDEX T_B ON T REBUILD;\n")?;
        }
        self.stands = Stands {
            first: built(self.stands.first),
            second: built(self.stands.second),
        };
        Ok(())
    }

    /// Adds all that is asked of both indexes: up to a stamp, and of so many random ones from each birth on.
    fn fill(&mut self, dice: &mut Dice, last: u64, count: u32) -> Result<(), AllocError> {
        let stands = self.stands;
        self.add_query(By::Table, u64::MAX)?;
        self.add_newest()?;
        self.add_birth(birth_of(stands.first))?;
        self.add_birth(birth_of(stands.second))?;
        self.add_points(dice, birth_of(stands.first), last, count)?;
        self.add_points(dice, birth_of(stands.second), last, count)?;
        self.add_command("!scn off\n")?;
        self.add_newest()?;
        self.add_rebuilding()?;
        self.add_newest()
    }
}

/// What is asked where these indexes stand. The first query is of the newest rows by the table.
pub fn check_of(
    alloc: Global,
    dice: &mut Dice,
    stands: Stands,
    last: u64,
    count: u32,
) -> Result<Check, AllocError> {
    let mut check = Check {
        text: String::new(alloc),
        asked: Vec::new(alloc),
        stands,
    };
    match check.fill(dice, last, count) {
        Ok(()) => Ok(check),
        Err(failed) => {
            drop(check);
            Err(failed)
        }
    }
}

/// Whether the first answer has exactly the newest rows.
fn is_first_exact(
    alloc: Global,
    versions: &[Version],
    table: u32,
    transcript: &Transcript,
) -> Result<bool, AllocError> {
    let [item, ..] = transcript.items.as_slice() else {
        return Ok(false);
    };
    let Reply::Rows(rows) = &item.reply else {
        return Ok(false);
    };
    let view = as_of(table, u64::MAX);
    is_exact(alloc, versions, view, Order::ById, rows.as_slice())
}

/// Leaves of the versions from a place on, which a stopped step was to write, all or none, as the first answer tells.
pub fn decide(
    alloc: Global,
    versions: &mut Vec<Version>,
    settled: usize,
    table: u32,
    transcript: &Transcript,
) -> Result<(), AllocError> {
    if versions.len() > settled && !is_first_exact(alloc, versions, table, transcript)? {
        versions.truncate(settled);
    }
    Ok(())
}

/// How many answers by an index were exact; none where an answer is wrong.
pub fn judged(
    alloc: Global,
    versions: &[Version],
    table: u32,
    transcript: &Transcript,
    check: &Check,
) -> Result<Option<u64>, AllocError> {
    exact_answers(alloc, versions, table, transcript, &check.asked)
}
