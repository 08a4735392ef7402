// What runs have told of the rows on a disk.
use px_reply::Transcript;
use px_tests_runs::answers::right_answers;
use px_tests_runs::model::{Version, add_late, add_written, last_stamp, settle};
use px_trail::{Entry, Trail};
use std::alloc::{AllocError, Global};

/// How many entries the trails had, how many answers of the session beside the others were found right, how many runs were stopped, and how many
/// doubts the last queries met.
#[derive(Clone, Copy, Debug)]
pub struct Tally {
    pub entries: u64,
    pub answers: u64,
    pub stops: u64,
    pub doubts: u64,
}

/// The rows with their dates, of which those from a place on may be there or not; the numbers of the tables, the greatest stamp that was drawn, and how
/// much was done.
#[derive(Drop)]
pub struct Told {
    pub versions: Vec<Version>,
    pub settled: usize,
    pub tables: Vec<u32>,
    pub last: u64,
    pub tally: Tally,
}

impl Told {
    /// Adds what a run wrote, and what it would have written where it was stopped. Whether what the looker was answered is right.
    pub fn add(
        &mut self,
        alloc: Global,
        trail: &Trail,
        late: &Option<Entry>,
        transcripts: &[Transcript],
        looker: u32,
        asked: &[usize],
    ) -> Result<bool, AllocError> {
        add_written(alloc, trail, &mut self.versions)?;
        let answers = right_answers(
            alloc,
            trail,
            &self.versions,
            transcripts,
            looker,
            asked,
            &self.tables,
        )?;
        self.tally.entries = self.tally.entries.saturating_add(trail.len());
        self.last = self.last.max(last_stamp(trail));
        settle(&mut self.versions);
        self.settled = self.versions.len();
        add_late(alloc, trail, late, &mut self.versions)?;
        if late.is_some() {
            self.tally.stops = self.tally.stops.saturating_add(1);
        }
        match answers {
            Some(count) => {
                self.tally.answers = self.tally.answers.saturating_add(count);
                Ok(true)
            }
            None => Ok(false),
        }
    }
}
