// What was met in runs.
use crate::plans::FLUSHER;
use crate::stands::{Stands, after, after_entries, is_in};
use px_reply::{Item, Reply, Transcript};
use px_tables::IndexState;
use px_trail::{Act, Trail};

/// What was met in all runs so far.
#[derive(Clone, Copy, Debug)]
pub struct Tally {
    /// Runs, of which so many were stopped, some in their opening.
    pub runs: u64,
    pub stops: u64,
    pub unopened: u64,
    /// Indexes that were made, and births at which a batch below was still to write rows.
    pub made: u64,
    pub beneath: u64,
    /// Indexes that were to be built again, disabled, or dropped.
    pub rebuilt: u64,
    pub disabled: u64,
    pub dropped: u64,
    /// Chunks of base versions, builds that ended with an active index, and builds that were cut off.
    pub chunks: u64,
    pub built: u64,
    pub cut: u64,
    /// Batches that began between two steps of a build, and those that wrote rows there.
    pub begun: u64,
    pub wrote: u64,
    /// Flushes that ended while an index was built, and files of the table's rows that were merged into another: three of each four.
    pub flushed: u64,
    pub merged: u64,
    /// Exact answers by an index: while others acted, and after a run.
    pub answers: u64,
    pub dated: u64,
}

pub const NOTHING: Tally = Tally {
    runs: 0,
    stops: 0,
    unopened: 0,
    made: 0,
    beneath: 0,
    rebuilt: 0,
    disabled: 0,
    dropped: 0,
    chunks: 0,
    built: 0,
    cut: 0,
    begun: 0,
    wrote: 0,
    flushed: 0,
    merged: 0,
    answers: 0,
    dated: 0,
};

/// Adds one.
pub fn count(number: &mut u64) {
    *number = number.saturating_add(1);
}

/// Whether a batch below a birth wrote rows behind that entry.
fn has_beneath(trail: &Trail, birth: u64, from: u64) -> bool {
    for place in from..trail.len() {
        if let Act::Wrote { stamp, .. } = &trail.entry(place).act {
            if *stamp < birth {
                return true;
            }
        }
    }
    false
}

impl Tally {
    fn add_birth(&mut self, trail: &Trail, birth: u64, place: u64) {
        count(&mut self.made);
        if has_beneath(trail, birth, place) {
            count(&mut self.beneath);
        }
    }

    fn add_state(&mut self, state: IndexState) {
        match state {
            IndexState::Building => count(&mut self.rebuilt),
            IndexState::Active => count(&mut self.built),
            IndexState::Disabled => count(&mut self.disabled),
        }
    }

    fn add_act(&mut self, trail: &Trail, place: u64, act: &Act, is_building: bool) {
        match act {
            Act::IndexMade { stamp, .. } => self.add_birth(trail, *stamp, place),
            Act::IndexState { state, .. } => self.add_state(*state),
            Act::Dropped { .. } => count(&mut self.dropped),
            Act::Based { .. } => count(&mut self.chunks),
            Act::Begun { .. } if is_building => count(&mut self.begun),
            Act::Wrote { .. } if is_building => count(&mut self.wrote),
            _ => {}
        }
    }

    /// Adds what a run did that began with these indexes, and gives those that it left.
    pub fn add_trail(&mut self, trail: &Trail, stands: Stands) -> Stands {
        let mut stands = stands;
        for place in 0..trail.len() {
            let act = &trail.entry(place).act;
            self.add_act(trail, place, act, is_building(stands));
            stands = after(stands, act);
        }
        self.add_cut(stands);
        stands
    }

    /// Whether indexes were built, and changed, as often as in another.
    fn has_builds(&self, least: &Tally) -> bool {
        self.made >= least.made
            && self.beneath >= least.beneath
            && self.rebuilt >= least.rebuilt
            && self.disabled >= least.disabled
            && self.dropped >= least.dropped
            && self.chunks >= least.chunks
            && self.built >= least.built
            && self.cut >= least.cut
    }

    /// Whether each thing was met as often as in another.
    pub fn has(&self, least: &Tally) -> bool {
        self.runs >= least.runs
            && self.stops >= least.stops
            && self.unopened >= least.unopened
            && self.begun >= least.begun
            && self.wrote >= least.wrote
            && self.flushed >= least.flushed
            && self.merged >= least.merged
            && self.answers >= least.answers
            && self.dated >= least.dated
            && self.has_builds(least)
    }

    /// Adds the builds that were cut off.
    fn add_cut(&mut self, stands: Stands) {
        if is_in(stands.first, IndexState::Building) {
            count(&mut self.cut);
        }
        if is_in(stands.second, IndexState::Building) {
            count(&mut self.cut);
        }
    }
}

/// Whether rows were written from one entry to another.
fn has_written(trail: &Trail, from: u64, to: u64) -> bool {
    for place in from..to.min(trail.len()) {
        if matches!(&trail.entry(place).act, Act::Wrote { .. }) {
            return true;
        }
    }
    false
}

/// How many files of the table's rows a session's flushes made at least: one each before which rows were written behind the one before.
fn files_of(trail: &Trail, items: &[Item]) -> u64 {
    let (mut count, mut behind): (u64, u64) = (0, 0);
    for item in items {
        if matches!(&item.reply, Reply::Flushed) {
            if has_written(trail, behind, item.evidence.first) {
                count = count.saturating_add(1);
            }
            behind = item.evidence.last;
        }
    }
    count
}

/// How many files of the table's rows the flushes of a run made at least.
pub fn files_made(trail: &Trail, transcripts: &[Transcript]) -> u64 {
    for transcript in transcripts {
        if transcript.session == FLUSHER {
            return files_of(trail, transcript.items.as_slice());
        }
    }
    0
}

/// How many flushes of a run that began with these indexes ended while one was built.
pub fn flushes_within(trail: &Trail, transcripts: &[Transcript], stands: Stands) -> u64 {
    let mut count: u64 = 0;
    for transcript in transcripts {
        for item in transcript.items.as_slice() {
            let then = after_entries(stands, trail, item.evidence.last);
            if matches!(&item.reply, Reply::Flushed) && is_building(then) {
                count = count.saturating_add(1);
            }
        }
    }
    count
}

fn is_building(stands: Stands) -> bool {
    is_in(stands.first, IndexState::Building) || is_in(stands.second, IndexState::Building)
}
