//! The turns of a table.
ghost use Rattle.std.specs.Prelude.{◌≡◌, ◌<◌, ◌≤◌, ◌+◌, ◌-◌, ◌∷◌, ◌++◌, [], ℕ, List, true, false, OnOk, OnErr, IfOk, IfErr, IfSome, IfNone, Some};
ghost use Rattle.px_turns.specs.Turns.{Turning, IsBlockedBy, IsFree, IsRaise, IsVerdict, batch_began, wrote, decided, ended, opened, released, fresh, rows_added, rows_dropped, last_dropped, NeverFalls, earliest_of, drew, raised, IsLeastTo, least_to, before, lowered};
ghost use Rattle.px_turns.specs.inner.Pending.{turning_of, stamps_at};

use crate::parts::{Batches, OpenPoints, PendingRows, Turns};
use crate::stamp::greater;
use px_values::Key;
use std::alloc::{AllocError, Global};

/// A batch with an earlier stamp that is still to write one of the rows.
#[derive(Clone, Copy, Drop)]
pub struct Blocker {
    pub stamp: u64,
}

impl PendingRows {
    /// One batch more is to write these rows.
    fn add_all(&mut self, keys: &[Key], stamp: u64) -> Result<(), AllocError>
        ensures ok { OnOk result ((k : List ℕ) → stamps_at self.new k ≡ rows_added keys.now stamp (stamps_at self.old) k) }
        ensures err { OnErr result ((k : List ℕ) → stamps_at self.new k ≡ stamps_at self.old k) }
    {
        let [key, rest @ ..] = keys else {
            return Ok(());
        };
        self.add(key.as_slice(), stamp)?;
        match self.add_all(rest, stamp) {
            Ok(()) => Ok(()),
            Err(fault) => {
                self.drop_last(key.as_slice());
                Err(fault)
            }
        }
    }

    /// The first of the batches that are to write these rows has done so.
    fn drop_all(&mut self, keys: &[Key])
        ensures { (k : List ℕ) → stamps_at self.new k ≡ rows_dropped keys.now (stamps_at self.old) k }
    {
        let [key, rest @ ..] = keys else {
            return;
        };
        self.drop_first(key.as_slice());
        self.drop_all(rest);
    }

    /// The earliest batch with a stamp below this one that is to write one of these rows.
    fn blocker(&self, stamp: u64, keys: &[Key]) -> Option<u64>
        requires { (k : List ℕ) → NeverFalls (stamps_at self.now k) }
        ensures { IsVerdict (stamps_at self.now) stamp keys.now result }
    {
        let [key, rest @ ..] = keys else {
            return None;
        };
        let others = self.blocker(stamp, rest);
        let here = self.first(key.as_slice());
        earliest(here, others, stamp)
    }
}

fn earliest(here: Option<u64>, others: Option<u64>, stamp: u64) -> Option<u64>
    ensures { result ≡ earliest_of here others stamp }
{
    match (here, others) {
        (Some(a), Some(b)) => { if a < b { Some(a) } else { Some(b) } }
        (Some(a), None) => { if a < stamp { Some(a) } else { None } }
        (None, b) => b,
    }
}

impl Turns {
    /// The turns of a table whose last stamp and horizon are these, with nothing begun and no point open.
    pub fn new(alloc: Global, last: u64, horizon: u64) -> Turns
        ensures { turning_of result ≡ fresh last horizon }
    {
        Turns {
            last,
            horizon,
            pending: PendingRows::new(alloc),
            batches: Batches::new(alloc),
            points: OpenPoints::new(alloc),
        }
    }

    /// The greatest stamp that was drawn.
    pub fn last(&self) -> u64
        ensures { result ≡ (turning_of self.now).last }
    {
        self.last
    }

    /// The latest horizon.
    pub fn horizon(&self) -> u64
        ensures { result ≡ (turning_of self.now).horizon }
    {
        self.horizon
    }

    /// A batch begins, which is to write these rows. Want of memory leaves everything as it was.
    pub fn begin(&mut self, stamp: u64, keys: &[Key]) -> Result<(), AllocError>
        requires { (turning_of self.old).last < stamp }
        ensures ok { OnOk result (turning_of self.new ≡ batch_began stamp keys.now (turning_of self.old)) }
        ensures err { OnErr result (turning_of self.new ≡ turning_of self.old) }
    {
        self.batches.open(stamp)?;
        match self.pending.add_all(keys, stamp) {
            Ok(()) => {
                self.last = stamp;
                Ok(())
            }
            Err(fault) => {
                self.batches.decide(stamp);
                self.batches.close(stamp);
                Err(fault)
            }
        }
    }

    /// Whether a batch may write these rows: none with an earlier stamp is still to write one of them. The refusal names the
    /// earliest that is.
    pub fn may_write(&self, stamp: u64, keys: &[Key]) -> Result<(), Blocker>
        ensures ok { OnOk result (IsFree (turning_of self.now).pending stamp keys.now) }
        ensures err { IfErr result (λ b. IsBlockedBy (turning_of self.now).pending stamp keys.now b.stamp) }
    {
        match self.pending.blocker(stamp, keys) {
            None => Ok(()),
            Some(stamp) => Err(Blocker { stamp }),
        }
    }

    /// The first of the batches that are to write these rows has done so.
    pub fn write(&mut self, keys: &[Key])
        ensures { turning_of self.new ≡ wrote keys.now (turning_of self.old) }
    {
        self.pending.drop_all(keys);
    }

    /// All rows of the batch are written.
    pub fn decide(&mut self, stamp: u64)
        ensures { turning_of self.new ≡ decided stamp (turning_of self.old) }
    {
        self.batches.decide(stamp);
    }

    /// The batch ends.
    pub fn end(&mut self, stamp: u64)
        ensures { turning_of self.new ≡ ended stamp (turning_of self.old) }
    {
        self.batches.close(stamp);
    }

    /// A stamp is drawn for the birth of an index.
    pub fn draw(&mut self, stamp: u64)
        requires { (turning_of self.old).last < stamp }
        ensures { turning_of self.new ≡ drew stamp (turning_of self.old) }
    {
        self.last = stamp;
    }

    /// A point is opened at the stamp. Want of memory leaves everything as it was.
    pub fn open_point(&mut self, stamp: u64) -> Result<(), AllocError>
        ensures ok { OnOk result (turning_of self.new ≡ opened stamp (turning_of self.old)) }
        ensures err { OnErr result (turning_of self.new ≡ turning_of self.old) }
    {
        self.points.add(stamp)
    }

    /// A point at the stamp is closed.
    pub fn close_point(&mut self, stamp: u64)
        ensures { turning_of self.new ≡ released stamp (turning_of self.old) }
    {
        self.points.remove(stamp);
    }

    /// The earliest batch at or below the point that is undecided.
    pub fn undecided_to(&self, point: u64) -> Option<u64>
        ensures { IsLeastTo (turning_of self.now).undecided point result }
    {
        up_to(self.batches.first_undecided(), point)
    }

    /// How far a major compaction raises the horizon: not above the last stamp less what is looked back on, below each unclosed
    /// batch, and at most at each open point; and never down.
    pub fn raise_to(&self, lookback: u64) -> u64
        ensures { IsRaise (turning_of self.now) lookback result }
    {
        let back = self.last.saturating_sub(lookback);
        let unclosed = before_of(self.batches.first_unclosed());
        let point = self.points.first();
        greater(self.horizon, at_most(at_most(back, unclosed), point))
    }

    /// The horizon is raised.
    pub fn raise(&mut self, horizon: u64)
        ensures { turning_of self.new ≡ raised horizon (turning_of self.old) }
    {
        self.horizon = horizon;
    }
}

fn up_to(least: Option<u64>, point: u64) -> Option<u64>
    ensures { result ≡ least_to least point }
{
    match least {
        Some(stamp) => { if stamp <= point { Some(stamp) } else { None } }
        None => None,
    }
}

fn before_of(stamp: Option<u64>) -> Option<u64>
    ensures { result ≡ before stamp }
{
    match stamp {
        Some(stamp) => Some(stamp.saturating_sub(1)),
        None => None,
    }
}

fn at_most(number: u64, limit: Option<u64>) -> u64
    ensures { result ≡ lowered number limit }
{
    match limit {
        Some(limit) => number.min(limit),
        None => number,
    }
}
