//! The points that are open, by their stamps.
ghost use Rattle.std.specs.Prelude.{◌≡◌, ◌<◌, ◌≤◌, ◌+◌, ◌-◌, ℕ, OnOk, OnErr, IfSome, IfNone};
ghost use Rattle.px_turns.specs.Turns.{at_stamp};
ghost use Rattle.px_turns.specs.inner.Pending.{count_of};

use crate::parts::OpenPoints;
use std::alloc::{AllocError, Global};
use std::collections::BTreeMap;

impl OpenPoints {
    pub(crate) fn new(alloc: Global) -> OpenPoints
        ensures { (s : ℕ) → count_of result s ≡ 0 }
    {
        OpenPoints {
            counts: BTreeMap::new(alloc),
        }
    }

    /// The least stamp at which a point is open.
    pub(crate) fn first(&self) -> Option<u64>
        ensures least { IfSome result (λ p. (0 < count_of self.now p) × ((s : ℕ) → 0 < count_of self.now s → p ≤ s)) }
        ensures none { IfNone result ((s : ℕ) → count_of self.now s ≡ 0) }
    {
        match self.counts.first_key_value() {
            Some((stamp, _)) => Some(*stamp),
            None => None,
        }
    }

    /// One point more is open at the stamp.
    pub(crate) fn add(&mut self, stamp: u64) -> Result<(), AllocError>
        ensures ok { OnOk result ((s : ℕ) → count_of self.new s ≡ at_stamp stamp (count_of self.old stamp + 1) (count_of self.old) s) }
        ensures err { OnErr result ((s : ℕ) → count_of self.new s ≡ count_of self.old s) }
    {
        let more = match self.counts.get(&stamp) {
            Some(count) => *count,
            None => 0,
        };
        let Some(more) = more.checked_add(1) else {
            return Err(AllocError);
        };
        self.counts.insert(stamp, more)?;
        Ok(())
    }

    /// A point at the stamp is closed.
    pub(crate) fn remove(&mut self, stamp: u64)
        ensures { (s : ℕ) → count_of self.new s ≡ at_stamp stamp (count_of self.old stamp - 1) (count_of self.old) s }
    {
        let left = match self.counts.get_mut(&stamp) {
            Some(count) => {
                if *count > 1 {
                    *count -= 1;
                    return;
                }
                0
            }
            None => 0,
        };
        let _left: u64 = left;
        self.counts.remove(&stamp);
    }
}
