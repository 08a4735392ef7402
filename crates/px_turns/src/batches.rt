//! The batches that have begun.
ghost use Rattle.std.specs.Prelude.{◌≡◌, ◌≤◌, ℕ, true, false, OnOk, OnErr};
ghost use Rattle.px_turns.specs.Turns.{IsLeast, at_stamp};
ghost use Rattle.px_turns.specs.inner.Pending.{undecided_in, unclosed_in};

use crate::parts::Batches;
use std::alloc::{AllocError, Global};
use std::collections::BTreeSet;

impl Batches {
    pub(crate) fn new(alloc: Global) -> Batches
        ensures { (s : ℕ) → (undecided_in result s ≡ false) × (unclosed_in result s ≡ false) }
    {
        Batches {
            undecided: BTreeSet::new(alloc),
            unclosed: BTreeSet::new(alloc),
        }
    }

    /// A batch begins.
    pub(crate) fn open(&mut self, stamp: u64) -> Result<(), AllocError>
        requires { undecided_in self.old stamp ≡ false }
        ensures undecided { OnOk result ((s : ℕ) → undecided_in self.new s ≡ at_stamp stamp true (undecided_in self.old) s) }
        ensures unclosed { OnOk result ((s : ℕ) → unclosed_in self.new s ≡ at_stamp stamp true (unclosed_in self.old) s) }
        ensures err { OnErr result ((s : ℕ) → (undecided_in self.new s ≡ undecided_in self.old s) × (unclosed_in self.new s ≡ unclosed_in self.old s)) }
    {
        self.undecided.insert(stamp)?;
        match self.unclosed.insert(stamp) {
            Ok(_) => Ok(()),
            Err(_) => {
                self.undecided.remove(&stamp);
                Err(AllocError)
            }
        }
    }

    /// All rows of the batch are written.
    pub(crate) fn decide(&mut self, stamp: u64)
        ensures undecided { (s : ℕ) → undecided_in self.new s ≡ at_stamp stamp false (undecided_in self.old) s }
        ensures unclosed { (s : ℕ) → unclosed_in self.new s ≡ unclosed_in self.old s }
    {
        self.undecided.remove(&stamp);
    }

    /// The batch ends.
    pub(crate) fn close(&mut self, stamp: u64)
        ensures undecided { (s : ℕ) → undecided_in self.new s ≡ undecided_in self.old s }
        ensures unclosed { (s : ℕ) → unclosed_in self.new s ≡ at_stamp stamp false (unclosed_in self.old) s }
    {
        self.unclosed.remove(&stamp);
    }

    pub(crate) fn first_undecided(&self) -> Option<u64>
        ensures { IsLeast (undecided_in self.now) result }
    {
        match self.undecided.first() {
            Some(stamp) => Some(*stamp),
            None => None,
        }
    }

    pub(crate) fn first_unclosed(&self) -> Option<u64>
        ensures { IsLeast (unclosed_in self.now) result }
    {
        match self.unclosed.first() {
            Some(stamp) => Some(*stamp),
            None => None,
        }
    }
}
