//! The rows that batches are still to write, by their keys.
ghost use Rattle.std.specs.Prelude.{◌≡◌, ℕ, [], List, OnOk, OnErr, slice_get, length, ◌<◌};
ghost use Rattle.px_turns.specs.Turns.{stamp_added, first_dropped, last_dropped};
ghost use Rattle.px_turns.specs.inner.Pending.{stamps_at};

use crate::parts::PendingRows;
use std::alloc::{AllocError, Global};
use std::collections::BTreeMap;

impl PendingRows {
    pub(crate) fn new(alloc: Global) -> PendingRows
        ensures { (k : List ℕ) → stamps_at result k ≡ [] }
    {
        PendingRows {
            alloc,
            rows: BTreeMap::new(alloc),
        }
    }

    /// The first batch that is to write the row.
    pub(crate) fn first(&self, key: &[u8]) -> Option<u64>
        ensures { result ≡ slice_get (stamps_at self.now key.now) 0 }
    {
        match self.rows.get(key) {
            Some(stamps) => stamps.first().copied(),
            None => None,
        }
    }

    /// How many batches are to write the row.
    fn count(&self, key: &[u8]) -> usize
        ensures { result ≡ length (stamps_at self.now key.now) }
    {
        match self.rows.get(key) {
            Some(stamps) => stamps.len(),
            None => 0,
        }
    }

    /// A batch is to write the row, and no other is.
    fn start(&mut self, key: &[u8], stamp: u64) -> Result<(), AllocError>
        requires { stamps_at self.old key.now ≡ [] }
        ensures ok { OnOk result ((k : List ℕ) → stamps_at self.new k ≡ stamp_added key.now stamp (stamps_at self.old) k) }
        ensures err { OnErr result ((k : List ℕ) → stamps_at self.new k ≡ stamps_at self.old k) }
    {
        let mut stamps = Vec::new(self.alloc);
        stamps.push(stamp)?;
        let key = Vec::from_slice(self.alloc, key)?;
        self.rows.insert(key, stamps)?;
        Ok(())
    }

    /// A batch is to write the row behind others.
    fn queue(&mut self, key: &[u8], stamp: u64) -> Result<(), AllocError>
        requires { 0 < length (stamps_at self.old key.now) }
        ensures ok { OnOk result ((k : List ℕ) → stamps_at self.new k ≡ stamp_added key.now stamp (stamps_at self.old) k) }
        ensures err { OnErr result ((k : List ℕ) → stamps_at self.new k ≡ stamps_at self.old k) }
    {
        let Some(stamps) = self.rows.get_mut(key) else {
            unreachable!()
        };
        stamps.push(stamp)?;
        Ok(())
    }

    /// One more batch is to write the row, behind the others.
    pub(crate) fn add(&mut self, key: &[u8], stamp: u64) -> Result<(), AllocError>
        ensures ok { OnOk result ((k : List ℕ) → stamps_at self.new k ≡ stamp_added key.now stamp (stamps_at self.old) k) }
        ensures err { OnErr result ((k : List ℕ) → stamps_at self.new k ≡ stamps_at self.old k) }
    {
        if self.count(key) == 0 {
            self.start(key, stamp)
        } else {
            self.queue(key, stamp)
        }
    }

    /// The first of those that were to write the row has done so.
    pub(crate) fn drop_first(&mut self, key: &[u8])
        ensures { (k : List ℕ) → stamps_at self.new k ≡ first_dropped key.now (stamps_at self.old) k }
    {
        if self.count(key) > 1 {
            let Some(stamps) = self.rows.get_mut(key) else {
                unreachable!()
            };
            stamps.remove(0);
        } else {
            self.rows.remove(key);
        }
    }

    /// The last of those that are to write the row is none of them any more.
    pub(crate) fn drop_last(&mut self, key: &[u8])
        ensures { (k : List ℕ) → stamps_at self.new k ≡ last_dropped key.now (stamps_at self.old) k }
    {
        if self.count(key) > 1 {
            let Some(stamps) = self.rows.get_mut(key) else {
                unreachable!()
            };
            stamps.pop();
        } else {
            self.rows.remove(key);
        }
    }
}
