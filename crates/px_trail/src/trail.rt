// The list of entries, with room that is taken before.
ghost use Rattle.std.specs.Prelude.{◌≡◌, ◌≢◌, ◌<◌, ◌≤◌, ◌+◌, ◌-◌, ◌++◌, ◌∷◌, [], ◌↔◌, ◌==◌, ◌^◌, min, List, ℕ, length, slice_get, Some, Err, OnOk, IsErr, vec_len, vec_capacity};
ghost use Rattle.px_trail.specs.Count.{counted_act};
ghost use Rattle.px_trail.specs.declared.trail.TrailFault.TheVariants.{Limit as LimitFault};

use crate::count::changes_bytes;
use crate::{Act, Entry};
use px_values::Limit;
use std::alloc::{AllocError, Global};
use std::marker::Model;

/// Why a trail has no room for more.
#[derive(Clone, Copy, Debug, PartialEq)]
pub enum TrailFault {
    /// The counted bytes would pass their limit.
    Limit,
    /// No memory was found.
    Memory,
}

impl From<AllocError> for TrailFault {
    ghost use Rattle.px_trail.specs.Count.{counted_act};
    ghost use Rattle.px_trail.specs.declared.trail.TrailFault.TheVariants.{Memory};

    ghost from_gives = { λ _ f. f ≡ Memory };

    fn from(_: AllocError) -> Self {
        TrailFault::Memory
    }
}

/// The entries of a run, in order. Room for an entry is taken before, so that adding one can't fail.
#[derive(Drop)]
pub struct Trail {
    entries: Vec<Entry>,
    /// How many entries may be added.
    room: u64,
    /// The counted bytes of the entries.
    bytes: u64,
    /// How many counted bytes may be added.
    bytes_room: u64,
}

impl Model for Trail {
    ghost use Rattle.std.specs.Prelude.{◌≡◌, ◌≤◌, ◌+◌, vec_len, vec_capacity};
    ghost use Rattle.px_trail.specs.Recorded.{Recorded};
    ghost use Rattle.px_trail.specs.Count.{counted_bytes};

    ghost Value = { Recorded };

    ghost view = { λ t. record { entries = t.entries.items; room = t.room; bytes_room = t.bytes_room } };

    ghost invariant = { λ t. (vec_len t.entries + t.room ≤ vec_capacity t.entries)
        × (t.bytes ≡ counted_bytes t.entries.items)
        × (t.bytes + t.bytes_room ≤ 536870912) };
}

impl Trail {
    ghost use Rattle.px_trail.specs.Count.{counted_act, counted_bytes};

    /// A trail without an entry, and without room.
    pub fn new(alloc: Global) -> Trail
        ensures empty { result.entries ≡ [] }
        ensures no_room { (result.room ≡ 0) × (result.bytes_room ≡ 0) }
    {
        Trail {
            entries: Vec::new(alloc),
            room: 0,
            bytes: 0,
            bytes_room: 0,
        }
    }

    /// Takes room for `n` entries more, and for `bytes` more counted bytes. A refusal leaves the trail as it was.
    pub fn reserve(&mut self, n: u64, bytes: u64) -> Result<(), TrailFault>
        ensures same { self.new.entries ≡ self.old.entries }
        ensures ok { OnOk result ((self.new.room ≡ self.old.room + n) × (self.new.bytes_room ≡ self.old.bytes_room + bytes)) }
        // Exactly where the counted bytes, those for which there is room and these would pass the limit.
        ensures limit { (result ≡ Err LimitFault) ↔ (536870912 < counted_bytes self.old.entries + self.old.bytes_room + bytes) }
        ensures err { IsErr result → self.new ≡ self.old }
    {
        if bytes > Limit::Trail.most() - self.bytes - self.bytes_room {
            return Err(TrailFault::Limit);
        }
        let Some(room) = self.room.checked_add(n) else {
            return Err(TrailFault::Memory);
        };
        self.entries.reserve(room as usize)?;
        self.room = room;
        self.bytes_room += bytes;
        Ok(())
    }

    /// Gives room back that was taken and isn't needed.
    pub fn give_back(&mut self, n: u64, bytes: u64)
        requires room { n ≤ self.old.room }
        requires bytes { bytes ≤ self.old.bytes_room }
        ensures same { self.new.entries ≡ self.old.entries }
        ensures room { self.new.room + n ≡ self.old.room }
        ensures bytes { self.new.bytes_room + bytes ≡ self.old.bytes_room }
    {
        self.room -= n;
        self.bytes_room -= bytes;
    }

    /// Adds an entry at the end. It takes no memory.
    pub fn push(&mut self, entry: Entry)
        requires room { 0 < self.old.room }
        requires bytes { counted_act entry.act ≤ self.old.bytes_room }
        ensures entries { self.new.entries ≡ self.old.entries ++ entry ∷ [] }
        ensures room { self.new.room + 1 ≡ self.old.room }
        ensures bytes { self.new.bytes_room + counted_act entry.act ≡ self.old.bytes_room }
    {
        let bytes = entry_bytes(&entry);
        self.room -= 1;
        self.bytes += bytes;
        self.bytes_room -= bytes;
        self.entries.push_reserved(entry);
    }

    pub fn len(&self) -> u64
        ensures { result ≡ length self.now.entries }
    {
        self.entries.len() as u64
    }

    pub fn is_empty(&self) -> bool
        ensures { result ≡ (length self.now.entries == 0) }
    {
        self.entries.is_empty()
    }

    /// The entry at a place, counted from 0.
    pub fn entry(&self, i: u64) -> &Entry
        requires { i < length self.now.entries }
        ensures { slice_get self.now.entries i ≡ Some result.now }
    {
        &self.entries[i as usize]
    }

    /// The counted bytes of the changes that were begun.
    pub fn counted_bytes(&self) -> u64
        ensures { result ≡ counted_bytes self.now.entries }
    {
        self.bytes
    }
}

/// The counted bytes of an entry. Where the sum passes the greatest number, the answer is that number.
fn entry_bytes(entry: &Entry) -> u64
    ensures { result ≡ min (counted_act entry.now.act) (2 ^ 64 - 1) }
{
    match &entry.act {
        Act::Begun { changes, .. } => changes_bytes(changes.as_slice()),
        Act::Made { .. }
        | Act::IndexMade { .. }
        | Act::IndexState { .. }
        | Act::Dropped { .. }
        | Act::Phase { .. }
        | Act::Wrote { .. }
        | Act::Ended { .. }
        | Act::Opened { .. }
        | Act::Released { .. }
        | Act::Raised { .. }
        | Act::Fixed { .. }
        | Act::Based { .. }
        | Act::Missed { .. }
        | Act::Shut { .. } => 0,
    }
}
