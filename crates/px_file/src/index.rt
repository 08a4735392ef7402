// The index of a file.
ghost use Rattle.std.specs.Prelude.{◌≤◌, ◌<◌, ◌+◌, ◌*◌, ◌^◌, length};

use std::marker::Model;

/// What the index says of a block: where it stands, how many bytes it has, and its first key.
#[derive(Drop)]
pub struct IndexEntry {
    pub(crate) place: u64,
    pub(crate) len: u32,
    pub(crate) key: Vec<u8>,
    ghost short: { length key.items < 2 ^ 16 },
    ghost near: { place < 2 ^ 60 },
}

impl Model for IndexEntry {
    ghost use Rattle.px_file.specs.Format.{EntryData};

    ghost Value = { EntryData };

    ghost view = { λ e. record { place = e.place; len = e.len; key = e.key.items } };
}

/// The index of a file, and what its footer says.
#[derive(Drop)]
pub struct Index {
    pub(crate) entries: Vec<IndexEntry>,
    /// Where the blocks end.
    pub(crate) end: u64,
    pub(crate) cells: u64,
    pub(crate) stamp: u64,
    ghost small: { end ≤ 8 + 163855 * length entries.items },
    ghost few: { cells ≤ 32768 * length entries.items },
    ghost count: { length entries.items < 2 ^ 32 },
}
