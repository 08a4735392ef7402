// What a manifest names.
ghost use Rattle.std.specs.Prelude.{◌<◌, length};

use std::alloc::Global;

/// A file of a region.
#[derive(Clone, Copy, Debug, PartialEq, Eq)]
pub struct FileEntry {
    /// Its local number, from 4 on.
    pub local: u32,
    /// How many bytes it has.
    pub len: u64,
    /// How many cells it has.
    pub cells: u64,
}

/// What a manifest names. The newest file stands first.
#[derive(Drop)]
pub struct Snapshot {
    /// The number of the last batch that stands in a file.
    pub flushed: u64,
    pub horizon: u64,
    /// The greatest stamp of the files' cells.
    pub stamp: u64,
    /// How many compactions there were, modulo 8.
    pub compactions: u8,
    pub files: Vec<FileEntry>,
    ghost few: { length files.items < 256 },
}

impl Snapshot {
    ghost use Rattle.std.specs.Prelude.{◌≡◌, ◌+◌, ◌*◌};
    ghost use Rattle.px_wal.specs.Snapshot.{nothing_named};
    ghost use Rattle.px_wal.specs.SnapshotOf.{files_of, snapshot_of};

    /// Nothing is flushed.
    pub fn nothing(alloc: Global) -> Snapshot
        ensures { snapshot_of result ≡ nothing_named }
    {
        Snapshot {
            flushed: 0,
            horizon: 0,
            stamp: 0,
            compactions: 0,
            files: Vec::new(alloc),
        }
    }

    /// How many bytes its record's body has.
    pub fn body_len(&self) -> u64
        ensures { result ≡ 26 + 20 * length (files_of self.now) }
    {
        26 + 20 * self.files.len() as u64
    }
}
