// Making an index.
ghost use Rattle.std.specs.Prelude.{◌≡◌, ◌≤◌, ◌<◌, ◌+◌, ◌*◌, ◌^◌, ◌++◌, ◌∷◌, [], List, length, max, OnOk, OnErr, IfOk};
ghost use Rattle.std.specs.List.{AllByRecursion};
ghost use Rattle.px_cells.specs.CellData.{CellData};
ghost use Rattle.px_cellbytes.specs.Spelling.{IsShortEnough};
ghost use Rattle.px_block.specs.Block.{IsBlock, block_bytes};
ghost use Rattle.px_file.specs.Format.{first_key as first_key_of, greatest_stamp_in};
ghost use Rattle.px_file.specs.IndexOf.{IsIndex};

use crate::index::{Index, IndexEntry};
use px_cells::Cell;
use std::alloc::{AllocError, Global};

/// Where the first block of a file stands.
pub(crate) const FIRST_BLOCK: u64 = 8;

impl Index {
    /// The index of no blocks.
    pub(crate) fn new(alloc: Global) -> Index
        ensures { IsIndex result [] }
    {
        Index {
            entries: Vec::new(alloc),
            end: FIRST_BLOCK,
            cells: 0,
            stamp: 0,
        }
    }

    /// Adds a block of so many bytes. An `Err` leaves the index as it was.
    pub(crate) fn add(&mut self, alloc: Global, block: &[Cell], len: u32) -> Result<(), AllocError>
        requires block { IsBlock block.now }
        requires len { len ≡ length (block_bytes block.now) }
        requires count { length self.old.entries.items + 1 < 2 ^ 32 }
        ensures added { (blocks : List (List CellData)) → IsIndex self.old blocks → OnOk result (IsIndex self.new (blocks ++ block.now ∷ [])) }
        ensures count { OnOk result (length self.new.entries.items ≡ length self.old.entries.items + 1) }
        ensures end { OnOk result (self.new.end ≡ self.old.end + len) }
        ensures kept { (blocks : List (List CellData)) → IsIndex self.old blocks → OnErr result (IsIndex self.new blocks) }
    {
        let key = first_key(alloc, block)?;
        self.entries.reserve(1)?;
        self.entries.push_reserved(IndexEntry {
            place: self.end,
            len,
            key,
        });
        self.end += u64::from(len);
        self.cells += block.len() as u64;
        self.stamp = greatest(self.stamp, block);
        Ok(())
    }
}

/// The first key of some cells.
fn first_key(alloc: Global, block: &[Cell]) -> Result<Vec<u8>, AllocError>
    requires short { AllByRecursion IsShortEnough block.now }
    ensures short { IfOk result (λ key. length key.items < 2 ^ 16) }
    ensures key { IfOk result (λ key. key.items ≡ first_key_of block.now) }
{
    match block {
        [] => Ok(Vec::new(alloc)),
        [first, ..] => Vec::from_slice(alloc, first.key()),
    }
}

/// The greatest of a stamp and those of some cells.
fn greatest(stamp: u64, block: &[Cell]) -> u64
    ensures { result ≡ max stamp (greatest_stamp_in block.now) }
{
    let mut most = stamp;
    for cell in block {
        most = most.max(cell.stamp());
    }
    most
}
