// Finding the blocks of a range of keys.
ghost use Rattle.std.specs.Prelude.{◌≡◌, ◌≤◌, ◌<◌, List, drop, length};
ghost use Rattle.std.specs.Ordering.{is_lt};
ghost use Rattle.px_cells.specs.CellData.{CellData};
ghost use Rattle.px_cells.specs.Order.{key_cmp};
ghost use Rattle.px_cells.specs.Rows.{AllFrom};
ghost use Rattle.px_file.specs.Format.{AreBlocks, block_index, cells_in};
ghost use Rattle.px_file.specs.IndexOf.{IsIndex};
ghost use Rattle.px_file.specs.Ranges.{AreBelow, IsFirstBlock};

use crate::index::IndexEntry;
use crate::region_file::RegionFile;

/// How many blocks begin below a key. It takes logarithmic time.
pub(crate) fn begin_below(entries: &[IndexEntry], key: &[u8]) -> usize
    ensures within { result ≤ length entries.now }
    ensures below { (blocks : List (List CellData)) → AreBlocks blocks → entries.now ≡ block_index 8 blocks → AreBelow blocks key.now result }
{
    entries.partition_point(
        |entry: &IndexEntry| -> bool
            ensures { result ≡ is_lt (key_cmp entry.now.key key.entry.now) }
        { entry.key.as_slice().cmp(key).is_lt() },
    )
}

impl RegionFile {
    /// The number of the first block in which a cell at or above a key may stand, as the first keys tell. It is 0 where the
    /// file has no block. It takes logarithmic time.
    pub fn first_block(&self, key: &[u8]) -> usize
        ensures within { 1 ≤ length self.now.index.entries.items → result < length self.now.index.entries.items }
        ensures first { (blocks : List (List CellData)) → AreBlocks blocks → IsIndex self.now.index blocks → IsFirstBlock blocks key.now result }
    {
        begin_below(&self.index.entries, key).saturating_sub(1)
    }
    /// How many blocks begin below a key. It takes logarithmic time.
    pub fn blocks_below(&self, key: &[u8]) -> usize
        ensures within { result ≤ length self.now.index.entries.items }
        ensures below { (blocks : List (List CellData)) → AreBlocks blocks → IsIndex self.now.index blocks → AreBelow blocks key.now result }

        // No cell behind these blocks is below the key.
        ensures from { (blocks : List (List CellData)) → AreBlocks blocks → IsIndex self.now.index blocks → AllFrom key.now (cells_in (drop result blocks)) }
    {
        begin_below(&self.index.entries, key)
    }
}
