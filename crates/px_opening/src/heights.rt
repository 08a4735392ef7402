// The greatest numbers of a table's regions.
ghost use Rattle.std.specs.Prelude.{◌≡◌, ℕ, All, IfSome, IfOk, map};
ghost use Rattle.px_region.specs.Region.{RegionData, read_of};
ghost use Rattle.px_tablefolder.specs.Folder.{folder_high, folder_last, greatest_horizon, greatest_in_indexes, last_cell as greatest_stamp};
ghost use Rattle.px_recovery.specs.Tables.{index_files, indexes_of};
ghost use Rattle.px_opening.specs.Definitions.{IsOneRegion, first_number};
ghost use Rattle.px_opening.specs.Opened.{IsDataOf, files_by};
ghost use Rattle.px_opening.specs.inner.Heights.{IsRaised};

use px_cells::Cell;
use px_region::Region;
use px_tables::{Index, Table};

/// The greatest stamp and the greatest horizon that were found.
#[derive(Clone, Copy)]
pub(crate) struct Heights {
    pub(crate) last: u64,
    pub(crate) horizon: u64,
}

/// The greatest stamp of cells, 0 where there is none.
fn last_stamp(cells: &[Cell]) -> u64
    ensures { result ≡ greatest_stamp cells.now }
{
    let mut last = 0;
    for cell in cells {
        last = last.max(cell.stamp());
    }
    last
}

/// The greatest stamp of what is read of a region.
fn last_of(region: &Region) -> u64
    ensures { result ≡ greatest_stamp (read_of region.now) }
{
    let mut last = 0;
    for at in 0..region.piece_count() {
        last = last.max(last_stamp(region.piece(at)));
    }
    last
}

/// The region of a number.
fn find_region(regions: &[Region], number: u32) -> Option<&Region>
    ensures { (f : ℕ → RegionData) → All (IsDataOf f) regions.now → IfSome result (λ r. IsDataOf f r.now × (r.now.number ≡ number)) }
{
    for region in regions {
        if region.number() == number {
            return Some(region);
        }
    }
    None
}

/// The greatest numbers of the indexes of a table, whatever their states are; none where the region of one isn't among these.
fn index_heights(number: u32, indexes: &[Index], regions: &[Region]) -> Option<Heights>
    ensures { (f : ℕ → RegionData) → All (IsDataOf f) regions.now
        → IfSome result (λ h. (h.last ≡ greatest_in_indexes (map (index_files f) (indexes_of number indexes.now))) × (h.horizon ≡ greatest_horizon (map (index_files f) (indexes_of number indexes.now)))) }
{
    let mut heights = Heights {
        last: 0,
        horizon: 0,
    };
    for index in indexes {
        if index.table.0 != number {
            continue;
        }
        let region = find_region(regions, index.region)?;
        heights = raised(heights, index, region);
    }
    Some(heights)
}

/// With an index and its region.
fn raised(heights: Heights, index: &Index, region: &Region) -> Heights
    ensures { (f : ℕ → RegionData) → IsDataOf f region.now → region.now.number ≡ index.now.region → IsRaised heights (index_files f index.now) result }
{
    let horizon = region.horizon();
    let own = index.birth.max(horizon).max(last_of(region));
    Heights {
        last: heights.last.max(own),
        horizon: heights.horizon.max(horizon),
    }
}

/// The greatest numbers of a table; none where a region isn't among these.
pub(crate) fn heights_of(
    table: &Table,
    rows: u32,
    indexes: &[Index],
    regions: &[Region],
) -> Option<Heights>
    requires rows { rows ≡ first_number table.now.regions }
    requires region { IsOneRegion table.now.regions }
    ensures { (f : ℕ → RegionData) → All (IsDataOf f) regions.now
        → IfSome result (λ h. (h.last ≡ folder_last (files_by f indexes.now table.now)) × (h.horizon ≡ folder_high (files_by f indexes.now table.now))) }
{
    let region = find_region(regions, rows)?;
    let others = index_heights(table.id.0, indexes, regions)?;
    let horizon = region.horizon();
    Some(Heights {
        last: horizon.max(last_of(region)).max(others.last),
        horizon: horizon.max(others.horizon),
    })
}
