// The cells of base versions.
ghost use Rattle.std.specs.Prelude.{◌≡◌, IfOk};
ghost use Rattle.px_indexrow.specs.Form.{IsRightIndex, index_form};
ghost use Rattle.px_rows.specs.Keys.{IsRightTable};
ghost use Rattle.px_baserows.specs.Rows.{AreBaseRows, base_parts};

use px_calls::BaseRow;
use px_indexrow::{VERIFIED, version_at};
use px_keptcells::KeptCells;
use px_tables::{Index, Table};
use std::alloc::{AllocError, Global};

/// The cells of the base version of each row, at the stamp of the birth of the index. It is refused for want of memory alone.
pub fn base_versions(
    alloc: Global,
    table: &Table,
    index: &Index,
    rows: &[BaseRow],
    stamp: u64,
) -> Result<KeptCells, AllocError>
    requires table { IsRightTable table.now }
    requires index { IsRightIndex table.now index.now }
    requires rows { AreBaseRows table.now index.now rows.now }
    ensures { IfOk result (λ kept. kept ≡ base_parts (index_form table.now index.now) stamp rows.now) }
{
    let mut kept = KeptCells::new(alloc);
    for base in rows {
        let key = base.key.as_slice();
        let row = base.row.as_slice();
        let cells = version_at(alloc, table, index, key, row, stamp, VERIFIED)?;
        kept.add(cells)?;
    }
    Ok(kept)
}
