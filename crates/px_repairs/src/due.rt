// The cells of the repair that is due.
ghost use Rattle.std.specs.Prelude.{◌≡◌, ◌≢◌, ◌≤◌, ◌∷◌, [], IfOk, length};
ghost use Rattle.px_cells.specs.Contents.{value_at};
ghost use Rattle.px_indexrow.specs.Form.{IsRightIndex, index_form};
ghost use Rattle.px_indexrow.specs.Lists.{fix_of};
ghost use Rattle.px_indexrow.specs.Verdicts.{verdict_of};
ghost use Rattle.px_rows.specs.Keys.{IsRightTable};
ghost use Rattle.px_rows.specs.Spelled.{row_form};
ghost use Rattle.px_values.specs.Limits.{most_key};
ghost use Rattle.px_reading.specs.Doubts.{IsRowOf};
ghost use Rattle.px_repairs.specs.Repairs.{repair_of};

use px_indexrow::{Repair, fix};
use px_keptcells::KeptCells;
use px_reading::Doubted;
use px_rows::row_at;
use px_tables::{Index, Table};
use px_values::Row;
use std::alloc::{AllocError, Global};

/// The repair, but a version at or below the horizon of which no row is there is retired.
fn for_state(repair: Repair, state: &Option<Row>, stamp: u64, horizon: u64) -> Repair
    ensures { result ≡ repair_of horizon stamp state.now repair }
{
    match state {
        Some(_) => repair,
        None => {
            if stamp <= horizon {
                return Repair::Retire;
            }
            repair
        }
    }
}

/// The cells of a repair, by the cells of the key's row.
pub(crate) fn repair_cells(
    alloc: Global,
    table: &Table,
    index: &Index,
    doubted: &Doubted,
    key: &[u8],
    stamp: u64,
    horizon: u64,
    repair: Repair,
) -> Result<KeptCells, AllocError>
    requires table { IsRightTable table.now }
    requires index { IsRightIndex table.now index.now }
    requires row { IsRowOf table.now doubted.now.row.items doubted.now.cells.items }
    requires short { length key.now ≤ most_key }
    ensures { IfOk result (λ kept. kept ≡ fix_of (index_form table.now index.now) horizon ((row_form table.now).spelled (value_at doubted.now.cells.items) doubted.now.row.items horizon) key.now stamp (verdict_of (repair_of horizon stamp ((row_form table.now).spelled (value_at doubted.now.cells.items) doubted.now.row.items horizon) repair)) ∷ []) }
{
    let state = row_at(alloc, table, &doubted.row, &doubted.cells, horizon)?;
    let repair = for_state(repair, &state, stamp, horizon);
    let cells = fix(alloc, table, index, key, &state, horizon, stamp, repair)?;
    let mut kept = KeptCells::new(alloc);
    kept.add(cells)?;
    Ok(kept)
}
