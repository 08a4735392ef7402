// A table with its indexes.
ghost use Rattle.std.specs.Prelude.{◌≡◌, ◌<◌, ◌==◌, List, length, get_or, IfOk, filter};
ghost use Rattle.px_recovery.specs.Tables.{indexes_of};

use px_schema::Standing;
use px_tables::{Found, Index, Table};
use px_values::{Items, TableId};
use std::alloc::{AllocError, Global};

/// Other indexes that are those of a table.
fn indexes_copied(
    alloc: Global,
    indexes: &[Index],
    table: TableId,
) -> Result<Items<Index>, AllocError>
    ensures { IfOk result (λ is. is ≡ indexes_of table.0 indexes.now) }
{
    let mut copies = Vec::new(alloc);
    for index in indexes {
        if index.table == table {
            copies.push(index.copied(alloc)?)?;
        }
    }
    Ok(Items::of(copies))
}

/// The table at a place with all of its indexes, as they stand after so many entries of the trail.
pub fn found(alloc: Global, standing: &Standing, place: usize, at: u64) -> Result<Found, AllocError>
    requires { place < length standing.now.tables }
    ensures table { IfOk result (λ f. (none : Table) → f.table ≡ get_or standing.now.tables place none) }
    ensures indexes { IfOk result (λ f. f.indexes ≡ indexes_of f.table.id.0 standing.now.indexes) }
    ensures at { IfOk result (λ f. f.at ≡ at) }
{
    let table = standing.tables.as_slice()[place].copied(alloc)?;
    match indexes_copied(alloc, standing.indexes.as_slice(), table.id) {
        Ok(indexes) => Ok(Found { table, indexes, at }),
        Err(fault) => {
            drop(table);
            Err(fault)
        }
    }
}
