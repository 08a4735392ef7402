// The key columns of a path.
ghost use Rattle.std.specs.Prelude.{◌≡◌, IfOk};
ghost use Rattle.std.specs.Option.{option_copied};
ghost use Rattle.px_plan.specs.PathColumns.{path_of};

use px_paths::{PathColumn, index_path, table_path};
use px_tables::{Index, Table};
use px_values::Items;
use std::alloc::{AllocError, Global};

/// The key columns of a path: those of the primary key, or the indexed ones and then those of the primary key that
/// aren't among them.
pub fn path_columns(
    alloc: Global,
    table: &Table,
    by: Option<&Index>,
) -> Result<Items<PathColumn>, AllocError>
    ensures { IfOk result (λ path. path ≡ path_of table.now (option_copied by.entry)) }
{
    match by {
        None => table_path(alloc, table),
        Some(index) => index_path(alloc, table, index),
    }
}
