// What is read by a path.
ghost use Rattle.std.specs.Prelude.{◌≡◌, ◌↔◌, IfOk, List, map};
ghost use Rattle.std.specs.Option.{option_copied};
ghost use Rattle.px_conjuncts.specs.Paths.{leading_told};
ghost use Rattle.px_keys.specs.Range.{IsBetween};
ghost use Rattle.px_keys.specs.Spelling.{Fits, spelled};
ghost use Rattle.px_plan.specs.PathColumns.{path_of};
ghost use Rattle.px_plan.specs.Asked.{IsReading};
ghost use Rattle.px_ranges.specs.Led.{IsFor, IsLed};
ghost use Rattle.px_values.specs.declared.row.Value.{Value};
ghost use Rattle.px_paths.specs.Paths.{columns_on};

use crate::paths::path_columns;
use crate::rank::{Rank, rank_told};
use px_conjuncts::{Told, leading, told};
use px_expr::Bound;
use px_keys::KeyColumn;
use px_paths::PathColumn;
use px_ranges::{KeyBounds, key_bounds};
use px_tables::{Index, KeyPlace, Table};
use std::alloc::{AllocError, Global};

/// The keys that are read, the rank of the path, and a mark at each conjunct that the keys tell.
#[derive(Drop)]
pub struct PathReading {
    pub bounds: KeyBounds,
    pub rank: Rank,
    pub marks: Vec<bool>,
}

/// What the columns of a path are in keys.
fn parts(alloc: Global, path: &[PathColumn]) -> Result<Vec<KeyColumn>, AllocError>
    ensures { IfOk result (λ parts. parts.items ≡ columns_on path.now) }
{
    path.iter().map(|column| column.column).collect(alloc)
}

/// The keys of the rows that begin as was told.
fn told_bounds(alloc: Global, path: &[PathColumn], told: &Told<'_>) -> Result<KeyBounds, AllocError>
    requires { IsFor (columns_on path.now) (leading_told told.now).equal (leading_told told.now).span }
    ensures { IfOk result (λ bounds. (row : List Value) → Fits (columns_on path.now) row → (IsBetween bounds.low bounds.high (spelled (columns_on path.now) row) ↔ IsLed (leading_told told.now) row)) }
{
    let parts = parts(alloc, path)?;
    match leading(alloc, told) {
        Ok(leading) => {
            let bounds = key_bounds(alloc, parts.as_slice(), &leading);
            drop(leading);
            drop(parts);
            bounds
        }
        Err(fault) => {
            drop(parts);
            Err(fault)
        }
    }
}

/// What is read where the path is this and the conjuncts tell so much of it.
fn path_reading(
    alloc: Global,
    path: &[PathColumn],
    conjuncts: &[Bound],
    order: &[KeyPlace],
) -> Result<PathReading, AllocError>
    ensures { IfOk result (IsReading path.now conjuncts.now order.now) }
{
    let told = told(alloc, path, conjuncts)?;
    let bounds = told_bounds(alloc, path, &told);
    let rank = rank_told(path, &told, order);
    let Told {
        equal,
        bounds: _,
        marks,
    } = told;
    drop(equal);
    match bounds {
        Ok(bounds) => Ok(PathReading {
            bounds,
            rank,
            marks,
        }),
        Err(fault) => {
            drop(marks);
            Err(fault)
        }
    }
}

/// What is read by a path of a table: by an index, or by the table's own keys where there is none.
pub fn read_by(
    alloc: Global,
    table: &Table,
    by: Option<&Index>,
    conjuncts: &[Bound],
    order: &[KeyPlace],
) -> Result<PathReading, AllocError>
    ensures { IfOk result (IsReading (path_of table.now (option_copied by.entry)) conjuncts.now order.now) }
{
    let path = path_columns(alloc, table, by)?;
    let reading = path_reading(alloc, path.as_slice(), conjuncts, order);
    drop(path);
    reading
}
