// A query with the table that it was bound to.
ghost use Rattle.std.specs.Prelude.{◌≡◌, IfErr, IfOk, false, true};
ghost use Rattle.std.specs.Option.{option_copied};
ghost use Rattle.px_calls.specs.Calls.{AreRising};
ghost use Rattle.px_gather.specs.Query.{IsPathFor};
ghost use Rattle.px_plan.specs.Asked.{asked_of};
ghost use Rattle.px_planned.specs.Queries.{IsPathBy, by_index, is_true as is_true_of, joins_at, limit_if, meets_all, query_of};

use px_bind::Query;
use px_calls::{By, Path, Point};
use px_expr::{Bound, Truth, holds};
use px_plan::{Asked, PathReading, PlanFault, asked_columns, choose_by, read_by, take_apart};
use px_ranges::KeyBounds;
use px_scan::{Asks, PathFault};
use px_tables::{Index, KeyPlace, Table};
use px_values::{Row, TableId, Value};
use std::alloc::{AllocError, Global};

/// A query, and the definition of the table that it was bound to.
#[derive(Drop)]
pub struct Planned {
    pub table: Table,
    pub asked: Asked,
}

impl Planned {
    /// A query on the table that it was bound to.
    pub fn new(alloc: Global, table: Table, query: Query) -> Result<Planned, AllocError>
        ensures { IfOk result (λ p. p ≡ record { table = table; asked = asked_of query }) }
    {
        match take_apart(alloc, query) {
            Ok(asked) => Ok(Planned { table, asked }),
            Err(fault) => {
                drop(table);
                Err(fault)
            }
        }
    }
}

fn is_true(truth: Truth) -> bool
    ensures { result ≡ is_true_of truth }
{
    match truth {
        Truth::True => true,
        _ => false,
    }
}

/// Whether each of the conjuncts is true of the row.
fn meets_each(conjuncts: &[Bound], row: &[Value]) -> bool
    ensures { result ≡ meets_all conjuncts.now row.now }
{
    conjuncts.iter().all(|part| is_true(holds(part, row)))
}

/// The LIMIT that ends a scan.
fn limit_of(order: &[KeyPlace], limit: Option<u64>) -> Option<u64>
    ensures { result ≡ limit_if order.now limit }
{
    if order.is_empty() { limit } else { None }
}

/// The keys that are read by an index, or by the table's own where there is none.
fn path_by(
    alloc: Global,
    asked: &Asked,
    table: &Table,
    by: Option<&Index>,
) -> Result<Path, PathFault>
    ensures ok { IfOk result (IsPathBy table.now asked.now (option_copied by.entry)) }
    ensures err { IfErr result (λ f. f ≡ PathFault.Memory) }
{
    let named = match by {
        Some(index) => By::Index(index.id),
        None => By::Table,
    };
    match read_by(
        alloc,
        table,
        by,
        asked.conjuncts.as_slice(),
        asked.order.as_slice(),
    ) {
        Ok(reading) => {
            let PathReading {
                bounds,
                rank: _rank,
                marks,
            } = reading;
            drop(marks);
            let KeyBounds { low, high } = bounds;
            Ok(Path {
                by: named,
                low,
                high,
            })
        }
        Err(_) => Err(PathFault::Memory),
    }
}

/// The path that is chosen from the definitions in the point.
fn planned_path(alloc: Global, planned: &Planned, point: &Point) -> Result<Path, PathFault>
    requires bound { point.now.found.table ≡ planned.now.table }
    requires rising { AreRising point.now.found.indexes }
    ensures ok { IfOk result (IsPathFor (query_of planned.now) point.now) }
    ensures not_joined { IfOk result (λ path. joins_at planned.now.asked point.now.found point.now.stamp ≡ false) }
    ensures joined { IfErr result (λ f. f ≡ PathFault.IndexJoin → joins_at planned.now.asked point.now.found point.now.stamp ≡ true) }
{
    let asked = &planned.asked;
    let columns = match asked_columns(alloc, asked) {
        Ok(columns) => columns,
        Err(_) => return Err(PathFault::Memory),
    };
    let chosen = choose_by(
        alloc,
        asked,
        columns.as_slice(),
        &point.found,
        Some(point.stamp),
    );
    drop(columns);
    match chosen {
        Ok(by) => path_by(alloc, asked, &point.found.table, by),
        Err(PlanFault::IndexJoin) => Err(PathFault::IndexJoin),
        Err(PlanFault::Memory) => Err(PathFault::Memory),
    }
}

impl Asks for Planned {
    ghost asked = { query_of };

    fn table(&self) -> TableId {
        self.table.id
    }

    fn limit(&self) -> Option<u64> {
        limit_of(self.asked.order.as_slice(), self.asked.limit)
    }

    fn meets(&self, row: &Row) -> bool {
        meets_each(self.asked.conjuncts.as_slice(), row.as_slice())
    }

    fn path(&self, alloc: Global, point: &Point) -> Result<Path, PathFault> {
        planned_path(alloc, self, point)
    }
}
