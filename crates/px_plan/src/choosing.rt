// The plan of a query.
ghost use Rattle.std.specs.Prelude.{◌≡◌, IfErr, IfOk, length, not};
ghost use Rattle.std.specs.Option.{option_copied, option_map};
ghost use Rattle.px_conjuncts.specs.Paths.{unmarked as unmarked_of};
ghost use Rattle.px_plan.specs.Plans.{AnswersPlan, key_name};
ghost use Rattle.px_plan.specs.Asked.{AnswersBy, FaultFor, IsPlanOf, TakesFor, asked_of};

use crate::best::best;
use crate::hints::hinted;
use crate::naming::{holds_all, named_columns};
use crate::reading::{PathReading, read_by};
use crate::{Asked, By, Plan, PlanFault};
use px_bind::{Hint, Query};
use px_conjuncts::{conjuncts, unmarked};
use px_expr::Bound;
use px_tables::{Found, Index, KeyPlace, Table};
use px_values::{Items, Name};
use std::alloc::{AllocError, Global};

/// The plan of a query over a table with its indexes, as of a point, or the current one where there is none.
///
/// The path is where the first hint leads that can be followed; a hinted index that lacks a column is refused. Without
/// one it is the first candidate than which none is better: the table, then the indexes in order of number.
pub fn choose(
    alloc: Global,
    query: Query,
    found: &Found,
    point: Option<u64>,
) -> Result<Plan, PlanFault>
    ensures { AnswersPlan found.now point query result }
{
    let columns = match named_columns(alloc, &query) {
        Ok(columns) => columns,
        Err(_) => {
            drop(query);
            return Err(PlanFault::Memory);
        }
    };
    let plan = match take_apart(alloc, query) {
        Ok(asked) => plan_asked(alloc, asked, columns.as_slice(), found, point),
        Err(_) => Err(PlanFault::Memory),
    };
    drop(columns);
    plan
}

/// Takes the condition of a query apart.
pub fn take_apart(alloc: Global, query: Query) -> Result<Asked, AllocError>
    ensures { IfOk result (λ a. a ≡ asked_of query) }
{
    let Query {
        table: _,
        hints,
        shown,
        filter,
        order,
        limit,
    } = query;
    match conjuncts(alloc, filter) {
        Ok(conjuncts) => Ok(Asked {
            hints,
            shown,
            conjuncts,
            order,
            limit,
        }),
        Err(fault) => {
            drop(hints);
            drop(shown);
            drop(order);
            Err(fault)
        }
    }
}

/// The path of a query over a table with its indexes, as of a point, or the current one where there is none: an index, or none for
/// the table. `columns` are those that the query names. Or why it has none.
pub fn choose_by<'a>(
    alloc: Global,
    asked: &Asked,
    columns: &[u8],
    found: &'a Found,
    point: Option<u64>,
) -> Result<Option<&'a Index>, PlanFault>
    ensures taken { IfOk result (λ by. TakesFor found.now point asked.now columns.now (option_copied by)) }
    ensures refused { IfErr result (FaultFor found.now point asked.now columns.now) }
{
    match hinted(found.indexes.as_slice(), point, asked.hints.as_slice()) {
        Some(None) => Ok(None),
        Some(Some(index)) => {
            if holds_all(&found.table, index, columns) {
                Ok(Some(index))
            } else {
                Err(PlanFault::IndexJoin)
            }
        }
        None => match best(
            alloc,
            found,
            point,
            columns,
            asked.conjuncts.as_slice(),
            asked.order.as_slice(),
        ) {
            Ok(by) => Ok(by),
            Err(_) => Err(PlanFault::Memory),
        },
    }
}

fn plan_asked(
    alloc: Global,
    asked: Asked,
    columns: &[u8],
    found: &Found,
    point: Option<u64>,
) -> Result<Plan, PlanFault>
    ensures { AnswersBy found.now point asked columns.now result }
{
    match choose_by(alloc, &asked, columns, found, point) {
        Ok(by) => match plan_by(alloc, asked, &found.table, by) {
            Ok(plan) => Ok(plan),
            Err(_) => Err(PlanFault::Memory),
        },
        Err(fault) => {
            drop(asked);
            Err(fault)
        }
    }
}

/// The plan by this path.
fn plan_by(
    alloc: Global,
    asked: Asked,
    table: &Table,
    by: Option<&Index>,
) -> Result<Plan, AllocError>
    ensures { IfOk result (IsPlanOf table.now asked (option_copied by.entry)) }
{
    match read_by(
        alloc,
        table,
        by,
        asked.conjuncts.as_slice(),
        asked.order.as_slice(),
    ) {
        Ok(reading) => match path_names(alloc, table, by) {
            Ok(names) => joined(alloc, asked, reading, names),
            Err(fault) => {
                drop(reading);
                drop(asked);
                Err(fault)
            }
        },
        Err(fault) => {
            drop(asked);
            Err(fault)
        }
    }
}

/// The names of a path.
#[derive(Drop)]
pub(crate) struct Names {
    pub(crate) by: By,
    pub(crate) table: Name,
    pub(crate) index: Option<Name>,
}

fn index_name(alloc: Global, by: Option<&Index>) -> Result<Option<Name>, AllocError>
    ensures { IfOk result (λ n. n ≡ option_map (λ i. i.name) (option_copied by.entry)) }
{
    match by {
        Some(index) => Ok(Some(Name::from_str(alloc, index.name.as_str())?)),
        None => Ok(None),
    }
}

fn path_names(alloc: Global, table: &Table, by: Option<&Index>) -> Result<Names, AllocError>
    ensures { IfOk result (λ n. n ≡ record { by = key_name (option_copied by.entry); table = table.now.name; index = option_map (λ i. i.name) (option_copied by.entry) }) }
{
    let table = Name::from_str(alloc, table.name.as_str())?;
    match index_name(alloc, by) {
        Ok(index) => Ok(Names {
            by: match by {
                Some(index) => By::Index(index.id),
                None => By::Table,
            },
            table,
            index,
        }),
        Err(fault) => {
            drop(table);
            Err(fault)
        }
    }
}

/// The plan of a query that is read so: the conjuncts without a mark are left.
fn joined(
    alloc: Global,
    asked: Asked,
    reading: PathReading,
    names: Names,
) -> Result<Plan, AllocError>
    requires { length reading.marks.items ≡ length asked.conjuncts }
    ensures { IfOk result (λ p. p ≡ record { by = names.by; table = names.table; index = names.index; bounds = reading.bounds; equal = reading.rank.equal; bounded = reading.rank.bounded; rest = unmarked_of asked.conjuncts reading.marks.items; sort = not reading.rank.ordered; shown = asked.shown; order = asked.order; limit = asked.limit }) }
{
    let Asked {
        hints,
        shown,
        conjuncts,
        order,
        limit,
    } = asked;
    drop(hints);
    let rest = unmarked(alloc, conjuncts, reading.marks.as_slice());
    let PathReading {
        bounds,
        rank,
        marks,
    } = reading;
    drop(marks);
    let Names { by, table, index } = names;
    match rest {
        Ok(rest) => Ok(Plan {
            by,
            table,
            index,
            bounds,
            equal: rank.equal as u64,
            bounded: rank.bounded,
            rest,
            sort: !rank.ordered,
            shown,
            order,
            limit,
        }),
        Err(fault) => {
            drop(table);
            drop(index);
            drop(bounds);
            drop(shown);
            drop(order);
            Err(fault)
        }
    }
}
