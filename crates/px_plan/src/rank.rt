// How good a path is for a query.
ghost use Rattle.std.specs.Prelude.{◌≡◌, ◌↔◌, IfOk, ◌≤◌, IsTrue, length, drop};
ghost use Rattle.std.specs.Option.{is_some, option_copied};
ghost use Rattle.px_conjuncts.specs.Paths.{leading_told};
ghost use Rattle.px_plan.specs.Choice.{IsBetter, begins_with as begins_with_of, rank_of, rank_on, same_direction as same_direction_of};

use crate::paths::path_columns;
use px_conjuncts::{Told, told};
use px_expr::Bound;
use px_paths::PathColumn;
use px_tables::{Index, KeyPlace, Table};
use px_values::Direction;
use std::alloc::{AllocError, Global};

/// How many leading columns have a value, whether the next has bounds, and whether the columns behind the equal ones
/// begin with the ORDER BY's.
#[derive(Clone, Copy)]
pub struct Rank {
    pub equal: usize,
    pub bounded: bool,
    pub ordered: bool,
}

fn same_direction(a: Direction, b: Direction) -> bool
    ensures { result ≡ same_direction_of a b }
{
    match (a, b) {
        (Direction::Ascending, Direction::Ascending) => true,
        (Direction::Descending, Direction::Descending) => true,
        _ => false,
    }
}

/// Whether these columns begin with those of an ORDER BY, in the same directions.
fn begins_with(path: &[PathColumn], order: &[KeyPlace]) -> bool
    ensures { result ≡ begins_with_of path.now order.now }
{
    match (path.split_first(), order.split_first()) {
        (_, None) => true,
        (None, Some(_)) => false,
        (Some((column, path)), Some((part, order))) => column.place == part.column
            && same_direction(column.column.direction, part.direction)
            && begins_with(path, order),
    }
}

/// The rank of what conjuncts tell of a path.
pub(crate) fn rank_told(path: &[PathColumn], told: &Told<'_>, order: &[KeyPlace]) -> Rank
    requires { length told.now.equal.items ≤ length path.now }
    ensures { result ≡ record { equal = length (leading_told told.now).equal; bounded = is_some (leading_told told.now).span; ordered = begins_with_of (drop (length (leading_told told.now).equal) path.now) order.now } }
{
    let equal = told.equal.len();
    Rank {
        equal,
        bounded: told.bounds.lower.is_some() || told.bounds.upper.is_some(),
        ordered: begins_with(&path[equal..], order),
    }
}

/// The rank of these columns.
fn path_rank(
    alloc: Global,
    path: &[PathColumn],
    conjuncts: &[Bound],
    order: &[KeyPlace],
) -> Result<Rank, AllocError>
    ensures { IfOk result (λ r. r ≡ rank_on path.now conjuncts.now order.now) }
{
    let told = told(alloc, path, conjuncts)?;
    let rank = rank_told(path, &told, order);
    drop(told);
    Ok(rank)
}

/// The rank of a path for a query.
pub(crate) fn rank_by(
    alloc: Global,
    table: &Table,
    by: Option<&Index>,
    conjuncts: &[Bound],
    order: &[KeyPlace],
) -> Result<Rank, AllocError>
    ensures { IfOk result (λ r. r ≡ rank_of table.now conjuncts.now order.now (option_copied by.entry)) }
{
    let path = path_columns(alloc, table, by)?;
    let rank = path_rank(alloc, path.as_slice(), conjuncts, order);
    drop(path);
    rank
}

/// Whether one rank is better than another.
pub(crate) fn is_better(a: Rank, b: Rank) -> bool
    ensures { IsTrue result ↔ IsBetter a b }
{
    if a.equal != b.equal {
        return a.equal > b.equal;
    }
    if a.bounded != b.bounded {
        return a.bounded;
    }
    a.ordered && !b.ordered
}
