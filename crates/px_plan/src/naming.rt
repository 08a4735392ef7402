// The columns that a query names, and the indexes that hold them.
ghost use Rattle.std.specs.Prelude.{◌≡◌, ◌++◌, IfOk, OnOk, map};
ghost use Rattle.std.specs.List.{flat_map};
ghost use Rattle.px_plan.specs.Asked.{columns_asked};
ghost use Rattle.px_plan.specs.Naming.{columns_in, columns_named, filter_columns, holds_all as holds_all_of, term_columns, test_columns};

use crate::Asked;
use px_bind::Query;
use px_expr::{Bound, Term, Test};
use px_paths::is_held;
use px_tables::{Index, KeyPlace, Table};
use std::alloc::{AllocError, Global};

fn add_term(term: &Term, to: &mut Vec<u8>) -> Result<(), AllocError>
    ensures { OnOk result (to.new.items ≡ to.old.items ++ term_columns term.now) }
{
    if let Term::Column(place) = term {
        to.push(*place)?;
    }
    Ok(())
}

fn add_test(test: &Test, to: &mut Vec<u8>) -> Result<(), AllocError>
    ensures { OnOk result (to.new.items ≡ to.old.items ++ test_columns test.now) }
{
    match test {
        Test::Compare { left, right, .. } => {
            add_term(left, to)?;
            add_term(right, to)
        }
        Test::IsNull { term, .. } | Test::In { term, .. } => add_term(term, to),
        Test::Between {
            term,
            low,
            high,
            ..
        } => {
            add_term(term, to)?;
            add_term(low, to)?;
            add_term(high, to)
        }
    }
}

#[cycle(naming)]
#[tactic(auto, using(crate::proofs::Named::columns_or, crate::proofs::Named::columns_and, crate::proofs::Named::columns_not))]
fn add_condition(condition: &Bound, to: &mut Vec<u8>) -> Result<(), AllocError>
    ensures { OnOk result (to.new.items ≡ to.old.items ++ columns_in condition.now) }
{
    match condition {
        Bound::Or(parts) => add_conditions(parts.as_slice(), to),
        Bound::And(parts) => add_conditions(parts.as_slice(), to),
        Bound::Not(part) => add_condition(part.get(), to),
        Bound::Test(test) => add_test(test, to),
    }
}

#[cycle(naming)]
fn add_conditions(parts: &[Bound], to: &mut Vec<u8>) -> Result<(), AllocError>
    ensures { OnOk result (to.new.items ≡ to.old.items ++ flat_map columns_in parts.now) }
{
    for part in parts {
        add_condition(part, to)?;
    }
    Ok(())
}

fn add_filter(filter: &Option<Bound>, to: &mut Vec<u8>) -> Result<(), AllocError>
    ensures { OnOk result (to.new.items ≡ to.old.items ++ filter_columns filter.now) }
{
    match filter {
        Some(condition) => add_condition(condition, to),
        None => Ok(()),
    }
}

fn add_order(order: &[KeyPlace], to: &mut Vec<u8>) -> Result<(), AllocError>
    ensures { OnOk result (to.new.items ≡ to.old.items ++ map (λ p. p.column) order.now) }
{
    for part in order {
        to.push(part.column)?;
    }
    Ok(())
}

/// The columns that a query names whose condition is taken apart, in text order.
pub fn asked_columns(alloc: Global, asked: &Asked) -> Result<Vec<u8>, AllocError>
    ensures { IfOk result (λ columns. columns.items ≡ columns_asked asked.now) }
{
    let mut columns = Vec::from_slice(alloc, asked.shown.as_slice())?;
    add_conditions(asked.conjuncts.as_slice(), &mut columns)?;
    add_order(asked.order.as_slice(), &mut columns)?;
    Ok(columns)
}

/// The columns that a query names, in text order.
pub(crate) fn named_columns(alloc: Global, query: &Query) -> Result<Vec<u8>, AllocError>
    ensures { IfOk result (λ columns. columns.items ≡ columns_named query.now) }
{
    let mut columns = Vec::from_slice(alloc, query.shown.as_slice())?;
    add_filter(&query.filter, &mut columns)?;
    add_order(query.order.as_slice(), &mut columns)?;
    Ok(columns)
}

/// Whether an index holds all these columns.
pub(crate) fn holds_all(table: &Table, index: &Index, columns: &[u8]) -> bool
    ensures { result ≡ holds_all_of table.now index.now columns.now }
{
    columns.iter().all(|column| is_held(table, index, *column))
}
