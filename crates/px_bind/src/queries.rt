// SELECT, EXPLAIN and DELETE.
ghost use Rattle.std.specs.Prelude.{◌≡◌, ◌≤◌, ◌++◌, [], IfOk, OnOk, length, map};
ghost use Rattle.px_resolve.specs.Answers.{AnswersFirst};
ghost use Rattle.px_resolve.specs.Names.{key_place, known, names_of, part_names, place_of_name};
ghost use Rattle.px_bind.specs.Queries.{IsQuery, bound_query, delete_faults, filter_faults, filter_of, limit_faults, limit_of, select_faults, shown_faults, shown_of};
ghost use Rattle.px_resolve.specs.declared.conditions.Check.TheVariants as checks;

use crate::hints::bind_hints;
use crate::{Hint, Query};
use px_ast::{Boxed, Condition, Delete, RowLimit, Select};
use px_expr::Bound;
use px_resolve::conditions::{Check, bound, check_condition};
use px_resolve::fault::BindFault;
use px_resolve::literals::{check_range, number};
use px_resolve::names::check_all_known;
use px_resolve::places::{all_columns, column_places, key_places};
use px_tables::{KeyPlace, Table, TableColumn};
use px_values::{Items, Name};
use std::alloc::{AllocError, Global};

/// The greatest number of LIMIT.
const MOST_ROWS: u128 = 9_223_372_036_854_775_807;

fn check_filter(
    alloc: Global,
    check: Check,
    columns: &[TableColumn],
    filter: &Option<Boxed<Condition>>,
) -> Result<(), BindFault>
    ensures { AnswersFirst (filter_faults check columns.now filter.now) result }
{
    match filter {
        Some(condition) => check_condition(alloc, check, columns, condition.get()),
        None => Ok(()),
    }
}

fn check_shown(
    alloc: Global,
    columns: &[TableColumn],
    shown: &Option<Items<Name>>,
) -> Result<(), BindFault>
    ensures { AnswersFirst (shown_faults columns.now shown.now) result }
{
    match shown {
        Some(names) => check_all_known(alloc, columns, names.as_slice()),
        None => Ok(()),
    }
}

fn check_row_limit(limit: &Option<RowLimit>) -> Result<(), BindFault>
    ensures { AnswersFirst (limit_faults limit.now) result }
{
    match limit {
        Some(limit) => check_range(number(limit.digits.as_str()) > MOST_ROWS, limit.place),
        None => Ok(()),
    }
}

/// Refuses a name that no column has.
fn check_select_names(
    alloc: Global,
    columns: &[TableColumn],
    select: &Select,
) -> Result<(), BindFault>
    ensures { AnswersFirst (shown_faults columns.now select.now.columns ++ (filter_faults checks.Names columns.now select.now.filter ++ known (names_of columns.now) (part_names select.now.order))) result }
{
    check_shown(alloc, columns, &select.columns)?;
    check_filter(alloc, Check::Names, columns, &select.filter)?;
    check_all_known(alloc, columns, select.order.as_slice())
}

/// Refuses a query in which anything is wrong.
fn check_select(alloc: Global, columns: &[TableColumn], select: &Select) -> Result<(), BindFault>
    ensures limit { OnOk result (limit_faults select.now.limit ≡ []) }
    ensures faults { AnswersFirst (select_faults columns.now select.now) result }
{
    check_select_names(alloc, columns, select)?;
    check_filter(alloc, Check::Operands, columns, &select.filter)?;
    check_row_limit(&select.limit)
}

/// Refuses a DELETE in which anything is wrong.
fn check_delete(alloc: Global, columns: &[TableColumn], delete: &Delete) -> Result<(), BindFault>
    ensures { AnswersFirst (delete_faults columns.now delete.now) result }
{
    check_filter(alloc, Check::Names, columns, &delete.filter)?;
    check_filter(alloc, Check::Operands, columns, &delete.filter)
}

// ---- what they ask for

fn make_filter(
    alloc: Global,
    columns: &[TableColumn],
    filter: &Option<Boxed<Condition>>,
) -> Result<Option<Bound>, AllocError>
    requires { length columns.now ≤ 255 }
    ensures { IfOk result (λ f. f ≡ filter_of columns.now filter.now) }
{
    match filter {
        Some(condition) => match bound(alloc, columns, condition.get()) {
            Ok(condition) => Ok(Some(condition)),
            Err(fault) => Err(fault),
        },
        None => Ok(None),
    }
}

fn make_shown(
    alloc: Global,
    columns: &[TableColumn],
    shown: &Option<Items<Name>>,
) -> Result<Items<u8>, AllocError>
    requires { length columns.now ≤ 255 }
    ensures { IfOk result (λ places. places ≡ shown_of columns.now shown.now) }
{
    match shown {
        Some(names) => column_places(alloc, columns, names.as_slice()),
        None => all_columns(alloc, columns),
    }
}

fn row_limit(limit: &Option<RowLimit>) -> Option<u64>
    requires { limit_faults limit.now ≡ [] }
    ensures { result ≡ limit_of limit.now }
{
    match limit {
        Some(limit) => Some(number(limit.digits.as_str()) as u64),
        None => None,
    }
}

/// What is shown, and in what order.
fn make_lists(
    alloc: Global,
    columns: &[TableColumn],
    select: &Select,
) -> Result<(Items<u8>, Items<KeyPlace>), AllocError>
    requires { length columns.now ≤ 255 }
    ensures { IfOk result (λ lists. (lists.0 ≡ shown_of columns.now select.now.columns) × (lists.1 ≡ map (key_place (names_of columns.now)) select.now.order)) }
{
    let shown = make_shown(alloc, columns, &select.columns)?;
    match key_places(alloc, columns, select.order.as_slice()) {
        Ok(order) => Ok((shown, order)),
        Err(fault) => {
            drop(shown);
            Err(fault)
        }
    }
}

/// What a query asks for, with these hints.
fn make_query(
    alloc: Global,
    table: &Table,
    select: &Select,
    hints: Items<Hint>,
) -> Result<Query, AllocError>
    requires columns { length table.now.columns ≤ 255 }
    requires limit { limit_faults select.now.limit ≡ [] }
    ensures { IfOk result (λ q. q ≡ bound_query table.now hints select.now) }
{
    let columns = table.columns.as_slice();
    match make_lists(alloc, columns, select) {
        Ok((shown, order)) => match make_filter(alloc, columns, &select.filter) {
            Ok(filter) => Ok(Query {
                table: table.id,
                hints,
                shown,
                filter,
                order,
                limit: row_limit(&select.limit),
            }),
            Err(fault) => {
                drop(hints);
                drop(shown);
                drop(order);
                Err(fault)
            }
        },
        Err(fault) => {
            drop(hints);
            Err(fault)
        }
    }
}

/// The query that a SELECT asks for.
pub(crate) fn bind_select(alloc: Global, table: &Table, select: &Select) -> Result<Query, BindFault>
    requires { length table.now.columns ≤ 255 }
    ensures faults { AnswersFirst (select_faults table.now.columns select.now) result }
    ensures query { IfOk result (IsQuery table.now select.now) }
{
    check_select(alloc, table.columns.as_slice(), select)?;
    let hints = bind_hints(alloc, &table.name, &select.hint)?;
    match make_query(alloc, table, select, hints) {
        Ok(query) => Ok(query),
        Err(_) => Err(BindFault::Memory),
    }
}

/// The condition of a DELETE.
pub(crate) fn bind_delete(
    alloc: Global,
    columns: &[TableColumn],
    delete: &Delete,
) -> Result<Option<Bound>, BindFault>
    requires { length columns.now ≤ 255 }
    ensures faults { AnswersFirst (delete_faults columns.now delete.now) result }
    ensures filter { IfOk result (λ f. f ≡ filter_of columns.now delete.now.filter) }
{
    check_delete(alloc, columns, delete)?;
    match make_filter(alloc, columns, &delete.filter) {
        Ok(filter) => Ok(filter),
        Err(_) => Err(BindFault::Memory),
    }
}
