// CREATE TABLE.
ghost use Rattle.std.specs.Prelude.{◌≡◌, ◌≤◌, ◌+◌, ◌++◌, ◌∷◌, [], false, IfOk, OnOk, length, map};
ghost use Rattle.std.specs.List.{flat_map};
ghost use Rattle.px_resolve.specs.Answers.{AnswersFirst};
ghost use Rattle.px_create.specs.Limits.{limit_passed, name_limit};
ghost use Rattle.px_create.specs.Tables.{first_key_column, key_of, split_keys, splits_faults, constraint_faults, constraint_limit, is_keyed_inline, keyless, limits_of_table, named_before, null_faults, new_column, new_names, new_table, repeated, table_faults, table_name_faults, twice_if};

use crate::first_key::{FirstKey, first_key, has_key, make_key};
use crate::limits::{check_limit, check_name_limit};
use crate::splits::{check_null_splits, check_splits, least_keys};
use px_ast::{Column, CreateTable, KeyConstraint};
use px_resolve::fault::BindFault;
use px_resolve::names::{bind_once, copied, find_place};
use px_tables::{KeyPlace, NewTable, TableColumn};
use px_values::{Items, Key, Limit, Name};
use std::alloc::{AllocError, Global};

fn check_column(alloc: Global, column: &Column, twice: bool) -> Result<(), BindFault>
    ensures { AnswersFirst (twice_if twice column.now.name) result }
{
    if twice {
        return Err(BindFault::Twice(copied(alloc, &column.name)?));
    }
    Ok(())
}

/// Refuses the first column whose name an earlier one has, or with a primary key where one stands before.
fn check_columns(alloc: Global, columns: &[Column]) -> Result<(), BindFault>
    ensures { AnswersFirst (repeated (new_names columns.now) 0 false columns.now) result }
{
    let mut keyed = false;
    for (place, column) in columns.iter().enumerate() {
        let twice = find_place(columns, &column.name) < place || (keyed && column.key.is_some());
        check_column(alloc, column, twice)?;
        keyed = keyed || column.key.is_some();
    }
    Ok(())
}

fn has_inline_key(columns: &[Column]) -> bool
    ensures { result ≡ is_keyed_inline columns.now }
{
    columns.iter().any(|column| column.key.is_some())
}

/// The place of a constraint's first column, where a column has the primary key.
fn places_before(
    alloc: Global,
    columns: &[Column],
    constraint: &KeyConstraint,
) -> Result<Vec<usize>, AllocError>
    ensures { IfOk result (λ places. places.items ≡ named_before columns.now constraint.now) }
{
    let mut places = Vec::new(alloc);
    if has_inline_key(columns) {
        if let Some(part) = constraint.parts.as_slice().first() {
            places.push(find_place(columns, &part.column))?;
        }
    }
    Ok(places)
}

fn check_constraint(
    alloc: Global,
    columns: &[Column],
    constraint: &Option<KeyConstraint>,
) -> Result<(), BindFault>
    ensures { AnswersFirst (constraint_faults columns.now constraint.now) result }
{
    let Some(constraint) = constraint else {
        return Ok(());
    };
    let before = places_before(alloc, columns, constraint)?;
    drop(bind_once(
        alloc,
        columns,
        before.as_slice(),
        constraint.parts.as_slice(),
    )?);
    Ok(())
}

/// Refuses a table without a primary key.
fn check_keyed(alloc: Global, statement: &CreateTable) -> Result<(), BindFault>
    ensures { AnswersFirst (keyless statement.now) result }
{
    if has_key(statement) {
        return Ok(());
    }
    match statement.columns.as_slice().first() {
        Some(column) => Err(BindFault::NullKey(copied(alloc, &column.name)?)),
        None => Ok(()),
    }
}

fn check_column_names(columns: &[Column]) -> Result<(), BindFault>
    ensures { AnswersFirst (flat_map (λ c. name_limit c.name) columns.now) result }
{
    for column in columns {
        check_name_limit(&column.name)?;
    }
    Ok(())
}

fn check_constraint_name(constraint: &Option<KeyConstraint>) -> Result<(), BindFault>
    ensures { AnswersFirst (constraint_limit constraint.now) result }
{
    match constraint {
        Some(constraint) => check_name_limit(&constraint.name),
        None => Ok(()),
    }
}

/// Refuses counts that are too great.
fn check_counts(statement: &CreateTable) -> Result<(), BindFault>
    ensures columns { OnOk result (length statement.now.columns ≤ 64) }
    ensures faults { AnswersFirst (limit_passed Limit.Columns (length statement.now.columns) ++ limit_passed Limit.Regions (length statement.now.splits + 1)) result }
{
    check_limit(Limit::Columns, statement.columns.as_slice().len() as u64)?;
    check_limit(Limit::Regions, statement.splits.as_slice().len() as u64 + 1)
}

fn check_limits(statement: &CreateTable) -> Result<(), BindFault>
    ensures columns { OnOk result (length statement.now.columns ≤ 64) }
    ensures faults { AnswersFirst (limits_of_table statement.now) result }
{
    check_name_limit(&statement.name)?;
    check_column_names(statement.columns.as_slice())?;
    check_constraint_name(&statement.constraint)?;
    check_counts(statement)
}

fn check_names(alloc: Global, statement: &CreateTable) -> Result<(), BindFault>
    ensures { AnswersFirst (table_name_faults statement.now) result }
{
    let columns = statement.columns.as_slice();
    check_columns(alloc, columns)?;
    check_constraint(alloc, columns, &statement.constraint)
}

/// Refuses a table without a primary key, and NULL as a split point where the key may not be NULL.
fn check_nulls(
    alloc: Global,
    statement: &CreateTable,
    first: Option<FirstKey>,
) -> Result<(), BindFault>
    requires { first ≡ first_key_column statement.now }
    ensures { AnswersFirst (null_faults statement.now) result }
{
    check_keyed(alloc, statement)?;
    check_null_splits(
        alloc,
        statement.columns.as_slice(),
        first,
        statement.splits.as_slice(),
    )
}

/// Refuses a CREATE TABLE in which anything is wrong.
fn check_table(alloc: Global, statement: &CreateTable) -> Result<(), BindFault>
    ensures columns { OnOk result (length statement.now.columns ≤ 64) }
    ensures splits { OnOk result (splits_faults (first_key_column statement.now) statement.now.splits ≡ []) }
    ensures faults { AnswersFirst (table_faults statement.now) result }
{
    check_names(alloc, statement)?;
    let first = first_key(statement);
    check_splits(alloc, first, statement.splits.as_slice())?;
    check_nulls(alloc, statement, first)?;
    check_limits(statement)
}

fn new_table_column(alloc: Global, column: &Column) -> Result<TableColumn, AllocError>
    ensures { IfOk result (λ c. c ≡ new_column column.now) }
{
    let name = copied(alloc, &column.name)?;
    Ok(TableColumn {
        name,
        column_type: column.column_type,
        not_null: column.not_null,
    })
}

fn make_columns(alloc: Global, columns: &[Column]) -> Result<Items<TableColumn>, AllocError>
    ensures { IfOk result (λ cs. cs ≡ map new_column columns.now) }
{
    let mut made = Vec::with_capacity(alloc, columns.len())?;
    for column in columns {
        match new_table_column(alloc, column) {
            Ok(column) => made.push(column)?,
            Err(fault) => {
                drop(made);
                return Err(fault);
            }
        }
    }
    Ok(Items::of(made))
}

/// The name and the columns of a new table.
fn make_head(
    alloc: Global,
    statement: &CreateTable,
) -> Result<(Name, Items<TableColumn>), AllocError>
    ensures { IfOk result (λ head. (head.0 ≡ statement.now.name) × (head.1 ≡ map new_column statement.now.columns)) }
{
    let name = copied(alloc, &statement.name)?;
    match make_columns(alloc, statement.columns.as_slice()) {
        Ok(columns) => Ok((name, columns)),
        Err(fault) => {
            drop(name);
            Err(fault)
        }
    }
}

/// The key and the least keys of a new table.
fn make_keys(
    alloc: Global,
    statement: &CreateTable,
) -> Result<(Items<KeyPlace>, Items<Key>), AllocError>
    requires columns { length statement.now.columns ≤ 255 }
    requires splits { splits_faults (first_key_column statement.now) statement.now.splits ≡ [] }
    ensures { IfOk result (λ keys. (keys.0 ≡ key_of statement.now) × (keys.1 ≡ [] ∷ split_keys (first_key_column statement.now) statement.now.splits)) }
{
    let key = make_key(alloc, statement)?;
    match least_keys(alloc, first_key(statement), statement.splits.as_slice()) {
        Ok(least_keys) => Ok((key, least_keys)),
        Err(fault) => {
            drop(key);
            Err(fault)
        }
    }
}

fn make_table(alloc: Global, statement: &CreateTable) -> Result<NewTable, AllocError>
    requires columns { length statement.now.columns ≤ 255 }
    requires splits { splits_faults (first_key_column statement.now) statement.now.splits ≡ [] }
    ensures { IfOk result (λ t. t ≡ new_table statement.now) }
{
    let (name, columns) = make_head(alloc, statement)?;
    match make_keys(alloc, statement) {
        Ok((key, least_keys)) => Ok(NewTable {
            name,
            columns,
            key,
            least_keys,
        }),
        Err(fault) => {
            drop(name);
            drop(columns);
            Err(fault)
        }
    }
}

/// The table that a CREATE TABLE asks for.
pub fn bind_table(alloc: Global, statement: &CreateTable) -> Result<NewTable, BindFault>
    ensures faults { AnswersFirst (table_faults statement.now) result }
    ensures table { IfOk result (λ t. t ≡ new_table statement.now) }
{
    check_table(alloc, statement)?;
    match make_table(alloc, statement) {
        Ok(table) => Ok(table),
        Err(_) => Err(BindFault::Memory),
    }
}
