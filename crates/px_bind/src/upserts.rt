// UPSERT.
ghost use Rattle.std.specs.Prelude.{◌≡◌, ◌≤◌, ◌++◌, ◌∷◌, [], All, IfOk, OnOk, length, map, nat_eq, not};
ghost use Rattle.std.specs.List.{flat_map, slice_get};
ghost use Rattle.std.specs.Option.{option_copied, option_to_list};
ghost use Rattle.px_resolve.specs.Answers.{AnswersFirst};
ghost use Rattle.px_resolve.specs.Literals.{is_null, mismatch_if, value_of_literal};
ghost use Rattle.px_bind.specs.Upserts.{assignment_of, assignments_of, given, given_faults, is_key, list_faults, named, null_key, position_of, upsert_change, upsert_faults, value_faults};

use px_ast::{Literal, Upsert};
use px_resolve::fault::BindFault;
use px_resolve::literals::{check_value, is_null_literal, value};
use px_resolve::names::{all_places, bind_once, copied, may_be_null};
use px_tables::{KeyPlace, Table, TableColumn};
use px_values::{Assignment, Assignments, Change, ColType, Row, Value, What};
use std::alloc::{AllocError, Global};

/// The columns that an UPSERT names, as places: all of the table where it has no list.
fn bind_columns(alloc: Global, table: &Table, upsert: &Upsert) -> Result<Vec<usize>, BindFault>
    ensures faults { AnswersFirst (list_faults table.now upsert.now.columns) result }
    ensures places { IfOk result (λ places. places.items ≡ named table.now upsert.now) }
    ensures bound { IfOk result (λ places. All (λ p. p ≤ length table.now.columns) places.items) }
{
    match &upsert.columns {
        Some(names) => bind_once(alloc, table.columns.as_slice(), &[], names.as_slice()),
        None => match all_places(alloc, table.columns.as_slice()) {
            Ok(places) => Ok(places),
            Err(_) => Err(BindFault::Memory),
        },
    }
}

/// Refuses a literal that can't be a value of the column at a place.
fn check_given(columns: &[TableColumn], place: usize, literal: &Literal) -> Result<(), BindFault>
    ensures { AnswersFirst (value_faults columns.now place literal.now) result }
{
    match columns.get(place) {
        Some(column) => check_value(column.column_type, literal),
        None => Ok(()),
    }
}

/// Refuses the first of these literals that can't be a value of its column.
fn check_all_given(
    columns: &[TableColumn],
    places: &[usize],
    values: &[Literal],
) -> Result<(), BindFault>
    requires { length values.now ≤ length places.now }
    ensures { AnswersFirst (given_faults columns.now places.now values.now) result }
{
    for (index, literal) in values.iter().enumerate() {
        if let Err(fault) = check_given(columns, places[index], literal) {
            return Err(fault);
        }
    }
    Ok(())
}

/// Where a place stands among these, or their number where it is none of them.
fn find_position(places: &[usize], place: usize) -> usize
    ensures { result ≡ position_of places.now place }
{
    for (index, other) in places.iter().enumerate() {
        if *other == place {
            return index;
        }
    }
    places.len()
}

/// The literal that is given for the column at a place.
fn given_literal<'a>(places: &[usize], values: &'a [Literal], place: usize) -> Option<&'a Literal>
    ensures { option_copied result ≡ slice_get values.now (position_of places.now place) }
{
    values.get(find_position(places, place))
}

/// Whether NULL is given for the column at a place, or nothing.
fn is_null_given(places: &[usize], values: &[Literal], place: usize) -> bool
    ensures { result ≡ is_null (given places.now values.now place) }
{
    match given_literal(places, values, place) {
        Some(literal) => is_null_literal(literal),
        None => true,
    }
}

/// The value that is given for the column at a place; NULL where none is.
fn given_value(
    alloc: Global,
    places: &[usize],
    values: &[Literal],
    place: usize,
) -> Result<Value, AllocError>
    ensures { IfOk result (λ v. v ≡ given places.now values.now place) }
{
    match given_literal(places, values, place) {
        Some(literal) => value(alloc, &literal.constant),
        None => Ok(Value::Null),
    }
}

/// Refuses NULL for a key column that may not be NULL.
fn check_key_column(
    alloc: Global,
    columns: &[TableColumn],
    places: &[usize],
    values: &[Literal],
    part: KeyPlace,
) -> Result<(), BindFault>
    ensures { AnswersFirst (null_key columns.now places.now values.now part) result }
{
    match columns.get(part.column as usize) {
        Some(column) => {
            if is_null_given(places, values, part.column as usize)
                && !may_be_null(column.column_type, column.not_null)
            {
                return Err(BindFault::NullKey(copied(alloc, &column.name)?));
            }
            Ok(())
        }
        None => Ok(()),
    }
}

/// Refuses the first key column that may not be NULL, and is.
fn check_key(
    alloc: Global,
    columns: &[TableColumn],
    key: &[KeyPlace],
    places: &[usize],
    values: &[Literal],
) -> Result<(), BindFault>
    ensures { AnswersFirst (flat_map (null_key columns.now places.now values.now) key.now) result }
{
    for part in key {
        if let Err(fault) = check_key_column(alloc, columns, places, values, *part) {
            return Err(fault);
        }
    }
    Ok(())
}

/// Refuses values of another number than the columns.
fn check_count(upsert: &Upsert, places: usize) -> Result<(), BindFault>
    ensures count { OnOk result (length upsert.now.values ≡ places) }
    ensures faults { AnswersFirst (mismatch_if (not (nat_eq (length upsert.now.values) places)) upsert.now.values_place) result }
{
    if upsert.values.as_slice().len() != places {
        return Err(BindFault::Mismatch {
            place: upsert.values_place,
        });
    }
    Ok(())
}

/// Refuses values that can't be those of the columns at these places.
fn check_values(
    alloc: Global,
    table: &Table,
    upsert: &Upsert,
    places: &[usize],
) -> Result<(), BindFault>
    ensures count { OnOk result (length upsert.now.values ≡ length places.now) }
    ensures faults { AnswersFirst (mismatch_if (not (nat_eq (length upsert.now.values) (length places.now))) upsert.now.values_place ++ (given_faults table.now.columns places.now upsert.now.values ++ flat_map (null_key table.now.columns places.now upsert.now.values) table.now.key)) result }
{
    check_count(upsert, places.len())?;
    check_all_given(table.columns.as_slice(), places, upsert.values.as_slice())?;
    check_key(
        alloc,
        table.columns.as_slice(),
        table.key.as_slice(),
        places,
        upsert.values.as_slice(),
    )
}

// ---- what it asks for

fn is_key_column(key: &[KeyPlace], place: usize) -> bool
    ensures { result ≡ is_key key.now place }
{
    key.iter().any(|part| part.column as usize == place)
}

/// The values of the key, in its order.
fn key_row(
    alloc: Global,
    table: &Table,
    places: &[usize],
    values: &[Literal],
) -> Result<Row, AllocError>
    ensures { IfOk result (λ row. row ≡ map (λ k. given places.now values.now k.column) table.now.key) }
{
    let key = table.key.as_slice();
    let mut row = Vec::with_capacity(alloc, key.len())?;
    for part in key {
        match given_value(alloc, places, values, part.column as usize) {
            Ok(value) => row.push(value)?,
            Err(fault) => {
                drop(row);
                return Err(fault);
            }
        }
    }
    Ok(Row::of(row))
}

/// The assignment of a value to the column at a place, where that isn't one of the key.
fn assignment(
    alloc: Global,
    key: &[KeyPlace],
    place: usize,
    literal: &Literal,
) -> Result<Option<Assignment>, AllocError>
    requires { place ≤ 255 }
    ensures { IfOk result (λ a. option_to_list a ≡ assignment_of key.now place literal.now) }
{
    if is_key_column(key, place) {
        return Ok(None);
    }
    match value(alloc, &literal.constant) {
        Ok(value) => Ok(Some(Assignment {
            column: place as u8,
            value,
        })),
        Err(fault) => Err(fault),
    }
}

/// An assignment for each column but those of the key, in text order.
fn assignments(
    alloc: Global,
    key: &[KeyPlace],
    places: &[usize],
    values: &[Literal],
) -> Result<Assignments, AllocError>
    requires count { length values.now ≡ length places.now }
    requires bound { All (λ p. p ≤ 255) places.now }
    ensures { IfOk result (λ found. found ≡ assignments_of key.now places.now values.now) }
{
    let mut found = Vec::with_capacity(alloc, values.len())?;
    for (index, literal) in values.iter().enumerate() {
        match assignment(alloc, key, places[index], literal) {
            Ok(Some(assignment)) => found.push(assignment)?,
            Ok(None) => {}
            Err(fault) => {
                drop(found);
                return Err(fault);
            }
        }
    }
    Ok(Assignments::of(found))
}

/// The change that values make.
fn change(
    alloc: Global,
    table: &Table,
    places: &[usize],
    values: &[Literal],
) -> Result<Change, AllocError>
    requires count { length values.now ≡ length places.now }
    requires bound { All (λ p. p ≤ 255) places.now }
    ensures { IfOk result (λ c. c ≡ record { row = map (λ k. given places.now values.now k.column) table.now.key; what = What.Set (assignments_of table.now.key places.now values.now) }) }
{
    let row = key_row(alloc, table, places, values)?;
    match assignments(alloc, table.key.as_slice(), places, values) {
        Ok(assignments) => Ok(Change {
            row,
            what: What::Set(assignments),
        }),
        Err(fault) => {
            drop(row);
            Err(fault)
        }
    }
}

/// The change that an UPSERT asks for.
pub(crate) fn bind_upsert(
    alloc: Global,
    table: &Table,
    upsert: &Upsert,
) -> Result<Change, BindFault>
    requires { length table.now.columns ≤ 255 }
    ensures faults { AnswersFirst (upsert_faults table.now upsert.now) result }
    ensures change { IfOk result (λ c. c ≡ upsert_change table.now upsert.now) }
{
    let places = bind_columns(alloc, table, upsert)?;
    check_values(alloc, table, upsert, places.as_slice())?;
    match change(alloc, table, places.as_slice(), upsert.values.as_slice()) {
        Ok(change) => Ok(change),
        Err(_) => Err(BindFault::Memory),
    }
}
