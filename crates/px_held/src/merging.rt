// Two changes of a row, merged into one.
ghost use Rattle.std.specs.Prelude.{◌≡◌, ◌≤◌, ◌++◌, IfOk, OnOk, length, map};
ghost use Rattle.px_trail.specs.Trail.{table_shape};
ghost use Rattle.px_held.specs.Merged as spec;

use px_tables::{KeyPlace, Table};
use px_values::{Assignment, Assignments, Items, Value, What};
use std::alloc::{AllocError, Global};

/// Whether one of the assignments is of this column.
fn names(assignments: &[Assignment], column: u8) -> bool
    ensures { result ≡ spec.assigns_column assignments.now column }
{
    assignments.iter().any(|a| a.column == column)
}

/// Adds to a list copies of those assignments whose column isn't named later.
fn add_unnamed(
    alloc: Global,
    earlier: &[Assignment],
    later: &[Assignment],
    list: &mut Vec<Assignment>,
) -> Result<(), AllocError>
    ensures { OnOk result (list.new.items ≡ list.old.items ++ spec.unnamed earlier.now later.now) }
{
    for assignment in earlier {
        if !names(later, assignment.column) {
            let value = assignment.value.copied(alloc)?;
            list.push(Assignment {
                column: assignment.column,
                value,
            })?;
        }
    }
    Ok(())
}

fn add_all(assignments: Assignments, list: &mut Vec<Assignment>) -> Result<(), AllocError>
    ensures { OnOk result (list.new.items ≡ list.old.items ++ assignments) }
{
    for assignment in assignments.into_vec() {
        list.push(assignment)?;
    }
    Ok(())
}

/// All assignments: of a column that both name the later one.
fn joined(
    alloc: Global,
    earlier: &[Assignment],
    later: Assignments,
) -> Result<Assignments, AllocError>
    ensures { IfOk result (λ all. all ≡ spec.joined_assignments earlier.now later) }
{
    let mut list = Vec::new(alloc);
    add_unnamed(alloc, earlier, later.as_slice(), &mut list)?;
    add_all(later, &mut list)?;
    Ok(Items::of(list))
}

/// Whether the column is one of the key.
fn is_of_key(key: &[KeyPlace], column: u8) -> bool
    ensures { result ≡ spec.is_in_key key.now column }
{
    key.iter().any(|place| place.column == column)
}

/// Adds NULL for the column, where it isn't one of the key.
fn add_null(key: &[KeyPlace], column: u8, list: &mut Vec<Assignment>) -> Result<(), AllocError>
    ensures { OnOk result (list.new.items ≡ list.old.items ++ spec.null_outside key.now column) }
{
    if !is_of_key(key, column) {
        list.push(Assignment {
            column,
            value: Value::Null,
        })?;
    }
    Ok(())
}

/// NULL for each column outside the key.
fn nulls(alloc: Global, table: &Table) -> Result<Assignments, AllocError>
    requires { length table.now.columns ≤ 255 }
    ensures { IfOk result (λ all. all ≡ spec.nulls (table_shape table.now)) }
{
    let mut list = Vec::new(alloc);
    for column in 0..table.columns.as_slice().len() as u8 {
        add_null(table.key.as_slice(), column, &mut list)?;
    }
    Ok(Items::of(list))
}

/// The values of a row that is set, where it was removed before: each column outside the key that isn't named is NULL.
fn set_anew(alloc: Global, table: &Table, later: Assignments) -> Result<What, AllocError>
    requires { length table.now.columns ≤ 255 }
    ensures { IfOk result (λ what. what ≡ What.Set (spec.joined_assignments (spec.nulls (table_shape table.now)) later)) }
{
    match nulls(alloc, table) {
        Ok(nulls) => Ok(What::Set(joined(alloc, nulls.as_slice(), later)?)),
        Err(fault) => {
            drop(later);
            Err(fault)
        }
    }
}

/// One change of a row of the table for two, of which the first was held before the second.
pub fn merged(alloc: Global, table: &Table, earlier: &What, later: What) -> Result<What, AllocError>
    requires { length table.now.columns ≤ 255 }
    ensures { IfOk result (λ what. what ≡ spec.merged (table_shape table.now) earlier.now later) }
{
    match later {
        What::Gone => Ok(What::Gone),
        What::Set(later) => match earlier {
            What::Gone => set_anew(alloc, table, later),
            What::Set(earlier) => Ok(What::Set(joined(alloc, earlier.as_slice(), later)?)),
        },
    }
}
