// Whether changes fit.
ghost use Rattle.std.specs.Prelude.{◌≡◌, ◌≢◌, true, false, map};
ghost use Rattle.std.specs.List.{AllByRecursion};
ghost use Rattle.px_keys.specs.Spelling.{Fits, FitsColumn};
ghost use Rattle.px_paths.specs.Paths.{columns_on, is_keyed as is_keyed_of, key_part};
ghost use Rattle.px_calls.specs.Requires.{AreOnce, AssignsOnce, AssignsTo, IsChangeOf};
ghost use Rattle.px_values.specs.declared.row.Value.TheVariants.{Null};
ghost use Rattle.px_fitting.specs.Assigned.{IsAssignedTo};

use px_keys::{KeyColumn, Part};
use px_tables::{KeyPlace, Table, TableColumn};
use px_values::{Assignment, Change, ColType, Direction, Value, What};

/// Whether a value may stand in a column where it is NULL.
fn null_allowed(column: KeyColumn, value: &Value) -> bool
    ensures { result ≡ true → value.now ≡ Null → column.may_be_null ≡ true }
{
    match value {
        Value::Null => column.may_be_null,
        _ => true,
    }
}

fn fits_column(column: KeyColumn, value: &Value) -> bool
    ensures { result ≡ true → FitsColumn column value.now }
{
    Part { column, value }.can_stand() && null_allowed(column, value)
}

/// The column of a part of the key.
fn key_column(columns: &[TableColumn], part: KeyPlace) -> KeyColumn
    ensures { result ≡ (key_part columns.now part).column }
{
    match columns.get(part.column as usize) {
        Some(column) => KeyColumn {
            ty: column.column_type,
            direction: part.direction,
            may_be_null: column.column_type == ColType::Varchar && !column.not_null,
        },
        None => KeyColumn {
            ty: ColType::Varchar,
            direction: part.direction,
            may_be_null: true,
        },
    }
}

/// Whether these are values of a key.
fn fits_key(columns: &[TableColumn], key: &[KeyPlace], row: &[Value]) -> bool
    ensures { result ≡ true → Fits (columns_on (map (key_part columns.now) key.now)) row.now }
{
    match key {
        [] => row.is_empty(),
        [part, parts @ ..] => match row {
            [] => false,
            [value, values @ ..] => {
                fits_column(key_column(columns, *part), value) && fits_key(columns, parts, values)
            }
        },
    }
}

fn is_keyed(key: &[KeyPlace], place: u8) -> bool
    ensures { result ≡ is_keyed_of key.now place }
{
    key.iter().any(|part| part.column == place)
}

/// Whether the column stands outside the key, and the value is of its type.
fn is_assigned_to(columns: &[TableColumn], key: &[KeyPlace], assignment: &Assignment) -> bool
    ensures { result ≡ true → IsAssignedTo columns.now key.now assignment.now }
{
    match columns.get(assignment.column as usize) {
        Some(column) => {
            let column = KeyColumn {
                ty: column.column_type,
                direction: Direction::Ascending,
                may_be_null: true,
            };
            !is_keyed(key, assignment.column) && fits_column(column, &assignment.value)
        }
        None => false,
    }
}

fn are_assigned_to(table: &Table, assignments: &[Assignment]) -> bool
    ensures { result ≡ true → AssignsTo table.now assignments.now }
{
    match assignments {
        [] => true,
        [first, others @ ..] => {
            is_assigned_to(table.columns.as_slice(), table.key.as_slice(), first)
                && are_assigned_to(table, others)
        }
    }
}

/// Whether one of them is of this column.
fn names(assignments: &[Assignment], column: u8) -> bool
    ensures { result ≡ false → AllByRecursion (λ m. m ≢ column) (map (λ a. a.column) assignments.now) }
{
    match assignments {
        [] => false,
        [first, others @ ..] => first.column == column || names(others, column),
    }
}

/// Whether each column is assigned once.
#[tactic(auto, unfolding(px_calls::specs::Requires::AreOnce))]
fn are_once(assignments: &[Assignment]) -> bool
    ensures { result ≡ true → AreOnce (map (λ a. a.column) assignments.now) }
{
    match assignments {
        [] => true,
        [first, others @ ..] => !names(others, first.column) && are_once(others),
    }
}

fn fits_what(table: &Table, what: &What) -> bool
    ensures { result ≡ true → AssignsOnce table.now what.now }
{
    match what {
        What::Set(assignments) => {
            are_assigned_to(table, assignments.as_slice()) && are_once(assignments.as_slice())
        }
        What::Gone => true,
    }
}

/// Whether the change is one of a row of the table.
pub fn fits(table: &Table, change: &Change) -> bool
    ensures { result ≡ true → IsChangeOf table.now change.now }
{
    fits_key(
        table.columns.as_slice(),
        table.key.as_slice(),
        change.row.as_slice(),
    ) && fits_what(table, &change.what)
}
