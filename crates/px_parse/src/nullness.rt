// NOT NULL at columns outside the key.
ghost use Rattle.std.specs.Prelude.{◌≡◌, List, ℕ, IfOk};
ghost use Rattle.std.specs.BTreeSet.{contains_text};
ghost use Rattle.std.specs.List.{list_any};
ghost use Rattle.px_parse.specs.Nullness as spec;

use px_ast::{Column, CreateTable, KeyConstraint, KeyPart, Statement};
use std::alloc::{AllocError, Global};
use std::collections::BTreeSet;

/// The names of the columns in these parts.
fn names_of(alloc: Global, parts: &[KeyPart]) -> Result<BTreeSet<String>, AllocError>
    ensures { IfOk result (λ names. (name : List ℕ) → contains_text names name ≡ spec.names_column parts.now name) }
{
    let mut names = BTreeSet::new(alloc);
    for part in parts {
        names.insert(String::from_str(alloc, part.column.as_str())?)?;
    }
    Ok(names)
}

/// The names of the columns in the constraint.
fn constrained(
    alloc: Global,
    constraint: &Option<KeyConstraint>,
) -> Result<BTreeSet<String>, AllocError>
    ensures { IfOk result (λ names. (name : List ℕ) → contains_text names name ≡ spec.in_constraint constraint.now name) }
{
    match constraint {
        None => Ok(BTreeSet::new(alloc)),
        Some(constraint) => names_of(alloc, constraint.parts.as_slice()),
    }
}

/// Whether NOT NULL stands at a column without PRIMARY KEY, so that the constraint decides.
fn is_in_doubt(column: &Column) -> bool
    ensures { result ≡ spec.is_in_doubt column.now }
{
    column.not_null && column.key.is_none()
}

fn has_doubts(columns: &[Column]) -> bool
    ensures { result ≡ list_any spec.is_in_doubt columns.now }
{
    columns.iter().any(|column| is_in_doubt(column))
}

/// The constraint's names are sorted once, and only where they decide.
fn forbids_null(alloc: Global, table: &CreateTable) -> Result<bool, AllocError>
    ensures { IfOk result (λ forbids. forbids ≡ spec.forbids_null table.now) }
{
    let columns = table.columns.as_slice();
    if !has_doubts(columns) {
        return Ok(false);
    }
    let names = constrained(alloc, &table.constraint)?;
    Ok(columns.iter().any(|column| is_in_doubt(column) && !names.contains(column.name.as_str())))
}

/// Whether NOT NULL is written at a column outside the key.
pub fn forbids_null_outside_key(alloc: Global, read: &Statement) -> Result<bool, AllocError>
    ensures { IfOk result (λ forbids. forbids ≡ spec.forbids_null_outside_key read.now) }
{
    match read {
        Statement::CreateTable(table) => forbids_null(alloc, table),
        _ => Ok(false),
    }
}
