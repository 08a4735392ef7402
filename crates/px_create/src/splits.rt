// The split points of a new table.
ghost use Rattle.std.specs.Prelude.{◌≡◌, ◌++◌, ◌∷◌, [], All, IfOk, OnOk, map};
ghost use Rattle.std.specs.List.{flat_map};
ghost use Rattle.std.specs.Option.{option_copied};
ghost use Rattle.px_resolve.specs.Answers.{AnswersFirst};
ghost use Rattle.px_resolve.specs.Literals.{HasText, is_bad_text, literal_faults, range_if, value_of_literal};
ghost use Rattle.px_keys.specs.Spelling.{FitsColumn, part_bytes};
ghost use Rattle.px_values.specs.Types.{HasType};
ghost use Rattle.px_create.specs.Tables.{is_long, is_not_above, null_split, null_splits, point_faults, points_faults, split_keys, splits_faults};

use crate::first_key::FirstKey;
use px_ast::{Column, Literal};
use px_keys::{KeyColumn, Part, spell_front};
use px_resolve::fault::BindFault;
use px_resolve::literals::{check_range, check_text, check_value, is_null_literal, value, values};
use px_resolve::names::copied;
use px_values::{ColType, Items, Key, MOST_KEY, Value, compare};
use std::alloc::{AllocError, Global};
use std::cmp::Ordering;

/// Whether a point isn't above the one before.
fn is_below(column: KeyColumn, before: Option<&Value>, value: &Value) -> bool
    ensures { result ≡ is_not_above column (option_copied before.entry) value.now }
{
    match before {
        Some(before) => compare(before, value, column.direction) != Ordering::Less,
        None => false,
    }
}

/// Whether a point has more bytes than a key may have.
fn is_too_long(column: KeyColumn, value: &Value) -> bool
    ensures { result ≡ is_long column value.now }
{
    match (column.ty, value) {
        (ColType::Varchar, Value::Text(text)) => text.as_bytes().len() >= MOST_KEY,
        _ => false,
    }
}

/// Refuses a point that is no value of the column, isn't above the one before, or is too long.
fn check_point(
    column: KeyColumn,
    before: Option<&Value>,
    literal: &Literal,
    value: &Value,
) -> Result<(), BindFault>
    requires { value.now ≡ value_of_literal literal.now.constant }
    ensures { AnswersFirst (point_faults column (option_copied before.entry) literal.now) result }
{
    if let Err(fault) = check_value(column.ty, literal) {
        return Err(fault);
    }
    let wrong = is_below(column, before, value) || is_too_long(column, value);
    check_range(wrong, literal.place)
}

/// Refuses the first of these points that is wrong. `values` are what the literals are.
fn check_points(column: KeyColumn, literals: &[Literal], values: &[Value]) -> Result<(), BindFault>
    requires { values.now ≡ map (λ l. value_of_literal l.constant) literals.now }
    ensures { AnswersFirst (points_faults column None literals.now) result }
{
    let mut before = None;
    for (index, literal) in literals.iter().enumerate() {
        let value = &values[index];
        if let Err(fault) = check_point(column, before, literal, value) {
            return Err(fault);
        }
        before = Some(value);
    }
    Ok(())
}

/// Refuses the first literal that no column can have.
fn check_texts(literals: &[Literal]) -> Result<(), BindFault>
    ensures { AnswersFirst (flat_map (λ l. range_if (is_bad_text (value_of_literal l.constant)) l.place) literals.now) result }
{
    for literal in literals {
        check_text(literal)?;
    }
    Ok(())
}

/// Refuses the first split point that is wrong.
pub(crate) fn check_splits(
    alloc: Global,
    first: Option<FirstKey>,
    literals: &[Literal],
) -> Result<(), BindFault>
    ensures { AnswersFirst (splits_faults first literals.now) result }
{
    let Some(first) = first else {
        return check_texts(literals);
    };
    let values = values(alloc, literals)?;
    let found = check_points(first.column, literals, values.as_slice());
    drop(values);
    found
}

/// Refuses NULL as a split point where the first key column may not be NULL.
fn check_null_split(
    alloc: Global,
    columns: &[Column],
    first: FirstKey,
    literal: &Literal,
) -> Result<(), BindFault>
    ensures { AnswersFirst (null_split columns.now first literal.now) result }
{
    if !is_null_literal(literal) || first.column.may_be_null {
        return Ok(());
    }
    match columns.get(first.place) {
        Some(column) => Err(BindFault::NullKey(copied(alloc, &column.name)?)),
        None => Ok(()),
    }
}

/// Refuses the first NULL among the split points where the first key column may not be NULL.
pub(crate) fn check_null_splits(
    alloc: Global,
    columns: &[Column],
    first: Option<FirstKey>,
    literals: &[Literal],
) -> Result<(), BindFault>
    ensures { AnswersFirst (null_splits columns.now first literals.now) result }
{
    let Some(first) = first else {
        return Ok(());
    };
    for literal in literals {
        check_null_split(alloc, columns, first, literal)?;
    }
    Ok(())
}

/// Whether a value's text is UTF-8, as each is.
fn has_text(value: &Value)
    ensures { HasText value.now }
{
    if let Value::Text(text) = value {
        let _text = text.as_str();
    }
}

/// The column as one that may be NULL where the value is NULL, whose bytes are the same there.
fn fitting(column: KeyColumn, value: &Value) -> KeyColumn
    requires { HasType column.ty value.now }
    ensures fits { FitsColumn result value.now }
    ensures same { part_bytes result value.now ≡ part_bytes column value.now }
{
    match value {
        Value::Null => KeyColumn {
            ty: column.ty,
            direction: column.direction,
            may_be_null: true,
        },
        _ => column,
    }
}

/// A split point as a key part.
fn split_key(alloc: Global, column: KeyColumn, literal: &Literal) -> Result<Key, AllocError>
    requires { literal_faults column.ty literal.now ≡ [] }
    ensures { IfOk result (λ key. key ≡ part_bytes column (value_of_literal literal.now.constant)) }
{
    let value = value(alloc, &literal.constant)?;
    has_text(&value);
    let part = Part {
        column: fitting(column, &value),
        value: &value,
    };
    let bytes = spell_front(alloc, &[part]);
    drop(value);
    match bytes {
        Ok(bytes) => Ok(Key::of(bytes)),
        Err(fault) => Err(fault),
    }
}

/// Adds the split points as key parts.
fn add_split_keys(
    alloc: Global,
    keys: &mut Vec<Key>,
    column: KeyColumn,
    literals: &[Literal],
) -> Result<(), AllocError>
    requires { All (λ l. literal_faults column.ty l ≡ []) literals.now }
    ensures { OnOk result (keys.new.items ≡ keys.old.items ++ map (λ l. part_bytes column (value_of_literal l.constant)) literals.now) }
{
    for literal in literals {
        keys.push(split_key(alloc, column, literal)?)?;
    }
    Ok(())
}

/// The least key of each region: none of the first, and the split points of the others.
pub(crate) fn least_keys(
    alloc: Global,
    first: Option<FirstKey>,
    literals: &[Literal],
) -> Result<Items<Key>, AllocError>
    requires { splits_faults first literals.now ≡ [] }
    ensures { IfOk result (λ keys. keys ≡ [] ∷ split_keys first literals.now) }
{
    let mut keys = Vec::new(alloc);
    keys.push(Key::of(Vec::new(alloc)))?;
    let Some(first) = first else {
        return Ok(Items::of(keys));
    };
    match add_split_keys(alloc, &mut keys, first.column, literals) {
        Ok(()) => Ok(Items::of(keys)),
        Err(fault) => {
            drop(keys);
            Err(fault)
        }
    }
}
