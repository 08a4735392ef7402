// The bytes of values in cells, worked out by hand, and what they are read as.
use px_keys::{KeyColumn, Part};
use px_rows::{read_value, stored_value};
use px_values::{ColType, Direction, Text, Value, compare};
use std::alloc::{AllocError, Global};
use std::cmp::Ordering;
use std::process::Abort;
use std::test::Fail;

/// Whether the value has these bytes in a cell, and is read again.
fn is_stored(
    alloc: Global,
    ty: ColType,
    value: &Value,
    expected: &[u8],
) -> Result<bool, AllocError> {
    let column = KeyColumn {
        ty,
        direction: Direction::Ascending,
        may_be_null: false,
    };
    let part = Part { column, value };
    if !part.can_stand() {
        return Ok(false);
    }
    if let Value::Null = value {
        return Ok(false);
    }
    let bytes = stored_value(alloc, ty, value)?;
    let same = bytes.as_slice() == expected;
    drop(bytes);
    let read = read_value(alloc, ty, expected)?;
    let again = compare(&read, value, Direction::Ascending) == Ordering::Equal;
    drop(read);
    Ok(same && again)
}

fn number(
    rt: &impl Abort,
    alloc: Global,
    ty: ColType,
    number: i128,
    expected: &[u8],
) -> Result<(), Fail> {
    assert!(rt;
        is_stored(alloc, ty, &Value::Number(number), expected)?,
        "{number}"
    );
    Ok(())
}

fn text(rt: &impl Abort, alloc: Global, text: &str) -> Result<(), Fail> {
    let value = Value::Text(Text::from_str(alloc, text)?);
    let stored = is_stored(alloc, ColType::Varchar, &value, text.as_bytes());
    drop(value);
    assert!(rt; stored?, "{text}");
    Ok(())
}

#[test]
fn signed_numbers(rt: HostRuntime) -> Result<(), Fail> {
    number(&rt, rt.alloc(), ColType::TinyInt, -128, &[0])?;
    number(&rt, rt.alloc(), ColType::TinyInt, 0, &[0x80])?;
    number(&rt, rt.alloc(), ColType::TinyInt, 127, &[0xff])?;
    number(&rt, rt.alloc(), ColType::SmallInt, -32_768, &[0, 0])?;
    number(&rt, rt.alloc(), ColType::SmallInt, -1, &[0x7f, 0xff])?;
    number(&rt, rt.alloc(), ColType::SmallInt, 258, &[0x81, 2])?;
    number(&rt, rt.alloc(), ColType::Integer, 5, &[0x80, 0, 0, 5])?;
    number(&rt, rt.alloc(), ColType::Integer, -2_147_483_648, &[0; 4])?;
    number(&rt, rt.alloc(), ColType::Integer, 2_147_483_647, &[0xff; 4])?;
    number(
        &rt,
        rt.alloc(),
        ColType::BigInt,
        1,
        &[0x80, 0, 0, 0, 0, 0, 0, 1],
    )?;
    number(
        &rt,
        rt.alloc(),
        ColType::BigInt,
        -9_223_372_036_854_775_808,
        &[0; 8],
    )?;
    number(
        &rt,
        rt.alloc(),
        ColType::BigInt,
        9_223_372_036_854_775_807,
        &[0xff; 8],
    )
}

#[test]
fn other_values(rt: HostRuntime) -> Result<(), Fail> {
    number(&rt, rt.alloc(), ColType::UnsignedInt, 0, &[0; 4])?;
    number(
        &rt,
        rt.alloc(),
        ColType::UnsignedInt,
        2_147_483_647,
        &[0x7f, 0xff, 0xff, 0xff],
    )?;
    number(
        &rt,
        rt.alloc(),
        ColType::UnsignedLong,
        258,
        &[0, 0, 0, 0, 0, 0, 1, 2],
    )?;
    assert!(rt; is_stored(rt.alloc(), ColType::Boolean, &Value::Truth(false), &[0])?);
    assert!(rt; is_stored(rt.alloc(), ColType::Boolean, &Value::Truth(true), &[1])?);
    text(&rt, rt.alloc(), "b")?;
    text(&rt, rt.alloc(), "\u{e9}\u{20ac}\u{1f600}")
}

/// Bytes that are no text are read as NULL, and a number is read from its first bytes.
#[test]
fn other_bytes(rt: HostRuntime) -> Result<(), Fail> {
    let read = read_value(rt.alloc(), ColType::Varchar, &[0xff])?;
    assert!(rt; compare(&read, &Value::Null, Direction::Ascending) == Ordering::Equal);
    drop(read);
    let read = read_value(rt.alloc(), ColType::TinyInt, &[0x81, 9])?;
    assert!(rt; compare(&read, &Value::Number(1), Direction::Ascending) == Ordering::Equal);
    drop(read);
    Ok(())
}
