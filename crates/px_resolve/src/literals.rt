// Literals as values, and what is wrong with one.
ghost use Rattle.std.specs.Prelude.{◌≡◌, ◌^◌, ◌-◌, IfOk, List, ℕ, min, map};
ghost use Rattle.std.specs.Char.{digit_value};
ghost use Rattle.px_resolve.specs.Answers.{AnswersFirst};
ghost use Rattle.px_resolve.specs.Conditions.{bad_text, literal_against};
ghost use Rattle.px_resolve.specs.Literals.{differ, is_bad_text, is_null, is_outside, literal_faults, mismatch_if, number_of_digits, range_if, signed, text_of, value_of_literal};
ghost use Rattle.px_values.specs.Order.{class_of};
ghost use Rattle.px_values.specs.Types.{type_class};
ghost use Rattle.std.specs.Str.Parse.{digits_value};

use crate::fault::BindFault;
use px_ast::{Constant, Literal, Number};
use px_values::{ColType, Items, MOST_TEXT, Text, Value};
use std::alloc::{AllocError, Global};

/// The number that a byte writes as a digit.
fn digit(byte: u8) -> u32
    ensures { result ≡ digit_value byte }
{
    char::from(byte).to_digit(36).unwrap_or(36)
}

/// What digits write, up to the greatest number of 127 bits.
pub fn number(digits: &str) -> u128
    ensures { result ≡ number_of_digits digits.now }
{
    let mut number = 0u128;
    for byte in digits.as_bytes() {
        number = number
            .saturating_mul(10)
            .saturating_add(u128::from(digit(*byte)));
    }
    number.min(i128::MAX as u128)
}

fn signed_number(number: &Number) -> i128
    ensures { result ≡ signed number.now.negative (number_of_digits number.now.digits) }
{
    let size = self::number(number.digits.as_str()) as i128;
    if number.negative { -size } else { size }
}

fn text(alloc: Global, text: &Text) -> Result<Value, AllocError>
    ensures { IfOk result (λ v. v ≡ text_of text.now) }
{
    if text.as_bytes().is_empty() {
        return Ok(Value::Null);
    }
    Ok(Value::Text(text.copied(alloc)?))
}

/// The value that a literal is.
pub fn value(alloc: Global, constant: &Constant) -> Result<Value, AllocError>
    ensures { IfOk result (λ v. v ≡ value_of_literal constant.now) }
{
    match constant {
        Constant::Number(number) => Ok(Value::Number(signed_number(number))),
        Constant::Text(text) => self::text(alloc, text),
        Constant::Truth(truth) => Ok(Value::Truth(*truth)),
        Constant::Null => Ok(Value::Null),
    }
}

/// The values that literals are.
pub fn values(alloc: Global, literals: &[Literal]) -> Result<Items<Value>, AllocError>
    ensures { IfOk result (λ vs. vs ≡ map (λ l. value_of_literal l.constant) literals.now) }
{
    let mut values = Vec::with_capacity(alloc, literals.len())?;
    for literal in literals {
        values.push(value(alloc, &literal.constant)?)?;
    }
    Ok(Items::of(values))
}

/// Whether a literal is NULL.
pub fn is_null_literal(literal: &Literal) -> bool
    ensures { result ≡ is_null (value_of_literal literal.now.constant) }
{
    match &literal.constant {
        Constant::Null => true,
        Constant::Text(text) => text.as_bytes().is_empty(),
        Constant::Number(_) | Constant::Truth(_) => false,
    }
}

/// The class of a literal's value: 0 is NULL, 1 number, 2 truth value, 3 text.
pub fn class(constant: &Constant) -> u8
    ensures { result ≡ class_of (value_of_literal constant.now) }
{
    match constant {
        Constant::Null => 0,
        Constant::Number(_) => 1,
        Constant::Truth(_) => 2,
        Constant::Text(text) => { if text.as_bytes().is_empty() { 0 } else { 3 } }
    }
}

/// The class of a type's values.
pub fn class_of_type(column_type: ColType) -> u8
    ensures { result ≡ type_class column_type }
{
    match column_type {
        ColType::Boolean => 2,
        ColType::Varchar => 3,
        _ => 1,
    }
}

/// Whether values of two classes can't be compared.
fn classes_differ(a: u8, b: u8) -> bool
    ensures { result ≡ differ a b }
{
    a != 0 && b != 0 && a != b
}

/// Whether no column can have this literal, as a text.
pub fn has_bad_text(constant: &Constant) -> bool
    ensures { result ≡ is_bad_text (value_of_literal constant.now) }
{
    match constant {
        Constant::Text(text) => {
            let bytes = text.as_bytes();
            bytes.len() > MOST_TEXT || bytes.contains(&0)
        }
        _ => false,
    }
}

/// Whether a literal is a number that a column of this type can't have.
fn is_out(column_type: ColType, constant: &Constant) -> bool
    ensures { result ≡ is_outside column_type (value_of_literal constant.now) }
{
    match constant {
        Constant::Number(number) => {
            let number = signed_number(number);
            number < column_type.least() || number > column_type.greatest()
        }
        _ => false,
    }
}

/// Refuses two classes that can't be compared, at the place of the second.
pub fn check_classes(a: u8, b: u8, place: usize) -> Result<(), BindFault>
    ensures { AnswersFirst (mismatch_if (differ a b) place) result }
{
    if classes_differ(a, b) {
        return Err(BindFault::Mismatch { place });
    }
    Ok(())
}

/// Refuses what is out of range, at its place.
pub fn check_range(out: bool, place: usize) -> Result<(), BindFault>
    ensures { AnswersFirst (range_if out place) result }
{
    if out {
        return Err(BindFault::OutOfRange { place });
    }
    Ok(())
}

/// Refuses a literal that no column can have.
pub fn check_text(literal: &Literal) -> Result<(), BindFault>
    ensures { AnswersFirst (bad_text literal.now) result }
{
    check_range(has_bad_text(&literal.constant), literal.place)
}

/// Refuses a literal that can't be compared with an operand of this class, or that no column can have.
pub fn check_compared(class: u8, literal: &Literal) -> Result<(), BindFault>
    ensures { AnswersFirst (literal_against class literal.now) result }
{
    check_classes(class, self::class(&literal.constant), literal.place)?;
    check_text(literal)
}

/// Refuses a literal that can't be the value of a column of this type.
pub fn check_value(column_type: ColType, literal: &Literal) -> Result<(), BindFault>
    ensures { AnswersFirst (literal_faults column_type literal.now) result }
{
    check_classes(
        class_of_type(column_type),
        class(&literal.constant),
        literal.place,
    )?;
    let out = is_out(column_type, &literal.constant) || has_bad_text(&literal.constant);
    check_range(out, literal.place)
}
