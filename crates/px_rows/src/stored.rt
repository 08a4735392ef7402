// The bytes of values in cells.
ghost use Rattle.std.specs.Prelude.{◌≡◌, ◌≢◌, ◌≤◌, ◌<◌, ◌^◌, IfOk, take};
ghost use Rattle.px_values.specs.Types.{HasType};
ghost use Rattle.px_values.specs.declared.row.Value.TheVariants.{Null as NullValue};
ghost use Rattle.px_keys.specs.Spelling.{byte_width};
ghost use Rattle.px_rows.specs.Stored.{number_of_bytes, ranked, stored, value_of_bytes};

use px_keys::{KeyColumn, Part, spell_front};
use px_values::{ColType, Direction, Text, Value};
use std::alloc::{AllocError, Global};

/// The bytes of a value of this type in a cell. A NULL has no cell with bytes.
pub fn stored_value(alloc: Global, ty: ColType, value: &Value) -> Result<Vec<u8>, AllocError>
    requires has_type { HasType ty value.now }
    requires not_null { value.now ≢ NullValue }
    ensures { IfOk result (λ bytes. bytes.items ≡ stored ty value.now) }
{
    if let Value::Text(text) = value {
        return Vec::from_slice(alloc, text.as_bytes());
    }
    let column = KeyColumn {
        ty,
        direction: Direction::Ascending,
        may_be_null: false,
    };
    spell_front(alloc, &[Part { column, value }])
}

/// The value that the bytes of a cell of this type are read as.
pub fn read_value(alloc: Global, ty: ColType, bytes: &[u8]) -> Result<Value, AllocError>
    ensures { IfOk result (λ v. v ≡ value_of_bytes ty bytes.now) }
{
    match ty.width() {
        Some(width) => Ok(value_above(ty, number(bytes, width))),
        None => read_text(alloc, bytes),
    }
}

fn read_text(alloc: Global, bytes: &[u8]) -> Result<Value, AllocError>
    ensures { IfOk result (λ v. v ≡ value_of_bytes ColType.Varchar bytes.now) }
{
    match str::from_utf8(bytes) {
        Ok(text) => {
            let text = Text::from_str(alloc, text)?;
            Ok(Value::Text(text))
        }
        Err(_) => Ok(Value::Null),
    }
}

/// The number of the first bytes, the highest first.
fn number(bytes: &[u8], width: usize) -> u64
    requires { width ≤ 8 }
    ensures { result ≡ number_of_bytes 0 (take width bytes.now) }
{
    let first = &bytes[..width.min(bytes.len())];
    let mut number: u64 = 0;
    for byte in first {
        number = number * 256 + u64::from(*byte);
    }
    number
}

/// The value that lies this far above the least of its type.
fn value_above(ty: ColType, number: u64) -> Value
    ensures { result ≡ ranked ty number }
{
    match ty {
        ColType::Boolean => Value::Truth(number == 1),
        _ => Value::Number(i128::from(number) + ty.least()),
    }
}
