// Whether bytes are a value.
ghost use Rattle.std.specs.Prelude.{◌≢◌, ◌↔◌, IfOk, IsTrue};
ghost use Rattle.px_values.specs.Types.{HasType};
ghost use Rattle.px_values.specs.declared.row.Value.TheVariants.{Null as NullValue};
ghost use Rattle.px_cellshapes.specs.Values.{IsStored};

use px_keys::{KeyColumn, Part};
use px_rows::read_value;
use px_values::{ColType, Direction, Value};
use std::alloc::{AllocError, Global};

/// Whether the bytes of a cell are read as a value of the type, and not as NULL.
pub(crate) fn is_stored(alloc: Global, ty: ColType, bytes: &[u8]) -> Result<bool, AllocError>
    ensures { IfOk result (λ is. IsTrue is ↔ IsStored ty bytes.now) }
{
    let value = read_value(alloc, ty, bytes)?;
    Ok(is_value(ty, &value))
}

/// Whether it is a value of the type, and not NULL.
fn is_value(ty: ColType, value: &Value) -> bool
    ensures { IsTrue result ↔ (HasType ty value.now × (value.now ≢ NullValue)) }
{
    let column = KeyColumn {
        ty,
        direction: Direction::Ascending,
        may_be_null: false,
    };
    !matches!(value, Value::Null) && Part { column, value }.can_stand()
}
