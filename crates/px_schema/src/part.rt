// Reading names, columns, and parts of keys.
ghost use Rattle.std.specs.Prelude.{◌≤◌, ◌+◌, length, IfOk, IfErr};
ghost use Rattle.px_pieces.specs.Pieces.{followed_by};
ghost use Rattle.px_pieces.specs.Taking.{IsStoppedAt, IsTakenAt};
ghost use Rattle.px_schema.specs.Outcomes.{ReadsPiece};
ghost use Rattle.px_schema.specs.Parts.{column_piece, column_type_piece, direction_piece, flag, name_piece, part_piece, place};

use crate::DefFault;
use crate::text::text_in;
use px_pieces::{WrongPlace, byte_in};
use px_tables::{KeyPlace, TableColumn};
use px_values::{ColType, Direction, Name};
use std::alloc::Global;

/// The name at a place, and the place behind it.
pub(crate) fn name_in(alloc: Global, bytes: &[u8], at: usize) -> Result<(Name, usize), DefFault>
    requires begins { at ≤ length bytes.now }
    ensures { ReadsPiece name_piece bytes.now at result }
{
    let size = byte_in(bytes, at, 1, 256)?;
    let text = text_in(bytes, at + 1, usize::from(size))?;
    let name = Name::from_str(alloc, text)?;
    Ok((name, at + 1 + usize::from(size)))
}

/// The truth value at a place.
pub(crate) fn flag_in(bytes: &[u8], at: usize) -> Result<bool, WrongPlace>
    requires begins { at ≤ length bytes.now }
    ensures taken { IfOk result (λ b. IsTakenAt flag bytes.now at b (at + 1)) }
    ensures stopped { IfErr result (λ wrong. IsStoppedAt flag bytes.now at wrong.place) }
{
    Ok(byte_in(bytes, at, 0, 2)? == 1)
}

/// The type at a place.
fn type_in(bytes: &[u8], at: usize) -> Result<ColType, WrongPlace>
    requires begins { at ≤ length bytes.now }
    ensures taken { IfOk result (λ ty. IsTakenAt column_type_piece bytes.now at ty (at + 1)) }
    ensures stopped { IfErr result (λ wrong. IsStoppedAt column_type_piece bytes.now at wrong.place) }
{
    let code = byte_in(bytes, at, 1, 9)?;
    match ColType::of_code(code) {
        Some(ty) => Ok(ty),
        None => unreachable!(),
    }
}

/// The direction at a place.
fn direction_in(bytes: &[u8], at: usize) -> Result<Direction, WrongPlace>
    requires begins { at ≤ length bytes.now }
    ensures taken { IfOk result (λ d. IsTakenAt direction_piece bytes.now at d (at + 1)) }
    ensures stopped { IfErr result (λ wrong. IsStoppedAt direction_piece bytes.now at wrong.place) }
{
    let code = byte_in(bytes, at, 0, 2)?;
    if code == 0 {
        return Ok(Direction::Ascending);
    }
    Ok(Direction::Descending)
}

/// One of so many columns, at a place.
pub(crate) fn place_in(bytes: &[u8], at: usize, columns: usize) -> Result<u8, WrongPlace>
    requires begins { at ≤ length bytes.now }
    ensures taken { IfOk result (λ column. IsTakenAt (place columns) bytes.now at column (at + 1)) }
    ensures stopped { IfErr result (λ wrong. IsStoppedAt (place columns) bytes.now at wrong.place) }
{
    byte_in(bytes, at, 0, columns.min(256) as u16)
}

/// The part of a key over so many columns, at a place.
pub(crate) fn part_in(bytes: &[u8], at: usize, columns: usize) -> Result<KeyPlace, WrongPlace>
    requires begins { at ≤ length bytes.now }
    ensures taken { IfOk result (λ p. IsTakenAt (part_piece columns) bytes.now at p (at + 2)) }
    ensures stopped { IfErr result (λ wrong. IsStoppedAt (part_piece columns) bytes.now at wrong.place) }
{
    let column = place_in(bytes, at, columns)?;
    let direction = direction_in(bytes, at + 1)?;
    Ok(KeyPlace { column, direction })
}

/// The column at a place, and the place behind it.
pub(crate) fn column_in(
    alloc: Global,
    bytes: &[u8],
    at: usize,
) -> Result<(TableColumn, usize), DefFault>
    requires begins { at ≤ length bytes.now }
    ensures { ReadsPiece column_piece bytes.now at result }
{
    let (name, behind) = name_in(alloc, bytes, at)?;
    match typed_in(bytes, behind) {
        Ok((column_type, not_null)) => {
            let column = TableColumn {
                name,
                column_type,
                not_null,
            };
            Ok((column, behind + 2))
        }
        Err(wrong) => {
            drop(name);
            Err(wrong.into())
        }
    }
}

/// The type of a column and whether it may not be NULL, at a place.
fn typed_in(bytes: &[u8], at: usize) -> Result<(ColType, bool), WrongPlace>
    requires begins { at ≤ length bytes.now }
    ensures taken { IfOk result (λ typed. IsTakenAt (followed_by column_type_piece (λ c. flag)) bytes.now at typed (at + 2)) }
    ensures stopped { IfErr result (λ wrong. IsStoppedAt (followed_by column_type_piece (λ c. flag)) bytes.now at wrong.place) }
{
    let column_type = type_in(bytes, at)?;
    let not_null = flag_in(bytes, at + 1)?;
    Ok((column_type, not_null))
}
