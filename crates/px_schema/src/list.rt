// Reading lists of columns, of key parts, of included columns and of regions.
ghost use Rattle.std.specs.Prelude.{◌≤◌, length};
ghost use Rattle.px_pieces.specs.Chains.{repeat};
ghost use Rattle.px_schema.specs.Outcomes.{ReadsPiece};
ghost use Rattle.px_schema.specs.Parts.{blank_column, blank_part, column_piece, columns_piece, part_piece, parts, place, places, region, regions, regions_from};

use crate::part::{column_in, part_in, place_in};
use crate::{DefFault, GREATEST_ID, GREATEST_KEY};
use px_pieces::{byte_in, bytes_in, number_in};
use px_tables::{KeyPlace, TableColumn, TableRegion};
use px_values::{Items, Key};
use std::alloc::Global;

/// The columns of a table at a place, and the place behind them.
pub(crate) fn columns_in(
    alloc: Global,
    bytes: &[u8],
    at: usize,
) -> Result<(Items<TableColumn>, usize), DefFault>
    requires begins { at ≤ length bytes.now }
    ensures { ReadsPiece columns_piece bytes.now at result }
{
    let count = byte_in(bytes, at, 1, 256)?;
    columns_from(alloc, bytes, at + 1, count)
}

/// So many columns.
fn columns_from(
    alloc: Global,
    bytes: &[u8],
    at: usize,
    count: u8,
) -> Result<(Items<TableColumn>, usize), DefFault>
    requires begins { at ≤ length bytes.now }
    ensures { ReadsPiece (repeat blank_column column_piece count) bytes.now at result }
{
    let mut list = Vec::new(alloc);
    let mut end = at;
    for _taken in 0..count {
        match column_in(alloc, bytes, end) {
            Ok((column, behind)) => {
                if list.push(column).is_err() {
                    drop(list);
                    return Err(DefFault::Memory);
                }
                end = behind;
            }
            Err(fault) => {
                drop(list);
                return Err(fault);
            }
        }
    }
    Ok((Items::of(list), end))
}

/// The parts of a key over so many columns, and the place behind them.
pub(crate) fn parts_in(
    alloc: Global,
    bytes: &[u8],
    at: usize,
    columns: usize,
) -> Result<(Items<KeyPlace>, usize), DefFault>
    requires begins { at ≤ length bytes.now }
    ensures { ReadsPiece (parts columns) bytes.now at result }
{
    let count = byte_in(bytes, at, 1, 256)?;
    parts_from(alloc, bytes, at + 1, count, columns)
}

/// So many parts of a key.
fn parts_from(
    alloc: Global,
    bytes: &[u8],
    at: usize,
    count: u8,
    columns: usize,
) -> Result<(Items<KeyPlace>, usize), DefFault>
    requires begins { at ≤ length bytes.now }
    ensures { ReadsPiece (repeat blank_part (part_piece columns) count) bytes.now at result }
{
    let mut list = Vec::new(alloc);
    let mut end = at;
    for _taken in 0..count {
        let part = part_in(bytes, end, columns)?;
        if list.push(part).is_err() {
            return Err(DefFault::Memory);
        }
        end += 2;
    }
    Ok((Items::of(list), end))
}

/// Columns of so many, and the place behind them.
pub(crate) fn places_in(
    alloc: Global,
    bytes: &[u8],
    at: usize,
    columns: usize,
) -> Result<(Items<u8>, usize), DefFault>
    requires begins { at ≤ length bytes.now }
    ensures { ReadsPiece (places columns) bytes.now at result }
{
    let count = byte_in(bytes, at, 0, 256)?;
    places_from(alloc, bytes, at + 1, count, columns)
}

/// So many columns of so many.
fn places_from(
    alloc: Global,
    bytes: &[u8],
    at: usize,
    count: u8,
    columns: usize,
) -> Result<(Items<u8>, usize), DefFault>
    requires begins { at ≤ length bytes.now }
    ensures { ReadsPiece (repeat 0 (place columns) count) bytes.now at result }
{
    let mut list = Vec::new(alloc);
    let mut end = at;
    for _taken in 0..count {
        let place = place_in(bytes, end, columns)?;
        if list.push(place).is_err() {
            return Err(DefFault::Memory);
        }
        end += 1;
    }
    Ok((Items::of(list), end))
}

/// The regions of a table at a place, and the place behind them.
pub(crate) fn regions_in(
    alloc: Global,
    bytes: &[u8],
    at: usize,
) -> Result<(Items<TableRegion>, usize), DefFault>
    requires begins { at ≤ length bytes.now }
    ensures { ReadsPiece regions bytes.now at result }
{
    let count = byte_in(bytes, at, 1, 256)?;
    regions_from_place(alloc, bytes, at + 1, count)
}

/// So many regions, of which the first has an empty least key.
fn regions_from_place(
    alloc: Global,
    bytes: &[u8],
    at: usize,
    count: u8,
) -> Result<(Items<TableRegion>, usize), DefFault>
    requires begins { at ≤ length bytes.now }
    ensures { ReadsPiece (regions_from 0 count) bytes.now at result }
{
    let mut list = Vec::new(alloc);
    let mut end = at;
    let mut most = 0;
    for _taken in 0..count {
        match region_in(alloc, bytes, end, most) {
            Ok((region, behind)) => {
                if list.push(region).is_err() {
                    drop(list);
                    return Err(DefFault::Memory);
                }
                end = behind;
            }
            Err(fault) => {
                drop(list);
                return Err(fault);
            }
        }
        most = GREATEST_KEY;
    }
    Ok((Items::of(list), end))
}

/// The region at a place, with a least key of at most so many bytes, and the place behind it.
fn region_in(
    alloc: Global,
    bytes: &[u8],
    at: usize,
    most: u64,
) -> Result<(TableRegion, usize), DefFault>
    requires begins { at ≤ length bytes.now }
    ensures { ReadsPiece (region most) bytes.now at result }
{
    let number = number_in(bytes, at, 4, GREATEST_ID)? as u32;
    let size = number_in(bytes, at + 4, 2, most)? as usize;
    let key = bytes_in(bytes, at + 6, size)?;
    let least_key = Key::of(Vec::from_slice(alloc, key)?);
    Ok((TableRegion { number, least_key }, at + 6 + size))
}
