// Reading indexes.
ghost use Rattle.std.specs.Prelude.{◌≡◌, ◌≤◌, ◌+◌, length, IfOk, IfErr};
ghost use Rattle.px_pieces.specs.Chains.{repeat};
ghost use Rattle.px_pieces.specs.Taking.{IsStoppedAt, IsTakenAt};
ghost use Rattle.px_schema.specs.Format.{built, called, column_count, covered, index, indexes_in as indexes_piece, most_indexes as most_of_indexes, no_index};
ghost use Rattle.px_schema.specs.Outcomes.{ReadsPiece};
ghost use Rattle.px_schema.specs.Parts.{state};

use crate::list::{parts_in, places_in};
use crate::numbered::one_of_in;
use crate::part::name_in;
use crate::table::with_first;
use crate::{DefFault, GREATEST_COUNT, GREATEST_ID, GREATEST_STAMP};
use px_pieces::{WrongPlace, byte_in, number_in};
use px_tables::{Index, IndexState, KeyPlace, Table};
use px_values::{IndexId, Items, Name, TableId};
use std::alloc::Global;

type Covered = (Items<KeyPlace>, Items<u8>);

type Built = (IndexState, (u64, (u32, Covered)));

type Called = (Name, Built);

/// The columns of the table of this number, 0 where none stands.
fn columns_of(tables: &[Table], number: u32) -> usize
    ensures { result ≡ column_count tables.now number }
{
    for table in tables {
        if table.id.0 == number {
            return table.columns.as_slice().len();
        }
    }
    0
}

/// The state at a place.
fn state_in(bytes: &[u8], at: usize) -> Result<IndexState, WrongPlace>
    requires begins { at ≤ length bytes.now }
    ensures taken { IfOk result (λ s. IsTakenAt state bytes.now at s (at + 1)) }
    ensures stopped { IfErr result (λ wrong. IsStoppedAt state bytes.now at wrong.place) }
{
    let code = byte_in(bytes, at, 0, 3)?;
    if code == 0 {
        return Ok(IndexState::Building);
    }
    if code == 1 {
        return Ok(IndexState::Active);
    }
    Ok(IndexState::Disabled)
}

/// The indexed and the included columns of an index on a table with so many columns, and the place behind them.
fn covered_in(
    alloc: Global,
    bytes: &[u8],
    at: usize,
    columns: usize,
) -> Result<(Covered, usize), DefFault>
    requires begins { at ≤ length bytes.now }
    ensures { ReadsPiece (covered columns) bytes.now at result }
{
    let (parts, behind) = parts_in(alloc, bytes, at, columns)?;
    with_first(parts, places_in(alloc, bytes, behind, columns))
}

/// The state, the birth and the region of an index, and what comes behind them.
fn built_in(
    alloc: Global,
    bytes: &[u8],
    at: usize,
    columns: usize,
) -> Result<(Built, usize), DefFault>
    requires begins { at ≤ length bytes.now }
    ensures { ReadsPiece (built columns) bytes.now at result }
{
    let state = state_in(bytes, at)?;
    let birth = number_in(bytes, at + 1, 8, GREATEST_STAMP)?;
    let region = number_in(bytes, at + 9, 4, GREATEST_ID)?;
    let (covered, end) = covered_in(alloc, bytes, at + 13, columns)?;
    Ok(((state, (birth, (region as u32, covered))), end))
}

/// The name of an index and what comes behind it.
fn called_in(
    alloc: Global,
    bytes: &[u8],
    at: usize,
    columns: usize,
) -> Result<(Called, usize), DefFault>
    requires begins { at ≤ length bytes.now }
    ensures { ReadsPiece (called columns) bytes.now at result }
{
    let (name, behind) = name_in(alloc, bytes, at)?;
    with_first(name, built_in(alloc, bytes, behind, columns))
}

/// The index at a place, where these tables stand, and the place behind it.
pub(crate) fn index_in(
    alloc: Global,
    bytes: &[u8],
    at: usize,
    tables: &[Table],
) -> Result<(Index, usize), DefFault>
    requires begins { at ≤ length bytes.now }
    ensures { ReadsPiece (index tables.now) bytes.now at result }
{
    let number = number_in(bytes, at, 4, GREATEST_ID)?;
    let table = one_of_in(bytes, at + 4, tables)?;
    let columns = columns_of(tables, table);
    let ((name, (state, (birth, (region, (parts, included))))), end) = called_in(
        alloc,
        bytes,
        at + 8,
        columns,
    )?;
    let index = Index {
        id: IndexId(number as u32),
        table: TableId(table),
        name,
        state,
        birth,
        region,
        parts,
        included,
    };
    Ok((index, end))
}

/// The most indexes where these tables stand: without a table there is none.
fn most_indexes(tables: &[Table]) -> u64
    ensures { result ≡ most_of_indexes tables.now }
{
    if tables.is_empty() { 0 } else { GREATEST_COUNT }
}

/// The indexes behind their count, where these tables stand, and the place behind them.
pub(crate) fn indexes_in(
    alloc: Global,
    bytes: &[u8],
    at: usize,
    tables: &[Table],
) -> Result<(Items<Index>, usize), DefFault>
    requires begins { at ≤ length bytes.now }
    ensures { ReadsPiece (indexes_piece tables.now) bytes.now at result }
{
    let count = number_in(bytes, at, 2, most_indexes(tables))?;
    indexes_from(alloc, bytes, at + 2, tables, count)
}

/// So many indexes.
fn indexes_from(
    alloc: Global,
    bytes: &[u8],
    at: usize,
    tables: &[Table],
    count: u64,
) -> Result<(Items<Index>, usize), DefFault>
    requires begins { at ≤ length bytes.now }
    ensures { ReadsPiece (repeat no_index (index tables.now) count) bytes.now at result }
{
    let mut list = Vec::new(alloc);
    let mut end = at;
    for _taken in 0..count {
        match index_in(alloc, bytes, end, tables) {
            Ok((index, behind)) => {
                if list.push(index).is_err() {
                    drop(list);
                    return Err(DefFault::Memory);
                }
                end = behind;
            }
            Err(fault) => {
                drop(list);
                return Err(fault);
            }
        }
    }
    Ok((Items::of(list), end))
}
