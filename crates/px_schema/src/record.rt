// Reading the records of a catalogue.
ghost use Rattle.std.specs.Prelude.{◌≡◌, ◌<◌, ◌^◌, length, map, nat_lt};
ghost use Rattle.px_pieces.specs.Numbers.{one_of_piece};
ghost use Rattle.px_pieces.specs.Reading.{reading_of};
ghost use Rattle.px_schema.specs.Format.{greatest_count, index as index_piece, standing_piece, table as table_piece};
ghost use Rattle.px_schema.specs.Outcomes.{AnswersRecord, IsWithin, ReadsPiece, in_record_of, whole_of};
ghost use Rattle.px_schema.specs.Records.{definition_in_body, in_body, snapshot_in_body};

use crate::index::{index_in, indexes_in};
use crate::numbered::{Numbered, one_of_in};
use crate::table::{table_in, tables_in};
use crate::{CatalogItem, DefFault, GREATEST_COUNT, GREATEST_NUMBER, Standing};
use px_pieces::number_in;
use px_tables::{Index, Table};
use px_values::{IndexId, TableId};
use std::alloc::Global;

/// What stands by the snapshot that begins the bytes, and the place behind it.
fn standing_in(alloc: Global, bytes: &[u8]) -> Result<(Standing, usize), DefFault>
    ensures { ReadsPiece standing_piece bytes.now 0 result }
{
    let next = number_in(bytes, 0, 4, GREATEST_NUMBER)?;
    let (tables, behind) = tables_in(alloc, bytes, 4)?;
    match indexes_in(alloc, bytes, behind, tables.as_slice()) {
        Ok((indexes, end)) => {
            let standing = Standing {
                next: next as u32,
                tables,
                indexes,
            };
            Ok((standing, end))
        }
        Err(fault) => {
            drop(tables);
            Err(fault)
        }
    }
}

/// The value, where it takes up all of so many bytes.
fn whole<T: Drop>(size: usize, read: Result<(T, usize), DefFault>) -> Result<T, DefFault>
    ensures { result ≡ whole_of size read }
{
    match read {
        Ok((value, end)) => {
            if end == size {
                return Ok(value);
            }
            drop(value);
            Err(DefFault::NotADefinition { place: end as u64 })
        }
        Err(fault) => Err(fault),
    }
}

/// The value with the place of a fault counted from the kind of the record.
fn in_record<T>(read: Result<T, DefFault>) -> Result<T, DefFault>
    requires within { IsWithin 4294967295 read }
    ensures { result ≡ in_record_of read }
{
    match read {
        Ok(value) => Ok(value),
        Err(DefFault::NotADefinition { place }) => Err(DefFault::NotADefinition {
            place: 5 + place,
        }),
        Err(DefFault::Memory) => Err(DefFault::Memory),
    }
}

/// The table of a body.
fn table_of(alloc: Global, body: &[u8]) -> Result<Table, DefFault>
    requires short { length body.now < 2 ^ 32 }
    ensures { AnswersRecord (in_body (λ t. t) (reading_of table_piece body.now)) result }
{
    in_record(whole(body.len(), table_in(alloc, body, 0)))
}

/// The index of a body, where these tables stand.
fn index_of(alloc: Global, body: &[u8], tables: &[Table]) -> Result<Index, DefFault>
    requires short { length body.now < 2 ^ 32 }
    ensures { AnswersRecord (in_body (λ i. i) (reading_of (index_piece tables.now) body.now)) result }
{
    in_record(whole(body.len(), index_in(alloc, body, 0, tables)))
}

/// The number of a body, which is that of one of these.
fn number_of<T: Numbered>(body: &[u8], standing: &[T]) -> Result<u32, DefFault>
    requires short { length body.now < 2 ^ 32 }
    ensures { AnswersRecord (in_body (λ n. n) (reading_of (one_of_piece 4 (map T.number_of standing.now)) body.now)) result }
{
    in_record(whole(body.len(), number_there(body, standing)))
}

/// The number that begins the body, and the place behind it.
fn number_there<T: Numbered>(body: &[u8], standing: &[T]) -> Result<(u32, usize), DefFault>
    ensures { ReadsPiece (one_of_piece 4 (map T.number_of standing.now)) body.now 0 result }
{
    Ok((one_of_in(body, 0, standing)?, 4))
}

/// What stands by a snapshot. A record of another kind is wrong at its kind, place 0; the body begins at place 5.
pub fn read_snapshot(alloc: Global, kind: u8, body: &[u8]) -> Result<Standing, DefFault>
    requires short { length body.now < 2 ^ 32 }
    ensures { AnswersRecord (snapshot_in_body kind body.now) result }
{
    if kind != 1 {
        return Err(DefFault::NotADefinition { place: 0 });
    }
    in_record(whole(body.len(), standing_in(alloc, body)))
}

/// The definition of a record, where this stands. Places are counted from the record's kind, and the body begins at
/// place 5. A definition that names what doesn't stand, or that no snapshot has room for, is wrong too.
pub fn read_definition(
    alloc: Global,
    kind: u8,
    body: &[u8],
    standing: &Standing,
) -> Result<CatalogItem, DefFault>
    requires short { length body.now < 2 ^ 32 }
    ensures { AnswersRecord (definition_in_body standing.now kind body.now) result }
{
    let tables = standing.tables.as_slice();
    let indexes = standing.indexes.as_slice();
    if kind == 2 && has_room(tables.len()) {
        return Ok(CatalogItem::TableIs(table_of(alloc, body)?));
    }
    if kind == 3 && has_room(indexes.len()) {
        return Ok(CatalogItem::IndexIs(index_of(alloc, body, tables)?));
    }
    if kind == 4 {
        return Ok(CatalogItem::TableGone(TableId(number_of(body, tables)?)));
    }
    if kind == 5 {
        return Ok(CatalogItem::IndexGone(IndexId(number_of(body, indexes)?)));
    }
    Err(DefFault::NotADefinition { place: 0 })
}

/// Whether a snapshot has room for one more behind so many.
fn has_room(count: usize) -> bool
    ensures { result ≡ nat_lt count greatest_count }
{
    (count as u64) < GREATEST_COUNT
}
