// Writing definitions and snapshots.
ghost use Rattle.std.specs.Prelude.{◌≡◌, ◌<◌, ◌++◌, IfOk, OnOk, length};
ghost use Rattle.std.specs.Int.{bytes_high_first};
ghost use Rattle.std.specs.List.{AllByRecursion, flat_map};
ghost use Rattle.px_schema.specs.Parts.{state_code};
ghost use Rattle.px_schema.specs.Spelled.{FitsCatalogItem, FitsIndex, FitsSnapshot, FitsTableFields, body_of, built_bytes, column_bytes, index_bytes, key_part_bytes, kind_of as kind_code, list_bytes, name_bytes, region_bytes, standing_bytes, table_bytes};

use crate::{CatalogItem, Standing};
use px_tables::{Index, IndexState, KeyPlace, Table, TableColumn, TableRegion};
use px_values::{Direction, Name};
use std::alloc::{AllocError, Global};

/// Adds a number of four bytes.
fn put_number(number: u32, to: &mut Vec<u8>) -> Result<(), AllocError>
    ensures { OnOk result (to.new.items ≡ to.old.items ++ bytes_high_first 4 number) }
{
    to.extend_from_slice(&number.to_be_bytes())
}

/// Adds a number of two bytes.
fn put_count(count: u16, to: &mut Vec<u8>) -> Result<(), AllocError>
    ensures { OnOk result (to.new.items ≡ to.old.items ++ bytes_high_first 2 count) }
{
    to.extend_from_slice(&count.to_be_bytes())
}

/// Adds a name behind its length.
fn put_name(name: &Name, to: &mut Vec<u8>) -> Result<(), AllocError>
    requires short { length name.now < 256 }
    ensures { OnOk result (to.new.items ≡ to.old.items ++ name_bytes name.now) }
{
    let text = name.as_str().as_bytes();
    put_bytes(text, to)
}

/// Adds bytes behind their number.
fn put_bytes(bytes: &[u8], to: &mut Vec<u8>) -> Result<(), AllocError>
    requires short { length bytes.now < 256 }
    ensures { OnOk result (to.new.items ≡ to.old.items ++ name_bytes bytes.now) }
{
    to.extend_from_slice(&[bytes.len() as u8])?;
    to.extend_from_slice(bytes)
}

fn put_column(column: &TableColumn, to: &mut Vec<u8>) -> Result<(), AllocError>
    requires short { length column.now.name < 256 }
    ensures { OnOk result (to.new.items ≡ to.old.items ++ column_bytes column.now) }
{
    put_name(&column.name, to)?;
    to.extend_from_slice(&[column.column_type.code(), u8::from(column.not_null)])
}

fn put_columns(columns: &[TableColumn], to: &mut Vec<u8>) -> Result<(), AllocError>
    requires few { length columns.now < 256 }
    requires short { AllByRecursion (λ c. length c.name < 256) columns.now }
    ensures { OnOk result (to.new.items ≡ to.old.items ++ list_bytes column_bytes columns.now) }
{
    to.extend_from_slice(&[columns.len() as u8])?;
    for column in columns {
        put_column(column, to)?;
    }
    Ok(())
}

fn put_part(part: KeyPlace, to: &mut Vec<u8>) -> Result<(), AllocError>
    ensures { OnOk result (to.new.items ≡ to.old.items ++ key_part_bytes part) }
{
    let direction = match part.direction {
        Direction::Ascending => 0,
        Direction::Descending => 1,
    };
    to.extend_from_slice(&[part.column, direction])
}

fn put_parts(parts: &[KeyPlace], to: &mut Vec<u8>) -> Result<(), AllocError>
    requires few { length parts.now < 256 }
    ensures { OnOk result (to.new.items ≡ to.old.items ++ list_bytes key_part_bytes parts.now) }
{
    to.extend_from_slice(&[parts.len() as u8])?;
    for part in parts {
        put_part(*part, to)?;
    }
    Ok(())
}

fn put_region(region: &TableRegion, to: &mut Vec<u8>) -> Result<(), AllocError>
    requires short { length region.now.least_key < 65536 }
    ensures { OnOk result (to.new.items ≡ to.old.items ++ region_bytes region.now) }
{
    put_number(region.number, to)?;
    let key = region.least_key.as_slice();
    put_count(key.len() as u16, to)?;
    to.extend_from_slice(key)
}

fn put_regions(regions: &[TableRegion], to: &mut Vec<u8>) -> Result<(), AllocError>
    requires few { length regions.now < 256 }
    requires short { AllByRecursion (λ r. length r.least_key < 65536) regions.now }
    ensures { OnOk result (to.new.items ≡ to.old.items ++ list_bytes region_bytes regions.now) }
{
    to.extend_from_slice(&[regions.len() as u8])?;
    for region in regions {
        put_region(region, to)?;
    }
    Ok(())
}

fn put_table(table: &Table, to: &mut Vec<u8>) -> Result<(), AllocError>
    requires fits { FitsTableFields table.now }
    ensures { OnOk result (to.new.items ≡ to.old.items ++ table_bytes table.now) }
{
    put_number(table.id.0, to)?;
    put_name(&table.name, to)?;
    put_columns(table.columns.as_slice(), to)?;
    put_parts(table.key.as_slice(), to)?;
    put_regions(table.regions.as_slice(), to)
}

fn put_index(index: &Index, to: &mut Vec<u8>) -> Result<(), AllocError>
    requires fits { FitsIndex index.now }
    ensures { OnOk result (to.new.items ≡ to.old.items ++ index_bytes index.now) }
{
    put_number(index.id.0, to)?;
    put_number(index.table.0, to)?;
    put_name(&index.name, to)?;
    put_built(index, to)
}

/// Adds the state of an index and what comes behind it.
fn put_built(index: &Index, to: &mut Vec<u8>) -> Result<(), AllocError>
    requires fits { FitsIndex index.now }
    ensures { OnOk result (to.new.items ≡ to.old.items ++ built_bytes index.now) }
{
    to.extend_from_slice(&[code_of(index.state)])?;
    put_stamp(index.birth, to)?;
    put_number(index.region, to)?;
    put_covered(index, to)
}

/// Adds a stamp.
fn put_stamp(stamp: u64, to: &mut Vec<u8>) -> Result<(), AllocError>
    ensures { OnOk result (to.new.items ≡ to.old.items ++ bytes_high_first 8 stamp) }
{
    to.extend_from_slice(&stamp.to_be_bytes())
}

/// Adds the columns of an index.
fn put_covered(index: &Index, to: &mut Vec<u8>) -> Result<(), AllocError>
    requires fits { FitsIndex index.now }
    ensures { OnOk result (to.new.items ≡ to.old.items ++ (list_bytes key_part_bytes index.now.parts ++ name_bytes index.now.included)) }
{
    put_parts(index.parts.as_slice(), to)?;
    put_bytes(index.included.as_slice(), to)
}

fn code_of(state: IndexState) -> u8
    ensures { result ≡ state_code state }
{
    match state {
        IndexState::Building => 0,
        IndexState::Active => 1,
        IndexState::Disabled => 2,
    }
}

fn put_tables(tables: &[Table], to: &mut Vec<u8>) -> Result<(), AllocError>
    requires fits { AllByRecursion FitsTableFields tables.now }
    ensures { OnOk result (to.new.items ≡ to.old.items ++ flat_map table_bytes tables.now) }
{
    for table in tables {
        put_table(table, to)?;
    }
    Ok(())
}

fn put_indexes(indexes: &[Index], to: &mut Vec<u8>) -> Result<(), AllocError>
    requires fits { AllByRecursion FitsIndex indexes.now }
    ensures { OnOk result (to.new.items ≡ to.old.items ++ flat_map index_bytes indexes.now) }
{
    for index in indexes {
        put_index(index, to)?;
    }
    Ok(())
}

/// The kind of a definition's record: 2 a table, 3 an index, 4 a table that is gone, 5 an index that is gone.
pub fn kind_of(item: &CatalogItem) -> u8
    ensures { result ≡ kind_code item.now }
{
    match item {
        CatalogItem::TableIs(_) => 2,
        CatalogItem::IndexIs(_) => 3,
        CatalogItem::TableGone(_) => 4,
        CatalogItem::IndexGone(_) => 5,
    }
}

/// The body of a definition's record.
pub fn write_definition(alloc: Global, item: &CatalogItem) -> Result<Vec<u8>, AllocError>
    requires fits { FitsCatalogItem item.now }
    ensures { IfOk result (λ body. body.items ≡ body_of item.now) }
{
    let mut body = Vec::new(alloc);
    match item {
        CatalogItem::TableIs(table) => put_table(table, &mut body)?,
        CatalogItem::IndexIs(index) => put_index(index, &mut body)?,
        CatalogItem::TableGone(id) => put_number(id.0, &mut body)?,
        CatalogItem::IndexGone(id) => put_number(id.0, &mut body)?,
    }
    Ok(body)
}

/// The body of a snapshot's record, which is of kind 1.
pub fn write_snapshot(alloc: Global, standing: &Standing) -> Result<Vec<u8>, AllocError>
    requires fits { FitsSnapshot standing.now }
    ensures { IfOk result (λ body. body.items ≡ standing_bytes standing.now) }
{
    let tables = standing.tables.as_slice();
    let indexes = standing.indexes.as_slice();
    let mut body = Vec::new(alloc);
    put_number(standing.next, &mut body)?;
    put_count(tables.len() as u16, &mut body)?;
    put_tables(tables, &mut body)?;
    put_count(indexes.len() as u16, &mut body)?;
    put_indexes(indexes, &mut body)?;
    Ok(body)
}
