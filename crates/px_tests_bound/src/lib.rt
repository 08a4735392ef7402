//! What tests of bound statements share: what binding answers to a text, and a table and an index as the statements that make them say.
#![tactic(auto)]

ghost use Rattle.std.specs.Prelude.{◌≡◌, IfSome};

use px_ast::Statement;
use px_bind::{BindFault, Request, bind};
use px_parse::parse;
use px_tables::{Found, Index, IndexState, NewIndex, NewTable, Table, TableRegion};
use px_values::{IndexId, Items, Key, TableId};
use std::alloc::{AllocError, Global};

/// What binding answers to a statement on a table, if the text is one.
pub fn bound(alloc: Global, text: &str, found: &Found) -> Option<Result<Request, BindFault>> {
    if found.table.columns.as_slice().len() > 255 {
        return None;
    }
    let statement = parse(alloc, text).ok()?;
    let answer = bind(alloc, &statement, Some(found));
    drop(statement);
    Some(answer)
}

/// The table of a new one, with one region.
fn standing(alloc: Global, number: u32, new: NewTable) -> Result<Table, AllocError> {
    let mut regions = Vec::new(alloc);
    regions.push(TableRegion {
        number: 1,
        least_key: Key::of(Vec::new(alloc)),
    })?;
    let NewTable {
        name,
        columns,
        key,
        least_keys,
    } = new;
    drop(least_keys);
    Ok(Table {
        id: TableId(number),
        name,
        columns,
        key,
        regions: Items::of(regions),
    })
}

/// The table that a CREATE TABLE makes, of this number, with one region and no index.
pub fn table_of(alloc: Global, number: u32, text: &str) -> Option<Found> {
    let statement = parse(alloc, text).ok()?;
    let request = match &statement {
        Statement::CreateTable(_) => bind(alloc, &statement, None).ok(),
        _ => None,
    };
    drop(statement);
    match request? {
        Request::CreateTable {
            if_not_exists: _,
            table,
        } => Some(Found {
            table: standing(alloc, number, table).ok()?,
            indexes: Items::of(Vec::new(alloc)),
            at: 0,
        }),
        other => {
            drop(other);
            None
        }
    }
}

/// The index of a new one, in region 6.
fn built(number: u32, state: IndexState, birth: u64, new: NewIndex) -> Index
    ensures { result.id.0 ≡ number }
{
    let NewIndex {
        table,
        name,
        parts,
        included,
    } = new;
    Index {
        id: IndexId(number),
        table,
        name,
        state,
        birth,
        region: 6,
        parts,
        included,
    }
}

/// The index that a CREATE INDEX on a table makes, of this number, how far it is built, and the stamp of its birth.
pub fn index_of(
    alloc: Global,
    number: u32,
    state: IndexState,
    birth: u64,
    text: &str,
    found: &Found,
) -> Option<Index>
    ensures { IfSome result (λ index. index.id.0 ≡ number) }
{
    match bound(alloc, text, found)? {
        Ok(
            Request::CreateIndex {
                if_not_exists: _,
                index,
            },
        ) => Some(built(number, state, birth, index)),
        other => {
            drop(other);
            None
        }
    }
}

/// The table with one index more, behind those that it has.
pub fn with_index(
    alloc: Global,
    found: Found,
    number: u32,
    state: IndexState,
    birth: u64,
    text: &str,
) -> Option<Found> {
    let index = index_of(alloc, number, state, birth, text, &found)?;
    let Found { table, indexes, at } = found;
    let mut indexes = indexes.into_vec();
    indexes.push(index).ok()?;
    Some(Found {
        table,
        indexes: Items::of(indexes),
        at,
    })
}
