// What stands in the beginning, and after a definition.
ghost use Rattle.std.specs.Prelude.{◌≡◌, ◌<◌, IfOk, map};
ghost use Rattle.std.specs.List.{AllByRecursion};
ghost use Rattle.px_schema.specs.Fresh.{fresh_standing};
ghost use Rattle.px_schema.specs.Places.{first_at};
ghost use Rattle.px_schema.specs.Stands.{above, drawn_by, of_other_tables as indexes_of_others, other_indexes as indexes_but, other_tables as tables_but, put_index, put_table, stands_after, table_draws};

use crate::numbered::Numbered;
use crate::{CatalogItem, Standing, read_snapshot};
use px_tables::{Index, Table};
use px_values::Items;
use std::alloc::{AllocError, Global};
use std::mem;

/// The body of the fresh catalogue's snapshot.
const FRESH: [u8; 34] = [
    0, 0, 0, 3, 0, 1, 0, 0, 0, 2, 2, 75, 86, 2, 1, 75, 8, 1, 1, 86, 8, 0, 1, 0, 0, 1, 0, 0, 0, 1,
    0, 0, 0, 0,
];

/// What stands in a folder without a catalogue: the table KV, of number 2, with region 1.
pub fn fresh(alloc: Global) -> Result<Standing, AllocError>
    ensures { IfOk result (λ s. s ≡ fresh_standing) }
{
    match read_snapshot(alloc, 1, &FRESH) {
        Ok(standing) => Ok(standing),
        Err(_) => Err(AllocError),
    }
}

/// The place of the first of these with this number, or how many there are.
fn place_of<T: Numbered>(list: &[T], number: u32) -> usize
    ensures { result ≡ first_at (map T.number_of list.now) number }
{
    let mut at = 0;
    for one in list {
        if one.number() == number {
            return at;
        }
        at += 1;
    }
    at
}

/// The tables with this one behind them, or in the place of the one of its number.
fn with_table(tables: Items<Table>, table: Table) -> Result<Items<Table>, AllocError>
    ensures { IfOk result (λ ts. ts ≡ put_table tables table) }
{
    let mut list = tables.into_vec();
    let at = place_of(list.as_slice(), table.id.0);
    if at < list.len() {
        let old = mem::replace(&mut list[at], table);
        drop(old);
        return Ok(Items::of(list));
    }
    if list.push(table).is_err() {
        drop(list);
        return Err(AllocError);
    }
    Ok(Items::of(list))
}

/// The indexes with this one behind them, or in the place of the one of its number.
fn with_index(indexes: Items<Index>, index: Index) -> Result<Items<Index>, AllocError>
    ensures { IfOk result (λ is. is ≡ put_index indexes index) }
{
    let mut list = indexes.into_vec();
    let at = place_of(list.as_slice(), index.id.0);
    if at < list.len() {
        let old = mem::replace(&mut list[at], index);
        drop(old);
        return Ok(Items::of(list));
    }
    if list.push(index).is_err() {
        drop(list);
        return Err(AllocError);
    }
    Ok(Items::of(list))
}

/// The tables of other numbers.
fn other_tables(tables: Items<Table>, number: u32) -> Items<Table>
    ensures { result ≡ tables_but number tables }
{
    let mut list = tables.into_vec();
    list.retain(|table| table.id.0 != number);
    Items::of(list)
}

/// The indexes of other tables.
fn of_other_tables(indexes: Items<Index>, number: u32) -> Items<Index>
    ensures { result ≡ indexes_of_others number indexes }
{
    let mut list = indexes.into_vec();
    list.retain(|index| index.table.0 != number);
    Items::of(list)
}

/// The indexes of other numbers.
fn other_indexes(indexes: Items<Index>, number: u32) -> Items<Index>
    ensures { result ≡ indexes_but number indexes }
{
    let mut list = indexes.into_vec();
    list.retain(|index| index.id.0 != number);
    Items::of(list)
}

/// The next number behind those of a table.
fn next_after_table(next: u32, table: &Table) -> u32
    requires short { AllByRecursion (λ k. k < 4294967295) (table_draws table.now) }
    ensures { result ≡ above next (table_draws table.now) }
{
    let mut least = next;
    for region in table.regions.as_slice() {
        least = least.max(region.number + 1);
    }
    least.max(table.id.0 + 1)
}

impl Standing {
    /// What stands after a definition. A table that is defined or dropped has no index. A definition of a number that
    /// stands takes its place.
    pub fn after(self, item: CatalogItem) -> Result<Standing, AllocError>
        requires short { AllByRecursion (λ k. k < 4294967295) (drawn_by item) }
        ensures { IfOk result (λ s. s ≡ stands_after self item) }
    {
        let Standing {
            next,
            tables,
            indexes,
        } = self;
        match item {
            CatalogItem::TableIs(table) => {
                let next = next_after_table(next, &table);
                let indexes = of_other_tables(indexes, table.id.0);
                match with_table(tables, table) {
                    Ok(tables) => Ok(Standing {
                        next,
                        tables,
                        indexes,
                    }),
                    Err(fault) => {
                        drop(indexes);
                        Err(fault)
                    }
                }
            }
            CatalogItem::IndexIs(index) => {
                let next = next.max(index.region + 1).max(index.id.0 + 1);
                match with_index(indexes, index) {
                    Ok(indexes) => Ok(Standing {
                        next,
                        tables,
                        indexes,
                    }),
                    Err(fault) => {
                        drop(tables);
                        Err(fault)
                    }
                }
            }
            CatalogItem::TableGone(id) => Ok(Standing {
                next,
                tables: other_tables(tables, id.0),
                indexes: of_other_tables(indexes, id.0),
            }),
            CatalogItem::IndexGone(id) => Ok(Standing {
                next,
                tables,
                indexes: other_indexes(indexes, id.0),
            }),
        }
    }

    /// Another one that is the same.
    pub fn copied(&self, alloc: Global) -> Result<Standing, AllocError>
        ensures { IfOk result (λ s. s ≡ self.now) }
    {
        let tables = copied_tables(alloc, self.tables.as_slice())?;
        match copied_indexes(alloc, self.indexes.as_slice()) {
            Ok(indexes) => Ok(Standing {
                next: self.next,
                tables,
                indexes,
            }),
            Err(fault) => {
                drop(tables);
                Err(fault)
            }
        }
    }
}

/// Other tables that are the same.
fn copied_tables(alloc: Global, tables: &[Table]) -> Result<Items<Table>, AllocError>
    ensures { IfOk result (λ ts. ts ≡ tables.now) }
{
    let mut copies = Vec::with_capacity(alloc, tables.len())?;
    for table in tables {
        copies.push(table.copied(alloc)?)?;
    }
    Ok(Items::of(copies))
}

/// Other indexes that are the same.
fn copied_indexes(alloc: Global, indexes: &[Index]) -> Result<Items<Index>, AllocError>
    ensures { IfOk result (λ is. is ≡ indexes.now) }
{
    let mut copies = Vec::with_capacity(alloc, indexes.len())?;
    for index in indexes {
        copies.push(index.copied(alloc)?)?;
    }
    Ok(Items::of(copies))
}
