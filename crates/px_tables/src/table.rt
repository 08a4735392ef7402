// Tables.
ghost use Rattle.std.specs.Prelude.{◌≡◌, IfOk, map};
ghost use Rattle.px_tables.specs.Definitions.{definition_of};

use px_values::{ColType, Direction, Items, Key, Name, TableId};
use std::alloc::{AllocError, Global};

/// A column of a table.
#[derive(Drop)]
pub struct TableColumn {
    pub name: Name,
    pub column_type: ColType,
    /// NOT NULL is written. A column of fixed width in the primary key can't be NULL either.
    pub not_null: bool,
}

impl TableColumn {
    /// Another column that is the same.
    pub fn copied(&self, alloc: Global) -> Result<TableColumn, AllocError>
        ensures { IfOk result (λ c. c ≡ self.now) }
    {
        let name = Name::from_str(alloc, self.name.as_str())?;
        Ok(TableColumn {
            name,
            column_type: self.column_type,
            not_null: self.not_null,
        })
    }
}

/// A column of a key, by its place in the table, and its direction.
#[derive(Clone, Copy, PartialEq, Eq)]
pub struct KeyPlace {
    pub column: u8,
    pub direction: Direction,
}

/// A region of a table: its number, and the least key of a row in it.
#[derive(Drop)]
pub struct TableRegion {
    pub number: u32,
    pub least_key: Key,
}

impl TableRegion {
    /// Another region that is the same.
    pub fn copied(&self, alloc: Global) -> Result<TableRegion, AllocError>
        ensures { IfOk result (λ r. r ≡ self.now) }
    {
        let least_key = copied_key(alloc, &self.least_key)?;
        Ok(TableRegion {
            number: self.number,
            least_key,
        })
    }
}

/// Another key that is the same.
fn copied_key(alloc: Global, key: &Key) -> Result<Key, AllocError>
    ensures { IfOk result (λ k. k ≡ key.now) }
{
    let bytes = Vec::from_slice(alloc, key.as_slice())?;
    Ok(Key::of(bytes))
}

/// Other columns that are the same.
fn copied_columns(alloc: Global, columns: &[TableColumn]) -> Result<Items<TableColumn>, AllocError>
    ensures { IfOk result (λ cs. cs ≡ columns.now) }
{
    let mut copies = Vec::with_capacity(alloc, columns.len())?;
    for column in columns {
        copies.push(column.copied(alloc)?)?;
    }
    Ok(Items::of(copies))
}

/// Other keys that are the same.
fn copied_keys(alloc: Global, keys: &[Key]) -> Result<Items<Key>, AllocError>
    ensures { IfOk result (λ ks. ks ≡ keys.now) }
{
    let mut copies = Vec::with_capacity(alloc, keys.len())?;
    for key in keys {
        copies.push(copied_key(alloc, key)?)?;
    }
    Ok(Items::of(copies))
}

/// Other regions that are the same.
fn copied_regions(alloc: Global, regions: &[TableRegion]) -> Result<Items<TableRegion>, AllocError>
    ensures { IfOk result (λ rs. rs ≡ regions.now) }
{
    let mut copies = Vec::with_capacity(alloc, regions.len())?;
    for region in regions {
        copies.push(region.copied(alloc)?)?;
    }
    Ok(Items::of(copies))
}

/// The least keys of regions.
fn least_keys(alloc: Global, regions: &[TableRegion]) -> Result<Items<Key>, AllocError>
    ensures { IfOk result (λ ks. ks ≡ map (λ r. r.least_key) regions.now) }
{
    let mut copies = Vec::with_capacity(alloc, regions.len())?;
    for region in regions {
        copies.push(copied_key(alloc, &region.least_key)?)?;
    }
    Ok(Items::of(copies))
}

/// Other parts of a key that are the same.
pub(crate) fn copied_places(
    alloc: Global,
    places: &Items<KeyPlace>,
) -> Result<Items<KeyPlace>, AllocError>
    ensures { IfOk result (λ ps. ps ≡ places.now) }
{
    let copies = Vec::from_slice(alloc, places.as_slice())?;
    Ok(Items::of(copies))
}

/// A table without the numbers that it draws.
#[derive(Drop)]
pub struct NewTable {
    pub name: Name,
    /// In order of definition.
    pub columns: Items<TableColumn>,
    /// The primary key.
    pub key: Items<KeyPlace>,
    /// The least key of each region; the first is empty.
    pub least_keys: Items<Key>,
}

/// A table as it stands.
#[derive(Drop)]
pub struct Table {
    pub id: TableId,
    pub name: Name,
    /// In order of definition.
    pub columns: Items<TableColumn>,
    /// The primary key.
    pub key: Items<KeyPlace>,
    /// In order of their least keys; that of the first is empty.
    pub regions: Items<TableRegion>,
}

impl NewTable {
    /// Another new table that is the same.
    pub fn copied(&self, alloc: Global) -> Result<NewTable, AllocError>
        ensures { IfOk result (λ t. t ≡ self.now) }
    {
        let name = Name::from_str(alloc, self.name.as_str())?;
        let columns = copied_columns(alloc, self.columns.as_slice())?;
        let key = copied_places(alloc, &self.key)?;
        let least_keys = copied_keys(alloc, self.least_keys.as_slice())?;
        Ok(NewTable {
            name,
            columns,
            key,
            least_keys,
        })
    }
}

impl Table {
    /// Another table that is the same.
    pub fn copied(&self, alloc: Global) -> Result<Table, AllocError>
        ensures { IfOk result (λ t. t ≡ self.now) }
    {
        let name = Name::from_str(alloc, self.name.as_str())?;
        let columns = copied_columns(alloc, self.columns.as_slice())?;
        let key = copied_places(alloc, &self.key)?;
        let regions = copied_regions(alloc, self.regions.as_slice())?;
        Ok(Table {
            id: self.id,
            name,
            columns,
            key,
            regions,
        })
    }

    /// The new table that this one was made from.
    pub fn definition(&self, alloc: Global) -> Result<NewTable, AllocError>
        ensures { IfOk result (λ t. t ≡ definition_of self.now) }
    {
        let name = Name::from_str(alloc, self.name.as_str())?;
        let columns = copied_columns(alloc, self.columns.as_slice())?;
        let key = copied_places(alloc, &self.key)?;
        let least_keys = least_keys(alloc, self.regions.as_slice())?;
        Ok(NewTable {
            name,
            columns,
            key,
            least_keys,
        })
    }
}
