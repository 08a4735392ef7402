// Indexes.
ghost use Rattle.std.specs.Prelude.{◌≡◌, IfOk};
ghost use Rattle.px_tables.specs.Definitions.{index_definition_of};

use crate::KeyPlace;
use crate::table::copied_places;
use px_values::{IndexId, Items, Name, TableId};
use std::alloc::{AllocError, Global};

/// How far an index is built.
#[derive(Clone, Copy, PartialEq, Eq)]
pub enum IndexState {
    Building,
    Active,
    Disabled,
}

/// An index without the numbers that it draws.
#[derive(Drop)]
pub struct NewIndex {
    pub table: TableId,
    pub name: Name,
    /// The indexed columns, without those of the primary key that its keys end with.
    pub parts: Items<KeyPlace>,
    /// The included columns, by their places in the table.
    pub included: Items<u8>,
}

/// An index as it stands.
#[derive(Drop)]
pub struct Index {
    pub id: IndexId,
    pub table: TableId,
    pub name: Name,
    pub state: IndexState,
    /// The stamp that its building began at.
    pub birth: u64,
    pub region: u32,
    /// The indexed columns, without those of the primary key that its keys end with.
    pub parts: Items<KeyPlace>,
    /// The included columns, by their places in the table.
    pub included: Items<u8>,
}

/// Other columns that are the same.
fn copied_included(alloc: Global, included: &Items<u8>) -> Result<Items<u8>, AllocError>
    ensures { IfOk result (λ cs. cs ≡ included.now) }
{
    let copies = Vec::from_slice(alloc, included.as_slice())?;
    Ok(Items::of(copies))
}

impl NewIndex {
    /// Another new index that is the same.
    pub fn copied(&self, alloc: Global) -> Result<NewIndex, AllocError>
        ensures { IfOk result (λ i. i ≡ self.now) }
    {
        let name = Name::from_str(alloc, self.name.as_str())?;
        let parts = copied_places(alloc, &self.parts)?;
        let included = copied_included(alloc, &self.included)?;
        Ok(NewIndex {
            table: self.table,
            name,
            parts,
            included,
        })
    }
}

impl Index {
    /// Another index that is the same.
    pub fn copied(&self, alloc: Global) -> Result<Index, AllocError>
        ensures { IfOk result (λ i. i ≡ self.now) }
    {
        let name = Name::from_str(alloc, self.name.as_str())?;
        let parts = copied_places(alloc, &self.parts)?;
        let included = copied_included(alloc, &self.included)?;
        Ok(Index {
            id: self.id,
            table: self.table,
            name,
            state: self.state,
            birth: self.birth,
            region: self.region,
            parts,
            included,
        })
    }

    /// The new index that this one was made from.
    pub fn definition(&self, alloc: Global) -> Result<NewIndex, AllocError>
        ensures { IfOk result (λ i. i ≡ index_definition_of self.now) }
    {
        let name = Name::from_str(alloc, self.name.as_str())?;
        let parts = copied_places(alloc, &self.parts)?;
        let included = copied_included(alloc, &self.included)?;
        Ok(NewIndex {
            table: self.table,
            name,
            parts,
            included,
        })
    }
}
