// A table with its indexes.
ghost use Rattle.std.specs.Prelude.{◌≡◌, IfOk};

use crate::{Index, Table};
use px_values::Items;
use std::alloc::{AllocError, Global};

/// A table and its indexes, as they stood after so many entries of the trail.
#[derive(Drop)]
pub struct Found {
    pub table: Table,
    /// In order of number.
    pub indexes: Items<Index>,
    pub at: u64,
}

/// Other indexes that are the same.
fn copied_indexes(alloc: Global, indexes: &[Index]) -> Result<Items<Index>, AllocError>
    ensures { IfOk result (λ is. is ≡ indexes.now) }
{
    let mut copies = Vec::with_capacity(alloc, indexes.len())?;
    for index in indexes {
        copies.push(index.copied(alloc)?)?;
    }
    Ok(Items::of(copies))
}

impl Found {
    /// Another table with its indexes that is the same.
    pub fn copied(&self, alloc: Global) -> Result<Found, AllocError>
        ensures { IfOk result (λ f. f ≡ self.now) }
    {
        let table = self.table.copied(alloc)?;
        match copied_indexes(alloc, self.indexes.as_slice()) {
            Ok(indexes) => Ok(Found {
                table,
                indexes,
                at: self.at,
            }),
            Err(fault) => {
                drop(table);
                Err(fault)
            }
        }
    }
}
