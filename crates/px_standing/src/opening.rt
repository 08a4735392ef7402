// What stands when a folder is opened.
ghost use Rattle.std.specs.Prelude.{◌≡◌, IfOk, map};
ghost use Rattle.px_standing.specs.Agrees.{as_opened, opened_standing};

use px_schema::Standing;
use px_tables::{Index, IndexState};
use px_values::Items;
use std::alloc::{AllocError, Global};

/// An index as it stands in a run that opens the folder: one that was building is disabled.
fn index_opened(alloc: Global, index: &Index) -> Result<Index, AllocError>
    ensures { IfOk result (λ i. i ≡ as_opened index.now) }
{
    let mut opened = index.copied(alloc)?;
    if opened.state == IndexState::Building {
        opened.state = IndexState::Disabled;
    }
    Ok(opened)
}

/// The indexes as they stand in a run that opens the folder.
fn indexes_opened(alloc: Global, indexes: &[Index]) -> Result<Items<Index>, AllocError>
    ensures { IfOk result (λ is. is ≡ map as_opened indexes.now) }
{
    let mut opened = Vec::with_capacity(alloc, indexes.len())?;
    for index in indexes {
        opened.push(index_opened(alloc, index)?)?;
    }
    Ok(Items::of(opened))
}

/// What stands for a run that opens the folder: each index that was building is disabled.
pub fn opened(alloc: Global, standing: &Standing) -> Result<Standing, AllocError>
    ensures { IfOk result (λ s. s ≡ opened_standing standing.now) }
{
    let mut copy = standing.copied(alloc)?;
    match indexes_opened(alloc, standing.indexes.as_slice()) {
        Ok(indexes) => {
            copy.indexes = indexes;
            Ok(copy)
        }
        Err(fault) => {
            drop(copy);
            Err(fault)
        }
    }
}
