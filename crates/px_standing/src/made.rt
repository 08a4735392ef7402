// New definitions with the numbers that they draw.
ghost use Rattle.std.specs.Prelude.{◌≡◌, ◌<◌, ◌≤◌, ◌+◌, ◌^◌, length, IfOk};
ghost use Rattle.px_trail.specs.Trail.{made_index, made_table, numbered_regions};

use px_tables::{Index, IndexState, NewIndex, NewTable, Table, TableRegion};
use px_values::{IndexId, Items, Key, TableId};
use std::alloc::{AllocError, Global};

/// Regions with these least keys, numbered from the next number on.
fn regions_of(
    alloc: Global,
    next: u32,
    least_keys: &[Key],
) -> Result<Items<TableRegion>, AllocError>
    requires { next + length least_keys.now < 2 ^ 32 }
    ensures { IfOk result (λ rs. rs ≡ numbered_regions next least_keys.now) }
{
    let mut regions = Vec::with_capacity(alloc, least_keys.len())?;
    for place in 0..least_keys.len() {
        let least_key = Vec::from_slice(alloc, least_keys[place].as_slice())?;
        regions.push(TableRegion {
            number: next + place as u32,
            least_key: Key::of(least_key),
        })?;
    }
    Ok(Items::of(regions))
}

/// The table that a definition makes: its regions take the next numbers, and then the table its own.
pub fn new_table(alloc: Global, next: u32, what: NewTable) -> Result<Table, AllocError>
    requires { next + length what.least_keys < 2 ^ 32 }
    ensures { IfOk result (λ t. t ≡ made_table next (record { 0 = next + length what.least_keys }) what) }
{
    let id = TableId(next + what.least_keys.as_slice().len() as u32);
    let NewTable {
        name,
        columns,
        key,
        least_keys,
    } = what;
    let regions = regions_of(alloc, next, least_keys.as_slice());
    drop(least_keys);
    match regions {
        Ok(regions) => Ok(Table {
            id,
            name,
            columns,
            key,
            regions,
        }),
        Err(fault) => {
            drop(name);
            drop(columns);
            Err(fault)
        }
    }
}

/// The index that a definition makes, building from this stamp on: its region takes the next number, and then the index its own.
pub fn new_index(next: u32, stamp: u64, what: NewIndex) -> Index
    requires { next + 1 < 2 ^ 32 }
    ensures { result ≡ made_index next (record { 0 = next + 1 }) stamp what }
{
    let NewIndex {
        table,
        name,
        parts,
        included,
    } = what;
    Index {
        id: IndexId(next + 1),
        table,
        name,
        state: IndexState::Building,
        birth: stamp,
        region: next,
        parts,
        included,
    }
}
