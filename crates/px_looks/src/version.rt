// The version of an index key that a point sees.
ghost use Rattle.std.specs.Prelude.{◌≡◌, ◌+◌, ◌∷◌, [], ℕ, List, None, Some, suc, nat_eq, IfOk, MatchOption, map, min, ◌≢◌, Err};
ghost use Rattle.std.specs.Cmp.Lexicographic.{pointwise};
ghost use Rattle.px_cells.specs.Contents.{value_at};
ghost use Rattle.px_cells.specs.Order.{IsCellList};
ghost use Rattle.px_cells.specs.Sight.{IsPlainRegion};
ghost use Rattle.px_outside.specs.OnDisk.{Rose};
ghost use Rattle.px_region.specs.OnlyRead.{HasOnlyRead};
ghost use Rattle.px_region.specs.Promise.{IsAlike, IsSamePromise};
ghost use Rattle.px_region.specs.Region.{read_of};
ghost use Rattle.px_region.specs.declared.fault.LookFault.{LookFault as Fault};
ghost use Rattle.px_rows.specs.inner.Found.{AreOf};
ghost use Rattle.px_looks.specs.Found.{at_key};
ghost use Rattle.px_looks.specs.Versions.{HasNoDelete, version_at};
ghost use Rattle.px_looks.specs.inner.Seen.{AreSeen, cell_in, value_in as column_value};

use px_cells::{Cell, Cells, visible_in};
use px_outside::Disk;
use px_region::{LookFault, Region};
use px_tables::Index;
use px_values::Items;
use std::alloc::{AllocError, Global};

/// The qualifier of the status column.
pub(crate) const STATUS: u64 = 1;

/// The qualifier of a table's first column.
pub(crate) const FIRST: u64 = 2;

/// What stands in the status column of a verified version.
const VERIFIED: u8 = 1;

/// The version of an index key that a point sees: its stamp, whether it is verified, and the stored values of the included
/// columns, with `None` where the point sees none.
#[derive(Drop)]
pub struct KeyVersion {
    pub stamp: u64,
    pub verified: bool,
    pub values: Items<Option<Items<u8>>>,
}

/// The puts that a point sees, by all cells of a key.
pub(crate) fn seen_in(alloc: Global, cells: &[Cell], point: u64) -> Result<Cells, AllocError>
    requires list { IsCellList cells.now }
    ensures { IfOk result (λ seen. (k : List ℕ) → AreOf k cells.now → HasNoDelete (at_key (value_at cells.now) k) → AreSeen (at_key (value_at cells.now) k) point seen) }
{
    let seen = visible_in(alloc, cells, point)?;
    Ok(seen)
}

/// The cell of a column.
pub(crate) fn put_of(seen: &[Cell], qualifier: u64) -> Option<&Cell>
    ensures { MatchOption result (cell_in seen.now qualifier ≡ None) (λ c. cell_in seen.now qualifier ≡ Some c.now) }
{
    for i in 0..seen.len() {
        if seen[i].qualifier() as u64 == qualifier {
            return Some(&seen[i]);
        }
    }
    None
}

/// The value of a column.
fn value_of(alloc: Global, seen: &[Cell], qualifier: u64) -> Result<Option<Items<u8>>, AllocError>
    ensures { IfOk result (λ value. value ≡ column_value seen.now qualifier) }
{
    match put_of(seen, qualifier) {
        Some(cell) => {
            let bytes = Vec::from_slice(alloc, cell.value())?;
            Ok(Some(Items::of(bytes)))
        }
        None => Ok(None),
    }
}

/// The values of columns of the table.
fn values_of(
    alloc: Global,
    seen: &[Cell],
    columns: &[u8],
) -> Result<Vec<Option<Items<u8>>>, AllocError>
    ensures { IfOk result (λ values. values.items ≡ map (λ c. column_value seen.now (suc (suc c))) columns.now) }
{
    let mut values = Vec::with_capacity(alloc, columns.len())?;
    for column in columns {
        let value = value_of(alloc, seen, FIRST + *column as u64)?;
        values.push(value)?;
    }
    Ok(values)
}

/// Whether a status is that of a verified version.
pub(crate) fn is_verified(status: &Cell) -> bool
    ensures { result ≡ pointwise nat_eq status.now.value (1 ∷ []) }
{
    status.value() == [VERIFIED].as_slice()
}

/// The version that a point sees, by all cells of a key.
fn version_in(
    alloc: Global,
    cells: &[Cell],
    columns: &[u8],
    point: u64,
) -> Result<Option<KeyVersion>, AllocError>
    requires list { IsCellList cells.now }
    ensures { IfOk result (λ version. (k : List ℕ) → AreOf k cells.now → HasNoDelete (at_key (value_at cells.now) k) → version ≡ version_at (at_key (value_at cells.now) k) columns.now point) }
{
    let seen = seen_in(alloc, cells, point)?;
    let puts = seen.as_slice();
    match put_of(puts, STATUS) {
        Some(status) => {
            let values = values_of(alloc, puts, columns)?;
            Ok(Some(KeyVersion {
                stamp: status.stamp(),
                verified: is_verified(status),
                values: Items::of(values),
            }))
        }
        None => Ok(None),
    }
}

/// The version of an index key that a point sees of the index's region: none where it sees none.
///
/// It is found in logarithmic time by the cells of the key, and counts as one row looked at. Nothing else of the region changes,
/// and the disk is only read.
pub fn key_version<D: Disk>(
    alloc: Global,
    disk: &mut D,
    region: &mut Region,
    index: &Index,
    key: &[u8],
    point: u64,
) -> Result<Option<KeyVersion>, LookFault>
    requires region { IsPlainRegion (read_of region.old) }
    ensures version { IfOk result (λ version. version ≡ version_at (at_key (value_at (read_of region.old)) key.now) index.now.included point) }
    ensures looked { region.new.looked ≡ min (region.old.looked + 1) 18446744073709551615 }
    ensures alike { IsAlike region.old region.new }
    ensures promised { IsSamePromise region.old region.new }
    ensures undamaged { (file place : ℕ) → result ≢ Err (Fault.Damaged file place) }
    ensures failed { result ≡ Err Fault.ReadFault → Rose ⟦<D as Disk>⟧ disk.old disk.new }
    ensures only_read { HasOnlyRead ⟦<D as Disk>⟧ disk.old disk.new }
{
    region.look_at(1);
    let cells = region.read_row(disk, key)?;
    let columns = index.included.as_slice();
    let Ok(version) = version_in(alloc, cells.as_slice(), columns, point) else {
        return Err(LookFault::Memory);
    };
    Ok(version)
}
