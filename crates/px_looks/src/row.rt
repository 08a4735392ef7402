// The row of a key.
ghost use Rattle.std.specs.Prelude.{◌≡◌, ◌+◌, IfOk, length, min, ◌≢◌, ℕ, Err};
ghost use Rattle.px_cells.specs.Contents.{value_at};
ghost use Rattle.px_cells.specs.Rows.{IsRow};
ghost use Rattle.px_cells.specs.Sight.{IsPlainRegion};
ghost use Rattle.px_outside.specs.OnDisk.{Rose};
ghost use Rattle.px_region.specs.OnlyRead.{HasOnlyRead};
ghost use Rattle.px_region.specs.Promise.{IsAlike, IsSamePromise};
ghost use Rattle.px_region.specs.Region.{read_of};
ghost use Rattle.px_region.specs.declared.fault.LookFault.{LookFault as Fault};
ghost use Rattle.px_rows.specs.Keys.{IsRightTable, row_key};
ghost use Rattle.px_rows.specs.Spelled.{IsPlainAt, row_form};

use px_cells::Cell;
use px_outside::Disk;
use px_region::{LookFault, Region};
use px_rows::row_at;
use px_tables::Table;
use px_values::{Row, Value};
use std::alloc::Global;

/// The row with these primary key values, and this key, that a point sees of a region: none where it doesn't stand.
///
/// It is found in logarithmic time by its own cells, of each column by the newest up to the point, and counts as one row looked at. Nothing else of the region changes, and the
/// disk is only read.
pub fn row_state<D: Disk>(
    alloc: Global,
    disk: &mut D,
    region: &mut Region,
    table: &Table,
    row: &[Value],
    key: &[u8],
    point: u64,
) -> Result<Option<Row>, LookFault>
    requires table { IsRightTable table.now }
    requires count { length row.now ≡ length table.now.key }
    requires key { key.now ≡ row_key table.now row.now }
    requires region { IsPlainRegion (read_of region.old) }
    requires plain { IsPlainAt (value_at (read_of region.old)) key.now }
    ensures state { IfOk result (λ state. state ≡ (row_form table.now).spelled (value_at (read_of region.old)) row.now point) }
    ensures looked { region.new.looked ≡ min (region.old.looked + 1) 18446744073709551615 }
    ensures alike { IsAlike region.old region.new }
    ensures promised { IsSamePromise region.old region.new }
    ensures undamaged { (file place : ℕ) → result ≢ Err (Fault.Damaged file place) }
    ensures failed { result ≡ Err Fault.ReadFault → Rose ⟦<D as Disk>⟧ disk.old disk.new }
    ensures only_read { HasOnlyRead ⟦<D as Disk>⟧ disk.old disk.new }
{
    region.look_at(1);
    let cells = region.read_row(disk, key)?;
    let Ok(state) = row_at(alloc, table, row, cells.as_slice(), point) else {
        return Err(LookFault::Memory);
    };
    Ok(state)
}

/// The cells of a key, in their order.
///
/// They are found in logarithmic time and made the reader's own, and count as one row looked at. Nothing else of the region changes, and the disk is
/// only read.
pub fn row_cells<D: Disk>(
    alloc: Global,
    disk: &mut D,
    region: &mut Region,
    key: &[u8],
) -> Result<Vec<Cell>, LookFault>
    ensures cells { IfOk result (λ cells. IsRow (read_of region.old) key.now cells.items) }
    ensures looked { region.new.looked ≡ min (region.old.looked + 1) 18446744073709551615 }
    ensures alike { IsAlike region.old region.new }
    ensures promised { IsSamePromise region.old region.new }
    ensures undamaged { (file place : ℕ) → result ≢ Err (Fault.Damaged file place) }
    ensures failed { result ≡ Err Fault.ReadFault → Rose ⟦<D as Disk>⟧ disk.old disk.new }
    ensures only_read { HasOnlyRead ⟦<D as Disk>⟧ disk.old disk.new }
{
    region.look_at(1);
    match region.read_row(disk, key)?.into_owned(alloc) {
        Ok(cells) => Ok(cells),
        Err(_) => Err(LookFault::Memory),
    }
}
