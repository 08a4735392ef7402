// The rows of a table's path.
ghost use Rattle.std.specs.Prelude.{◌≡◌, ◌≤◌, ℕ, List, IfOk, length, ◌≢◌, Err};
ghost use Rattle.std.specs.Option.{option_copied};
ghost use Rattle.px_cells.specs.Contents.{value_at};
ghost use Rattle.px_cells.specs.Sight.{IsPlainRegion};
ghost use Rattle.px_outside.specs.OnDisk.{Rose};
ghost use Rattle.px_region.specs.OnlyRead.{HasOnlyRead};
ghost use Rattle.px_region.specs.Promise.{IsAlike, IsSamePromise};
ghost use Rattle.px_region.specs.Region.{read_of};
ghost use Rattle.px_region.specs.declared.fault.LookFault.{LookFault as Fault};
ghost use Rattle.px_rows.specs.Keys.{IsRightTable, row_columns};
ghost use Rattle.px_rows.specs.Spelled.{IsPlainAt};
ghost use Rattle.px_looks.specs.Counted.{HasCounted};
ghost use Rattle.px_looks.specs.Found.{AreNext};
ghost use Rattle.px_looks.specs.Rows.{ShowsRow};

use crate::next::{NextKeys, look_next};
use crate::reader::Reader;
use px_calls::{FoundKey, FoundRow};
use px_cells::Cell;
use px_keys::{KeyColumn, KeyFault, decode_key};
use px_outside::Disk;
use px_region::{LookFault, Region};
use px_rows::{column_of, row_at};
use px_tables::Table;
use px_values::Key;
use std::alloc::{AllocError, Global};

/// The columns of a table's keys.
fn columns_of(alloc: Global, table: &Table) -> Result<Vec<KeyColumn>, AllocError>
    requires { IsRightTable table.now }
    ensures { IfOk result (λ columns. columns.items ≡ row_columns table.now) }
{
    let mut columns = Vec::with_capacity(alloc, table.key.as_slice().len())?;
    for place in table.key.as_slice() {
        columns.push(column_of(table.columns.as_slice(), *place))?;
    }
    Ok(columns)
}

/// Reads the rows of a table as of a point.
#[derive(Drop)]
pub(crate) struct RowReader<'a> {
    pub(crate) table: &'a Table,
    /// The columns of its keys.
    pub(crate) columns: &'a [KeyColumn],
    pub(crate) point: u64,
    ghost right: { IsRightTable table.now },
    ghost keyed: { columns.now ≡ row_columns table.now },
    ghost counted: { length columns.now ≡ length table.now.key },
}

impl<'a> Reader for RowReader<'a> {
    ghost use Rattle.px_looks.specs.Rows.{everywhere};

    ghost shows = { λ r. ShowsRow r.table.now r.point };

    ghost admits = { λ r k h. IsPlainAt (everywhere h) k };

    fn read(
        &self,
        alloc: Global,
        key: &[u8],
        cells: &[Cell],
    ) -> Result<Option<FoundKey>, AllocError> {
        let values = match decode_key(alloc, key, self.columns) {
            Ok(values) => values,
            Err(KeyFault::Memory) => return Err(AllocError),
            Err(_) => return Ok(None),
        };
        match row_at(alloc, self.table, values.as_slice(), cells, self.point) {
            Err(fault) => Err(fault),
            Ok(None) => Ok(None),
            Ok(Some(row)) => {
                let key = Key::of(Vec::from_slice(alloc, key)?);
                Ok(Some(FoundKey::Sure(FoundRow { key, row })))
            }
        }
    }

    fn law(&self) {}
}

/// The next rows of a table, from the key `low` on and below `high`, past the key `after`, that a point sees: in the order of
/// their keys, at most 64, and none missing up to the last. Where there may be more, `next` is the key of the last.
///
/// The rows are found in logarithmic time and read one after the other; each one that is looked at is counted, also one that
/// doesn't stand at the point. Nothing else of the region changes, and the disk is only read.
pub fn look_rows<D: Disk>(
    alloc: Global,
    disk: &mut D,
    region: &mut Region,
    table: &Table,
    low: &[u8],
    high: Option<&[u8]>,
    after: Option<&[u8]>,
    point: u64,
) -> Result<NextKeys, LookFault>
    requires table { IsRightTable table.now }
    requires region { IsPlainRegion (read_of region.old) }
    requires plain { (k : List ℕ) → IsPlainAt (value_at (read_of region.old)) k }
    ensures next { IfOk result (λ n. AreNext (ShowsRow table.now point) (value_at (read_of region.old)) low.now (option_copied high.entry) (option_copied after.entry) n.found n.next) }
    ensures counted { IfOk result (λ n. HasCounted region.old region.new (length n.found)) }
    ensures risen { region.old.looked ≤ region.new.looked }
    ensures alike { IsAlike region.old region.new }
    ensures promised { IsSamePromise region.old region.new }
    ensures undamaged { (file place : ℕ) → result ≢ Err (Fault.Damaged file place) }
    ensures failed { result ≡ Err Fault.ReadFault → Rose ⟦<D as Disk>⟧ disk.old disk.new }
    ensures only_read { HasOnlyRead ⟦<D as Disk>⟧ disk.old disk.new }
{
    let Ok(columns) = columns_of(alloc, table) else {
        return Err(LookFault::Memory);
    };
    let reader = RowReader {
        table,
        columns: &columns,
        point,
    };
    look_next(alloc, disk, region, &reader, low, high, after)
}
