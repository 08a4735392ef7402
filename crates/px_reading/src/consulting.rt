// The row of a doubt, and what is to be done with its version.
ghost use Rattle.std.specs.Prelude.{◌≡◌, ◌≢◌, ◌<◌, ◌≤◌, ◌+◌, ◌↔◌, ℕ, true, List, None, Some, IfOk, length, slice_get, Err};
ghost use Rattle.px_outside.specs.OnDisk.{Rose};
ghost use Rattle.px_region.specs.OnlyRead.{HasOnlyRead};
ghost use Rattle.px_region.specs.declared.fault.LookFault.{LookFault as LookFaults};
ghost use Rattle.px_cells.specs.Contents.{value_at};
ghost use Rattle.px_forms.specs.Indexes.{IndexForm};
ghost use Rattle.px_groupworld.specs.Group.{GroupData, shape_in, world_in};
ghost use Rattle.px_indexrow.specs.Form.{IsRightIndex, row_of_index};
ghost use Rattle.px_indexrow.specs.Verdicts.{verdict_of};
ghost use Rattle.px_indexrow.specs.declared.doubt.Repair.TheVariants.{Leave};
ghost use Rattle.px_openbatches.specs.Pending.{HeldBatch};
ghost use Rattle.px_cells.specs.Rows.{IsRow};
ghost use Rattle.px_region.specs.Region.{read_of};
ghost use Rattle.px_rows.specs.Keys.{IsRightTable, row_key};
ghost use Rattle.px_rows.specs.Spelled.{row_form};
ghost use Rattle.px_shown.specs.Told.{IsHolder, IsIndexAt, IsPointOfTable, keyed_if, reach_of};
ghost use Rattle.px_calls.specs.declared.query.Point.{Point as PointData};
ghost use Rattle.px_trail.specs.Trail.{Base, horizon_of};
ghost use Rattle.px_trail.specs.declared.entry.Entry.{Entry as Entries};
ghost use Rattle.px_values.specs.Limits.{most_key};
ghost use Rattle.px_world.specs.Events.{due};
ghost use Rattle.px_group.specs.Group.{IsRightGroup, IsShownBy, IsTallied, form_of};
ghost use Rattle.px_group.specs.declared.group.IndexRegion.{IndexRegion as Part};
ghost use Rattle.px_reading.specs.Doubts.{IsKeyIn, IsRowOf, IsToldBy, horizon_at, is_pending, version_seen};
ghost use Rattle.px_reading.specs.Looked.{HasLooked};

use crate::doubted::{Doubted, row_of_doubt};
use crate::due::{due_of, greater, has_key};
use px_group::Group;
use px_indexrow::Repair;
use px_looks::{KeyVersion, key_version};
use px_outside::Disk;
use px_region::LookFault;
use px_rows::row_at;
use px_tables::{Index, Table};
use px_values::Row;
use std::alloc::{AllocError, Global};

/// The row of a doubted key, if its index key is this one, and what is to be done with the version.
#[derive(Drop)]
pub struct Consulted {
    pub row: Option<Row>,
    pub verdict: Repair,
}

/// The row as a point sees it, if its index key is this one.
fn held_in(
    alloc: Global,
    table: &Table,
    index: &Index,
    doubted: &Doubted,
    key: &[u8],
    point: u64,
) -> Result<Option<Row>, AllocError>
    requires table { IsRightTable table.now }
    requires index { IsRightIndex table.now index.now }
    requires row { IsRowOf table.now doubted.now.row.items doubted.now.cells.items }
    requires short { length key.now ≤ most_key }
    ensures { IfOk result (λ row. row ≡ keyed_if table.now index.now doubted.now.row.items key.now ((row_form table.now).spelled (value_at doubted.now.cells.items) doubted.now.row.items point)) }
{
    let state = row_at(alloc, table, &doubted.row, &doubted.cells, point)?;
    if has_key(alloc, table, index, &doubted.row, &state, key)? {
        return Ok(state);
    }
    Ok(None)
}

/// The version that is seen of a key of the index at a place, by a point at or above both the stamp and the horizon.
///
/// It looks at no row of the table. The disk is only read.
pub fn version_of_doubt<D: Disk>(
    alloc: Global,
    disk: &mut D,
    group: &mut Group,
    place: usize,
    key: &[u8],
    stamp: u64,
) -> Result<Option<KeyVersion>, LookFault>
    requires right { IsRightGroup group.old }
    requires there { place < length group.old.indexes.items }
    ensures seen { IfOk result (λ seen. (x : Part) → slice_get group.old.indexes.items place ≡ Some x → seen ≡ version_seen group.old x key.now stamp) }
    ensures looked { HasLooked group.old group.new }
    ensures no_row { group.new.rows ≡ group.old.rows }
    ensures undamaged { (file place : ℕ) → result ≢ Err (LookFaults.Damaged file place) }
    ensures failed { result ≡ Err LookFaults.ReadFault → Rose ⟦<D as Disk>⟧ disk.old disk.new }
    ensures only_read { HasOnlyRead ⟦<D as Disk>⟧ disk.old disk.new }
{
    let part = &mut group.indexes[place];
    let horizon = greater(part.index.birth, group.horizon);
    key_version(
        alloc,
        disk,
        &mut part.region,
        &part.index,
        key,
        greater(stamp, horizon),
    )
}

/// The row of a doubted key as a point sees it, if its index key is this one, and what is to be done with the version.
fn answered(
    alloc: Global,
    group: &Group,
    place: usize,
    doubted: &Doubted,
    key: &[u8],
    stamp: u64,
    point: u64,
    seen: &Option<KeyVersion>,
) -> Result<Consulted, AllocError>
    requires right { IsRightGroup group.now }
    requires there { place < length group.now.indexes.items }
    requires key { (x : Part) → slice_get group.now.indexes.items place ≡ Some x → IsKeyIn group.now x key.now }
    requires row { (x : Part) → slice_get group.now.indexes.items place ≡ Some x → doubted.now.row.items ≡ row_of_index group.now.table x.index key.now }
    requires cells { IsRow (read_of group.now.rows) (row_key group.now.table doubted.now.row.items) doubted.now.cells.items }
    requires seen { (x : Part) → slice_get group.now.indexes.items place ≡ Some x → seen.now ≡ version_seen group.now x key.now stamp }
    ensures leave { IfOk result (λ c. (c.verdict ≡ Leave) ↔ (is_pending group.now stamp doubted.now.row.items ≡ true)) }
    ensures due { IfOk result (λ c. (x : Part) → slice_get group.now.indexes.items place ≡ Some x → (b : Base) (index : ℕ → IndexForm) (es : List Entries) (v : GroupData) (hs : List HeldBatch) → IsTallied b es group.now hs → IsShownBy b index es group.now v hs → IsToldBy b index es group.now v → (stamp ≤ horizon_at group.now x → seen.now ≢ None) → verdict_of c.verdict ≡ due (shape_in (form_of b index group.now) v place doubted.now.row.items) (world_in (form_of b index group.now) es v place doubted.now.row.items) key.now stamp) }
    ensures row { IfOk result (λ c. (x : Part) → slice_get group.now.indexes.items place ≡ Some x → c.row ≡ keyed_if group.now.table x.index doubted.now.row.items key.now ((row_form group.now.table).spelled (value_at doubted.now.cells.items) doubted.now.row.items point)) }
{
    let verdict = due_of(alloc, group, place, doubted, key, stamp, seen)?;
    let index = &group.indexes[place].index;
    let row = held_in(alloc, &group.table, index, doubted, key, point)?;
    Ok(Consulted { row, verdict })
}

/// The row that holds a key of the index at a place as a point sees it, and what is to be done with the version of this stamp: nothing
/// exactly where an open batch of the stamp is still to write the row.
///
/// It looks at one row of the table. A current point sees up to the greatest stamp. The disk is only read.
pub fn consult<D: Disk>(
    alloc: Global,
    disk: &mut D,
    group: &mut Group,
    place: usize,
    key: &[u8],
    stamp: u64,
    point: u64,
) -> Result<Consulted, LookFault>
    requires right { IsRightGroup group.old }
    requires there { place < length group.old.indexes.items }
    requires key { (x : Part) → slice_get group.old.indexes.items place ≡ Some x → IsKeyIn group.old x key.now }
    ensures leave { IfOk result (λ c. (x : Part) → slice_get group.old.indexes.items place ≡ Some x → (c.verdict ≡ Leave) ↔ (is_pending group.old stamp (row_of_index group.old.table x.index key.now) ≡ true)) }
    ensures row { IfOk result (λ c. (x : Part) → slice_get group.old.indexes.items place ≡ Some x → (b : Base) (index : ℕ → IndexForm) (es : List Entries) (v : GroupData) (hs : List HeldBatch) → IsShownBy b index es group.old v hs → (p : PointData) → IsPointOfTable group.old.table p → IsIndexAt p x.index → reach_of p ≡ point → horizon_of b group.old.table.id.0 es ≤ point → IsHolder b es p x.index.id key.now c.row) }
    ensures due { IfOk result (λ c. (x : Part) → slice_get group.old.indexes.items place ≡ Some x → (b : Base) (index : ℕ → IndexForm) (es : List Entries) (v : GroupData) (hs : List HeldBatch) → IsTallied b es group.old hs → IsShownBy b index es group.old v hs → IsToldBy b index es group.old v → (stamp ≤ horizon_at group.old x → version_seen group.old x key.now stamp ≢ None) → verdict_of c.verdict ≡ due (shape_in (form_of b index group.old) v place (row_of_index group.old.table x.index key.now)) (world_in (form_of b index group.old) es v place (row_of_index group.old.table x.index key.now)) key.now stamp) }
    ensures looked { HasLooked group.old group.new }
    ensures counted { group.new.rows.looked ≤ group.old.rows.looked + 1 }
    ensures undamaged { (file place : ℕ) → result ≢ Err (LookFaults.Damaged file place) }
    ensures failed { result ≡ Err LookFaults.ReadFault → Rose ⟦<D as Disk>⟧ disk.old disk.new }
    ensures only_read { HasOnlyRead ⟦<D as Disk>⟧ disk.old disk.new }
{
    let seen = version_of_doubt(alloc, disk, group, place, key, stamp)?;
    let doubted = row_of_doubt(alloc, disk, group, place, key)?;
    match answered(alloc, group, place, &doubted, key, stamp, point, &seen) {
        Ok(consulted) => Ok(consulted),
        Err(_) => Err(LookFault::Memory),
    }
}
