// What is due of a doubted version.
ghost use Rattle.std.specs.Prelude.{◌≡◌, ◌≢◌, ◌<◌, ◌≤◌, ◌↔◌, ℕ, true, List, None, Some, IfOk, IfSome, get_or, length, map, max, slice_get};
ghost use Rattle.std.specs.List.{list_any};
ghost use Rattle.std.specs.Option.{option_copied};
ghost use Rattle.px_cells.specs.Contents.{value_at};
ghost use Rattle.px_cells.specs.Rows.{IsRow};
ghost use Rattle.px_forms.specs.Indexes.{IndexForm, shape_at};
ghost use Rattle.px_groupworld.specs.Group.{GroupData, shape_in, world_in};
ghost use Rattle.px_indexrow.specs.Form.{FitsRowState, IsRightIndex, index_form, key_of_state, row_of_index};
ghost use Rattle.px_indexrow.specs.Verdicts.{verdict_of};
ghost use Rattle.px_indexrow.specs.declared.doubt.Repair.TheVariants.{Leave};
ghost use Rattle.px_keys.specs.Spelling.{Fits};
ghost use Rattle.px_looks.specs.Stamps.{has_stamp};
ghost use Rattle.px_openbatches.specs.Pending.{HeldBatch};
ghost use Rattle.px_region.specs.Region.{read_of};
ghost use Rattle.px_rows.specs.Keys.{IsRightTable, row_columns, row_key};
ghost use Rattle.px_rows.specs.Spelled.{row_form};
ghost use Rattle.px_shown.specs.Told.{is_key_in};
ghost use Rattle.px_trail.specs.Trail.{Base};
ghost use Rattle.px_trail.specs.declared.entry.Entry.{Entry as Entries};
ghost use Rattle.px_values.specs.Limits.{most_key};
ghost use Rattle.px_values.specs.States.{RowState, Shape};
ghost use Rattle.px_values.specs.declared.row.Value.{Value as ColumnValue};
ghost use Rattle.px_world.specs.Events.{due};
ghost use Rattle.px_world.specs.World.{World};
ghost use Rattle.px_group.specs.Group.{IsRightGroup, IsShownBy, IsTallied, form_of};
ghost use Rattle.px_group.specs.declared.group.IndexRegion.{IndexRegion as Part};
ghost use Rattle.px_reading.specs.Doubts.{IsBelow, IsBelowBy, IsKeyIn, IsRowOf, IsToldBy, above_verdict, state_bytes, horizon_at, is_left_of, is_pending, version_seen};

use crate::doubted::Doubted;
use px_group::{Begun, Group};
use px_indexrow::{ChangeFate, Repair, Told, Version, index_key, verdict};
use px_looks::{KeyVersion, any_of_stamp};
use px_rows::{RowFault, row_at, stored_value};
use px_tables::{Index, Table};
use px_values::{Items, Key, Row, Value};
use std::alloc::{AllocError, Global};

/// The greater of two stamps.
pub(crate) fn greater(a: u64, b: u64) -> u64
    ensures { result ≡ max a b }
{
    if a < b {
        return b;
    }
    a
}

/// Whether an open batch of the stamp is still to write the row.
fn is_left(batches: &[Begun], stamp: u64, row: &[Value]) -> bool
    ensures { result ≡ list_any (is_left_of stamp row.now) batches.now }
{
    batches.iter().any(|begun| begun.batch.stamp() == stamp && begun.batch.left_of(row).is_some())
}

/// The index key of a row's state, if it has at most 1,024 bytes.
fn key_if(
    alloc: Global,
    table: &Table,
    index: &Index,
    row: &[Value],
    state: &Option<Row>,
) -> Result<Option<Key>, AllocError>
    requires table { IsRightTable table.now }
    requires index { IsRightIndex table.now index.now }
    requires fits { Fits (row_columns table.now) row.now }
    requires state { FitsRowState table.now state.now }
    ensures { IfOk result (λ key. (k : List ℕ) → length k ≤ most_key → is_key_in k key ≡ is_key_in k (key_of_state table.now index.now row.now state.now)) }
{
    let Some(values) = state else {
        return Ok(None);
    };
    match index_key(alloc, table, index, row, values.as_slice()) {
        Ok(key) => Ok(Some(key)),
        Err(RowFault::KeyTooLong) => Ok(None),
        Err(_) => Err(AllocError),
    }
}

/// The bytes of a column's value, none of NULL.
fn bytes_of(
    alloc: Global,
    table: &Table,
    state: &Option<Row>,
    place: u8,
) -> Result<Option<Items<u8>>, AllocError>
    requires within { place < length table.now.columns }
    requires state { FitsRowState table.now state.now }
    ensures { IfOk result (λ bytes. bytes ≡ state_bytes table.now state.now place) }
{
    let Some(row) = state else {
        return Ok(None);
    };
    let value = &row.as_slice()[place as usize];
    if let Value::Null = value {
        return Ok(None);
    }
    let column = &table.columns.as_slice()[place as usize];
    let bytes = stored_value(alloc, column.column_type, value)?;
    Ok(Some(Items::of(bytes)))
}

/// The values of included columns in a state.
fn values_of(
    alloc: Global,
    table: &Table,
    included: &[u8],
    state: &Option<Row>,
) -> Result<Vec<Option<Items<u8>>>, AllocError>
    requires within { (c : ℕ) → c < length included.now → get_or included.now c 0 < length table.now.columns }
    requires state { FitsRowState table.now state.now }
    ensures { IfOk result (λ values. values.items ≡ map (λ c. state_bytes table.now state.now c) included.now) }
{
    let mut values = Vec::with_capacity(alloc, included.len())?;
    for column in included {
        let bytes = bytes_of(alloc, table, state, *column)?;
        values.push(bytes)?;
    }
    Ok(values)
}

/// Whether it is the index key of a row's state.
pub(crate) fn has_key(
    alloc: Global,
    table: &Table,
    index: &Index,
    row: &[Value],
    state: &Option<Row>,
    key: &[u8],
) -> Result<bool, AllocError>
    requires table { IsRightTable table.now }
    requires index { IsRightIndex table.now index.now }
    requires fits { Fits (row_columns table.now) row.now }
    requires state { FitsRowState table.now state.now }
    requires short { length key.now ≤ most_key }
    ensures { IfOk result (λ has. has ≡ is_key_in key.now (key_of_state table.now index.now row.now state.now)) }
{
    match key_if(alloc, table, index, row, state)? {
        Some(own) => Ok(key == own.as_slice()),
        None => Ok(false),
    }
}

/// What is due of a version above the horizon: its own change decides.
fn due_above(
    alloc: Global,
    table: &Table,
    index: &Index,
    doubted: &Doubted,
    key: &[u8],
    stamp: u64,
) -> Result<Repair, AllocError>
    requires table { IsRightTable table.now }
    requires index { IsRightIndex table.now index.now }
    requires row { IsRowOf table.now doubted.now.row.items doubted.now.cells.items }
    requires short { length key.now ≤ most_key }
    ensures { IfOk result (λ repair. verdict_of repair ≡ above_verdict (has_stamp stamp doubted.now.cells.items) (is_key_in key.now (key_of_state table.now index.now doubted.now.row.items ((row_form table.now).spelled (value_at doubted.now.cells.items) doubted.now.row.items stamp)))) }
{
    if !any_of_stamp(&doubted.cells, stamp) {
        return Ok(Repair::Erase);
    }
    let new = row_at(alloc, table, &doubted.row, &doubted.cells, stamp)?;
    if has_key(alloc, table, index, &doubted.row, &new, key)? {
        return Ok(Repair::Verify);
    }
    Ok(Repair::Retire)
}

/// What is due of a version at or below the horizon, by the values that are seen of it and by the row's key and values there.
fn judged<'x>(
    key: &'x [u8],
    stamp: u64,
    seen: &'x [Option<Items<u8>>],
    own: Option<&'x [u8]>,
    values: &'x [Option<Items<u8>>],
    horizon: u64,
    floor: u64,
) -> Repair
    requires count { length seen.now ≡ length values.now }
    requires low { stamp ≤ horizon }
    ensures decided { result ≢ Leave }
    ensures due { (sh : Shape) (f : IndexForm) (r : List ColumnValue) (w : World (List ℕ) RowState (List ℕ)) → IsBelowBy f r w key.now stamp horizon floor seen.now (option_copied own.entry) values.now → verdict_of result ≡ due (shape_at sh f r) w key.now stamp }
{
    let version = Version {
        key,
        stamp,
        values: seen,
    };
    let told = Told {
        fate: ChangeFate::Lost,
        new_key: None,
        horizon,
        horizon_key: own,
        horizon_values: values,
        floor,
    };
    verdict(&version, &told)
}

/// The bytes of a key, if there is one.
fn bytes_if(key: &Option<Key>) -> Option<&[u8]>
    ensures { option_copied result ≡ key.now }
{
    match key {
        Some(key) => Some(key.as_slice()),
        None => None,
    }
}

/// What is due of a version at or below the horizon: the row's state there decides.
fn due_below(
    alloc: Global,
    table: &Table,
    index: &Index,
    doubted: &Doubted,
    key: &[u8],
    stamp: u64,
    seen: &Option<KeyVersion>,
    horizon: u64,
    floor: u64,
) -> Result<Repair, AllocError>
    requires table { IsRightTable table.now }
    requires index { IsRightIndex table.now index.now }
    requires row { IsRowOf table.now doubted.now.row.items doubted.now.cells.items }
    requires short { length key.now ≤ most_key }
    requires seen { IfSome seen.now (λ version. length version.values ≡ length index.now.included) }
    requires low { stamp ≤ horizon }
    ensures decided { IfOk result (λ repair. repair ≢ Leave) }
    ensures due { IfOk result (λ repair. IfSome seen.now (λ version. (sh : Shape) (w : World (List ℕ) RowState (List ℕ)) → IsBelow table.now index.now doubted.now.row.items doubted.now.cells.items key.now stamp horizon floor version.values w → verdict_of repair ≡ due (shape_at sh (index_form table.now index.now) doubted.now.row.items) w key.now stamp)) }
{
    let state = row_at(alloc, table, &doubted.row, &doubted.cells, horizon)?;
    let own = key_if(alloc, table, index, &doubted.row, &state)?;
    let values = values_of(alloc, table, index.included.as_slice(), &state)?;
    match seen {
        Some(version) => Ok(judged(
            key,
            stamp,
            version.values.as_slice(),
            bytes_if(&own),
            &values,
            horizon,
            floor,
        )),
        None => Ok(judged(key, stamp, &values, bytes_if(&own), &values, horizon, floor)),
    }
}

/// What is due of a version of the index at a place, by what its row's cells and the open batches tell, and by the version that is seen
/// of its key.
///
/// It takes memory alone.
pub fn due_of(
    alloc: Global,
    group: &Group,
    place: usize,
    doubted: &Doubted,
    key: &[u8],
    stamp: u64,
    seen: &Option<KeyVersion>,
) -> Result<Repair, AllocError>
    requires right { IsRightGroup group.now }
    requires there { place < length group.now.indexes.items }
    requires key { (x : Part) → slice_get group.now.indexes.items place ≡ Some x → IsKeyIn group.now x key.now }
    requires row { (x : Part) → slice_get group.now.indexes.items place ≡ Some x → doubted.now.row.items ≡ row_of_index group.now.table x.index key.now }
    requires cells { IsRow (read_of group.now.rows) (row_key group.now.table doubted.now.row.items) doubted.now.cells.items }
    requires seen { (x : Part) → slice_get group.now.indexes.items place ≡ Some x → seen.now ≡ version_seen group.now x key.now stamp }
    ensures leave { IfOk result (λ repair. (repair ≡ Leave) ↔ (is_pending group.now stamp doubted.now.row.items ≡ true)) }
    ensures due { IfOk result (λ repair. (x : Part) → slice_get group.now.indexes.items place ≡ Some x → (b : Base) (index : ℕ → IndexForm) (es : List Entries) (v : GroupData) (hs : List HeldBatch) → IsTallied b es group.now hs → IsShownBy b index es group.now v hs → IsToldBy b index es group.now v → (stamp ≤ horizon_at group.now x → seen.now ≢ None) → verdict_of repair ≡ due (shape_in (form_of b index group.now) v place doubted.now.row.items) (world_in (form_of b index group.now) es v place doubted.now.row.items) key.now stamp) }
{
    if is_left(&group.batches, stamp, &doubted.row) {
        return Ok(Repair::Leave);
    }
    let part = &group.indexes[place];
    let horizon = greater(part.index.birth, group.horizon);
    if stamp > horizon {
        return due_above(alloc, &group.table, &part.index, doubted, key, stamp);
    }
    due_below(
        alloc,
        &group.table,
        &part.index,
        doubted,
        key,
        stamp,
        seen,
        horizon,
        greater(part.index.birth, part.region.horizon()),
    )
}
