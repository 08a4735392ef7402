// The next keys of a table's paths.
ghost use Rattle.std.specs.Prelude.{◌≡◌, ◌<◌, ◌≤◌, ℕ, List, Some, IfOk, length, max, slice_get, ◌≢◌, Err};
ghost use Rattle.px_outside.specs.OnDisk.{Rose};
ghost use Rattle.px_region.specs.OnlyRead.{HasOnlyRead};
ghost use Rattle.px_region.specs.declared.fault.LookFault.{LookFault as LookFaults};
ghost use Rattle.std.specs.Option.{option_copied};
ghost use Rattle.px_calls.specs.Looks.{Shows, ShowsRows};
ghost use Rattle.px_calls.specs.declared.query.By.TheVariants.{Index as ByIndex, Table as ByTable};
ghost use Rattle.px_calls.specs.declared.query.Path.{Path as PathData};
ghost use Rattle.px_calls.specs.declared.query.Point.{Point as PointData};
ghost use Rattle.px_forms.specs.Indexes.{IndexForm};
ghost use Rattle.px_groupworld.specs.Group.{GroupData};
ghost use Rattle.px_openbatches.specs.Pending.{HeldBatch};
ghost use Rattle.px_tables.specs.declared.index.IndexState.TheVariants.{Active};
ghost use Rattle.px_trail.specs.Trail.{Base, horizon_of};
ghost use Rattle.px_trail.specs.declared.entry.Entry.{Entry as Entries};
ghost use Rattle.px_group.specs.Group.{IsRightGroup, IsShownBy};
ghost use Rattle.px_group.specs.declared.group.IndexRegion.{IndexRegion as Part};
ghost use Rattle.px_shown.specs.Told.{IsIndexAt, IsPointOfTable, reach_of};
ghost use Rattle.px_looks.specs.Counted.{HasCounted};
ghost use Rattle.px_reading.specs.Looked.{HasCountedAt, HasLooked};
ghost use Rattle.px_reading.specs.Versions.{AreAllGiven, AreOfVersions};

use px_group::Group;
use px_looks::NextKeys;
use px_outside::Disk;
use px_region::LookFault;
use std::alloc::Global;

/// The next rows of a table that a point sees, from the key `low` on and below `high`, past the key `after`: at most 64, in the order of
/// their keys, and none missing up to the last. Where there may be more, `next` is the key of the last.
///
/// A current point sees up to the greatest stamp. The disk is only read.
pub fn look_rows<D: Disk>(
    alloc: Global,
    disk: &mut D,
    group: &mut Group,
    low: &[u8],
    high: Option<&[u8]>,
    after: Option<&[u8]>,
    point: u64,
) -> Result<NextKeys, LookFault>
    requires right { IsRightGroup group.old }
    ensures keys { IfOk result (λ n. (p : PointData) (path : PathData) → path.by ≡ ByTable → path.low ≡ low.now → path.high ≡ option_copied high.entry → Shows p path (option_copied after.entry) n.found n.next) }
    ensures rows { IfOk result (λ n. (b : Base) (index : ℕ → IndexForm) (es : List Entries) (v : GroupData) (hs : List HeldBatch) → IsShownBy b index es group.old v hs → (p : PointData) → IsPointOfTable group.old.table p → reach_of p ≡ point → horizon_of b group.old.table.id.0 es ≤ point → (path : PathData) → path.by ≡ ByTable → path.low ≡ low.now → path.high ≡ option_copied high.entry → ShowsRows b es p path (option_copied after.entry) n.found n.next) }
    ensures counted { IfOk result (λ n. HasCounted group.old.rows group.new.rows (length n.found)) }
    ensures looked { HasLooked group.old group.new }
    ensures undamaged { (file place : ℕ) → result ≢ Err (LookFaults.Damaged file place) }
    ensures failed { result ≡ Err LookFaults.ReadFault → Rose ⟦<D as Disk>⟧ disk.old disk.new }
    ensures only_read { HasOnlyRead ⟦<D as Disk>⟧ disk.old disk.new }
{
    px_looks::look_rows(
        alloc,
        disk,
        &mut group.rows,
        &group.table,
        low,
        high,
        after,
        point,
    )
}

/// The next keys of the index at a place where a point sees a version, from the key `low` on and below `high`, past the key `after`: in
/// their order, each once, at most 64, and none missing up to the last. A verified version is sure, with the row that the index
/// shows, and another one is in doubt. Where there may be more, `next` is the key of the last.
///
/// It looks at no row of the table. A current point sees up to the greatest stamp. The disk is only read.
pub fn look_keys<D: Disk>(
    alloc: Global,
    disk: &mut D,
    group: &mut Group,
    place: usize,
    low: &[u8],
    high: Option<&[u8]>,
    after: Option<&[u8]>,
    point: u64,
) -> Result<NextKeys, LookFault>
    requires right { IsRightGroup group.old }
    requires there { place < length group.old.indexes.items }
    ensures keys { IfOk result (λ n. (x : Part) → slice_get group.old.indexes.items place ≡ Some x → (p : PointData) → p.found.table ≡ group.old.table → IsIndexAt p x.index → (path : PathData) → path.by ≡ ByIndex x.index.id → path.low ≡ low.now → path.high ≡ option_copied high.entry → Shows p path (option_copied after.entry) n.found n.next) }
    ensures rows { IfOk result (λ n. (x : Part) → slice_get group.old.indexes.items place ≡ Some x → (b : Base) (index : ℕ → IndexForm) (es : List Entries) (v : GroupData) (hs : List HeldBatch) → IsShownBy b index es group.old v hs → x.index.state ≡ Active → (p : PointData) → IsPointOfTable group.old.table p → IsIndexAt p x.index → reach_of p ≡ point → max x.index.birth (horizon_of b group.old.table.id.0 es) ≤ point → (path : PathData) → path.by ≡ ByIndex x.index.id → path.low ≡ low.now → path.high ≡ option_copied high.entry → ShowsRows b es p path (option_copied after.entry) n.found n.next) }
    ensures versions { IfOk result (λ n. (x : Part) → slice_get group.old.indexes.items place ≡ Some x → AreOfVersions x point n.found) }
    ensures whole { IfOk result (λ n. (x : Part) → slice_get group.old.indexes.items place ≡ Some x → (path : PathData) → path.low ≡ low.now → path.high ≡ option_copied high.entry → AreAllGiven x point path (option_copied after.entry) n.found n.next) }
    ensures counted { IfOk result (λ n. HasCountedAt group.old.indexes.items group.new.indexes.items place (length n.found)) }
    ensures looked { HasLooked group.old group.new }
    ensures no_row { group.new.rows ≡ group.old.rows }
    ensures undamaged { (file place : ℕ) → result ≢ Err (LookFaults.Damaged file place) }
    ensures failed { result ≡ Err LookFaults.ReadFault → Rose ⟦<D as Disk>⟧ disk.old disk.new }
    ensures only_read { HasOnlyRead ⟦<D as Disk>⟧ disk.old disk.new }
{
    let part = &mut group.indexes[place];
    px_looks::look_keys(
        alloc,
        disk,
        &mut part.region,
        &group.table,
        &part.index,
        low,
        high,
        after,
        point,
    )
}
