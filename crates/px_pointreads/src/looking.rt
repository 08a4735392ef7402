// The next keys of a path.
ghost use Rattle.std.specs.Prelude.{◌≡◌, ℕ, List, IfOk, length, ◌≢◌, Err};
ghost use Rattle.px_outside.specs.OnDisk.{Rose};
ghost use Rattle.px_region.specs.OnlyRead.{HasOnlyRead};
ghost use Rattle.px_region.specs.declared.fault.LookFault.{LookFault as LookFaults};
ghost use Rattle.std.specs.Option.{option_copied};
ghost use Rattle.px_calls.specs.Looks.{Shows, ShowsRows};
ghost use Rattle.px_calls.specs.Requires.{CanLook};
ghost use Rattle.px_calls.specs.declared.query.By.TheVariants.{Index as ByIndex};
ghost use Rattle.px_forms.specs.Indexes.{IndexForm};
ghost use Rattle.px_groupworld.specs.Group.{GroupData};
ghost use Rattle.px_openbatches.specs.Pending.{HeldBatch};
ghost use Rattle.px_trail.specs.Trail.{Base};
ghost use Rattle.px_trail.specs.declared.entry.Entry.{Entry as Entries};
ghost use Rattle.px_values.specs.declared.name.IndexId.{IndexId as Number};
ghost use Rattle.px_group.specs.Group.{IsRightGroup, IsShownBy, IsTallied};
ghost use Rattle.px_reading.specs.Looked.{HasLooked};
ghost use Rattle.px_pointreads.specs.Counted.{HasCountedBy};
ghost use Rattle.px_pointreads.specs.Points.{AreOfIndex, IsReadAt};

use crate::places::{index_place, reach};
use px_calls::{By, Path, Point};
use px_group::Group;
use px_looks::NextKeys;
use px_outside::Disk;
use px_reading::{look_keys, look_rows};
use px_region::LookFault;
use px_values::Key;
use std::alloc::Global;

/// The bytes of a key, if there is one.
fn bytes_if(key: &Option<Key>) -> Option<&[u8]>
    ensures { option_copied result ≡ key.now }
{
    match key {
        Some(key) => Some(key.as_slice()),
        None => None,
    }
}

/// The next keys of the path past `after`. By an index, they are those of which the point sees a version, a key is sure exactly where that is verified, and
/// no row of the table is looked at.
///
/// The disk is only read. It is refused with `Memory` where an index doesn't stand as it was, too; of a point that a server opened it does.
pub fn look<D: Disk>(
    alloc: Global,
    disk: &mut D,
    group: &mut Group,
    p: &Point,
    path: &Path,
    after: &Option<Key>,
) -> Result<NextKeys, LookFault>
    requires right { IsRightGroup group.old }
    requires at { IsReadAt group.old p.now }
    requires path { CanLook p.now path.now }
    ensures keys { IfOk result (λ n. Shows p.now path.now after.now n.found n.next) }
    ensures rows { IfOk result (λ n. (b : Base) (index : ℕ → IndexForm) (es : List Entries) (v : GroupData) (hs : List HeldBatch) → IsTallied b es group.old hs → IsShownBy b index es group.old v hs → ShowsRows b es p.now path.now after.now n.found n.next) }
    ensures versions { IfOk result (λ n. (i : Number) → path.now.by ≡ ByIndex i → AreOfIndex group.old p.now path.now i after.now n.found n.next) }
    ensures counted { IfOk result (λ n. HasCountedBy group.old group.new path.now.by (length n.found)) }
    ensures looked { HasLooked group.old group.new }
    ensures no_row { (i : Number) → path.now.by ≡ ByIndex i → group.new.rows ≡ group.old.rows }
    ensures undamaged { (file place : ℕ) → result ≢ Err (LookFaults.Damaged file place) }
    ensures failed { result ≡ Err LookFaults.ReadFault → Rose ⟦<D as Disk>⟧ disk.old disk.new }
    ensures only_read { HasOnlyRead ⟦<D as Disk>⟧ disk.old disk.new }
{
    let low = path.low.as_slice();
    let high = bytes_if(&path.high);
    let past = bytes_if(after);
    match path.by {
        By::Table => look_rows(alloc, disk, group, low, high, past, reach(p)),
        By::Index(index) => match index_place(&group.indexes, p, index) {
            Some(place) => look_keys(alloc, disk, group, place, low, high, past, reach(p)),
            None => Err(LookFault::Memory),
        },
    }
}
