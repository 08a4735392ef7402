// The row of a doubt, and what is to be done with its version.
ghost use Rattle.std.specs.Prelude.{◌≡◌, ◌≤◌, ◌+◌, ◌↔◌, ℕ, List, IfOk, ◌≢◌, Err};
ghost use Rattle.px_outside.specs.OnDisk.{Rose};
ghost use Rattle.px_region.specs.OnlyRead.{HasOnlyRead};
ghost use Rattle.px_region.specs.declared.fault.LookFault.{LookFault as LookFaults};
ghost use Rattle.px_calls.specs.Calls.{IsInFlight};
ghost use Rattle.px_calls.specs.Requires.{CanConsult};
ghost use Rattle.px_forms.specs.Indexes.{IndexForm};
ghost use Rattle.px_groupworld.specs.Group.{GroupData};
ghost use Rattle.px_indexrow.specs.declared.doubt.Repair.TheVariants.{Leave};
ghost use Rattle.px_openbatches.specs.Pending.{HeldBatch};
ghost use Rattle.px_shown.specs.Told.{IsHolder};
ghost use Rattle.px_trail.specs.Legal.{IsLegal};
ghost use Rattle.px_trail.specs.Trail.{Base};
ghost use Rattle.px_trail.specs.declared.entry.Entry.{Entry as Entries};
ghost use Rattle.px_group.specs.Group.{IsRightGroup, IsShownBy, IsTallied};
ghost use Rattle.px_reading.specs.Looked.{HasLooked};
ghost use Rattle.px_pointreads.specs.Due.{IsDueOf};
ghost use Rattle.px_pointreads.specs.Points.{IsReadAt};

use crate::places::{index_place, reach};
use px_calls::{Doubt, Point};
use px_group::Group;
use px_outside::Disk;
use px_reading::Consulted;
use px_region::LookFault;
use std::alloc::Global;

/// The row of a doubt at the point, if its index key is the doubt's, and what is to be done with the version: nothing exactly where its
/// change is under way.
///
/// The disk is only read. It is refused with `Memory` where the index doesn't stand as it was, too; of a point that a server opened it does.
pub fn consult<D: Disk>(
    alloc: Global,
    disk: &mut D,
    group: &mut Group,
    p: &Point,
    d: &Doubt,
) -> Result<Consulted, LookFault>
    requires right { IsRightGroup group.old }
    requires at { IsReadAt group.old p.now }
    requires doubt { CanConsult p.now d.now }
    ensures row { IfOk result (λ c. (b : Base) (index : ℕ → IndexForm) (es : List Entries) (v : GroupData) (hs : List HeldBatch) → IsTallied b es group.old hs → IsShownBy b index es group.old v hs → IsHolder b es p.now d.now.index d.now.key c.row) }
    ensures leave { IfOk result (λ c. (b : Base) (es : List Entries) (hs : List HeldBatch) → IsLegal b es → IsTallied b es group.old hs → (c.verdict ≡ Leave) ↔ IsInFlight b es d.now) }
    ensures due { IfOk result (λ c. IsDueOf group.old p.now d.now c.verdict) }
    ensures counted { group.new.rows.looked ≤ group.old.rows.looked + 1 }
    ensures looked { HasLooked group.old group.new }
    ensures undamaged { (file place : ℕ) → result ≢ Err (LookFaults.Damaged file place) }
    ensures failed { result ≡ Err LookFaults.ReadFault → Rose ⟦<D as Disk>⟧ disk.old disk.new }
    ensures only_read { HasOnlyRead ⟦<D as Disk>⟧ disk.old disk.new }
{
    match index_place(&group.indexes, p, d.index) {
        Some(place) => {
            px_reading::consult(
                alloc,
                disk,
                group,
                place,
                d.key.as_slice(),
                d.stamp,
                reach(p),
            )
        }
        None => Err(LookFault::Memory),
    }
}
