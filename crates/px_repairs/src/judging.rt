// Whether a doubted version is still to be repaired.
ghost use Rattle.std.specs.Prelude.{◌≡◌, ◌<◌, ◌≤◌, ◌+◌, true, Some, IfOk, length, slice_get, ◌≢◌, ℕ, Err};
ghost use Rattle.px_outside.specs.OnDisk.{Rose};
ghost use Rattle.px_region.specs.OnlyRead.{HasOnlyRead};
ghost use Rattle.px_region.specs.declared.fault.LookFault.{LookFault as LookFaults};
ghost use Rattle.px_cells.specs.Rows.{IsRow};
ghost use Rattle.px_indexrow.specs.Form.{row_of_index};
ghost use Rattle.px_region.specs.Region.{read_of};
ghost use Rattle.px_rows.specs.Keys.{row_key};
ghost use Rattle.px_group.specs.Group.{IsRightGroup};
ghost use Rattle.px_group.specs.declared.group.IndexRegion.{IndexRegion as Part};
ghost use Rattle.px_reading.specs.Doubts.{IsKeyIn, is_pending, version_seen};
ghost use Rattle.px_reading.specs.Looked.{HasLooked};
ghost use Rattle.px_repairs.specs.Repairs.{IsJudged, is_doubt};

use crate::due::repair_cells;
use px_group::Group;
use px_indexrow::Repair;
use px_keptcells::KeptCells;
use px_looks::KeyVersion;
use px_outside::Disk;
use px_reading::{Doubted, due_of, row_of_doubt, version_of_doubt};
use px_region::LookFault;
use std::alloc::{AllocError, Global};

/// What is to be done with a doubted version.
#[derive(Drop)]
pub enum Judged {
    /// It no longer stands unverified.
    Gone,
    /// Its change is still under way.
    InFlight,
    /// These cells are due of it.
    Due(KeptCells),
}

/// Whether the version that is seen is unverified and of this stamp.
fn is_unverified(seen: &Option<KeyVersion>, stamp: u64) -> bool
    ensures { result ≡ is_doubt stamp seen.now }
{
    match seen {
        Some(version) => version.stamp == stamp && !version.verified,
        None => false,
    }
}

/// What is to be done with a version that stands unverified, by what was read of its key and of the key's row.
fn decide(
    alloc: Global,
    group: &Group,
    place: usize,
    doubted: &Doubted,
    key: &[u8],
    stamp: u64,
    seen: &Option<KeyVersion>,
) -> Result<Judged, AllocError>
    requires right { IsRightGroup group.now }
    requires there { place < length group.now.indexes.items }
    requires key { (x : Part) → slice_get group.now.indexes.items place ≡ Some x → IsKeyIn group.now x key.now }
    requires row { (x : Part) → slice_get group.now.indexes.items place ≡ Some x → doubted.now.row.items ≡ row_of_index group.now.table x.index key.now }
    requires cells { IsRow (read_of group.now.rows) (row_key group.now.table doubted.now.row.items) doubted.now.cells.items }
    requires seen { (x : Part) → slice_get group.now.indexes.items place ≡ Some x → seen.now ≡ version_seen group.now x key.now stamp }
    requires doubt { is_doubt stamp seen.now ≡ true }
    ensures { IfOk result (IsJudged group.now place key.now stamp) }
{
    let repair = due_of(alloc, group, place, doubted, key, stamp, seen)?;
    if repair == Repair::Leave {
        return Ok(Judged::InFlight);
    }
    let part = &group.indexes[place];
    let horizon = part.index.birth.max(group.horizon);
    let kept = repair_cells(
        alloc,
        &group.table,
        &part.index,
        doubted,
        key,
        stamp,
        horizon,
        repair,
    )?;
    Ok(Judged::Due(kept))
}

/// What is to be done with the version of a stamp at a key of the index at a place.
///
/// It looks at one row of the table at most. The disk is only read.
pub fn judge<D: Disk>(
    alloc: Global,
    disk: &mut D,
    group: &mut Group,
    place: usize,
    key: &[u8],
    stamp: u64,
) -> Result<Judged, LookFault>
    requires right { IsRightGroup group.old }
    requires there { place < length group.old.indexes.items }
    ensures judged { IfOk result (IsJudged group.new place key.now stamp) }
    ensures counted { group.new.rows.looked ≤ group.old.rows.looked + 1 }
    ensures looked { HasLooked group.old group.new }
    ensures undamaged { (file place : ℕ) → result ≢ Err (LookFaults.Damaged file place) }
    ensures failed { result ≡ Err LookFaults.ReadFault → Rose ⟦<D as Disk>⟧ disk.old disk.new }
    ensures only_read { HasOnlyRead ⟦<D as Disk>⟧ disk.old disk.new }
{
    let seen = version_of_doubt(alloc, disk, group, place, key, stamp)?;
    if !is_unverified(&seen, stamp) {
        return Ok(Judged::Gone);
    }
    let doubted = row_of_doubt(alloc, disk, group, place, key)?;
    match decide(alloc, group, place, &doubted, key, stamp, &seen) {
        Ok(judged) => Ok(judged),
        Err(_) => Err(LookFault::Memory),
    }
}
