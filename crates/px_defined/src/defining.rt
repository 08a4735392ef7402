// What a definition does to a table.
ghost use Rattle.std.specs.Prelude.{◌≡◌, ◌<◌, ◌∷◌, [], ℕ, length, slice_get, vec_len, vec_capacity, IfSome, IfNone, Some, OnOk};
ghost use Rattle.px_defined.specs.Defined.{HasActive, HasIndexAnew, HasIndexLess, HasIndexMore, IsNewGroup, IsSameTable, has_to_write, is_to_write as before_writes};
ghost use Rattle.px_tables.specs.declared.table.TableRegion.{TableRegion};
ghost use Rattle.px_group.specs.declared.group.IndexRegion.{IndexRegion as IndexRegions};

use px_group::{Group, IndexRegion, Phase};
use px_region::Region;
use px_tables::{Index, IndexState, Table};
use px_values::IndexId;
use std::alloc::{AllocError, Global};

/// A table that is made: its one region is fresh.
pub fn new_group(alloc: Global, table: Table) -> Group
    requires one { (n : ℕ) × (table.regions ≡ (record { number = n; least_key = [] }) ∷ []) }
    ensures { IsNewGroup table result }
{
    let number = table.regions.as_slice()[0].number;
    Group {
        table,
        rows: Region::fresh(alloc, number),
        indexes: Vec::new(alloc),
        batches: Vec::new(alloc),
        points: Vec::new(alloc),
        last: 0,
        horizon: 0,
    }
}

/// Takes room for one index more.
pub fn reserve_index(group: &mut Group) -> Result<(), AllocError>
    ensures room { OnOk result (vec_len group.new.indexes < vec_capacity group.new.indexes) }
    ensures same { IsSameTable group.old group.new }
{
    group.indexes.reserve(1)
}

/// Adds an index that is building, with a fresh region. Its birth is the last stamp.
pub fn add_index(alloc: Global, group: &mut Group, index: Index)
    requires room { vec_len group.old.indexes < vec_capacity group.old.indexes }
    ensures { HasIndexMore group.old group.new index }
{
    let birth = index.birth;
    let region = Region::fresh(alloc, index.region);
    group.indexes.push_reserved(IndexRegion { index, region });
    group.last = birth;
}

/// The place of an index among those that are maintained.
pub fn index_place(group: &Group, id: IndexId) -> Option<usize>
    ensures found { IfSome result (λ m. (m < length group.now.indexes.items) × ((x : IndexRegions) → slice_get group.now.indexes.items m ≡ Some x → x.index.id ≡ id)) }
    ensures none { IfNone result ((m : ℕ) (x : IndexRegions) → slice_get group.now.indexes.items m ≡ Some x → x.index.id ≡ id → ⊥) }
{
    group.indexes.iter().position(|part| part.index.id == id)
}

/// Lets queries read the index at this place.
pub fn make_active(group: &mut Group, place: usize)
    requires { place < length group.old.indexes.items }
    ensures { HasActive group.old group.new place }
{
    group.indexes[place].index.state = IndexState::Active;
}

/// Lets the index of a number go, with its region.
pub fn drop_index(group: &mut Group, id: IndexId)
    ensures { HasIndexLess group.old group.new id.0 }
{
    group.indexes.retain(|part| part.index.id.0 != id.0);
}

/// Lets the index of this number go, if the table has it, and adds it anew, with a fresh region. Its birth is the last stamp.
pub fn replace_index(alloc: Global, group: &mut Group, index: Index)
    requires room { vec_len group.old.indexes < vec_capacity group.old.indexes }
    ensures { HasIndexAnew group.old group.new index }
{
    let id = index.id;
    group.indexes.retain(|other| other.index.id.0 != id.0);
    add_index(alloc, group, index);
}

/// Whether a batch in this phase is still to write its rows.
fn is_to_write(phase: Phase) -> bool
    ensures { result ≡ before_writes phase }
{
    match phase {
        Phase::Marking | Phase::Writing => true,
        Phase::Verifying | Phase::Closing => false,
    }
}

/// Whether a batch of the table is still to write its rows.
pub fn has_pending(group: &Group) -> bool
    ensures { result ≡ has_to_write group.now }
{
    group.batches.iter().any(|begun| is_to_write(begun.phase))
}
