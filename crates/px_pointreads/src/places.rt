// Where a point and a doubt are read.
ghost use Rattle.std.specs.Prelude.{◌≡◌, ◌≢◌, ◌<◌, ◌≤◌, length, slice_get, Some, IfNone, IfSome, IsTrue};
ghost use Rattle.std.specs.List.{AllByRecursion};
ghost use Rattle.std.specs.Option.{option_copied};
ghost use Rattle.px_calls.specs.Requires.{index_among};
ghost use Rattle.px_shown.specs.Told.{reach_of};
ghost use Rattle.px_group.specs.declared.group.Group.{Group as Groups};
ghost use Rattle.px_group.specs.declared.group.IndexRegion.{IndexRegion as Part};
ghost use Rattle.px_pointreads.specs.Points.{GroupLacksIndex, IsPartAt, IsReadAt};

use crate::same::{is_same_index, is_same_table};
use px_calls::Point;
use px_group::{Group, IndexRegion};
use px_tables::Index;
use px_values::{IndexId, Limit};

/// Up to which stamp a point sees: a current one sees all.
pub fn reach(p: &Point) -> u64
    ensures { result ≡ reach_of p.now }
{
    if p.scn {
        return p.stamp;
    }
    Limit::Stamps.most()
}

/// Whether the table stands as it was when the point was opened, and isn't forgotten there.
pub fn is_read_at(group: &Group, p: &Point) -> bool
    ensures { IsTrue result → IsReadAt group.now p.now }
{
    group.table.id == p.table
        && group.horizon <= reach(p)
        && is_same_table(&group.table, &p.found.table)
}

/// The place of the group that a point reads.
pub fn point_place(groups: &[Group], p: &Point) -> Option<usize>
    ensures within { IfSome result (λ place. place < length groups.now) }
    ensures read { IfSome result (λ place. (g : Groups) → slice_get groups.now place ≡ Some g → IsReadAt g p.now) }
{
    for place in 0..groups.len() {
        if is_read_at(&groups[place], p) {
            return Some(place);
        }
    }
    None
}

/// The index of a number among definitions.
fn index_of(indexes: &[Index], index: IndexId) -> Option<&Index>
    ensures { option_copied result ≡ index_among index.0 indexes.now }
{
    match indexes {
        [] => None,
        [first, others @ ..] => {
            if first.id == index {
                return Some(first);
            }
            index_of(others, index)
        }
    }
}

/// Whether the index is this one of the point's, and was born at or below what the point sees.
fn is_part_at(part: &IndexRegion, p: &Point, wanted: &Index) -> bool
    ensures { IsTrue result → (part.now.index ≡ wanted.now) × (part.now.index.birth ≤ reach_of p.now) }
{
    is_same_index(&part.index, wanted) && part.index.birth <= reach(p)
}

/// The place of the index of a number in the point's group, where it stands as it was.
pub fn index_place(parts: &[IndexRegion], p: &Point, index: IndexId) -> Option<usize>
    ensures within { IfSome result (λ place. place < length parts.now) }
    ensures part { IfSome result (λ place. (x : Part) → slice_get parts.now place ≡ Some x → IsPartAt p.now index x) }
{
    let wanted = index_of(p.found.indexes.as_slice(), index)?;
    for place in 0..parts.len() {
        if is_part_at(&parts[place], p, wanted) {
            return Some(place);
        }
    }
    None
}

/// A group's place, and that of an index in it.
#[derive(Clone, Copy)]
pub struct DoubtPlace {
    pub group: usize,
    pub index: usize,
}

/// The place of the index of a number among a group's.
fn number_place(parts: &[IndexRegion], index: IndexId) -> Option<usize>
    ensures within { IfSome result (λ place. place < length parts.now) }
    ensures numbered { IfSome result (λ place. (x : Part) → slice_get parts.now place ≡ Some x → x.index.id ≡ index) }
    ensures none { IfNone result (AllByRecursion (λ (x : Part). x.index.id ≢ index) parts.now) }
{
    for place in 0..parts.len() {
        if parts[place].index.id == index {
            return Some(place);
        }
    }
    None
}

/// Where the index of a number is maintained, and none exactly where no group has it.
pub fn doubt_place(groups: &[Group], index: IndexId) -> Option<DoubtPlace>
    ensures within { IfSome result (λ at. at.group < length groups.now) }
    ensures numbered { IfSome result (λ at. (g : Groups) → slice_get groups.now at.group ≡ Some g → (at.index < length g.indexes.items) × ((x : Part) → slice_get g.indexes.items at.index ≡ Some x → x.index.id ≡ index)) }
    ensures none { IfNone result (AllByRecursion (GroupLacksIndex index) groups.now) }
{
    for group in 0..groups.len() {
        if let Some(index) = number_place(&groups[group].indexes, index) {
            return Some(DoubtPlace { group, index });
        }
    }
    None
}
