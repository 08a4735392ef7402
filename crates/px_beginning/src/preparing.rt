// What is read and made for a batch.
ghost use Rattle.std.specs.Prelude.{◌≡◌, ◌≤◌, Err, IfOk, Some, length, map, true, ◌≢◌, ℕ, IfErr};
ghost use Rattle.px_outside.specs.OnDisk.{Rose};
ghost use Rattle.px_region.specs.OnlyRead.{HasOnlyRead};
ghost use Rattle.std.specs.List.{AllByRecursion};
ghost use Rattle.px_rows.specs.Keys.{row_key};
ghost use Rattle.px_trail.specs.Batches.{is_distinct, rows_of};
ghost use Rattle.px_values.specs.Limits.{most_key};
ghost use Rattle.px_group.specs.Group.{IsRightGroup, batch_in};
ghost use Rattle.px_group.specs.Room.{bytes_at, bytes_of_rows, cells_at, cells_of_rows};
ghost use Rattle.px_phases.specs.Batch.{AllFit, is_left_in};
ghost use Rattle.px_phases.specs.Phases.{ArePuts, AreTransitions, HasLongIndexed, close_parts, mark_parts};
ghost use Rattle.px_values.specs.declared.limit.Limit.{Limit as Bound};
ghost use Rattle.px_beginning.specs.declared.fault.BeginFault.{BeginFault as Fault};
ghost use Rattle.px_beginning.specs.Begins.{IsBatchOf, IsMadeOf, NeedsLongKey};
ghost use Rattle.px_beginning.specs.Faults.{HasLongIn, TellsNoRead};
ghost use Rattle.px_beginning.specs.Leaves.{KeepsRooms, LeavesGroup};
ghost use Rattle.px_beginning.specs.Reads.{index_forms};
ghost use Rattle.px_beginning.specs.Rooms.{AreRoomsOf, HasManyBytes, HasManyCells, MakesTooMuch};

use crate::cells::{closes_of_indexes, marks_of_indexes};
use crate::pending::flags_of;
use crate::rooms::{limit_of, room_of, rooms_of};
use crate::rows::{row_keys, transitions_of};
use crate::{BeginFault, Room};
use px_copying::{copied, copied_rows};
use px_group::{Begun, Group};
use px_keptcells::KeptCells;
use px_outside::Disk;
use px_phases::{OpenBatch, Transition, puts_of_rows};
use px_values::{Changes, Rows};
use std::alloc::{AllocError, Global};
use std::collections::VecDeque;

/// A batch that is to begin, its rows for the entry that they are written and for its receipt, and the room that it takes: in the data
/// region, and in the region of each index.
#[derive(Drop)]
pub struct Prepared {
    pub batch: OpenBatch,
    pub written: Rows,
    pub receipt: Rows,
    pub rows: Room,
    pub indexes: Vec<Room>,
}

/// The cells of a batch's phases.
#[derive(Drop)]
struct MadeCells {
    marks: VecDeque<KeptCells>,
    puts: KeptCells,
    closes: VecDeque<KeptCells>,
}

/// Reads the rows that a batch changes, and makes the cells of all its phases: of each row its data cells, and of each index its marks
/// and what closes them. It takes all memory that the batch needs, and leaves the group as it is, but for the count of rows looked at.
///
/// Each row is looked up once. A key of more than 1,024 bytes comes first, of a row before anything is read; then more than 8,192
/// cells in one region, and more than 8,388,608 bytes of them.
pub fn prepare<D: Disk>(
    alloc: Global,
    disk: &mut D,
    group: &mut Group,
    changes: &Changes,
    stamp: u64,
) -> Result<Prepared, BeginFault>
    requires right { IsRightGroup group.old }
    requires fit { AllFit group.old.table changes.now }
    requires distinct { is_distinct (rows_of changes.now) ≡ true }
    ensures batch { IfOk result (λ p. IsBatchOf group.old stamp changes.now p.batch) }
    ensures written { IfOk result (λ p. (p.written ≡ rows_of changes.now) × (p.receipt ≡ rows_of changes.now)) }
    ensures rooms { IfOk result (λ p. AreRoomsOf (length group.old.indexes.items) p) }
    ensures long { result ≡ Err (Fault.Limit Bound.Key) → NeedsLongKey group.old changes.now }
    ensures cells { result ≡ Err (Fault.Limit Bound.Cells) → HasManyCells group.old stamp changes.now }
    ensures bytes { result ≡ Err (Fault.Limit Bound.Bytes) → HasManyBytes group.old stamp changes.now }
    ensures leaves { LeavesGroup group.old group.new }
    ensures keeps { KeepsRooms group.old group.new }
    ensures undamaged { (file place : ℕ) → result ≢ Err (Fault.Damaged file place) }
    ensures failed { result ≡ Err Fault.ReadFault → Rose ⟦<D as Disk>⟧ disk.old disk.new }
    ensures only_read { HasOnlyRead ⟦<D as Disk>⟧ disk.old disk.new }
{
    let listed = changes.as_slice();
    let keys = row_keys(alloc, &group.table, listed)?;
    let read = transitions_of(
        alloc,
        disk,
        &group.table,
        &mut group.rows,
        group.batches.as_slice(),
        listed,
        keys.as_slice(),
    );
    drop(keys);
    let transitions = read?;
    let prepared = prepared_of(alloc, group, changes, transitions.as_slice(), stamp);
    drop(transitions);
    prepared
}

/// The batch of these changes, which take rows from one state to the other.
fn prepared_of(
    alloc: Global,
    group: &Group,
    changes: &Changes,
    transitions: &[Transition],
    stamp: u64,
) -> Result<Prepared, BeginFault>
    requires right { IsRightGroup group.now }
    requires fit { AllFit group.now.table changes.now }
    requires short { AllByRecursion (λ c. length (row_key group.now.table c.row) ≤ most_key) changes.now }
    requires distinct { is_distinct (rows_of changes.now) ≡ true }
    requires transitions { AreTransitions group.now.table changes.now transitions.now }
    ensures made { IfOk result (λ p. IsMadeOf group.now stamp changes.now transitions.now p.batch) }
    ensures written { IfOk result (λ p. (p.written ≡ rows_of changes.now) × (p.receipt ≡ rows_of changes.now)) }
    ensures rooms { IfOk result (λ p. AreRoomsOf (length group.now.indexes.items) p) }
    ensures long { result ≡ Err (Fault.Limit Bound.Key) → HasLongIn group.now.table group.now.indexes.items changes.now transitions.now }
    ensures cells { result ≡ Err (Fault.Limit Bound.Cells) → MakesTooMuch cells_of_rows cells_at 8192 group.now stamp changes.now transitions.now }
    ensures bytes { result ≡ Err (Fault.Limit Bound.Bytes) → MakesTooMuch bytes_of_rows bytes_at 8388608 group.now stamp changes.now transitions.now }
    ensures unread { IfErr result TellsNoRead }
{
    let made = made_of(alloc, group, changes, transitions, stamp)?;
    let rows = room_of(&made.puts);
    let indexes = rooms_of(alloc, &made.marks, &made.closes)?;
    if let Some(limit) = limit_of(rows, indexes.as_slice()) {
        return Err(BeginFault::Limit(limit));
    }
    let batch = batch_of(alloc, group.batches.as_slice(), changes, stamp, made)?;
    let written = copied_rows(alloc, changes.as_slice())?;
    let receipt = copied_rows(alloc, changes.as_slice())?;
    Ok(Prepared {
        batch,
        written,
        receipt,
        rows,
        indexes,
    })
}

/// The cells of all phases.
fn made_of(
    alloc: Global,
    group: &Group,
    changes: &Changes,
    transitions: &[Transition],
    stamp: u64,
) -> Result<MadeCells, BeginFault>
    requires right { IsRightGroup group.now }
    requires fit { AllFit group.now.table changes.now }
    requires short { AllByRecursion (λ c. length (row_key group.now.table c.row) ≤ most_key) changes.now }
    requires distinct { is_distinct (rows_of changes.now) ≡ true }
    requires transitions { AreTransitions group.now.table changes.now transitions.now }
    ensures marks { IfOk result (λ made. made.marks.items ≡ map (λ f. mark_parts f stamp changes.now transitions.now) (index_forms group.now.table group.now.indexes.items)) }
    ensures closes { IfOk result (λ made. made.closes.items ≡ map (λ f. close_parts f stamp changes.now transitions.now) (index_forms group.now.table group.now.indexes.items)) }
    ensures puts { IfOk result (λ made. ArePuts group.now.table stamp changes.now made.puts) }
    ensures short { IfOk result (λ made. AllByRecursion (λ x. HasLongIndexed group.now.table x.index changes.now transitions.now → ⊥) group.now.indexes.items) }
    ensures long { result ≡ Err (Fault.Limit Bound.Key) → HasLongIn group.now.table group.now.indexes.items changes.now transitions.now }
    ensures only { (limit : Bound) → result ≡ Err (Fault.Limit limit) → limit ≡ Bound.Key }
    ensures unread { IfErr result TellsNoRead }
{
    let listed = changes.as_slice();
    let indexes = group.indexes.as_slice();
    let marks = marks_of_indexes(alloc, &group.table, indexes, listed, transitions, stamp)?;
    let closes = closes_of_indexes(alloc, &group.table, indexes, listed, transitions, stamp)?;
    match puts_of_rows(alloc, &group.table, listed, stamp) {
        Ok(puts) => Ok(MadeCells {
            marks,
            puts,
            closes,
        }),
        Err(_) => Err(BeginFault::Memory),
    }
}

/// The batch of these changes and cells.
fn batch_of(
    alloc: Global,
    batches: &[Begun],
    changes: &Changes,
    stamp: u64,
    made: MadeCells,
) -> Result<OpenBatch, AllocError>
    ensures { IfOk result (λ b. b ≡ record { stamp = stamp; changes = changes.now; met = map (is_left_in (map batch_in batches.now)) (rows_of changes.now); marks = made.marks.items; puts = Some made.puts; closes = made.closes.items }) }
{
    let met = flags_of(alloc, changes.as_slice(), batches)?;
    let own = copied(alloc, changes.as_slice())?;
    let MadeCells {
        marks,
        puts,
        closes,
    } = made;
    Ok(OpenBatch::new(stamp, own, met, marks, puts, closes))
}
