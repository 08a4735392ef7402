// What a begin is of the trail.
ghost use Rattle.std.specs.Prelude.{◌≡◌, ◌≢◌, ◌≤◌, ◌++◌, ◌∷◌, [], ℕ, List, length, true};
ghost use Rattle.px_calls.specs.Causes.{expected_now};
ghost use Rattle.px_forms.specs.Indexes.{IndexForm};
ghost use Rattle.px_group.specs.Group.{IsRightGroup, IsShownBy, IsTallied, form_of, most_rows};
ghost use Rattle.px_group.specs.Room.{HasRooms};
ghost use Rattle.px_group.specs.declared.group.Group.{Group as Groups};
ghost use Rattle.px_groupworld.specs.Group.{GroupData, IsTableBase};
ghost use Rattle.px_groupworld.specs.Steps.{begun_data};
ghost use Rattle.px_indexed.specs.Worlds.{begin_event};
ghost use Rattle.px_openbatches.specs.Pending.{HeldBatch};
ghost use Rattle.px_phases.specs.Batch.{AllFit, BatchData};
ghost use Rattle.px_tablesteps.specs.Kept.{TableSteps};
ghost use Rattle.px_trail.specs.Batches.{change_of, is_distinct, rows_of};
ghost use Rattle.px_trail.specs.Legal.{IsLegal, MayCome};
ghost use Rattle.px_trail.specs.States.{greatest_stamp};
ghost use Rattle.px_trail.specs.Trail.{Base, last_of};
ghost use Rattle.px_trail.specs.declared.entry.Act.TheVariants.{Begun as BegunAct};
ghost use Rattle.px_trail.specs.declared.entry.Entry.{Entry as Entries};
ghost use Rattle.px_values.specs.declared.change.Change.{Change as RowChange};
ghost use Rattle.px_values.specs.declared.row.Value.{Value as ColumnValue};
ghost use Rattle.px_beginning.specs.Admits.{Admits, HasRoomsWith};
ghost use Rattle.px_beginning.specs.Begins.{IsBatchOf, held_with_begun, old_state};
ghost use Rattle.px_beginning.specs.Leaves.{KeepsRooms, LeavesGroup, TakesRooms};
ghost use Rattle.px_beginning.specs.Rooms.{AreRoomsOf, fresh_batch};
ghost use Rattle.px_beginning.specs.declared.preparing.Prepared.{Prepared as PreparedBatch};

use px_cellshapes::{law_keys_read, law_keys_written, law_rows_written};

/// What reading for a batch and promising room for it leave of a table: it is right, tallied and shown as before, and what was read of
/// it is still what is read.
pub fn law_leaves()
    ensures right { (g g' : Groups) → LeavesGroup g g' → IsRightGroup g → HasRooms g' → IsRightGroup g' }
    ensures tallied { (g g' : Groups) → LeavesGroup g g' → (b : Base) (es : List Entries) (hs : List HeldBatch) → IsTallied b es g hs → IsTallied b es g' hs }
    ensures shown { (g g' : Groups) → LeavesGroup g g' → (b : Base) (index : ℕ → IndexForm) (es : List Entries) (v : GroupData) (hs : List HeldBatch) → IsShownBy b index es g v hs → IsShownBy b index es g' v hs }
    ensures batch { (g g' : Groups) → LeavesGroup g g' → (s : ℕ) (cs : List RowChange) (bd : BatchData) → IsBatchOf g s cs bd → IsBatchOf g' s cs bd }
    ensures keeps { (g g' : Groups) → LeavesGroup g g' → KeepsRooms g g' → HasRooms g → HasRooms g' }
    ensures takes { (g g' : Groups) → LeavesGroup g g' → (p : PreparedBatch) → TakesRooms g g' p → HasRooms g → AreRoomsOf (length g.indexes.items) p → length p.batch.marks ≡ length g.indexes.items → length p.batch.closes ≡ length g.indexes.items → HasRooms g' × HasRoomsWith g' (fresh_batch (length g'.indexes.items) p.batch) }
{}

/// What letting a batch in is, where its entry may come: the batch is the table's last one, the step is Begin of each of its rows at
/// every index, and the table is right as before.
pub fn law_begins()
    ensures tallied { (b : Base) (es : List Entries) (g : Groups) (hs : List HeldBatch) (e : Entries) (s : ℕ) (cs : List RowChange) → MayCome b es e → e.act ≡ BegunAct g.table.id s cs → (bd : BatchData) (p : IsBatchOf g s cs bd) (g' : Groups) → Admits g bd g' → IsTableBase b g.table.id.0 → IsLegal b es → IsTallied b es g hs → IsTallied b (es ++ e ∷ []) g' (held_with_begun g s cs bd p hs) }
    ensures steps { (b : Base) (es : List Entries) (g : Groups) (hs : List HeldBatch) (e : Entries) (s : ℕ) (cs : List RowChange) → MayCome b es e → e.act ≡ BegunAct g.table.id s cs → (bd : BatchData) (p : IsBatchOf g s cs bd) (g' : Groups) → Admits g bd g' → (index : ℕ → IndexForm) (v : GroupData) → IsRightGroup g → AllFit g.table cs → s ≤ greatest_stamp → IsTallied b es g hs → IsShownBy b index es g v hs → TableSteps (form_of b index g) (λ i r. begin_event s (change_of cs r)) es v (es ++ e ∷ []) (begun_data s v) (held_with_begun g s cs bd p hs) }
    ensures shown { (b : Base) (es : List Entries) (g : Groups) (hs : List HeldBatch) (e : Entries) (s : ℕ) (cs : List RowChange) → MayCome b es e → e.act ≡ BegunAct g.table.id s cs → (bd : BatchData) (p : IsBatchOf g s cs bd) (g' : Groups) → Admits g bd g' → (index : ℕ → IndexForm) (v : GroupData) → IsRightGroup g → AllFit g.table cs → s ≤ greatest_stamp → IsTallied b es g hs → IsShownBy b index es g v hs → IsShownBy b index (es ++ e ∷ []) g' (begun_data s v) (held_with_begun g s cs bd p hs) }
    ensures right { (g : Groups) (s : ℕ) (cs : List RowChange) (bd : BatchData) (p : IsBatchOf g s cs bd) (g' : Groups) → Admits g bd g' → IsRightGroup g → AllFit g.table cs → is_distinct (rows_of cs) ≡ true → cs ≢ [] → length cs ≤ most_rows → HasRooms g → HasRoomsWith g (fresh_batch (length g.indexes.items) bd) → IsRightGroup g' }
{
    law_keys_read();
    law_keys_written();
    law_rows_written();
}

/// Where the table is tallied and shown, the state that a batch counts on is the trail's, with all that is begun counted as written.
pub fn law_reads()
    ensures { (b : Base) (index : ℕ → IndexForm) (es : List Entries) (g : Groups) (v : GroupData) (hs : List HeldBatch) → IsTallied b es g hs → IsShownBy b index es g v hs → last_of b g.table.id.0 es ≤ greatest_stamp → (r : List ColumnValue) → old_state g r ≡ expected_now b es g.table.id.0 r }
{}
