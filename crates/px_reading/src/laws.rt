// What looking leaves true.
ghost use Rattle.std.specs.Prelude.{◌≡◌, ◌↔◌, ℕ, true, [], List, Some, slice_get};
ghost use Rattle.px_calls.specs.Calls.{IsInFlight};
ghost use Rattle.px_calls.specs.declared.query.Doubt.{Doubt as DoubtData};
ghost use Rattle.px_indexrow.specs.Form.{row_of_index};
ghost use Rattle.px_trail.specs.Batches.{Batch, batch_of, unwritten};
ghost use Rattle.px_group.specs.declared.group.IndexRegion.{IndexRegion as Part};
ghost use Rattle.px_reading.specs.Doubts.{IsKeyIn, is_pending};
ghost use Rattle.px_forms.specs.Indexes.{IndexForm};
ghost use Rattle.px_groupworld.specs.Group.{GroupData};
ghost use Rattle.px_openbatches.specs.Pending.{HeldBatch};
ghost use Rattle.px_trail.specs.Trail.{Base};
ghost use Rattle.px_trail.specs.declared.entry.Entry.{Entry as Entries};
ghost use Rattle.px_group.specs.Group.{IsRightGroup, IsShownBy, IsTallied};
ghost use Rattle.px_group.specs.declared.group.Group.{Group as Groups};
ghost use Rattle.px_reading.specs.Looked.{HasLooked};

/// A group that was looked at is right, tallies with the trail and shows what it showed, as before.
pub fn law_looked()
    ensures right { (g g' : Groups) → HasLooked g g' → IsRightGroup g → IsRightGroup g' }
    ensures tallied { (g g' : Groups) → HasLooked g g' → (b : Base) (es : List Entries) (hs : List HeldBatch) → IsTallied b es g hs → IsTallied b es g' hs }
    ensures shown { (g g' : Groups) → HasLooked g g' → (b : Base) (index : ℕ → IndexForm) (es : List Entries) (v : GroupData) (hs : List HeldBatch) → IsShownBy b index es g v hs → IsShownBy b index es g' v hs }
{}

/// A doubt's change is in flight exactly where an open batch of its stamp is still to write the row of its key.
pub fn law_in_flight()
    ensures { (b : Base) (es : List Entries) (g : Groups) (hs : List HeldBatch) → IsTallied b es g hs → (place : ℕ) (x : Part) → slice_get g.indexes.items place ≡ Some x → x.index.table ≡ g.table.id → (d : DoubtData) → d.index ≡ x.index.id → IsKeyIn g x d.key → ((y : Batch) → batch_of g.table.id.0 d.stamp es ≡ Some y → y.ended ≡ true → unwritten y ≡ []) → (is_pending g d.stamp (row_of_index g.table x.index d.key) ≡ true) ↔ IsInFlight b es d }
{}
