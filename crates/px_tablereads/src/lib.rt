//! What a table's cells and open batches tell of the changes of its rows, so that a repair finds what is due by reading alone.
//! `law_told`: a change is undecided exactly where an open batch of its stamp is still to write the row, and the states of the row
//! are what its cells spell. `law_written`: above the data horizon a change was written exactly where a cell has its stamp.
//! `AreTold` is the fact behind it, and `law_keeps` says that every step keeps it. Definitions and laws, no code.
//! What is due of a version, and the answers of looks, are computed from these by the layers above.
#![tactic(auto)]

ghost use Rattle.std.specs.Prelude.{◌≡◌, ◌<◌, ◌≤◌, ◌++◌, ◌∷◌, [], ℕ, Bool, true, List, Some};
ghost use Rattle.px_cells.specs.CellData.{CellData};
ghost use Rattle.px_cells.specs.Contents.{value_at};
ghost use Rattle.px_cells.specs.Order.{ReadsSame};
ghost use Rattle.px_values.specs.declared.row.Value.{Value as ColumnValue};
ghost use Rattle.px_values.specs.declared.name.TableId.{TableId as TableNumber};
ghost use Rattle.px_trail.specs.declared.entry.Act.TheVariants.{Wrote};
ghost use Rattle.px_trail.specs.declared.entry.Entry.{Entry as Entries};
ghost use Rattle.px_trail.specs.Batches.{Batch, batch_of};
ghost use Rattle.px_trail.specs.Legal.{MayCome};
ghost use Rattle.px_trail.specs.Trail.{Base};
ghost use Rattle.px_world.specs.World.{Written, is_undecided, is_written, st};
ghost use Rattle.px_forms.specs.Indexes.{IndexForm};
ghost use Rattle.px_indexed.specs.Kept.{IsCompacted, ReadsWrites};
ghost use Rattle.px_indexed.specs.Worlds.{history_at};
ghost use Rattle.px_groupworld.specs.Group.{GroupData, GroupKept, table_form, world_in};
ghost use Rattle.px_groupworld.specs.Steps.{forgot_data, wrote_data};
ghost use Rattle.px_openbatches.specs.Pending.{HeldBatch, HeldKept};
ghost use Rattle.px_tablereads.specs.Pending.{is_left_among};
ghost use Rattle.px_tablereads.specs.Told.{AreTold, StandsAt, WritesNoRow, WritesSome};
ghost use Rattle.px_tablefolder.specs.Folder.{TableFiles, IsFolderBase, IsOpened};
ghost use Rattle.px_tablefolder.specs.Stop.{over_base};

use px_groupworld::Formed;

/// Whether a change is undecided, the states of a row, and the state after a written change.
pub fn law_told<F: Formed>()
    ensures undecided { (b : Base) → (id : TableNumber) → (index : ℕ → IndexForm) → (es : List Entries) → (v : GroupData) → GroupKept (table_form b id index F.rows) es v → (hs : List HeldBatch) → HeldKept b es id.0 hs → (i : ℕ) → (r : List ColumnValue) → (s : ℕ) → is_undecided ((world_in (table_form b id index F.rows) es v i r).fate s) ≡ is_left_among hs s r }
    ensures state { (b : Base) → (id : TableNumber) → (index : ℕ → IndexForm) → (es : List Entries) → (v : GroupData) → GroupKept (table_form b id index F.rows) es v → (i : ℕ) → (r : List ColumnValue) → (p : ℕ) → v.low ≤ p → st (world_in (table_form b id index F.rows) es v i r) p ≡ F.rows.spelled (value_at v.cells) r p }
    ensures new { (b : Base) → (id : TableNumber) → (index : ℕ → IndexForm) → (es : List Entries) → (v : GroupData) → GroupKept (table_form b id index F.rows) es v → (i : ℕ) → (r : List ColumnValue) → (s : ℕ) → v.low ≤ s → 0 < s → (world_in (table_form b id index F.rows) es v i r).fate s ≡ Written → (world_in (table_form b id index F.rows) es v i r).new s ≡ F.rows.spelled (value_at v.cells) r s }
{}

/// Above the data horizon a change was written exactly where a cell of the row has its stamp.
pub fn law_written<F: Formed>()
    ensures { (b : Base) → (id : TableNumber) → (index : ℕ → IndexForm) → (es : List Entries) → (v : GroupData) → GroupKept (table_form b id index F.rows) es v → AreTold (table_form b id index F.rows) es v → (r : List ColumnValue) → (s : ℕ) → v.low < s → (is_written ((history_at F.rows.shape b es id.0 r).fate s) ≡ true → StandsAt F.rows (value_at v.cells) r s) × (StandsAt F.rows (value_at v.cells) r s → is_written ((history_at F.rows.shape b es id.0 r).fate s) ≡ true) }
{}

/// Each step keeps that written changes have their cells.
pub fn law_keeps<F: Formed>()
    ensures first { (b : Base) → (id : TableNumber) → (index : ℕ → IndexForm) → (v : GroupData) → ((r : List ColumnValue) → (s : ℕ) → v.low < s → b.changed id.0 r s ≡ true → StandsAt F.rows (value_at v.cells) r s) → AreTold (table_form b id index F.rows) [] v }
    ensures opened { (b : Base) → (id : TableNumber) → (index : ℕ → IndexForm) → (next : Base) → (n : TableFiles) → (u : GroupData) → IsFolderBase next id.0 F.rows n → IsOpened n u → AreTold (over_base (table_form b id index F.rows) next) [] u }
    ensures writes { (b : Base) → (id : TableNumber) → (index : ℕ → IndexForm) → (es : List Entries) → (v : GroupData) → GroupKept (table_form b id index F.rows) es v → WritesSome F.rows → AreTold (table_form b id index F.rows) es v → (e : Entries) → MayCome b es e → (s : ℕ) → (rows : List (List ColumnValue)) → e.act ≡ Wrote id s rows → (y : Batch) → batch_of id.0 s es ≡ Some y → (batch : List CellData) → (cells : List CellData) → ReadsWrites F.rows y s rows batch → ReadsSame cells (batch ++ v.cells) → AreTold (table_form b id index F.rows) (es ++ e ∷ []) (wrote_data cells v) }
    ensures others { (b : Base) → (id : TableNumber) → (index : ℕ → IndexForm) → (es : List Entries) → (v : GroupData) → GroupKept (table_form b id index F.rows) es v → AreTold (table_form b id index F.rows) es v → (e : Entries) → WritesNoRow e.act → (now : GroupData) → GroupKept (table_form b id index F.rows) (es ++ e ∷ []) now → now.low ≡ v.low → now.cells ≡ v.cells → AreTold (table_form b id index F.rows) (es ++ e ∷ []) now }
    ensures regions { (b : Base) → (id : TableNumber) → (index : ℕ → IndexForm) → (es : List Entries) → (v : GroupData) → GroupKept (table_form b id index F.rows) es v → AreTold (table_form b id index F.rows) es v → (now : GroupData) → GroupKept (table_form b id index F.rows) es now → now.low ≡ v.low → now.cells ≡ v.cells → AreTold (table_form b id index F.rows) es now }
    ensures forgets { (b : Base) → (id : TableNumber) → (index : ℕ → IndexForm) → (es : List Entries) → (v : GroupData) → GroupKept (table_form b id index F.rows) es v → AreTold (table_form b id index F.rows) es v → (cells : List CellData) → IsCompacted v.cells cells v.high → AreTold (table_form b id index F.rows) es (forgot_data cells v) }
{}
