//! What a stop leaves of a table: its folder, the table that is opened from it, and the event that the stop is.
//! `Leaves` says it of every folder of a table and of everything that is opened from it. `law_stops`: between two steps, and in each step that
//! has its record in a log, the worlds of all rows stop, and the next run begins with what the trail tells; a write whose record is in the
//! log counts as written. `law_again`: the folder is that of the table that was opened from it, so a second stop is the same law.
//! Definitions and laws, no code.
#![tactic(auto)]

ghost use Rattle.std.specs.Prelude.{◌≡◌, ◌++◌, ◌∷◌, [], ℕ, Bool, cond, List, Some, None};
ghost use Rattle.px_cells.specs.CellData.{CellData};
ghost use Rattle.px_cells.specs.Order.{ReadsSame};
ghost use Rattle.px_values.specs.declared.row.Value.{Value as ColumnValue};
ghost use Rattle.px_values.specs.declared.name.TableId.{TableId as TableNumber};
ghost use Rattle.px_trail.specs.declared.entry.Act.TheVariants.{Wrote};
ghost use Rattle.px_trail.specs.declared.entry.Entry.{Entry as Entries};
ghost use Rattle.px_trail.specs.Batches.{Batch, batch_of, has};
ghost use Rattle.px_trail.specs.Legal.{MayCome};
ghost use Rattle.px_trail.specs.Trail.{Base};
ghost use Rattle.px_forms.specs.Indexes.{IndexForm};
ghost use Rattle.px_indexed.specs.Kept.{ReadsWrites};
ghost use Rattle.px_groupworld.specs.Group.{GroupData, GroupKept, table_form};
ghost use Rattle.px_groupworld.specs.Steps.{wrote_data};
ghost use Rattle.px_tablefolder.specs.Folder.{TableFiles, IsFolderBase, IsFolderOf, IsOpened, files_of_group};
ghost use Rattle.px_tablefolder.specs.Stop.{Leaves, over_base};

use px_groupworld::Formed;

/// Whatever its folder is, a table stops: as it is after any step, and in a write whose record is in the log.
pub fn law_stops<F: Formed>()
    ensures now { (b : Base) → (id : TableNumber) → (index : ℕ → IndexForm) → (es : List Entries) → (v : GroupData) → GroupKept (table_form b id index F.rows) es v → Leaves (table_form b id index F.rows) es v v (λ r. None) es }
    ensures in_write { (b : Base) → (id : TableNumber) → (index : ℕ → IndexForm) → (es : List Entries) → (v : GroupData) → GroupKept (table_form b id index F.rows) es v → (e : Entries) → MayCome b es e → (s : ℕ) → (rows : List (List ColumnValue)) → e.act ≡ Wrote id s rows → (y : Batch) → batch_of id.0 s es ≡ Some y → (batch : List CellData) → (cells : List CellData) → ReadsWrites F.rows y s rows batch → ReadsSame cells (batch ++ v.cells) → Leaves (table_form b id index F.rows) es v (wrote_data cells v) (λ r. cond (has rows r) (Some s) None) (es ++ e ∷ []) }
{}

/// Every table that is kept has a folder.
pub fn law_folder<F: Formed>()
    ensures { (b : Base) → (id : TableNumber) → (index : ℕ → IndexForm) → (es : List Entries) → (v : GroupData) → GroupKept (table_form b id index F.rows) es v → IsFolderOf (table_form b id index F.rows) es v (files_of_group v) }
{}

/// The table that was opened is kept over the next run's base, and the folder is its own.
pub fn law_again<F: Formed>()
    ensures kept { (b : Base) → (id : TableNumber) → (index : ℕ → IndexForm) → (es : List Entries) → (v : GroupData) → GroupKept (table_form b id index F.rows) es v → (n : TableFiles) → IsFolderOf (table_form b id index F.rows) es v n → (next : Base) → IsFolderBase next id.0 F.rows n → (u : GroupData) → IsOpened n u → GroupKept (over_base (table_form b id index F.rows) next) [] u }
    ensures same { (b : Base) → (id : TableNumber) → (index : ℕ → IndexForm) → (es : List Entries) → (v : GroupData) → GroupKept (table_form b id index F.rows) es v → (n : TableFiles) → IsFolderOf (table_form b id index F.rows) es v n → (next : Base) → IsFolderBase next id.0 F.rows n → (u : GroupData) → IsOpened n u → IsFolderOf (over_base (table_form b id index F.rows) next) [] u n }
{}
