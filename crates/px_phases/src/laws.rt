// How an open batch goes on.
ghost use Rattle.std.specs.Prelude.{◌≡◌, ◌<◌, ◌+◌, ◌∷◌, [], ℕ, Bool, true, List, Some, None, get_or, length, map, is_some, if◌then◌else◌};
ghost use Rattle.std.specs.List.{AllByRecursion};
ghost use Rattle.px_cells.specs.CellData.{CellData};
ghost use Rattle.px_cells.specs.Order.{ReadsSame};
ghost use Rattle.px_forms.specs.Indexes.{IndexForm, IsIndexForm, IsPlaced};
ghost use Rattle.px_groupworld.specs.Group.{table_form};
ghost use Rattle.px_keptcells.specs.Kept.{but, laid};
ghost use Rattle.px_forms.specs.Several.{cells_for};
ghost use Rattle.px_openbatches.specs.Made.{IsComputed, RowCells, picked_cells};
ghost use Rattle.px_openbatches.specs.Pending.{HeldBatch, after_pending, fresh_held, is_pending_in, meet_flags, to_verify, with_met, writes_rows};
ghost use Rattle.px_rows.specs.Spelled.{row_form};
ghost use Rattle.px_tables.specs.declared.table.Table.{Table};
ghost use Rattle.px_trail.specs.Batches.{is_distinct, rows_of};
ghost use Rattle.px_trail.specs.Trail.{Base};
ghost use Rattle.px_values.specs.States.{RowState, Shape as RowShape};
ghost use Rattle.px_values.specs.declared.change.Change.{Change as RowChange};
ghost use Rattle.px_values.specs.declared.name.TableId.{TableId as TableNumber};
ghost use Rattle.px_phases.specs.declared.transition.Transition.{Transition};
ghost use Rattle.px_phases.specs.Begun.{AreFrom, made_rows, no_form, prepared_batch};
ghost use Rattle.px_phases.specs.Phases.{ArePuts, AreTransitions};
ghost use Rattle.px_values.specs.declared.row.Value.{Value as ColumnValue};
ghost use Rattle.px_phases.specs.Batch.{AreHeldAs, BatchData, IsHanded, IsHeldAs, is_left_in, pending_state};

/// What an open batch hands out in each phase is read as what its table's step asks for, and it goes on as the step says.
pub fn law_held()
    ensures marks { (b : BatchData) → (h : HeldBatch) → IsHeldAs b h → (parts : List (List CellData)) → (rest : List (List (List CellData))) → b.marks ≡ parts ∷ rest → (cells : List CellData) → IsHanded cells (laid parts) → ReadsSame cells (cells_for (picked_cells (λ (x : RowCells). get_or x.marks h.done []) h.cells) (rows_of h.changes)) }
    ensures puts { (b : BatchData) → (h : HeldBatch) → IsHeldAs b h → (parts : List (List CellData)) → b.puts ≡ Some parts → (cells : List CellData) → IsHanded cells (laid parts) → ReadsSame cells (cells_for (picked_cells (λ (x : RowCells). x.puts) h.cells) (rows_of h.changes)) }
    ensures closes { (b : BatchData) → (h : HeldBatch) → IsHeldAs b h → (parts : List (List CellData)) → (rest : List (List (List CellData))) → b.closes ≡ parts ∷ rest → (cells : List CellData) → IsHanded cells (laid (but b.met parts)) → ReadsSame cells (cells_for (picked_cells (λ (x : RowCells). get_or x.closes h.verified []) h.cells) (to_verify h)) }
    ensures marked { (b : BatchData) → (h : HeldBatch) → IsHeldAs b h → (parts : List (List CellData)) → (rest : List (List (List CellData))) → b.marks ≡ parts ∷ rest → IsHeldAs (record b { marks = rest }) (record h { done = h.done + 1; verified = h.verified }) }
    ensures wrote { (b : BatchData) → (h : HeldBatch) → IsHeldAs b h → (parts : List (List CellData)) → b.puts ≡ Some parts → IsHeldAs (record b { puts = None }) (writes_rows h.stamp (rows_of h.changes) h) }
    ensures verified { (b : BatchData) → (h : HeldBatch) → IsHeldAs b h → (parts : List (List CellData)) → (rest : List (List (List CellData))) → b.closes ≡ parts ∷ rest → IsHeldAs (record b { closes = rest }) (record h { done = h.done; verified = h.verified + 1 }) }
    ensures met { (b : BatchData) → (h : HeldBatch) → IsHeldAs b h → (others : List RowChange) → IsHeldAs (record b { met = if is_some b.puts then meet_flags (rows_of others) b.met (rows_of b.changes) else b.met }) (with_met others h) }
    ensures others { (b : BatchData) → (h : HeldBatch) → IsHeldAs b h → (s : ℕ) → (rows : List (List ColumnValue)) → (h.stamp ≡ s → ⊥) → IsHeldAs b (writes_rows s rows h) }
{}

/// The state that a new change of a row counts on, and the rows on which a batch is pending, by what open batches keep.
pub fn law_pending()
    ensures state { (sh : RowShape) → (r : List ColumnValue) → (o : RowState) → (bs : List BatchData) → (hs : List HeldBatch) → AreHeldAs bs hs → pending_state sh r o bs ≡ after_pending sh r o hs }
    ensures rows { (r : List ColumnValue) → (bs : List BatchData) → (hs : List HeldBatch) → AreHeldAs bs hs → is_left_in bs r ≡ is_pending_in hs r }
{}

/// A batch made of the cells that `marks_of_rows`, `puts_of_rows` and `closes_of_rows` give is the one that its table's begin
/// asks for, where each row's state before its change is the one that the batch counts on.
pub fn law_begun()
    ensures computed { (b : Base) → (id : TableNumber) → (index : ℕ → IndexForm) → (t : Table) → (fs : List IndexForm) → (form : ℕ → IndexForm) → ((i : ℕ) → i < length fs → form i ≡ get_or fs i no_form) → ((i : ℕ) → i < length fs → IsIndexForm (get_or fs i no_form)) → ((i : ℕ) → i < length fs → IsPlaced (get_or fs i no_form)) → (s : ℕ) → (cs : List RowChange) → (xs : List Transition) → (parts : List (List CellData)) → (old : List ColumnValue → RowState) → is_distinct (rows_of cs) ≡ true → AreTransitions t cs xs → ArePuts t s cs parts → AreFrom old cs xs → AllByRecursion (IsComputed (table_form b id index (row_form t)) form (length fs) s cs old) (made_rows fs s cs xs parts) }
    ensures rows { (fs : List IndexForm) → (s : ℕ) → (t : Table) → (cs : List RowChange) → (xs : List Transition) → (parts : List (List CellData)) → AreTransitions t cs xs → ArePuts t s cs parts → map (λ (x : RowCells). x.row) (made_rows fs s cs xs parts) ≡ rows_of cs }
    ensures held { (t : Table) → (fs : List IndexForm) → (s : ℕ) → (cs : List RowChange) → (xs : List Transition) → (parts : List (List CellData)) → (flags : List Bool) → (hs : List HeldBatch) → is_distinct (rows_of cs) ≡ true → AreTransitions t cs xs → ArePuts t s cs parts → flags ≡ map (is_pending_in hs) (rows_of cs) → IsHeldAs (prepared_batch fs s cs xs parts flags) (fresh_held s cs (length fs) (made_rows fs s cs xs parts) hs) }
{}
