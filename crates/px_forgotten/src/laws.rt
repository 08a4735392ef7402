// What stays true, and what is true then.
ghost use Rattle.std.specs.Prelude.{◌≡◌, ◌<◌, ◌++◌, ◌∷◌, [], ℕ, List, length, get_or, slice_get, Some};
ghost use Rattle.px_cells.specs.CellData.{CellData};
ghost use Rattle.px_cellshapes.specs.Keys.{AreRightKeys};
ghost use Rattle.px_cellshapes.specs.Rows.{AreRightRows};
ghost use Rattle.px_forms.specs.Indexes.{IndexForm};
ghost use Rattle.px_group.specs.Group.{AreTraced, IsRightGroup, IsShownBy, IsTallied, form_of};
ghost use Rattle.px_group.specs.declared.group.Group.{Group};
ghost use Rattle.px_group.specs.declared.group.IndexRegion.{IndexRegion};
ghost use Rattle.px_groupworld.specs.Group.{GroupData};
ghost use Rattle.px_groupworld.specs.Steps.{forgot_data, own_forgot_data, raised_data};
ghost use Rattle.px_indexed.specs.Kept.{IsCompacted};
ghost use Rattle.px_merge.specs.Kept.{IsKeptList};
ghost use Rattle.px_openbatches.specs.Pending.{HeldBatch};
ghost use Rattle.px_outside.specs.Parts.{with_part};
ghost use Rattle.px_reading.specs.Doubts.{IsToldBy};
ghost use Rattle.px_recovery.specs.Folder.{FolderData, with_region};
ghost use Rattle.px_recovery.specs.Stands.{Explains};
ghost use Rattle.px_recovery.specs.Tables.{form_of_index, index_in, indexes_of};
ghost use Rattle.px_region.specs.Region.{read_of};
ghost use Rattle.px_region.specs.declared.region.Region.{Region};
ghost use Rattle.px_tables.specs.declared.index.Index.{Index as Indexes};
ghost use Rattle.px_tables.specs.declared.table.Table.{Table as Tables};
ghost use Rattle.px_trail.specs.Legal.{MayCome};
ghost use Rattle.px_trail.specs.Trail.{Base};
ghost use Rattle.px_trail.specs.declared.entry.Act.TheVariants.{Raised};
ghost use Rattle.px_trail.specs.declared.entry.Entry.{Entry};
ghost use Rattle.px_forgotten.specs.Forgotten.{AreBuiltBy, ForgotIndex, ForgotRows, at_horizon};

/// What a horizon keeps of cells of rows, or of an index's keys, is told place by place, and has their shape.
pub fn law_kept()
    ensures rows { (t : Tables) → (cells : List CellData) → AreRightRows t cells → (h : ℕ) → (kept : List CellData) → IsKeptList cells h kept → IsCompacted cells kept h × AreRightRows t kept }
    ensures keys { (t : Tables) → (i : Indexes) → (cells : List CellData) → AreRightKeys t i cells → (h : ℕ) → (kept : List CellData) → IsKeptList cells h kept → IsCompacted cells kept h × AreRightKeys t i kept }
{}

/// The region of a table's rows has forgotten at the table's horizon.
pub fn law_rows()
    ensures right { (g : Group) → IsRightGroup g → (g' : Group) → ForgotRows g g' → IsRightGroup g' }
    ensures tallied { (b : Base) → (es : List Entry) → (g : Group) → (hs : List HeldBatch) → IsTallied b es g hs → (g' : Group) → ForgotRows g g' → IsTallied b es g' hs }
    ensures traced { (es : List Entry) → (g : Group) → AreTraced es g → (g' : Group) → ForgotRows g g' → AreTraced es g' }
    ensures shown { (b : Base) → (index : ℕ → IndexForm) → (es : List Entry) → (g : Group) → (hs : List HeldBatch) → IsRightGroup g → IsTallied b es g hs → (v : GroupData) → IsShownBy b index es g v hs → (g' : Group) → ForgotRows g g' → IsShownBy b index es g' (forgot_data (read_of g'.rows) v) hs }
    ensures told { (b : Base) → (index : ℕ → IndexForm) → (es : List Entry) → (g : Group) → (hs : List HeldBatch) → IsRightGroup g → IsTallied b es g hs → (v : GroupData) → IsShownBy b index es g v hs → IsToldBy b index es g v → (g' : Group) → ForgotRows g g' → IsToldBy b index es g' (forgot_data (read_of g'.rows) v) }
    ensures built { (b : Base) → (index : ℕ → IndexForm) → (es : List Entry) → (g : Group) → (hs : List HeldBatch) → IsRightGroup g → IsTallied b es g hs → (v : GroupData) → IsShownBy b index es g v hs → AreBuiltBy (form_of b index g) es v → (g' : Group) → ForgotRows g g' → AreBuiltBy (form_of b index g) es (forgot_data (read_of g'.rows) v) }
    ensures folder { (b : Base) → (es : List Entry) → (f : FolderData) → (v : ℕ → GroupData) → Explains b es f v → (g : Group) → (hs : List HeldBatch) → IsRightGroup g → IsTallied b es g hs → IsShownBy b (λ n. form_of_index g.table (index_in f.standing.indexes n)) es g (v g.table.id.0) hs → (kept : List CellData) → IsKeptList (read_of g.rows) g.horizon kept → (f.regions g.rows.number).cells ≡ read_of g.rows → Explains b es (with_region g.rows.number (record { cells = kept; horizon = g.horizon }) f) (with_part v g.table.id.0 (forgot_data kept (v g.table.id.0))) }
{}

/// The region of one of its indexes has; the index stands at a place of the folder's.
pub fn law_index()
    ensures right { (g : Group) → IsRightGroup g → (g' : Group) → (place : ℕ) → (x : IndexRegion) → (new : Region) → ForgotIndex g g' place x new → IsRightGroup g' }
    ensures tallied { (b : Base) → (es : List Entry) → (g : Group) → (hs : List HeldBatch) → IsTallied b es g hs → (g' : Group) → (place : ℕ) → (x : IndexRegion) → (new : Region) → ForgotIndex g g' place x new → IsTallied b es g' hs }
    ensures traced { (es : List Entry) → (g : Group) → AreTraced es g → (g' : Group) → (place : ℕ) → (x : IndexRegion) → (new : Region) → ForgotIndex g g' place x new → AreTraced es g' }
    ensures shown { (b : Base) → (index : ℕ → IndexForm) → (es : List Entry) → (g : Group) → (hs : List HeldBatch) → IsRightGroup g → IsTallied b es g hs → (v : GroupData) → IsShownBy b index es g v hs → (g' : Group) → (place : ℕ) → (x : IndexRegion) → (new : Region) → ForgotIndex g g' place x new → IsShownBy b index es g' (own_forgot_data place (read_of new) v) hs }
    ensures told { (b : Base) → (index : ℕ → IndexForm) → (es : List Entry) → (g : Group) → (hs : List HeldBatch) → IsRightGroup g → IsTallied b es g hs → (v : GroupData) → IsShownBy b index es g v hs → IsToldBy b index es g v → (g' : Group) → (place : ℕ) → (x : IndexRegion) → (new : Region) → ForgotIndex g g' place x new → IsToldBy b index es g' (own_forgot_data place (read_of new) v) }
    ensures built { (b : Base) → (index : ℕ → IndexForm) → (es : List Entry) → (g : Group) → (hs : List HeldBatch) → IsRightGroup g → IsTallied b es g hs → (v : GroupData) → IsShownBy b index es g v hs → AreBuiltBy (form_of b index g) es v → (g' : Group) → (place : ℕ) → (x : IndexRegion) → (new : Region) → ForgotIndex g g' place x new → AreBuiltBy (form_of b index g) es (own_forgot_data place (read_of new) v) }
    ensures folder { (b : Base) → (es : List Entry) → (f : FolderData) → (v : ℕ → GroupData) → Explains b es f v → (g : Group) → (hs : List HeldBatch) → IsRightGroup g → IsTallied b es g hs → IsShownBy b (λ n. form_of_index g.table (index_in f.standing.indexes n)) es g (v g.table.id.0) hs → (place : ℕ) → (x : IndexRegion) → slice_get g.indexes.items place ≡ Some x → (kept : List CellData) → IsKeptList (read_of x.region) g.horizon kept → (at : ℕ) → (i : Indexes) → at < length (indexes_of g.table.id.0 f.standing.indexes) → get_or (indexes_of g.table.id.0 f.standing.indexes) at i ≡ i → i.region ≡ x.region.number → i.id.0 ≡ x.index.id.0 → Explains b es (with_region x.region.number (record { cells = kept; horizon = g.horizon }) f) (with_part v g.table.id.0 (own_forgot_data place kept (v g.table.id.0))) }
{}

/// The table's horizon rises, by an entry.
pub fn law_raised()
    ensures right { (g : Group) → IsRightGroup g → (h : ℕ) → IsRightGroup (at_horizon h g) }
    ensures tallied { (b : Base) → (es : List Entry) → (g : Group) → (hs : List HeldBatch) → IsTallied b es g hs → (e : Entry) → MayCome b es e → (h : ℕ) → e.act ≡ Raised g.table.id h → IsTallied b (es ++ e ∷ []) (at_horizon h g) hs }
    ensures shown { (b : Base) → (index : ℕ → IndexForm) → (es : List Entry) → (g : Group) → (hs : List HeldBatch) → (v : GroupData) → IsShownBy b index es g v hs → (e : Entry) → MayCome b es e → (h : ℕ) → e.act ≡ Raised g.table.id h → IsShownBy b index (es ++ e ∷ []) (at_horizon h g) (raised_data h v) hs }
    ensures told { (b : Base) → (index : ℕ → IndexForm) → (es : List Entry) → (g : Group) → (hs : List HeldBatch) → (v : GroupData) → IsShownBy b index es g v hs → IsToldBy b index es g v → (e : Entry) → MayCome b es e → (h : ℕ) → e.act ≡ Raised g.table.id h → IsToldBy b index (es ++ e ∷ []) (at_horizon h g) (raised_data h v) }
    ensures built { (b : Base) → (index : ℕ → IndexForm) → (es : List Entry) → (g : Group) → (hs : List HeldBatch) → (v : GroupData) → IsShownBy b index es g v hs → AreBuiltBy (form_of b index g) es v → (e : Entry) → MayCome b es e → (h : ℕ) → e.act ≡ Raised g.table.id h → AreBuiltBy (form_of b index g) (es ++ e ∷ []) (raised_data h v) }
    ensures folder { (b : Base) → (es : List Entry) → (f : FolderData) → (v : ℕ → GroupData) → Explains b es f v → (g : Group) → (hs : List HeldBatch) → IsTallied b es g hs → IsShownBy b (λ n. form_of_index g.table (index_in f.standing.indexes n)) es g (v g.table.id.0) hs → (e : Entry) → MayCome b es e → (h : ℕ) → e.act ≡ Raised g.table.id h → Explains b (es ++ e ∷ []) f (with_part v g.table.id.0 (raised_data h (v g.table.id.0))) }
{}
