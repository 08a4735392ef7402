// What base versions leave true of their table.
ghost use Rattle.std.specs.Prelude.{◌≡◌, ◌≤◌, ◌++◌, ◌∷◌, [], ℕ, List, length, map};
ghost use Rattle.px_forms.specs.Indexes.{IndexForm};
ghost use Rattle.px_groupworld.specs.Group.{GroupData};
ghost use Rattle.px_groupworld.specs.Steps.{at_index, cells_data};
ghost use Rattle.px_indexed.specs.Worlds.{row_event};
ghost use Rattle.px_indexrow.specs.Form.{IsRightIndex};
ghost use Rattle.px_paths.specs.Paths.{FitsRow, index_path, key_on};
ghost use Rattle.px_rows.specs.Keys.{IsRightTable};
ghost use Rattle.px_tables.specs.declared.index.Index.{Index as Indexes};
ghost use Rattle.px_tables.specs.declared.table.Table.{Table as Definitions};
ghost use Rattle.px_trail.specs.States.{key_in};
ghost use Rattle.px_values.specs.Limits.{most_key};
ghost use Rattle.px_openbatches.specs.Pending.{HeldBatch};
ghost use Rattle.px_region.specs.Region.{read_of};
ghost use Rattle.px_tablesteps.specs.Kept.{TableSteps};
ghost use Rattle.px_trail.specs.Batches.{has};
ghost use Rattle.px_trail.specs.Legal.{MayCome};
ghost use Rattle.px_trail.specs.Trail.{Base, table_shape};
ghost use Rattle.px_trail.specs.declared.entry.Act.TheVariants.{Based};
ghost use Rattle.px_trail.specs.declared.entry.Entry.{Entry as Entries};
ghost use Rattle.px_values.specs.declared.name.IndexId.{IndexId as IndexNumber};
ghost use Rattle.px_values.specs.declared.row.Value.{Value as ColumnValue};
ghost use Rattle.px_world.specs.Events.{Base as BaseVersion};
ghost use Rattle.px_group.specs.Group.{AreTraced, IsRightGroup, IsShownBy, IsTallied, form_of};
ghost use Rattle.px_group.specs.declared.group.Group.{Group as Tables};
ghost use Rattle.px_reading.specs.Doubts.{IsToldBy};
ghost use Rattle.px_baserows.specs.Rows.{IsBaseRow, owner_in, owners_in};
ghost use Rattle.px_calls.specs.declared.query.BaseRow.{BaseRow as Given};
ghost use Rattle.px_basing.specs.Basing.{AreGiven, HandsBases, StoodAtBirth, WroteBases};

use px_outside::Disk;

/// A row that the table may have, with the key that it has on the path of the index, is one that may be given; its primary key is the one that the trail
/// names it by.
pub fn law_given()
    ensures row { (t : Definitions) → (x : Indexes) → (y : Given) → IsRightTable t → IsRightIndex t x → FitsRow t y.row → key_on (index_path t x) y.row ≡ y.key → length y.key ≤ most_key → IsBaseRow t x y }
    ensures owner { (t : Definitions) → (row : List ColumnValue) → key_in (table_shape t) row ≡ owner_in t row }
    ensures owners { (t : Definitions) → (xs : List Given) → map (λ y. key_in (table_shape t) y.row) xs ≡ owners_in t xs }
{}

/// Base versions are written. The table is right and tallies with the trail, and its batches have what their end needs, the last two also where the disk
/// failed; where the table had the rows at the birth of the index, what it shows goes on by Base of exactly these rows at that index.
pub fn law_based<D: Disk>()
    ensures right { (g : Tables) → (h : Tables) → (old : D) → (new : D) → (place : ℕ) → (xs : List Given) → IsRightGroup g → AreGiven g place xs → WroteBases ⟦<D as Disk>⟧ g h old new place xs → IsRightGroup h }
    ensures tallied { (g : Tables) → (h : Tables) → (old : D) → (new : D) → (place : ℕ) → (xs : List Given) → (b : Base) → (es : List Entries) → (hs : List HeldBatch) → IsTallied b es g hs → HandsBases ⟦<D as Disk>⟧ g h old new place xs → IsTallied b es h hs }
    ensures traced { (g : Tables) → (h : Tables) → (old : D) → (new : D) → (place : ℕ) → (xs : List Given) → (es : List Entries) → AreTraced es g → HandsBases ⟦<D as Disk>⟧ g h old new place xs → AreTraced es h }
    ensures shown { (g : Tables) → (h : Tables) → (old : D) → (new : D) → (place : ℕ) → (xs : List Given) → IsRightGroup g → AreGiven g place xs → (b : Base) → (es : List Entries) → StoodAtBirth b es g place xs → (index : ℕ → IndexForm) → (v : GroupData) → (hs : List HeldBatch) → IsShownBy b index es g v hs → (w : WroteBases ⟦<D as Disk>⟧ g h old new place xs) → IsShownBy b index es h (cells_data place (read_of w.region) v) hs }
    ensures steps { (g : Tables) → (h : Tables) → (old : D) → (new : D) → (place : ℕ) → (xs : List Given) → IsRightGroup g → AreGiven g place xs → (b : Base) → (es : List Entries) → StoodAtBirth b es g place xs → (index : ℕ → IndexForm) → (v : GroupData) → (hs : List HeldBatch) → IsShownBy b index es g v hs → (w : WroteBases ⟦<D as Disk>⟧ g h old new place xs) → TableSteps (form_of b index g) (λ i r. at_index place i (row_event BaseVersion (has (owners_in g.table xs) r))) es v es (cells_data place (read_of w.region) v) hs }
    ensures told { (g : Tables) → (h : Tables) → (old : D) → (new : D) → (place : ℕ) → (xs : List Given) → (b : Base) → (es : List Entries) → (index : ℕ → IndexForm) → (v : GroupData) → (hs : List HeldBatch) → IsShownBy b index es g v hs → IsToldBy b index es g v → (w : WroteBases ⟦<D as Disk>⟧ g h old new place xs) → IsToldBy b index es h (cells_data place (read_of w.region) v) }
{}

/// The same with the entry that tells of them.
pub fn law_noted<D: Disk>()
    ensures tallied { (g : Tables) → (h : Tables) → (old : D) → (new : D) → (place : ℕ) → (xs : List Given) → (b : Base) → (es : List Entries) → (hs : List HeldBatch) → IsTallied b es g hs → WroteBases ⟦<D as Disk>⟧ g h old new place xs → (e : Entries) → (i : IndexNumber) → (rows : List (List ColumnValue)) → e.act ≡ Based i rows → IsTallied b (es ++ e ∷ []) h hs }
    ensures traced { (g : Tables) → (h : Tables) → (old : D) → (new : D) → (place : ℕ) → (xs : List Given) → (b : Base) → (es : List Entries) → AreTraced es g → WroteBases ⟦<D as Disk>⟧ g h old new place xs → (e : Entries) → (i : IndexNumber) → (rows : List (List ColumnValue)) → e.act ≡ Based i rows → AreTraced (es ++ e ∷ []) h }
    ensures shown { (g : Tables) → (h : Tables) → (old : D) → (new : D) → (place : ℕ) → (xs : List Given) → IsRightGroup g → AreGiven g place xs → (b : Base) → (es : List Entries) → StoodAtBirth b es g place xs → (index : ℕ → IndexForm) → (v : GroupData) → (hs : List HeldBatch) → IsShownBy b index es g v hs → (w : WroteBases ⟦<D as Disk>⟧ g h old new place xs) → (e : Entries) → MayCome b es e → (i : IndexNumber) → (rows : List (List ColumnValue)) → e.act ≡ Based i rows → IsShownBy b index (es ++ e ∷ []) h (cells_data place (read_of w.region) v) hs }
    ensures steps { (g : Tables) → (h : Tables) → (old : D) → (new : D) → (place : ℕ) → (xs : List Given) → IsRightGroup g → AreGiven g place xs → (b : Base) → (es : List Entries) → StoodAtBirth b es g place xs → (index : ℕ → IndexForm) → (v : GroupData) → (hs : List HeldBatch) → IsShownBy b index es g v hs → (w : WroteBases ⟦<D as Disk>⟧ g h old new place xs) → (e : Entries) → MayCome b es e → (i : IndexNumber) → (rows : List (List ColumnValue)) → e.act ≡ Based i rows → TableSteps (form_of b index g) (λ j r. at_index place j (row_event BaseVersion (has (owners_in g.table xs) r))) es v (es ++ e ∷ []) (cells_data place (read_of w.region) v) hs }
{}
