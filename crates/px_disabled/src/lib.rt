//! An index is disabled, and one is built again: what the trail tells of its table, what the table shows, and what the folder tells.
//!
//! Laws over the steps of px_defined, no code: a table that lets an index go (`HasIndexLess`) has disabled it where the entry says so, and one that
//! lets it go and gets it anew (`HasIndexMore`) builds it again, with a new birth and a fresh region.
#![tactic(auto)]

ghost use Rattle.std.specs.Prelude.{◌≡◌, ◌++◌, ◌∷◌, [], ℕ, List, Some};
ghost use Rattle.px_defined.specs.Defined.{HasIndexLess, HasIndexMore, HasOnce, dropped_data};
ghost use Rattle.px_forms.specs.Indexes.{IndexForm};
ghost use Rattle.px_group.specs.Group.{IsShownBy, IsTallied, form_of};
ghost use Rattle.px_group.specs.declared.group.Group.{Group as Tables};
ghost use Rattle.px_groupworld.specs.Group.{GroupData};
ghost use Rattle.px_groupworld.specs.Steps.{born_data};
ghost use Rattle.px_indexrow.specs.Form.{index_form};
ghost use Rattle.px_openbatches.specs.Pending.{HeldBatch};
ghost use Rattle.px_tables.specs.declared.index.Index.{Index as Indexes};
ghost use Rattle.px_tables.specs.declared.index.IndexState.TheVariants.{Building as IsBuilding, Disabled as IsDisabled};
ghost use Rattle.px_tablesteps.specs.Kept.{TableBears};
ghost use Rattle.px_outside.specs.Parts.{with_part};
ghost use Rattle.px_recovery.specs.Folder.{AreUnmade, FolderData, with_standing};
ghost use Rattle.px_recovery.specs.Stands.{Explains};
ghost use Rattle.px_recovery.specs.Tables.{index_in, table_in, without_index};
ghost use Rattle.px_schema.specs.Stands.{stands_after};
ghost use Rattle.px_schema.specs.declared.item.CatalogItem.TheVariants.{IndexIs};
ghost use Rattle.px_schema.specs.declared.standing.Standing.{Standing as Definitions};
ghost use Rattle.px_standing.specs.Agrees.{Agrees};
ghost use Rattle.px_tables.specs.declared.table.Table.{Table as DefinedTable};
ghost use Rattle.px_trail.specs.Legal.{MayCome};
ghost use Rattle.px_trail.specs.Trail.{Base, Catalogue, catalogue_of, catalogue_step, index_of};
ghost use Rattle.px_values.specs.declared.name.TableId.{TableId as TableNumber};
ghost use Rattle.px_trail.specs.declared.entry.Act.TheVariants.{IndexState};
ghost use Rattle.px_trail.specs.declared.entry.Entry.{Entry as Entries};
ghost use Rattle.px_values.specs.declared.name.IndexId.{IndexId as IndexNumber};
ghost use Rattle.px_disabled.specs.Disabled.{disabled, rebuilt};

/// An index is disabled, where no batch is open: its table lets it go.
pub fn law_disabled()
    ensures tallied { (b : Base) → (es : List Entries) → (e : Entries) → (g : Tables) → (h : Tables) → (id : IndexNumber) → (hs : List HeldBatch) → IsTallied b es g hs → HasIndexLess g h id.0 → (s : ℕ) → e.act ≡ IndexState g.table.id id IsDisabled s → IsTallied b (es ++ e ∷ []) h hs }
    ensures shown { (b : Base) → (es : List Entries) → (e : Entries) → MayCome b es e → (g : Tables) → (h : Tables) → (id : IndexNumber) → (hs : List HeldBatch) → IsTallied b es g hs → HasIndexLess g h id.0 → g.batches.items ≡ [] → (s : ℕ) → e.act ≡ IndexState g.table.id id IsDisabled s → (index : ℕ → IndexForm) → (v : GroupData) → IsShownBy b index es g v hs → IsShownBy b index (es ++ e ∷ []) h (dropped_data id.0 v) [] }
{}

/// An index is built again, where no batch is open: its table lets it go, if it has it, and gets it anew, with the stamp as its birth and a fresh
/// region of the next number.
pub fn law_rebuilt()
    ensures tallied { (b : Base) → (es : List Entries) → (e : Entries) → MayCome b es e → (g : Tables) → (less : Tables) → (h : Tables) → (x : Indexes) → (hs : List HeldBatch) → IsTallied b es g hs → index_of b es x.id.0 ≡ Some x → HasIndexLess g less x.id.0 → (s : ℕ) → HasIndexMore less h (rebuilt s (catalogue_of b es).next x) → e.act ≡ IndexState g.table.id x.id IsBuilding s → IsTallied b (es ++ e ∷ []) h hs }
    ensures once { (g : Tables) → (less : Tables) → (h : Tables) → (x : Indexes) → (s : ℕ) → (region : ℕ) → HasIndexLess g less x.id.0 → HasIndexMore less h (rebuilt s region x) → HasOnce g → HasOnce h }
    ensures bears { (b : Base) → (es : List Entries) → (e : Entries) → MayCome b es e → (g : Tables) → (less : Tables) → (x : Indexes) → (hs : List HeldBatch) → IsTallied b es g hs → g.batches.items ≡ [] → HasIndexLess g less x.id.0 → (s : ℕ) → e.act ≡ IndexState g.table.id x.id IsBuilding s → (index : ℕ → IndexForm) → (v : GroupData) → IsShownBy b index es g v hs → index x.id.0 ≡ index_form g.table x → TableBears (form_of b index less) x.id.0 s es (dropped_data x.id.0 v) (es ++ e ∷ []) [] }
    ensures shown { (b : Base) → (es : List Entries) → (e : Entries) → MayCome b es e → (g : Tables) → (less : Tables) → (h : Tables) → (x : Indexes) → (hs : List HeldBatch) → IsTallied b es g hs → g.batches.items ≡ [] → HasIndexLess g less x.id.0 → (s : ℕ) → HasIndexMore less h (rebuilt s (catalogue_of b es).next x) → e.act ≡ IndexState g.table.id x.id IsBuilding s → (index : ℕ → IndexForm) → (v : GroupData) → IsShownBy b index es g v hs → index x.id.0 ≡ index_form g.table x → IsShownBy b index (es ++ e ∷ []) h (born_data x.id.0 s (dropped_data x.id.0 v)) [] }
{}

/// What stands with the index's new record is what the trail tells after the entry: disabled, or building with the stamp and the next number.
pub fn law_stands()
    ensures gone { (s : Definitions) → (c : Catalogue) → Agrees s c → (t : TableNumber) → (i : IndexNumber) → (stamp : ℕ) → (x : Indexes) → index_in s.indexes i.0 ≡ Some x → Agrees (stands_after s (IndexIs (disabled x))) (catalogue_step c (IndexState t i IsDisabled stamp)) }
    ensures anew { (s : Definitions) → (c : Catalogue) → Agrees s c → (t : TableNumber) → (i : IndexNumber) → (stamp : ℕ) → (x : Indexes) → index_in s.indexes i.0 ≡ Some x → Agrees (stands_after s (IndexIs (rebuilt stamp s.next x))) (catalogue_step c (IndexState t i IsBuilding stamp)) }
{}

/// And the folder is told then: the table without the index, or with it anew, where its old region is of no part and its new one has nothing.
pub fn law_folder()
    ensures gone { (b : Base) → (es : List Entries) → (f : FolderData) → (v : ℕ → GroupData) → Explains b es f v → (e : Entries) → MayCome b es e → (t : TableNumber) → (i : IndexNumber) → (stamp : ℕ) → e.act ≡ IndexState t i IsDisabled stamp → (x : DefinedTable) → table_in f.standing.tables t.0 ≡ Some x → (z : Indexes) → index_in f.standing.indexes i.0 ≡ Some z → z.table.0 ≡ t.0 → (v t.0).opens ≡ [] → Explains b (es ++ e ∷ []) (with_standing (stands_after f.standing (IndexIs (disabled z))) f) (with_part v t.0 (without_index i.0 (v t.0))) }
    ensures anew { (b : Base) → (es : List Entries) → (f : FolderData) → AreUnmade f → (v : ℕ → GroupData) → Explains b es f v → (e : Entries) → MayCome b es e → (t : TableNumber) → (i : IndexNumber) → (stamp : ℕ) → e.act ≡ IndexState t i IsBuilding stamp → (x : DefinedTable) → table_in f.standing.tables t.0 ≡ Some x → (z : Indexes) → index_in f.standing.indexes i.0 ≡ Some z → z.table.0 ≡ t.0 → (v t.0).opens ≡ [] → Explains b (es ++ e ∷ []) (with_standing (stands_after f.standing (IndexIs (rebuilt stamp f.standing.next z))) f) (with_part v t.0 (born_data i.0 stamp (without_index i.0 (v t.0)))) }
{}
