// What the trail tells of a table, and what the table shows, after a definition.
ghost use Rattle.std.specs.Prelude.{◌≡◌, ◌≢◌, ◌≤◌, ◌++◌, ◌↔◌, true, ◌∷◌, [], ℕ, List, Some, None};
ghost use Rattle.px_calls.specs.Requires.{IsNewIndex, IsNewTable};
ghost use Rattle.px_forms.specs.Indexes.{IndexForm};
ghost use Rattle.px_group.specs.Group.{IsRightGroup, IsShownBy, IsTallied, form_of};
ghost use Rattle.px_group.specs.declared.group.Group.{Group as Tables};
ghost use Rattle.px_groupworld.specs.Group.{GroupData, shape_in, world_in};
ghost use Rattle.px_groupworld.specs.Sound.{made_data};
ghost use Rattle.px_groupworld.specs.Steps.{at_index, born_data, ready_data};
ghost use Rattle.px_indexrow.specs.Form.{IsRightIndex, index_form};
ghost use Rattle.px_openbatches.specs.Pending.{HeldBatch};
ghost use Rattle.px_rows.specs.Keys.{IsRightTable};
ghost use Rattle.px_tables.specs.declared.index.Index.{Index as Indexes};
ghost use Rattle.px_tables.specs.declared.index.IndexState.TheVariants.{Active as IsActive, Disabled as IsDisabled};
ghost use Rattle.px_tables.specs.declared.index.NewIndex.{NewIndex as IndexDefinition};
ghost use Rattle.px_tables.specs.declared.table.NewTable.{NewTable as TableDefinition};
ghost use Rattle.px_tables.specs.declared.table.Table.{Table as TableData};
ghost use Rattle.px_tablesteps.specs.Kept.{TableBears, TableSteps};
ghost use Rattle.px_trail.specs.Batches.{Batch, IsDecided, batch_of, unwritten};
ghost use Rattle.px_trail.specs.Legal.{IsLegal, MayCome};
ghost use Rattle.px_trail.specs.States.{state_of};
ghost use Rattle.px_trail.specs.Trail.{Base, IsRightBase, catalogue_of, horizon_of, made_index, made_table};
ghost use Rattle.px_trail.specs.declared.entry.Act.TheVariants.{Dropped, IndexMade, IndexState, Made};
ghost use Rattle.px_trail.specs.declared.entry.Entry.{Entry as Entries};
ghost use Rattle.px_values.specs.declared.name.IndexId.{IndexId as IndexNumber};
ghost use Rattle.px_values.specs.declared.name.TableId.{TableId as TableNumber};
ghost use Rattle.px_values.specs.declared.row.Value.{Value as ColumnValue};
ghost use Rattle.px_world.specs.Events.{Comes, Ready};
ghost use Rattle.px_defined.specs.Defined.{HasActive, HasIndexLess, HasIndexMore, HasOnce, IsNewGroup, IsOnlyAt, dropped_data, has_to_write};

/// A table is made: nothing was known of its number, so the trail tells of no stamp, batch, point or index, and it shows no row.
pub fn law_table()
    ensures new { (n : ℕ) → (id : TableNumber) → (what : TableDefinition) → IsNewTable what → IsRightTable (made_table n id what) }
    ensures one { (n : ℕ) → (id : TableNumber) → (what : TableDefinition) → what.least_keys ≡ [] ∷ [] → (made_table n id what).regions ≡ (record { number = n; least_key = [] }) ∷ [] }
    ensures right { (t : TableData) → (g : Tables) → IsRightTable t → IsNewGroup t g → IsRightGroup g }
    ensures tallied { (b : Base) → IsRightBase b → (es : List Entries) → IsLegal b es → (e : Entries) → MayCome b es e → (id : TableNumber) → (what : TableDefinition) → e.act ≡ Made id what → (t : TableData) → t ≡ made_table (catalogue_of b es).next id what → (g : Tables) → IsNewGroup t g → IsTallied b (es ++ e ∷ []) g [] }
    ensures shown { (b : Base) → IsRightBase b → (es : List Entries) → IsLegal b es → (e : Entries) → MayCome b es e → (id : TableNumber) → (what : TableDefinition) → e.act ≡ Made id what → (index : ℕ → IndexForm) → (t : TableData) → t ≡ made_table (catalogue_of b es).next id what → (g : Tables) → IsNewGroup t g → IsShownBy b index (es ++ e ∷ []) g made_data [] }
{}

/// An index is born, whatever batches are open: it has no cell, and its birth is the last stamp.
pub fn law_index()
    ensures new { (t : TableData) → (n : ℕ) → (id : IndexNumber) → (s : ℕ) → (what : IndexDefinition) → IsNewIndex t what → IsRightIndex t (made_index n id s what) }
    ensures right { (g : Tables) → (h : Tables) → (i : Indexes) → HasIndexMore g h i → IsRightGroup g → IsRightIndex g.table i → i.table ≡ g.table.id → i.state ≢ IsDisabled → IsRightGroup h }
    ensures tallied { (b : Base) → IsRightBase b → (es : List Entries) → IsLegal b es → (e : Entries) → MayCome b es e → (g : Tables) → (h : Tables) → (i : Indexes) → (hs : List HeldBatch) → IsTallied b es g hs → HasIndexMore g h i → (id : IndexNumber) → (s : ℕ) → (what : IndexDefinition) → e.act ≡ IndexMade g.table.id id s what → i ≡ made_index (catalogue_of b es).next id s what → IsTallied b (es ++ e ∷ []) h hs }
    ensures shown { (b : Base) → IsRightBase b → (es : List Entries) → IsLegal b es → (e : Entries) → MayCome b es e → (g : Tables) → (h : Tables) → (i : Indexes) → (hs : List HeldBatch) → IsTallied b es g hs → HasIndexMore g h i → (id : IndexNumber) → (s : ℕ) → (what : IndexDefinition) → e.act ≡ IndexMade g.table.id id s what → i ≡ made_index (catalogue_of b es).next id s what → (index : ℕ → IndexForm) → (v : GroupData) → IsShownBy b index es g v hs → index i.id.0 ≡ index_form g.table i → IsShownBy b index (es ++ e ∷ []) h (born_data i.id.0 i.birth v) hs }
    ensures bears { (b : Base) → IsRightBase b → (es : List Entries) → IsLegal b es → (e : Entries) → MayCome b es e → (g : Tables) → (h : Tables) → (i : Indexes) → (hs : List HeldBatch) → IsTallied b es g hs → HasIndexMore g h i → (id : IndexNumber) → (s : ℕ) → (what : IndexDefinition) → e.act ≡ IndexMade g.table.id id s what → i ≡ made_index (catalogue_of b es).next id s what → (index : ℕ → IndexForm) → (v : GroupData) → IsShownBy b index es g v hs → index i.id.0 ≡ index_form g.table i → TableBears (form_of b index g) i.id.0 i.birth es v (es ++ e ∷ []) hs }
{}

/// An index becomes one that queries read, where that may come at every row. `comes`: it may where at the index's birth all is written
/// and no row has a state.
pub fn law_active()
    ensures right { (g : Tables) → (h : Tables) → (place : ℕ) → HasActive g h place → IsRightGroup g → IsRightGroup h }
    ensures tallied { (b : Base) → (es : List Entries) → (e : Entries) → (g : Tables) → (h : Tables) → (place : ℕ) → (hs : List HeldBatch) → IsTallied b es g hs → (a : HasActive g h place) → IsOnlyAt g place → (s : ℕ) → e.act ≡ IndexState g.table.id a.index.index.id IsActive s → IsTallied b (es ++ e ∷ []) h hs }
    ensures comes { (b : Base) → (es : List Entries) → (g : Tables) → (h : Tables) → (place : ℕ) → (hs : List HeldBatch) → (a : HasActive g h place) → (index : ℕ → IndexForm) → (v : GroupData) → IsShownBy b index es g v hs → horizon_of b g.table.id.0 es ≤ a.index.index.birth → IsDecided es g.table.id.0 a.index.index.birth → ((r : List ColumnValue) → state_of b es g.table.id.0 r a.index.index.birth ≡ None) → (r : List ColumnValue) → Comes (shape_in (form_of b index g) v place r) (world_in (form_of b index g) es v place r) Ready }
    ensures steps { (b : Base) → (es : List Entries) → (e : Entries) → MayCome b es e → (g : Tables) → (h : Tables) → (place : ℕ) → (hs : List HeldBatch) → (a : HasActive g h place) → (s : ℕ) → e.act ≡ IndexState g.table.id a.index.index.id IsActive s → (index : ℕ → IndexForm) → (v : GroupData) → IsShownBy b index es g v hs → ((r : List ColumnValue) → Comes (shape_in (form_of b index g) v place r) (world_in (form_of b index g) es v place r) Ready) → TableSteps (form_of b index g) (λ i r. at_index place i (Some Ready)) es v es (ready_data place v) hs }
    ensures shown { (b : Base) → (es : List Entries) → (e : Entries) → MayCome b es e → (g : Tables) → (h : Tables) → (place : ℕ) → (hs : List HeldBatch) → (a : HasActive g h place) → (s : ℕ) → e.act ≡ IndexState g.table.id a.index.index.id IsActive s → (index : ℕ → IndexForm) → (v : GroupData) → IsShownBy b index es g v hs → ((r : List ColumnValue) → Comes (shape_in (form_of b index g) v place r) (world_in (form_of b index g) es v place r) Ready) → IsShownBy b index (es ++ e ∷ []) h (ready_data place v) hs }
{}

/// An index is dropped, where no batch is open.
pub fn law_dropped()
    ensures right { (g : Tables) → (h : Tables) → (n : ℕ) → HasIndexLess g h n → g.batches.items ≡ [] → IsRightGroup g → IsRightGroup h }
    ensures tallied { (b : Base) → (es : List Entries) → (e : Entries) → (g : Tables) → (h : Tables) → (id : IndexNumber) → (hs : List HeldBatch) → IsTallied b es g hs → HasIndexLess g h id.0 → e.act ≡ Dropped g.table.id (Some id) → IsTallied b (es ++ e ∷ []) h hs }
    ensures shown { (b : Base) → (es : List Entries) → (e : Entries) → MayCome b es e → (g : Tables) → (h : Tables) → (id : IndexNumber) → (hs : List HeldBatch) → IsTallied b es g hs → HasIndexLess g h id.0 → g.batches.items ≡ [] → e.act ≡ Dropped g.table.id (Some id) → (index : ℕ → IndexForm) → (v : GroupData) → IsShownBy b index es g v hs → IsShownBy b index (es ++ e ∷ []) h (dropped_data id.0 v) [] }
    ensures none { (b : Base) → (es : List Entries) → (g : Tables) → (hs : List HeldBatch) → IsTallied b es g hs → g.batches.items ≡ [] → hs ≡ [] }
{}

/// Each index has a number of its own, and so no other place has an index of its number.
pub fn law_once()
    ensures only { (g : Tables) → HasOnce g → (place : ℕ) → IsOnlyAt g place }
    ensures made { (t : TableData) → (g : Tables) → IsNewGroup t g → HasOnce g }
    ensures born { (b : Base) → IsRightBase b → (es : List Entries) → IsLegal b es → (e : Entries) → MayCome b es e → (g : Tables) → (h : Tables) → (i : Indexes) → (hs : List HeldBatch) → IsTallied b es g hs → HasIndexMore g h i → (id : IndexNumber) → (s : ℕ) → (what : IndexDefinition) → e.act ≡ IndexMade g.table.id id s what → i ≡ made_index (catalogue_of b es).next id s what → HasOnce g → HasOnce h }
    ensures active { (g : Tables) → (h : Tables) → (place : ℕ) → HasActive g h place → HasOnce g → HasOnce h }
    ensures dropped { (g : Tables) → (h : Tables) → (n : ℕ) → HasIndexLess g h n → HasOnce g → HasOnce h }
{}

/// A batch of the table is still to write its rows exactly where the trail has one of which a row isn't written.
pub fn law_pending()
    ensures { (b : Base) → (es : List Entries) → IsLegal b es → (g : Tables) → (hs : List HeldBatch) → IsTallied b es g hs → (has_to_write g ≡ true) ↔ ((s : ℕ) × (y : Batch) × (batch_of g.table.id.0 s es ≡ Some y) × (unwritten y ≢ [])) }
{}
