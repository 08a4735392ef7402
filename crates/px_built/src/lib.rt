//! An index that is built gets all rows: what stays true of it from its birth on, and that it may become active where each row that its table had
//! at the birth was given its base version.
//!
//! Definitions and laws, no code. `IsBuiltBy` ties the entries that tell of base versions (`is_based` of px_calls) to the index's cells. `law_built` says
//! that every step keeps it, and that with it what a definition asks for (`CanActivate` of px_calls) is what the event Ready (px_world) asks for.
#![tactic(auto)]

ghost use Rattle.std.specs.Prelude.{◌≡◌, ◌≢◌, ◌⊎◌, ◌<◌, ◌≤◌, ◌++◌, ◌∷◌, [], ℕ, List, true, length, get_or, None, Some};
ghost use Rattle.px_calls.specs.Requires.{base_step, is_based};
ghost use Rattle.px_forms.specs.Indexes.{IndexForm};
ghost use Rattle.px_groupworld.specs.Group.{GroupData, GroupKept, no_part, shape_in, table_form, world_in};
ghost use Rattle.px_groupworld.specs.Steps.{Bears, Does, Events, at_index, born_data};
ghost use Rattle.px_indexed.specs.Worlds.{row_event};
ghost use Rattle.px_rows.specs.Spelled.{row_form};
ghost use Rattle.px_tables.specs.declared.index.IndexState.TheVariants.{Building as IsBuilding};
ghost use Rattle.px_tables.specs.declared.index.NewIndex.{NewIndex as IndexDefinition};
ghost use Rattle.px_tables.specs.declared.table.Table.{Table as Tables};
ghost use Rattle.px_trail.specs.Batches.{IsDecided, has};
ghost use Rattle.px_trail.specs.States.{state_of};
ghost use Rattle.px_trail.specs.Trail.{Base, horizon_of};
ghost use Rattle.px_trail.specs.declared.entry.Act.TheVariants.{Based, IndexMade, IndexState};
ghost use Rattle.px_trail.specs.declared.entry.Entry.{Entry as Entries};
ghost use Rattle.px_values.specs.declared.name.IndexId.{IndexId as IndexNumber};
ghost use Rattle.px_values.specs.declared.name.TableId.{TableId as TableNumber};
ghost use Rattle.px_values.specs.declared.row.Value.{Value as ColumnValue};
ghost use Rattle.px_world.specs.Events.{Base as BaseVersion, Comes, Ready};
ghost use Rattle.px_built.specs.Built.{IsBuiltBy, IsOfRun};

/// Nothing is known of an index when it is born, and every step keeps what is known: a row is new among those that were given their base versions
/// only where the step is Base of it. Where each row that the table had at the birth is among them, the index may become active.
pub fn law_built()
    ensures opened { (b : Base) → (index : ℕ → IndexForm) → (t : Tables) → (v : GroupData) → (i : ℕ) → IsBuiltBy (table_form b t.id index (row_form t)) [] v i }
    ensures born { (b : Base) → (index : ℕ → IndexForm) → (t : Tables) → (es : List Entries) → (v : GroupData) → (i : ℕ) → (e : Entries) → (of_table : TableNumber) → (id : IndexNumber) → (s : ℕ) → (what : IndexDefinition) → (get_or v.indexes i no_part).id ≡ id.0 → (e.act ≡ IndexMade of_table id s what) ⊎ (e.act ≡ IndexState of_table id IsBuilding s) → IsBuiltBy (table_form b t.id index (row_form t)) (es ++ e ∷ []) v i }
    ensures entry { (es : List Entries) → (e : Entries) → (n : ℕ) → (r : List ColumnValue) → is_based (es ++ e ∷ []) n r ≡ base_step n r (is_based es n r) e.act }
    ensures stays { (b : Base) → (index : ℕ → IndexForm) → (t : Tables) → (es : List Entries) → (v : GroupData) → GroupKept (table_form b t.id index (row_form t)) es v → (ev : Events) → (later : List Entries) → (now : GroupData) → Does (table_form b t.id index (row_form t)) ev es v later now → (i : ℕ) → i < length v.indexes → ((r : List ColumnValue) → IsOfRun (ev i r)) → (get_or now.indexes i no_part).id ≡ (get_or v.indexes i no_part).id → ((r : List ColumnValue) → is_based later (get_or v.indexes i no_part).id r ≡ true → (is_based es (get_or v.indexes i no_part).id r ≡ true) ⊎ (ev i r ≡ Some BaseVersion)) → IsBuiltBy (table_form b t.id index (row_form t)) es v i → IsBuiltBy (table_form b t.id index (row_form t)) later now i }
    ensures based { (b : Base) → (index : ℕ → IndexForm) → (t : Tables) → (es : List Entries) → (v : GroupData) → GroupKept (table_form b t.id index (row_form t)) es v → (e : Entries) → (now : GroupData) → (i : ℕ) → i < length v.indexes → (rows : List (List ColumnValue)) → Does (table_form b t.id index (row_form t)) (λ j r. at_index i j (row_event BaseVersion (has rows r))) es v (es ++ e ∷ []) now → (id : IndexNumber) → e.act ≡ Based id rows → (get_or now.indexes i no_part).id ≡ (get_or v.indexes i no_part).id → IsBuiltBy (table_form b t.id index (row_form t)) es v i → IsBuiltBy (table_form b t.id index (row_form t)) (es ++ e ∷ []) now i }
    ensures moved { (b : Base) → (index : ℕ → IndexForm) → (t : Tables) → (es : List Entries) → (v : GroupData) → (now : GroupData) → (i : ℕ) → (j : ℕ) → now.high ≡ v.high → get_or now.indexes j no_part ≡ get_or v.indexes i no_part → IsBuiltBy (table_form b t.id index (row_form t)) es v i → IsBuiltBy (table_form b t.id index (row_form t)) es now j }
    ensures bears { (b : Base) → (index : ℕ → IndexForm) → (t : Tables) → (es : List Entries) → (v : GroupData) → (number : ℕ) → (s : ℕ) → (later : List Entries) → Bears (table_form b t.id index (row_form t)) number s es v later → (i : ℕ) → i < length v.indexes → ((r : List ColumnValue) → is_based later (get_or v.indexes i no_part).id r ≡ true → is_based es (get_or v.indexes i no_part).id r ≡ true) → IsBuiltBy (table_form b t.id index (row_form t)) es v i → IsBuiltBy (table_form b t.id index (row_form t)) later (born_data number s v) i }
    ensures ready { (b : Base) → (index : ℕ → IndexForm) → (t : Tables) → (es : List Entries) → (v : GroupData) → GroupKept (table_form b t.id index (row_form t)) es v → (i : ℕ) → i < length v.indexes → horizon_of b t.id.0 es ≤ (get_or v.indexes i no_part).birth → IsDecided es t.id.0 (get_or v.indexes i no_part).birth → ((r : List ColumnValue) → state_of b es t.id.0 r (get_or v.indexes i no_part).birth ≢ None → is_based es (get_or v.indexes i no_part).id r ≡ true) → IsBuiltBy (table_form b t.id index (row_form t)) es v i → (r : List ColumnValue) → Comes (shape_in (table_form b t.id index (row_form t)) v i r) (world_in (table_form b t.id index (row_form t)) es v i r) Ready }
{}
