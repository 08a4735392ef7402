// How what stands goes on with the trail.
ghost use Rattle.std.specs.Prelude.{◌≡◌, ◌≢◌, ◌↔◌, ◌+◌, ◌<◌, ℕ, List, get_or, length, Some, None};
ghost use Rattle.std.specs.List.{AllByRecursion};
ghost use Rattle.px_calls.specs.Calls.{IsFound};
ghost use Rattle.px_calls.specs.Causes.{HasName, RunsOut, index_count, tables_of as tables_counted};
ghost use Rattle.px_calls.specs.Known.{Known};
ghost use Rattle.px_tables.specs.declared.found.Found.{Found as FoundData};
ghost use Rattle.px_tables.specs.declared.index.Index.{Index as IndexData};
ghost use Rattle.px_tables.specs.declared.index.NewIndex.{NewIndex as IndexDefinition};
ghost use Rattle.px_tables.specs.declared.table.NewTable.{NewTable as TableDefinition};
ghost use Rattle.px_tables.specs.declared.table.Table.{Table as TableData};
ghost use Rattle.px_schema.specs.Counts.{HasNumbers};
ghost use Rattle.px_schema.specs.Stands.{stands_after};
ghost use Rattle.px_schema.specs.declared.item.CatalogItem.TheVariants.{TableIs, IndexIs, TableGone, IndexGone};
ghost use Rattle.px_schema.specs.declared.standing.Standing.{Standing as StandingData};
ghost use Rattle.px_recovery.specs.Tables.{index_in, indexes_of};
ghost use Rattle.px_tables.specs.declared.index.IndexState.TheVariants.{Active};
ghost use Rattle.px_trail.specs.declared.entry.Entry.{Entry};
ghost use Rattle.px_trail.specs.Trail.{Base, Catalogue, IsCatalogue, IsFreeName, catalogue_of, catalogue_step, made_index, made_table, table_of};
ghost use Rattle.px_trail.specs.declared.entry.Act.TheVariants.{Made, IndexMade, IndexState, Dropped};
ghost use Rattle.px_values.specs.declared.name.IndexId.{IndexId as IndexNumber};
ghost use Rattle.px_values.specs.declared.name.TableId.{TableId as TableNumber};
ghost use Rattle.px_standing.specs.Agrees.{Agrees, IsUnused};

/// What stands after a definition is what the trail tells after its entry, and a name is free in both or in neither.
pub fn law_agrees()
    ensures free { (s : StandingData) → (c : Catalogue) → Agrees s c → (name : List ℕ) → IsUnused s name ↔ IsFreeName c name }
    ensures taken { (s : StandingData) → (c : Catalogue) → Agrees s c → (name : List ℕ) → (IsUnused s name → ⊥) → HasName c name }
    ensures table_made { (s : StandingData) → (c : Catalogue) → Agrees s c → IsCatalogue c → (t : TableNumber) → (what : TableDefinition) → t.0 ≡ s.next + length what.least_keys → Agrees (stands_after s (TableIs (made_table s.next t what))) (catalogue_step c (Made t what)) }
    ensures index_made { (s : StandingData) → (c : Catalogue) → Agrees s c → (t : TableNumber) → (i : IndexNumber) → (stamp : ℕ) → (what : IndexDefinition) → i.0 ≡ s.next + 1 → Agrees (stands_after s (IndexIs (made_index s.next i stamp what))) (catalogue_step c (IndexMade t i stamp what)) }
    ensures index_ready { (s : StandingData) → (c : Catalogue) → Agrees s c → (t : TableNumber) → (i : IndexNumber) → (stamp : ℕ) → (x : IndexData) → index_in s.indexes i.0 ≡ Some x → Agrees (stands_after s (IndexIs (record x { state = Active }))) (catalogue_step c (IndexState t i Active stamp)) }
    ensures table_gone { (s : StandingData) → (c : Catalogue) → Agrees s c → (t : TableNumber) → Agrees (stands_after s (TableGone t)) (catalogue_step c (Dropped t None)) }
    ensures index_gone { (s : StandingData) → (c : Catalogue) → Agrees s c → (t : TableNumber) → (i : IndexNumber) → Agrees (stands_after s (IndexGone i)) (catalogue_step c (Dropped t (Some i))) }
{}

/// As many tables and indexes stand as the trail counts, and numbers run out in both.
pub fn law_counts()
    ensures tables { (k : Known) → (s : StandingData) → Agrees s (catalogue_of k.base k.seen) → tables_counted k ≡ length s.tables }
    ensures indexes { (k : Known) → (s : StandingData) → Agrees s (catalogue_of k.base k.seen) → (t : ℕ) → index_count k t ≡ length (indexes_of t s.indexes) }
    ensures numbers { (k : Known) → (s : StandingData) → Agrees s (catalogue_of k.base k.seen) → (count : ℕ) → (HasNumbers s count → ⊥) → RunsOut k count }
{}

/// A table at a place is one that stands; where no table has a name or a number, none that stands has it.
pub fn law_found()
    ensures stands { (b : Base) → (es : List Entry) → (s : StandingData) → Agrees s (catalogue_of b es) → (place : ℕ) → place < length s.tables → (none : TableData) → table_of b es (get_or s.tables place none).id.0 ≡ Some (get_or s.tables place none) }
    ensures found { (b : Base) → (es : List Entry) → (s : StandingData) → Agrees s (catalogue_of b es) → (f : FoundData) → (place : ℕ) → place < length s.tables → ((none : TableData) → f.table ≡ get_or s.tables place none) → f.indexes ≡ indexes_of f.table.id.0 s.indexes → f.at ≡ length es → IsFound b es f }
    ensures unnamed { (b : Base) → (es : List Entry) → (s : StandingData) → Agrees s (catalogue_of b es) → (name : List ℕ) → AllByRecursion (λ (t : TableData). t.name ≢ name) s.tables → (t : ℕ) → (x : TableData) → table_of b es t ≡ Some x → x.name ≢ name }
    ensures lacks { (b : Base) → (es : List Entry) → (s : StandingData) → Agrees s (catalogue_of b es) → (n : ℕ) → AllByRecursion (λ (t : TableData). t.id.0 ≢ n) s.tables → table_of b es n ≡ None }
{}
