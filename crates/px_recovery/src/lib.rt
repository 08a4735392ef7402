//! What the folder of a server stands for at each moment of a run: its catalogue and its regions, each a part with files of its own, and
//! the trail that tells them. An image that a stop leaves stands for the trail (`StandsAfter`), the disk of a running server for what it goes
//! on from (`FolderGoesOn`), and `IsServer` is what stays true of it. `law_regions` and `law_definitions` are the calls on one part, `law_tables` the
//! steps of a table, `law_server` those of a server; `law_tells` and `law_sound` are what the next run begins with.
//! Definitions and laws, no code.
#![tactic(auto)]

ghost use Rattle.std.specs.Prelude.{◌≡◌, ◌≢◌, ◌<◌, ◌≤◌, ◌⊎◌, ◌++◌, ◌∷◌, [], ℕ, true, false, List, length, get_or, Some, ◌+◌, suc, IsTrue, None, Option};
ghost use Rattle.std.proofs.Math.ListN.{set};
ghost use Rattle.px_outside.specs.Disk.{Image};
ghost use Rattle.px_outside.specs.OnDisk.{LeavesOnly, TouchesOnly, IsLeft, Stays};
ghost use Rattle.px_outside.specs.Parts.{with_part};
ghost use Rattle.px_outside.specs.Standing.{StandsIn};
ghost use Rattle.px_cells.specs.CellData.{CellData};
ghost use Rattle.px_cells.specs.Contents.{value_at};
ghost use Rattle.px_cells.specs.Order.{ReadsSame};
ghost use Rattle.px_merge.specs.Kept.{IsKeptList};
ghost use Rattle.px_tables.specs.declared.index.Index.{Index};
ghost use Rattle.px_tables.specs.declared.table.Table.{Table};
ghost use Rattle.px_tables.specs.declared.table.TableRegion.{TableRegion};
ghost use Rattle.px_trail.specs.declared.entry.Act.TheVariants.{Dropped, IndexMade, IndexState, Made, Shut};
ghost use Rattle.px_trail.specs.declared.entry.Entry.{Entry as Entries};
ghost use Rattle.px_trail.specs.Lasting.{lasting};
ghost use Rattle.px_trail.specs.Legal.{MayCome, is_after_shut};
ghost use Rattle.px_trail.specs.Trail.{Base, catalogue_of, horizon_of, last_of, closing_step, IsRightBase, made_index, made_table};
ghost use Rattle.px_groupworld.specs.Group.{GroupData, GroupKept, no_part};
ghost use Rattle.px_groupworld.specs.Steps.{born_data, ready_data, with_cells};
ghost use Rattle.px_wal.specs.Files.{HasFile};
ghost use Rattle.px_region.specs.Region.{RegionData, RegionStands, with_batch};
ghost use Rattle.px_recovery.specs.Folder.{FolderData, StandsFor, StandsOn, with_region, IsKeptPart, with_standing, AreUnmade};
ghost use Rattle.px_recovery.specs.Stands.{Explains, StandsAfter, AreNumbered, GoesOnBy, TellsCatalogue};
ghost use Rattle.px_recovery.specs.Tables.{AreInRegion, IsRegionAmong, form_of_table, indexes_of, table_in, table_files, index_files, index_in, without_index};
ghost use Rattle.px_values.specs.declared.row.Value.{Value as ColumnValue};
ghost use Rattle.px_trail.specs.States.{state_of};
ghost use Rattle.px_indexed.specs.Idle.{IsElsewhere};
ghost use Rattle.px_tablefolder.specs.Folder.{folder_high, folder_last, IsFilesOf};
ghost use Rattle.px_recovery.specs.Base.{IsSound, IsSoundFolder, base_of};
ghost use Rattle.px_schema.specs.declared.standing.Standing.{Standing};
ghost use Rattle.px_catalog.specs.Catalogue.{CatalogueStands, catalogue_files};
ghost use Rattle.px_recovery.specs.Kept.{FolderGoesOn, IsServer, LeavesFolder, MovesFolder};
ghost use Rattle.px_values.specs.declared.name.TableId.{TableId as TableNumber};
ghost use Rattle.px_schema.specs.Stands.{stands_after};
ghost use Rattle.px_schema.specs.declared.item.CatalogItem.TheVariants.{IndexGone, IndexIs, TableGone, TableIs};
ghost use Rattle.px_tables.specs.declared.table.NewTable.{NewTable as TableDefinition};
ghost use Rattle.px_groupworld.specs.Sound.{made_data};
ghost use Rattle.px_values.specs.declared.name.IndexId.{IndexId as IndexNumber};
ghost use Rattle.px_tables.specs.declared.index.NewIndex.{NewIndex as IndexDefinition};
ghost use Rattle.px_tables.specs.declared.index.IndexState.TheVariants.{Active};

use px_outside::Disk;

/// What a server's run begins with, and what its own parts, its catalogue and its groups, have where they go on from a folder.
pub trait Serves<D> {
    ghost use Rattle.std.specs.Prelude.{ℕ, List};
    ghost use Rattle.px_trail.specs.declared.entry.Entry.{Entry};
    ghost use Rattle.px_trail.specs.Trail.{Base};
    ghost use Rattle.px_groupworld.specs.Group.{GroupData};
    ghost use Rattle.px_recovery.specs.Folder.{FolderData};

    ghost base: { Base };

    /// No call was made, nothing is pending, and the first image is sound: of other disks nothing is promised.
    ghost premise: { Type 0 };

    ghost has: { D → List Entry → FolderData → (ℕ → GroupData) → Type 0 };
}

/// An entry that doesn't last leaves what an image stands for; and one that is told in the place where the server was closed is
/// told as well behind that, and behind what may still come then.
pub fn law_entries()
    ensures quiet { (b : Base) → (es : List Entries) → (e : Entries) → (image : Image) → MayCome b es e → lasting e ≡ false → StandsAfter b es image → StandsAfter b (es ++ e ∷ []) image }
    ensures late { (b : Base) → (es : List Entries) → (e : Entries) → (u : Entries) → (image : Image) → is_after_shut e.act ≡ true → StandsAfter b (es ++ u ∷ []) image → StandsAfter b ((es ++ e ∷ []) ++ u ∷ []) image }
    ensures shut { (b : Base) → (es : List Entries) → (e : Entries) → (u : Entries) → (image : Image) → (call : ℕ) → e.act ≡ Shut call → StandsAfter b (es ++ u ∷ []) image → StandsAfter b ((es ++ e ∷ []) ++ u ∷ []) image }
{}

/// Calls on the files of one region leave the folder as it was, or with the region's other contents, and so does the disk after
/// them; no file of a region that is still to be made gets a byte.
pub fn law_regions<D: Disk>()
    ensures moves { (old : D) → (new : D) → (f : FolderData) → StandsOn ⟦<D as Disk>⟧ old f → (n : ℕ) → 1 ≤ n → n < f.standing.next → (s : RegionData) → TouchesOnly ⟦<D as Disk>⟧ old new (HasFile n) → LeavesOnly ⟦<D as Disk>⟧ old new (λ moment image. RegionStands n image (f.regions n) ⊎ RegionStands n image s) → LeavesOnly ⟦<D as Disk>⟧ old new (λ moment image. StandsFor image f ⊎ StandsFor image (with_region n s f)) }
    ensures moved { (old : D) → (new : D) → (f : FolderData) → StandsOn ⟦<D as Disk>⟧ old f → (n : ℕ) → 1 ≤ n → n < f.standing.next → (s : RegionData) → TouchesOnly ⟦<D as Disk>⟧ old new (HasFile n) → StandsIn ⟦<D as Disk>⟧ new (HasFile n) (λ image. RegionStands n image s) → StandsOn ⟦<D as Disk>⟧ new (with_region n s f) }
    ensures stays { (old : D) → (new : D) → (f : FolderData) → StandsOn ⟦<D as Disk>⟧ old f → (n : ℕ) → 1 ≤ n → n < f.standing.next → TouchesOnly ⟦<D as Disk>⟧ old new (HasFile n) → LeavesOnly ⟦<D as Disk>⟧ old new (λ moment image. RegionStands n image (f.regions n)) → LeavesOnly ⟦<D as Disk>⟧ old new (λ moment image. StandsFor image f) }
    ensures kept { (old : D) → (new : D) → (f : FolderData) → StandsOn ⟦<D as Disk>⟧ old f → (n : ℕ) → 1 ≤ n → n < f.standing.next → TouchesOnly ⟦<D as Disk>⟧ old new (HasFile n) → StandsIn ⟦<D as Disk>⟧ new (HasFile n) (λ image. RegionStands n image (f.regions n)) → StandsOn ⟦<D as Disk>⟧ new f }
{}

/// A step of one table after which the folder is told: of its open batches and its horizon, with a batch in one region of its rows or in
/// that of one of its indexes, or when one of them has forgotten at a horizon. All other tables go on as they were.
pub fn law_tables()
    ensures none { (b : Base) → (es : List Entries) → (f : FolderData) → (v : ℕ → GroupData) → Explains b es f v → (t : ℕ) → GoesOnBy b es es f v t }
    ensures entry { (b : Base) → (es : List Entries) → (f : FolderData) → (v : ℕ → GroupData) → Explains b es f v → (t : ℕ) → (e : Entries) → MayCome b es e → catalogue_of b (es ++ e ∷ []) ≡ catalogue_of b es → ((q : ℕ) → (y : Table) → q ≢ t → table_in f.standing.tables q ≡ Some y → IsElsewhere y.id e.act) → GoesOnBy b es (es ++ e ∷ []) f v t }
    ensures noted { (b : Base) → (es : List Entries) → (more : List Entries) → (f : FolderData) → (v : ℕ → GroupData) → Explains b es f v → (t : ℕ) → GoesOnBy b es more f v t → (x : Table) → table_in f.standing.tables t ≡ Some x → (w : GroupData) → GroupKept (form_of_table b f.standing.indexes x) more w → (v t).high ≤ w.high → w.low ≡ (v t).low → w.cells ≡ (v t).cells → w.indexes ≡ (v t).indexes → Explains b more f (with_part v t w) }
    ensures rows { (b : Base) → (es : List Entries) → (more : List Entries) → (f : FolderData) → (v : ℕ → GroupData) → Explains b es f v → (t : ℕ) → GoesOnBy b es more f v t → (x : Table) → table_in f.standing.tables t ≡ Some x → (w : GroupData) → GroupKept (form_of_table b f.standing.indexes x) more w → (v t).high ≤ w.high → w.low ≡ (v t).low → (n : ℕ) → (batch : List CellData) → IsRegionAmong n x.regions → AreInRegion x n batch → ReadsSame w.cells (batch ++ (v t).cells) → w.indexes ≡ (v t).indexes → Explains b more (with_region n (with_batch (f.regions n) batch) f) (with_part v t w) }
    ensures index { (b : Base) → (es : List Entries) → (more : List Entries) → (f : FolderData) → (v : ℕ → GroupData) → Explains b es f v → (t : ℕ) → GoesOnBy b es more f v t → (x : Table) → table_in f.standing.tables t ≡ Some x → (w : GroupData) → GroupKept (form_of_table b f.standing.indexes x) more w → (v t).high ≤ w.high → w.low ≡ (v t).low → (n : ℕ) → (batch : List CellData) → (place : ℕ) → (i : Index) → place < length (indexes_of x.id.0 f.standing.indexes) → get_or (indexes_of x.id.0 f.standing.indexes) place i ≡ i → i.region ≡ n → (j : ℕ) → j < length (v t).indexes → (get_or (v t).indexes j no_part).id ≡ i.id.0 → value_at (get_or (v t).indexes j no_part).cells ≡ value_at (f.regions n).cells → (cells : List CellData) → ReadsSame cells (batch ++ (get_or (v t).indexes j no_part).cells) → w.cells ≡ (v t).cells → w.indexes ≡ set (v t).indexes j (with_cells cells (get_or (v t).indexes j no_part)) → Explains b more (with_region n (with_batch (f.regions n) batch) f) (with_part v t w) }
    ensures forgot_rows { (b : Base) → (es : List Entries) → (more : List Entries) → (f : FolderData) → (v : ℕ → GroupData) → Explains b es f v → (t : ℕ) → GoesOnBy b es more f v t → (x : Table) → table_in f.standing.tables t ≡ Some x → (w : GroupData) → GroupKept (form_of_table b f.standing.indexes x) more w → (v t).high ≤ w.high → (g : TableRegion) → x.regions ≡ g ∷ [] → (h : ℕ) → (cells : List CellData) → IsKeptList (f.regions g.number).cells h cells → w.low ≡ h → ReadsSame w.cells cells → w.indexes ≡ (v t).indexes → Explains b more (with_region g.number (record { cells = cells; horizon = h }) f) (with_part v t w) }
    ensures forgot_index { (b : Base) → (es : List Entries) → (more : List Entries) → (f : FolderData) → (v : ℕ → GroupData) → Explains b es f v → (t : ℕ) → GoesOnBy b es more f v t → (x : Table) → table_in f.standing.tables t ≡ Some x → (w : GroupData) → GroupKept (form_of_table b f.standing.indexes x) more w → (v t).high ≤ w.high → w.low ≡ (v t).low → (n : ℕ) → (place : ℕ) → (i : Index) → place < length (indexes_of x.id.0 f.standing.indexes) → get_or (indexes_of x.id.0 f.standing.indexes) place i ≡ i → i.region ≡ n → (j : ℕ) → j < length (v t).indexes → (get_or (v t).indexes j no_part).id ≡ i.id.0 → (h : ℕ) → (cells : List CellData) → (read : List CellData) → ReadsSame read cells → w.cells ≡ (v t).cells → w.indexes ≡ set (v t).indexes j (record (get_or (v t).indexes j no_part) { cells = read; horizon = h }) → Explains b more (with_region n (record { cells = cells; horizon = h }) f) (with_part v t w) }
{}

/// A definition or a drop after which the folder is told: a table is made, or dropped with its indexes; an index is made, becomes active, or is dropped.
pub fn law_catalogue()
    ensures table_made { (b : Base) → IsRightBase b → (es : List Entries) → (f : FolderData) → AreUnmade f → (v : ℕ → GroupData) → Explains b es f v → (e : Entries) → MayCome b es e → (t : TableNumber) → (what : TableDefinition) → e.act ≡ Made t what → Explains b (es ++ e ∷ []) (with_standing (stands_after f.standing (TableIs (made_table f.standing.next t what))) f) (with_part v t.0 made_data) }
    ensures index_made { (b : Base) → (es : List Entries) → (f : FolderData) → AreUnmade f → (v : ℕ → GroupData) → Explains b es f v → (e : Entries) → MayCome b es e → (t : TableNumber) → (i : IndexNumber) → (stamp : ℕ) → (what : IndexDefinition) → e.act ≡ IndexMade t i stamp what → (x : Table) → table_in f.standing.tables t.0 ≡ Some x → Explains b (es ++ e ∷ []) (with_standing (stands_after f.standing (IndexIs (made_index f.standing.next i stamp what))) f) (with_part v t.0 (born_data i.0 stamp (v t.0))) }
    ensures index_ready { (b : Base) → (es : List Entries) → (f : FolderData) → (v : ℕ → GroupData) → Explains b es f v → (e : Entries) → MayCome b es e → (t : TableNumber) → (i : IndexNumber) → (stamp : ℕ) → e.act ≡ IndexState t i Active stamp → (x : Table) → table_in f.standing.tables t.0 ≡ Some x → (z : Index) → index_in f.standing.indexes i.0 ≡ Some z → z.table.0 ≡ t.0 → (j : ℕ) → j < length (v t.0).indexes → (get_or (v t.0).indexes j no_part).id ≡ i.0 → IsFilesOf (record (get_or (v t.0).indexes j no_part) { is_built = true }) (index_files f.regions (record z { state = Active })) → GroupKept (form_of_table b f.standing.indexes x) (es ++ e ∷ []) (ready_data j (v t.0)) → Explains b (es ++ e ∷ []) (with_standing (stands_after f.standing (IndexIs (record z { state = Active }))) f) (with_part v t.0 (ready_data j (v t.0))) }
    ensures index_gone { (b : Base) → (es : List Entries) → (f : FolderData) → (v : ℕ → GroupData) → Explains b es f v → (e : Entries) → MayCome b es e → (t : TableNumber) → (i : IndexNumber) → e.act ≡ Dropped t (Some i) → (x : Table) → table_in f.standing.tables t.0 ≡ Some x → (z : Index) → index_in f.standing.indexes i.0 ≡ Some z → z.table.0 ≡ t.0 → (v t.0).opens ≡ [] → Explains b (es ++ e ∷ []) (with_standing (stands_after f.standing (IndexGone i)) f) (with_part v t.0 (without_index i.0 (v t.0))) }
    ensures table_gone { (b : Base) → (es : List Entries) → (f : FolderData) → (v : ℕ → GroupData) → Explains b es f v → (e : Entries) → MayCome b es e → (t : TableNumber) → e.act ≡ Dropped t None → Explains b (es ++ e ∷ []) (with_standing (stands_after f.standing (TableGone t)) f) v }
{}

/// The regions of a table's rows and of the indexes that stand have numbers that were drawn.
pub fn law_numbers()
    ensures rows { (s : Standing) → AreNumbered s → (t : ℕ) → (n : ℕ) → (x : Table) → table_in s.tables t ≡ Some x → IsRegionAmong n x.regions → (1 ≤ n) × (n < s.next) }
    ensures index { (s : Standing) → AreNumbered s → (t : ℕ) → (place : ℕ) → (i : Index) → place < length (indexes_of t s.indexes) → get_or (indexes_of t s.indexes) place i ≡ i → (1 ≤ i.region) × (i.region < s.next) }
{}

/// What an image tells that stands for a trail: its tables and indexes, the states of its rows from the data horizon on, no horizon above
/// the trail's, and no last stamp that the trail doesn't have.
pub fn law_tells()
    ensures catalogue { (b : Base) → (es : List Entries) → (image : Image) → (s : StandsAfter b es image) → TellsCatalogue s.folder.standing (catalogue_of b es) }
    ensures states { (b : Base) → (es : List Entries) → (image : Image) → (s : StandsAfter b es image) → (x : Table) → table_in s.folder.standing.tables x.id.0 ≡ Some x → (r : List ColumnValue) → (p : ℕ) → (table_files s.folder x).horizon ≤ p → state_of (base_of s.folder) [] x.id.0 r p ≡ state_of b es x.id.0 r p }
    ensures horizon { (b : Base) → (es : List Entries) → (image : Image) → (s : StandsAfter b es image) → (x : Table) → table_in s.folder.standing.tables x.id.0 ≡ Some x → folder_high (table_files s.folder x) ≤ horizon_of b x.id.0 es }
    ensures last { (b : Base) → (es : List Entries) → (image : Image) → (s : StandsAfter b es image) → (x : Table) → table_in s.folder.standing.tables x.id.0 ≡ Some x → folder_last (table_files s.folder x) ≤ last_of b x.id.0 es }
{}

/// The premise goes round: an image that stands for a trail is sound, and a sound image stands for the empty trail over its own base. An
/// image without a byte is sound.
pub fn law_sound()
    ensures nothing { (image : Image) → ((file : ℕ) → image file ≡ []) → IsSound image }
    ensures sound { (b : Base) → (es : List Entries) → (image : Image) → StandsAfter b es image → IsSound image }
    ensures stands { (f : FolderData) → (image : Image) → StandsFor image f → IsSoundFolder f → StandsAfter (base_of f) [] image }
{}

/// Calls on the files of the catalogue leave the folder as it was, or with other definitions; a region that is drawn with them has
/// nothing yet.
pub fn law_definitions<D: Disk>()
    ensures moves { (old : D) → (new : D) → (f : FolderData) → StandsOn ⟦<D as Disk>⟧ old f → 1 ≤ f.standing.next → TouchesOnly ⟦<D as Disk>⟧ old new catalogue_files → (s : Standing) → f.standing.next ≤ s.next → ((n : ℕ) → IsKeptPart s (suc n) → IsKeptPart f.standing (suc n) ⊎ (f.standing.next ≤ suc n)) → LeavesOnly ⟦<D as Disk>⟧ old new (λ moment image. CatalogueStands image f.standing ⊎ CatalogueStands image s) → LeavesOnly ⟦<D as Disk>⟧ old new (λ moment image. StandsFor image f ⊎ StandsFor image (with_standing s f)) }
    ensures moved { (old : D) → (new : D) → (f : FolderData) → StandsOn ⟦<D as Disk>⟧ old f → 1 ≤ f.standing.next → TouchesOnly ⟦<D as Disk>⟧ old new catalogue_files → (s : Standing) → f.standing.next ≤ s.next → ((n : ℕ) → IsKeptPart s (suc n) → IsKeptPart f.standing (suc n) ⊎ (f.standing.next ≤ suc n)) → StandsIn ⟦<D as Disk>⟧ new catalogue_files (λ image. CatalogueStands image s) → StandsOn ⟦<D as Disk>⟧ new (with_standing s f) }
    ensures stays { (old : D) → (new : D) → (f : FolderData) → StandsOn ⟦<D as Disk>⟧ old f → 1 ≤ f.standing.next → TouchesOnly ⟦<D as Disk>⟧ old new catalogue_files → LeavesOnly ⟦<D as Disk>⟧ old new (λ moment image. CatalogueStands image f.standing) → LeavesOnly ⟦<D as Disk>⟧ old new (λ moment image. StandsFor image f) }
    ensures kept { (old : D) → (new : D) → (f : FolderData) → StandsOn ⟦<D as Disk>⟧ old f → 1 ≤ f.standing.next → TouchesOnly ⟦<D as Disk>⟧ old new catalogue_files → StandsIn ⟦<D as Disk>⟧ new catalogue_files (λ image. CatalogueStands image f.standing) → StandsOn ⟦<D as Disk>⟧ new f }
{}

/// What is true of a server stays so: opening and reads, an entry alone, calls that leave what stands, calls of which one failed with
/// nothing or with an entry under way, and calls of which an entry came that lasts.
pub fn law_server<D: Disk, S: Serves<D>>()
    ensures opened { (old : D) → (new : D) → (S.premise → D.calls old ≡ 0) → Stays ⟦<D as Disk>⟧ old new → (S.premise → (image : Image) → IsLeft ⟦<D as Disk>⟧ old (D.calls old) image → StandsAfter S.base [] image) → (S.premise → IsTrue D.tells → FolderGoesOn ⟦<D as Disk>⟧ S.base S.has new []) → IsServer ⟦<D as Disk>⟧ S.base S.premise S.has new [] None None }
    ensures read { (old : D) → (es : List Entries) → (late : Option Entries) → (closed : Option ℕ) → IsServer ⟦<D as Disk>⟧ S.base S.premise S.has old es late closed → (new : D) → Stays ⟦<D as Disk>⟧ old new → (S.premise → IsTrue D.tells → FolderGoesOn ⟦<D as Disk>⟧ S.base S.has old es → FolderGoesOn ⟦<D as Disk>⟧ S.base S.has new es) → IsServer ⟦<D as Disk>⟧ S.base S.premise S.has new es late closed }
    ensures noted { (old : D) → (es : List Entries) → (late : Option Entries) → (closed : Option ℕ) → IsServer ⟦<D as Disk>⟧ S.base S.premise S.has old es late closed → (e : Entries) → e.calls ≡ D.calls old → lasting e ≡ false → (S.premise → IsTrue D.tells → MayCome S.base es e) → closing_step closed e.act ≡ closed → (closed ≡ None → S.premise → IsTrue D.tells → FolderGoesOn ⟦<D as Disk>⟧ S.base S.has old es → FolderGoesOn ⟦<D as Disk>⟧ S.base S.has old (es ++ e ∷ [])) → IsServer ⟦<D as Disk>⟧ S.base S.premise S.has old (es ++ e ∷ []) late closed }
    ensures kept { (old : D) → (es : List Entries) → (late : Option Entries) → (closed : Option ℕ) → IsServer ⟦<D as Disk>⟧ S.base S.premise S.has old es late closed → closed ≡ None → (new : D) → D.calls old ≤ D.calls new → (S.premise → IsTrue D.tells → (moment : ℕ) → (image : Image) → moment < D.calls old → IsLeft ⟦<D as Disk>⟧ new moment image → IsLeft ⟦<D as Disk>⟧ old moment image) → (FolderGoesOn ⟦<D as Disk>⟧ S.base S.has old es → (moment : ℕ) → (image : Image) → D.calls old ≤ moment → IsLeft ⟦<D as Disk>⟧ new moment image → StandsAfter S.base es image) → (S.premise → IsTrue D.tells → FolderGoesOn ⟦<D as Disk>⟧ S.base S.has old es → FolderGoesOn ⟦<D as Disk>⟧ S.base S.has new es) → IsServer ⟦<D as Disk>⟧ S.base S.premise S.has new es late closed }
    ensures stopped { (old : D) → (es : List Entries) → (late : Option Entries) → (closed : Option ℕ) → IsServer ⟦<D as Disk>⟧ S.base S.premise S.has old es late closed → closed ≡ None → (new : D) → D.calls old ≤ D.calls new → (S.premise → IsTrue D.tells → (moment : ℕ) → (image : Image) → moment < D.calls old → IsLeft ⟦<D as Disk>⟧ new moment image → IsLeft ⟦<D as Disk>⟧ old moment image) → (shut : Entries) → (call : ℕ) → shut.act ≡ Shut call → shut.calls ≡ D.calls new → (FolderGoesOn ⟦<D as Disk>⟧ S.base S.has old es → (moment : ℕ) → (image : Image) → D.calls old ≤ moment → IsLeft ⟦<D as Disk>⟧ new moment image → StandsAfter S.base es image) → IsServer ⟦<D as Disk>⟧ S.base S.premise S.has new (es ++ shut ∷ []) None (Some call) }
    ensures late { (old : D) → (es : List Entries) → (late : Option Entries) → (closed : Option ℕ) → IsServer ⟦<D as Disk>⟧ S.base S.premise S.has old es late closed → closed ≡ None → (new : D) → D.calls old ≤ D.calls new → (S.premise → IsTrue D.tells → (moment : ℕ) → (image : Image) → moment < D.calls old → IsLeft ⟦<D as Disk>⟧ new moment image → IsLeft ⟦<D as Disk>⟧ old moment image) → (shut : Entries) → (call : ℕ) → shut.act ≡ Shut call → shut.calls ≡ D.calls new → D.calls new ≤ D.calls old + 4 → (u : Entries) → lasting u ≡ true → u.calls ≡ D.calls new → (S.premise → IsTrue D.tells → MayCome S.base es u) → (FolderGoesOn ⟦<D as Disk>⟧ S.base S.has old es → (moment : ℕ) → (image : Image) → D.calls old ≤ moment → IsLeft ⟦<D as Disk>⟧ new moment image → StandsAfter S.base es image ⊎ StandsAfter S.base (es ++ u ∷ []) image) → IsServer ⟦<D as Disk>⟧ S.base S.premise S.has new (es ++ shut ∷ []) (Some u) (Some call) }
    ensures step { (old : D) → (es : List Entries) → (late : Option Entries) → (closed : Option ℕ) → IsServer ⟦<D as Disk>⟧ S.base S.premise S.has old es late closed → closed ≡ None → (new : D) → D.calls old ≤ D.calls new → (S.premise → IsTrue D.tells → (moment : ℕ) → (image : Image) → moment < D.calls old → IsLeft ⟦<D as Disk>⟧ new moment image → IsLeft ⟦<D as Disk>⟧ old moment image) → D.calls new ≤ D.calls old + 4 → (e : Entries) → lasting e ≡ true → e.calls ≡ D.calls new → (S.premise → IsTrue D.tells → MayCome S.base es e) → closing_step None e.act ≡ None → (FolderGoesOn ⟦<D as Disk>⟧ S.base S.has old es → (moment : ℕ) → (image : Image) → D.calls old ≤ moment → IsLeft ⟦<D as Disk>⟧ new moment image → StandsAfter S.base es image ⊎ StandsAfter S.base (es ++ e ∷ []) image) → (S.premise → IsTrue D.tells → FolderGoesOn ⟦<D as Disk>⟧ S.base S.has old es → FolderGoesOn ⟦<D as Disk>⟧ S.base S.has new (es ++ e ∷ [])) → IsServer ⟦<D as Disk>⟧ S.base S.premise S.has new (es ++ e ∷ []) late closed }
{}

/// The same of calls that leave the folder or another one (`law_regions`, `law_definitions`) that is told (`law_tables`, `law_catalogue`): with
/// the entry that lasts, with no entry, and with a failed call, where that entry is late or nothing was under way.
pub fn law_steps<D: Disk, S: Serves<D>>()
    ensures wrote { (old : D) → (es : List Entries) → (late : Option Entries) → (closed : Option ℕ) → IsServer ⟦<D as Disk>⟧ S.base S.premise S.has old es late closed → closed ≡ None → (new : D) → D.calls old ≤ D.calls new → (S.premise → IsTrue D.tells → (moment : ℕ) → (image : Image) → moment < D.calls old → IsLeft ⟦<D as Disk>⟧ new moment image → IsLeft ⟦<D as Disk>⟧ old moment image) → D.calls new ≤ D.calls old + 4 → (e : Entries) → lasting e ≡ true → e.calls ≡ D.calls new → (S.premise → IsTrue D.tells → MayCome S.base es e) → closing_step None e.act ≡ None → ((goes : FolderGoesOn ⟦<D as Disk>⟧ S.base S.has old es) → MovesFolder ⟦<D as Disk>⟧ S.base S.has old new (es ++ e ∷ []) goes.folder) → IsServer ⟦<D as Disk>⟧ S.base S.premise S.has new (es ++ e ∷ []) late closed }
    ensures marked { (old : D) → (es : List Entries) → (late : Option Entries) → (closed : Option ℕ) → IsServer ⟦<D as Disk>⟧ S.base S.premise S.has old es late closed → closed ≡ None → (new : D) → D.calls old ≤ D.calls new → (S.premise → IsTrue D.tells → (moment : ℕ) → (image : Image) → moment < D.calls old → IsLeft ⟦<D as Disk>⟧ new moment image → IsLeft ⟦<D as Disk>⟧ old moment image) → ((goes : FolderGoesOn ⟦<D as Disk>⟧ S.base S.has old es) → MovesFolder ⟦<D as Disk>⟧ S.base S.has old new es goes.folder) → IsServer ⟦<D as Disk>⟧ S.base S.premise S.has new es late closed }
    ensures late { (old : D) → (es : List Entries) → (late : Option Entries) → (closed : Option ℕ) → IsServer ⟦<D as Disk>⟧ S.base S.premise S.has old es late closed → closed ≡ None → (new : D) → D.calls old ≤ D.calls new → (S.premise → IsTrue D.tells → (moment : ℕ) → (image : Image) → moment < D.calls old → IsLeft ⟦<D as Disk>⟧ new moment image → IsLeft ⟦<D as Disk>⟧ old moment image) → (shut : Entries) → (call : ℕ) → shut.act ≡ Shut call → shut.calls ≡ D.calls new → D.calls new ≤ D.calls old + 4 → (u : Entries) → lasting u ≡ true → u.calls ≡ D.calls new → (S.premise → IsTrue D.tells → MayCome S.base es u) → ((goes : FolderGoesOn ⟦<D as Disk>⟧ S.base S.has old es) → LeavesFolder ⟦<D as Disk>⟧ S.base old new (es ++ u ∷ []) goes.folder) → IsServer ⟦<D as Disk>⟧ S.base S.premise S.has new (es ++ shut ∷ []) (Some u) (Some call) }
    ensures stopped { (old : D) → (es : List Entries) → (late : Option Entries) → (closed : Option ℕ) → IsServer ⟦<D as Disk>⟧ S.base S.premise S.has old es late closed → closed ≡ None → (new : D) → D.calls old ≤ D.calls new → (S.premise → IsTrue D.tells → (moment : ℕ) → (image : Image) → moment < D.calls old → IsLeft ⟦<D as Disk>⟧ new moment image → IsLeft ⟦<D as Disk>⟧ old moment image) → (shut : Entries) → (call : ℕ) → shut.act ≡ Shut call → shut.calls ≡ D.calls new → ((goes : FolderGoesOn ⟦<D as Disk>⟧ S.base S.has old es) → LeavesFolder ⟦<D as Disk>⟧ S.base old new es goes.folder) → IsServer ⟦<D as Disk>⟧ S.base S.premise S.has new (es ++ shut ∷ []) None (Some call) }
{}
