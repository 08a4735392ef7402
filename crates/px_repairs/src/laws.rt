// What a repair leaves true of its table.
ghost use Rattle.std.specs.Prelude.{◌≡◌, ℕ, List, get_or};
ghost use Rattle.px_cells.specs.CellData.{CellData};
ghost use Rattle.px_forms.specs.Indexes.{IndexForm};
ghost use Rattle.px_groupworld.specs.Group.{GroupData, no_part};
ghost use Rattle.px_groupworld.specs.Steps.{at_index, cells_data};
ghost use Rattle.px_indexed.specs.Worlds.{row_event};
ghost use Rattle.px_openbatches.specs.Pending.{HeldBatch};
ghost use Rattle.px_region.specs.Region.{read_of};
ghost use Rattle.px_tablesteps.specs.Kept.{TableSteps};
ghost use Rattle.px_trail.specs.Trail.{Base};
ghost use Rattle.px_trail.specs.declared.entry.Entry.{Entry as Entries};
ghost use Rattle.px_world.specs.Events.{Fix};
ghost use Rattle.px_group.specs.Group.{AreTraced, IsRightGroup, IsShownBy, IsTallied, form_of};
ghost use Rattle.px_group.specs.declared.group.Group.{Group as Tables};
ghost use Rattle.px_reading.specs.Doubts.{IsToldBy};
ghost use Rattle.px_repairs.specs.Repairs.{HandsRepair, IsRepair, WroteRepair};

use px_outside::Disk;

/// A repair is written. The table is right and tallies with the trail, and its batches have what their end needs, also where the disk
/// failed; what it shows goes on by Fix of the row that has the key at that index, and a later repair may rest on it too.
pub fn law_repairs<D: Disk>()
    ensures right { (g : Tables) → (h : Tables) → (old : D) → (new : D) → (place : ℕ) → (k : List ℕ) → (s : ℕ) → (cells : List CellData) → IsRightGroup g → IsRepair g place k s cells → WroteRepair ⟦<D as Disk>⟧ g h old new place cells → IsRightGroup h }
    ensures tallied { (g : Tables) → (h : Tables) → (old : D) → (new : D) → (place : ℕ) → (cells : List CellData) → (b : Base) → (es : List Entries) → (hs : List HeldBatch) → IsTallied b es g hs → HandsRepair ⟦<D as Disk>⟧ g h old new place cells → IsTallied b es h hs }
    ensures traced { (g : Tables) → (h : Tables) → (old : D) → (new : D) → (place : ℕ) → (cells : List CellData) → (es : List Entries) → AreTraced es g → HandsRepair ⟦<D as Disk>⟧ g h old new place cells → AreTraced es h }
    ensures shown { (g : Tables) → (h : Tables) → (old : D) → (new : D) → (place : ℕ) → (k : List ℕ) → (s : ℕ) → (cells : List CellData) → IsRepair g place k s cells → (b : Base) → (index : ℕ → IndexForm) → (es : List Entries) → (v : GroupData) → (hs : List HeldBatch) → IsTallied b es g hs → IsShownBy b index es g v hs → IsToldBy b index es g v → (w : WroteRepair ⟦<D as Disk>⟧ g h old new place cells) → IsShownBy b index es h (cells_data place (read_of w.region) v) hs }
    ensures steps { (g : Tables) → (h : Tables) → (old : D) → (new : D) → (place : ℕ) → (k : List ℕ) → (s : ℕ) → (cells : List CellData) → IsRepair g place k s cells → (b : Base) → (index : ℕ → IndexForm) → (es : List Entries) → (v : GroupData) → (hs : List HeldBatch) → IsTallied b es g hs → IsShownBy b index es g v hs → IsToldBy b index es g v → (w : WroteRepair ⟦<D as Disk>⟧ g h old new place cells) → TableSteps (form_of b index g) (λ i r. at_index place i (row_event (Fix k s) ((index (get_or v.indexes place no_part).id).owns r k))) es v es (cells_data place (read_of w.region) v) hs }
    ensures told { (g : Tables) → (h : Tables) → (old : D) → (new : D) → (place : ℕ) → (k : List ℕ) → (s : ℕ) → (cells : List CellData) → IsRepair g place k s cells → (b : Base) → (index : ℕ → IndexForm) → (es : List Entries) → (v : GroupData) → (hs : List HeldBatch) → IsTallied b es g hs → IsShownBy b index es g v hs → IsToldBy b index es g v → (w : WroteRepair ⟦<D as Disk>⟧ g h old new place cells) → IsToldBy b index es h (cells_data place (read_of w.region) v) }
{}
