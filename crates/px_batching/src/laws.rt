// What the steps of open batches leave true of their table.
ghost use Rattle.std.specs.Prelude.{◌≡◌, ◌<◌, ◌++◌, ◌∷◌, [], ℕ, true, List, Some, slice_get};
ghost use Rattle.px_forms.specs.Indexes.{IndexForm};
ghost use Rattle.px_groupworld.specs.Group.{GroupData, shape_in, world_in};
ghost use Rattle.px_region.specs.Region.{read_of};
ghost use Rattle.px_groupworld.specs.Steps.{at_index, ended_data, no_events, wrote_data};
ghost use Rattle.px_group.specs.Group.{AreTraced, IsRightGroup, IsShownBy, IsTallied, as_phase, form_of};
ghost use Rattle.px_group.specs.declared.group.Begun.{Begun as Batches};
ghost use Rattle.px_group.specs.declared.group.Group.{Group as Tables};
ghost use Rattle.px_group.specs.declared.group.Phase.{Phase as Phases};
ghost use Rattle.px_group.specs.declared.group.Phase.TheVariants.{Closing as InClosing, Writing as InWriting};
ghost use Rattle.px_indexed.specs.Idle.{IsElsewhere};
ghost use Rattle.px_indexed.specs.Worlds.{change_event, row_event};
ghost use Rattle.px_openbatches.specs.Pending.{HeldBatch, held_ended, held_wrote, to_verify};
ghost use Rattle.px_tablesteps.specs.Kept.{TableSteps};
ghost use Rattle.px_trail.specs.Batches.{IsBatchIn, IsConcurrent, change_of, has, rows_of};
ghost use Rattle.px_trail.specs.Legal.{IsLegal, IsWritable, MayCome};
ghost use Rattle.px_trail.specs.Trail.{Base};
ghost use Rattle.px_trail.specs.declared.entry.Act.TheVariants.{Ended, Phase as PhaseDone, Wrote};
ghost use Rattle.px_trail.specs.declared.entry.Entry.{Entry as Entries};
ghost use Rattle.px_values.specs.declared.row.Value.{Value as ColumnValue};
ghost use Rattle.px_world.specs.Closed.{Closed};
ghost use Rattle.px_world.specs.Events.{End, Mark, Verify, Write};
ghost use Rattle.px_batching.specs.Known.{held_marked, held_verified, own_of, shown_marked, shown_verified};
ghost use Rattle.px_batching.specs.Receipts.{IsReceiptOf};
ghost use Rattle.px_batching.specs.Steps.{Ends, FinishesCloses, FinishesMarks, HandsCloses, HandsMarks, HandsPuts, IsBlocked, IsOfSeat, IsUnblocked, LetsGo, StandsInPhase, WaitsFor, WroteCloses, WroteMarks, WrotePuts};
ghost use Rattle.px_batching.specs.declared.ending.Told.{Told as Telling};

use px_outside::Disk;

/// A batch's marks are written to its next index. The trail tells the same, also where the disk failed.
pub fn law_marks<D: Disk>()
    ensures right { (g : Tables) → (h : Tables) → (old : D) → (new : D) → (m : ℕ) → IsRightGroup g → WroteMarks ⟦<D as Disk>⟧ g h old new m → IsRightGroup h }
    ensures tallied { (g : Tables) → (h : Tables) → (old : D) → (new : D) → (m : ℕ) → (b : Base) → (es : List Entries) → (hs : List HeldBatch) → IsTallied b es g hs → HandsMarks ⟦<D as Disk>⟧ g h old new m → IsTallied b es h (held_marked m hs) }
    ensures place { (g : Tables) → (h : Tables) → (old : D) → (new : D) → (m : ℕ) → (b : Base) → (es : List Entries) → (hs : List HeldBatch) → IsTallied b es g hs → (w : HandsMarks ⟦<D as Disk>⟧ g h old new m) → (own_of m hs).done ≡ w.place }
    ensures shown { (g : Tables) → (h : Tables) → (old : D) → (new : D) → (m : ℕ) → IsRightGroup g → (b : Base) → (es : List Entries) → (hs : List HeldBatch) → IsTallied b es g hs → (index : ℕ → IndexForm) → (v : GroupData) → IsShownBy b index es g v hs → (w : WroteMarks ⟦<D as Disk>⟧ g h old new m) → IsShownBy b index es h (shown_marked m hs w.hands.region v) (held_marked m hs) }
    ensures steps { (g : Tables) → (h : Tables) → (old : D) → (new : D) → (m : ℕ) → IsRightGroup g → (b : Base) → (es : List Entries) → (hs : List HeldBatch) → IsTallied b es g hs → (index : ℕ → IndexForm) → (v : GroupData) → IsShownBy b index es g v hs → (w : WroteMarks ⟦<D as Disk>⟧ g h old new m) → TableSteps (form_of b index g) (λ i r. at_index (own_of m hs).done i (change_event (Mark (own_of m hs).stamp) (change_of (own_of m hs).changes r))) es v es (shown_marked m hs w.hands.region v) (held_marked m hs) }
{}

/// All indexes of a batch are marked.
pub fn law_marked()
    ensures right { (g : Tables) → (h : Tables) → (m : ℕ) → IsRightGroup g → FinishesMarks g h m → IsRightGroup h }
    ensures tallied { (g : Tables) → (h : Tables) → (m : ℕ) → IsRightGroup g → (b : Base) → (es : List Entries) → (hs : List HeldBatch) → IsTallied b es g hs → FinishesMarks g h m → (e : Entries) → e.act ≡ PhaseDone g.table.id (own_of m hs).stamp 1 → IsTallied b (es ++ e ∷ []) h hs }
    ensures shown { (g : Tables) → (h : Tables) → (m : ℕ) → IsRightGroup g → (b : Base) → (es : List Entries) → (hs : List HeldBatch) → IsTallied b es g hs → (index : ℕ → IndexForm) → (v : GroupData) → IsShownBy b index es g v hs → FinishesMarks g h m → (e : Entries) → MayCome b es e → e.act ≡ PhaseDone g.table.id (own_of m hs).stamp 1 → IsShownBy b index (es ++ e ∷ []) h v hs }
    ensures steps { (g : Tables) → (h : Tables) → (m : ℕ) → IsRightGroup g → (b : Base) → (es : List Entries) → (hs : List HeldBatch) → IsTallied b es g hs → (index : ℕ → IndexForm) → (v : GroupData) → IsShownBy b index es g v hs → FinishesMarks g h m → (e : Entries) → MayCome b es e → e.act ≡ PhaseDone g.table.id (own_of m hs).stamp 1 → TableSteps (form_of b index g) no_events es v (es ++ e ∷ []) v hs }
{}

/// A batch's rows are written.
pub fn law_writes<D: Disk>()
    ensures right { (g : Tables) → (h : Tables) → (old : D) → (new : D) → (m : ℕ) → IsRightGroup g → WrotePuts ⟦<D as Disk>⟧ g h old new m → IsRightGroup h }
    ensures tallied { (g : Tables) → (h : Tables) → (old : D) → (new : D) → (m : ℕ) → IsRightGroup g → (b : Base) → (es : List Entries) → (hs : List HeldBatch) → IsTallied b es g hs → (w : WrotePuts ⟦<D as Disk>⟧ g h old new m) → (e : Entries) → e.act ≡ Wrote g.table.id (own_of m hs).stamp (rows_of w.hands.batch.batch.changes) → IsTallied b (es ++ e ∷ []) h (held_wrote (own_of m hs).stamp (rows_of w.hands.batch.batch.changes) hs) }
    ensures shown { (g : Tables) → (h : Tables) → (old : D) → (new : D) → (m : ℕ) → IsRightGroup g → (b : Base) → (es : List Entries) → (hs : List HeldBatch) → IsTallied b es g hs → (index : ℕ → IndexForm) → (v : GroupData) → IsShownBy b index es g v hs → (w : WrotePuts ⟦<D as Disk>⟧ g h old new m) → (e : Entries) → MayCome b es e → e.act ≡ Wrote g.table.id (own_of m hs).stamp (rows_of w.hands.batch.batch.changes) → IsShownBy b index (es ++ e ∷ []) h (wrote_data (read_of w.hands.region) v) (held_wrote (own_of m hs).stamp (rows_of w.hands.batch.batch.changes) hs) }
    ensures steps { (g : Tables) → (h : Tables) → (old : D) → (new : D) → (m : ℕ) → IsRightGroup g → (b : Base) → (es : List Entries) → (hs : List HeldBatch) → IsTallied b es g hs → (index : ℕ → IndexForm) → (v : GroupData) → IsShownBy b index es g v hs → (w : WrotePuts ⟦<D as Disk>⟧ g h old new m) → (e : Entries) → MayCome b es e → e.act ≡ Wrote g.table.id (own_of m hs).stamp (rows_of w.hands.batch.batch.changes) → TableSteps (form_of b index g) (λ i r. row_event (Write (own_of m hs).stamp) (has (rows_of w.hands.batch.batch.changes) r)) es v (es ++ e ∷ []) (wrote_data (read_of w.hands.region) v) (held_wrote (own_of m hs).stamp (rows_of w.hands.batch.batch.changes) hs) }
{}

/// A batch's marks are closed at its next index. The trail tells the same, also where the disk failed.
pub fn law_verifies<D: Disk>()
    ensures right { (g : Tables) → (h : Tables) → (old : D) → (new : D) → (m : ℕ) → IsRightGroup g → WroteCloses ⟦<D as Disk>⟧ g h old new m → IsRightGroup h }
    ensures tallied { (g : Tables) → (h : Tables) → (old : D) → (new : D) → (m : ℕ) → (b : Base) → (es : List Entries) → (hs : List HeldBatch) → IsTallied b es g hs → HandsCloses ⟦<D as Disk>⟧ g h old new m → IsTallied b es h (held_verified m hs) }
    ensures place { (g : Tables) → (h : Tables) → (old : D) → (new : D) → (m : ℕ) → (b : Base) → (es : List Entries) → (hs : List HeldBatch) → IsTallied b es g hs → (w : HandsCloses ⟦<D as Disk>⟧ g h old new m) → (own_of m hs).verified ≡ w.place }
    ensures shown { (g : Tables) → (h : Tables) → (old : D) → (new : D) → (m : ℕ) → IsRightGroup g → (b : Base) → (es : List Entries) → (hs : List HeldBatch) → IsTallied b es g hs → (index : ℕ → IndexForm) → (v : GroupData) → IsShownBy b index es g v hs → (w : WroteCloses ⟦<D as Disk>⟧ g h old new m) → IsShownBy b index es h (shown_verified m hs w.hands.region v) (held_verified m hs) }
    ensures steps { (g : Tables) → (h : Tables) → (old : D) → (new : D) → (m : ℕ) → IsRightGroup g → (b : Base) → (es : List Entries) → (hs : List HeldBatch) → IsTallied b es g hs → (index : ℕ → IndexForm) → (v : GroupData) → IsShownBy b index es g v hs → (w : WroteCloses ⟦<D as Disk>⟧ g h old new m) → TableSteps (form_of b index g) (λ i r. at_index (own_of m hs).verified i (row_event (Verify (own_of m hs).stamp) (has (to_verify (own_of m hs)) r))) es v es (shown_verified m hs w.hands.region v) (held_verified m hs) }
{}

/// A batch's marks are closed at all of its indexes.
pub fn law_verified()
    ensures right { (g : Tables) → (h : Tables) → (m : ℕ) → IsRightGroup g → FinishesCloses g h m → IsRightGroup h }
    ensures tallied { (g : Tables) → (h : Tables) → (m : ℕ) → IsRightGroup g → (b : Base) → (es : List Entries) → (hs : List HeldBatch) → IsTallied b es g hs → FinishesCloses g h m → (e : Entries) → e.act ≡ PhaseDone g.table.id (own_of m hs).stamp 3 → IsTallied b (es ++ e ∷ []) h hs }
    ensures shown { (g : Tables) → (h : Tables) → (m : ℕ) → IsRightGroup g → (b : Base) → (es : List Entries) → (hs : List HeldBatch) → IsTallied b es g hs → (index : ℕ → IndexForm) → (v : GroupData) → IsShownBy b index es g v hs → FinishesCloses g h m → (e : Entries) → MayCome b es e → e.act ≡ PhaseDone g.table.id (own_of m hs).stamp 3 → IsShownBy b index (es ++ e ∷ []) h v hs }
    ensures steps { (g : Tables) → (h : Tables) → (m : ℕ) → IsRightGroup g → (b : Base) → (es : List Entries) → (hs : List HeldBatch) → IsTallied b es g hs → (index : ℕ → IndexForm) → (v : GroupData) → IsShownBy b index es g v hs → (e : Entries) → MayCome b es e → e.act ≡ PhaseDone g.table.id (own_of m hs).stamp 3 → TableSteps (form_of b index g) no_events es v (es ++ e ∷ []) v hs }
{}

/// A batch is let go when it ends. `closed`: at each of its indexes the marks are closed of each row that isn't concurrent, once all was
/// verified.
pub fn law_ends()
    ensures right { (g : Tables) → (h : Tables) → (m : ℕ) → (x : Batches) → LetsGo g h m x → IsRightGroup g → IsRightGroup h }
    ensures tallied { (g : Tables) → (h : Tables) → (m : ℕ) → (b : Base) → (es : List Entries) → (hs : List HeldBatch) → IsTallied b es g hs → (x : Batches) → LetsGo g h m x → (e : Entries) → e.act ≡ Ended g.table.id (own_of m hs).stamp → IsTallied b (es ++ e ∷ []) h (held_ended (own_of m hs).stamp hs) }
    ensures shown { (g : Tables) → (h : Tables) → (m : ℕ) → IsRightGroup g → (b : Base) → (es : List Entries) → (hs : List HeldBatch) → IsTallied b es g hs → (index : ℕ → IndexForm) → (v : GroupData) → IsShownBy b index es g v hs → (x : Batches) → LetsGo g h m x → x.batch.marks ≡ [] → (e : Entries) → MayCome b es e → e.act ≡ Ended g.table.id (own_of m hs).stamp → IsShownBy b index (es ++ e ∷ []) h (ended_data (own_of m hs).stamp v) (held_ended (own_of m hs).stamp hs) }
    ensures steps { (g : Tables) → (h : Tables) → (m : ℕ) → IsRightGroup g → (b : Base) → (es : List Entries) → (hs : List HeldBatch) → IsTallied b es g hs → (index : ℕ → IndexForm) → (v : GroupData) → IsShownBy b index es g v hs → (x : Batches) → LetsGo g h m x → x.batch.marks ≡ [] → (e : Entries) → MayCome b es e → e.act ≡ Ended g.table.id (own_of m hs).stamp → TableSteps (form_of b index g) (λ i r. change_event (End (own_of m hs).stamp) (change_of (own_of m hs).changes r)) es v (es ++ e ∷ []) (ended_data (own_of m hs).stamp v) (held_ended (own_of m hs).stamp hs) }
    ensures closed { (g : Tables) → (m : ℕ) → IsRightGroup g → (b : Base) → (es : List Entries) → (hs : List HeldBatch) → IsTallied b es g hs → (index : ℕ → IndexForm) → (v : GroupData) → IsShownBy b index es g v hs → (a : StandsInPhase g m InClosing) → (i : ℕ) → i < a.batch.count → (r : List ColumnValue) → has (rows_of a.batch.batch.changes) r ≡ true → (IsConcurrent es g.table.id.0 a.batch.batch.stamp r → ⊥) → Closed (shape_in (form_of b index g) v i r) (world_in (form_of b index g) es v i r) a.batch.batch.stamp }
{}

/// What its end needs of each open batch stays true whatever becomes of the regions, and with it the receipt is right: its rows are
/// counted, and exactly the concurrent ones are named.
pub fn law_traced<D: Disk>()
    ensures told { (g : Tables) → IsRightGroup g → (b : Base) → (es : List Entries) → (hs : List HeldBatch) → IsTallied b es g hs → AreTraced es g }
    ensures marks { (g : Tables) → (h : Tables) → (old : D) → (new : D) → (m : ℕ) → (es : List Entries) → AreTraced es g → HandsMarks ⟦<D as Disk>⟧ g h old new m → AreTraced es h }
    ensures puts { (g : Tables) → (h : Tables) → (old : D) → (new : D) → (m : ℕ) → (es : List Entries) → AreTraced es g → HandsPuts ⟦<D as Disk>⟧ g h old new m InWriting → AreTraced es h }
    ensures closes { (g : Tables) → (h : Tables) → (old : D) → (new : D) → (m : ℕ) → (es : List Entries) → AreTraced es g → HandsCloses ⟦<D as Disk>⟧ g h old new m → AreTraced es h }
    ensures abandoned { (g : Tables) → (h : Tables) → (m : ℕ) → (es : List Entries) → AreTraced es g → (x : Batches) → LetsGo g h m x → AreTraced es h }
    ensures ended { (g : Tables) → (h : Tables) → (m : ℕ) → (es : List Entries) → AreTraced es g → (x : Batches) → LetsGo g h m x → (e : Entries) → e.act ≡ Ended g.table.id x.batch.stamp → AreTraced (es ++ e ∷ []) h }
    ensures others { (g : Tables) → (es : List Entries) → AreTraced es g → (e : Entries) → IsElsewhere g.table.id e.act → AreTraced (es ++ e ∷ []) g }
    ensures receipt { (g : Tables) → (h : Tables) → (m : ℕ) → (es : List Entries) → AreTraced es g → (told : Telling) → (x : Ends g h m told) → (e : Entries) → e.act ≡ Ended g.table.id x.batch.batch.stamp → IsReceiptOf (es ++ e ∷ []) g.table.id.0 x.batch.batch.stamp told }
{}

/// The trail tells of each open batch what it does next, so the entry of its step may come; rows may be written where no batch blocks
/// them, and a batch that is blocked waits for another.
pub fn law_may()
    ensures stamp { (g : Tables) → (m : ℕ) → (b : Base) → (es : List Entries) → (hs : List HeldBatch) → IsTallied b es g hs → (x : Batches) → slice_get g.batches.items m ≡ Some x → (own_of m hs).stamp ≡ x.batch.stamp }
    ensures phase { (g : Tables) → (m : ℕ) → (b : Base) → (es : List Entries) → (hs : List HeldBatch) → IsTallied b es g hs → (p : Phases) → (a : StandsInPhase g m p) → (seat : ℕ) → IsOfSeat es g.table.id.0 a.batch.batch.stamp seat → IsBatchIn es seat g.table.id.0 a.batch.batch.stamp (as_phase p) }
    ensures writable { (g : Tables) → (m : ℕ) → IsRightGroup g → (b : Base) → (es : List Entries) → IsLegal b es → (hs : List HeldBatch) → IsTallied b es g hs → (a : StandsInPhase g m InWriting) → IsUnblocked g m → (seat : ℕ) → IsOfSeat es g.table.id.0 a.batch.batch.stamp seat → IsWritable es seat g.table.id.0 a.batch.batch.stamp (rows_of a.batch.batch.changes) }
    ensures waits { (g : Tables) → (m : ℕ) → IsRightGroup g → (b : Base) → (es : List Entries) → (hs : List HeldBatch) → IsTallied b es g hs → (a : StandsInPhase g m InWriting) → (s : ℕ) → IsBlocked g m s → WaitsFor es g.table.id.0 a.batch.batch.stamp s }
{}
