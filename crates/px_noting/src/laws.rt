// What entries alone leave of a group.
ghost use Rattle.std.specs.Prelude.{◌≡◌, ◌++◌, ◌∷◌, [], ℕ, Bool, List};
ghost use Rattle.px_forms.specs.Indexes.{IndexForm};
ghost use Rattle.px_group.specs.declared.group.Group.{Group};
ghost use Rattle.px_group.specs.Group.{AreStanding, IsShownBy, IsTallied, IsTraced, points_in};
ghost use Rattle.px_group.specs.declared.group.Begun.{Begun as OpenBatch};
ghost use Rattle.px_groupworld.specs.Group.{GroupData};
ghost use Rattle.px_indexed.specs.Idle.{IsElsewhere};
ghost use Rattle.px_openbatches.specs.Pending.{HeldBatch};
ghost use Rattle.px_trail.specs.declared.entry.Act.TheVariants.{Opened, Released};
ghost use Rattle.px_trail.specs.declared.entry.Entry.{Entry};
ghost use Rattle.px_trail.specs.Legal.{MayCome};
ghost use Rattle.px_trail.specs.Trail.{Base, open_points};
ghost use Rattle.px_values.specs.declared.name.TableId.{TableId as TableNumber};
ghost use Rattle.std.specs.List.{AllByRecursion};
ghost use Rattle.px_noting.specs.Apart.{IsApartFrom};
ghost use Rattle.px_noting.specs.Points.{HasOpened, HasReleased};

/// An entry of another table leaves what the trail tells of a group; it and an entry of points, repairs and indexes leave what it shows.
pub fn law_others()
    ensures tallied { (b : Base) → (es : List Entry) → (g : Group) → (hs : List HeldBatch) → IsTallied b es g hs → (e : Entry) → IsApartFrom g.table.id e.act → AreStanding b (es ++ e ∷ []) g → IsTallied b (es ++ e ∷ []) g hs }
    ensures shown { (b : Base) → (index : ℕ → IndexForm) → (es : List Entry) → (g : Group) → (v : GroupData) → (hs : List HeldBatch) → IsShownBy b index es g v hs → (e : Entry) → MayCome b es e → IsElsewhere g.table.id e.act → IsShownBy b index (es ++ e ∷ []) g v hs }
    ensures traced { (b : Base) → (es : List Entry) → (t : TableNumber) → (e : Entry) → IsElsewhere t e.act → (ms : List OpenBatch) → AllByRecursion (IsTraced es t.0) ms → AllByRecursion (IsTraced (es ++ e ∷ []) t.0) ms }
    ensures points { (es : List Entry) → (t : TableNumber) → (e : Entry) → IsApartFrom t e.act → (seat : ℕ) → (s : ℕ) → open_points seat t.0 s (es ++ e ∷ []) ≡ open_points seat t.0 s es }
{}

/// The open points of a group stay those of the trail where one is opened or closed.
pub fn law_points()
    ensures opened { (b : Base) → (es : List Entry) → (g : Group) → (hs : List HeldBatch) → IsTallied b es g hs → (e : Entry) → (s : ℕ) → (scn : Bool) → e.act ≡ Opened g.table.id s scn → (g' : Group) → HasOpened g g' e.seat s → IsTallied b (es ++ e ∷ []) g' hs }
    ensures released { (b : Base) → (es : List Entry) → (g : Group) → (hs : List HeldBatch) → IsTallied b es g hs → (e : Entry) → (s : ℕ) → e.act ≡ Released g.table.id s → (g' : Group) → HasReleased g g' e.seat s → IsTallied b (es ++ e ∷ []) g' hs }
    ensures after_opened { (es : List Entry) → (g : Group) → ((seat : ℕ) → (u : ℕ) → open_points seat g.table.id.0 u es ≡ points_in seat u g.points.items) → (e : Entry) → (s : ℕ) → (scn : Bool) → e.act ≡ Opened g.table.id s scn → (g' : Group) → HasOpened g g' e.seat s → (seat : ℕ) → (u : ℕ) → open_points seat g'.table.id.0 u (es ++ e ∷ []) ≡ points_in seat u g'.points.items }
    ensures after_released { (es : List Entry) → (g : Group) → ((seat : ℕ) → (u : ℕ) → open_points seat g.table.id.0 u es ≡ points_in seat u g.points.items) → (e : Entry) → (s : ℕ) → e.act ≡ Released g.table.id s → (g' : Group) → HasReleased g g' e.seat s → (seat : ℕ) → (u : ℕ) → open_points seat g'.table.id.0 u (es ++ e ∷ []) ≡ points_in seat u g'.points.items }
{}
