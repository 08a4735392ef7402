//! How a DELETE under way goes on, whoever makes its steps, and which rows it removes.
ghost use Rattle.std.specs.Prelude.{◌≡◌, ℕ, List, Ok, Option, sum_by};
ghost use Rattle.px_values.specs.declared.change.Change.{Change as RowChange};
ghost use Rattle.px_expr.specs.declared.bound.Bound.{Bound as Condition};
ghost use Rattle.px_tables.specs.declared.table.Table.{Table as Tables};
ghost use Rattle.px_trail.specs.declared.entry.Act.{Act};
ghost use Rattle.px_trail.specs.Legal.{IsLegal};
ghost use Rattle.px_calls.specs.Known.{Known, TimePasses};
ghost use Rattle.px_planned.specs.declared.planned.Planned.{Planned as Plans};
ghost use Rattle.px_deleting.specs.Asking.{planned_for};
ghost use Rattle.px_deleting.specs.Deleting.{AreCurrent, CanBegin, DeleteTurns, FitsDelete, HasDone, HasFoundRows, IsDeleteNew, RanDelete, SoFar};
ghost use Rattle.px_deleting.specs.declared.deleted.DeleteTurn.TheVariants.{Stepped, Waiting, Over};
ghost use Rattle.px_deleting.specs.declared.deleted.Deleted.{Deleted as Answers};
ghost use Rattle.px_deleting.specs.declared.deleted.Removed.{Removed as Numbers};
ghost use Rattle.px_deleting.specs.declared.machine.DeleteState.{DeleteState as States};

use px_calls::Steps;

/// Others' entries between two steps leave a DELETE under way as it is; its own steps carry it on, and its last one is its answer.
pub fn law_turns<S: Steps>()
    ensures others { (p : Plans) → (s : States) → (k : Known) → (k' : Known) → TimePasses k k' → FitsDelete S.sound p s k → FitsDelete S.sound p s k' }
    ensures done { (p : Plans) → (own : List Act) → (s : States) → (k : Known) → (k' : Known) → TimePasses k k' → HasDone S.sound p own s k → HasDone S.sound p own s k' }
    ensures starts { (p : Plans) → (s : States) → (k : Known) → IsDeleteNew p s → CanBegin k p → SoFar S.sound p k k s }
    ensures steps { (p : Plans) → (k0 : Known) → (k : Known) → (k' : Known) → (old : States) → (new : States) → SoFar S.sound p k0 k old → DeleteTurns S.sound p old k new k' Stepped → SoFar S.sound p k0 k' new }
    ensures waits { (p : Plans) → (k0 : Known) → (k : Known) → (k' : Known) → (old : States) → (new : States) → (stamp : ℕ) → SoFar S.sound p k0 k old → DeleteTurns S.sound p old k new k' (Waiting stamp) → SoFar S.sound p k0 k' new }
    ensures ends { (p : Plans) → (k0 : Known) → (k : Known) → (k' : Known) → (old : States) → (new : States) → (d : Answers) → SoFar S.sound p k0 k old → DeleteTurns S.sound p old k new k' (Over d) → RanDelete S.sound p k0 k' d }
{}

/// The rows that were found are those of a current answer to the condition, if what was opened is sound; they are removed each once, in
/// primary key order. The number that is told of them is the sum of those of the receipts.
pub fn law_removed<S: Steps>()
    ensures counted { (p : Plans) → (k : Known) → (k' : Known) → (d : Answers) → (m : Numbers) → RanDelete S.sound p k k' d → IsLegal k.base k.seen → d.end ≡ Ok m → m.rows ≡ sum_by (λ r. r.rows) d.receipts.items }
    ensures current { (t : Tables) → (filter : Option Condition) → (k : Known) → (first : ℕ) → (acts : List Act) → (cs : List RowChange) → HasFoundRows S.sound (planned_for t filter) k first acts cs → S.sound → AreCurrent k t filter first cs }
{}
