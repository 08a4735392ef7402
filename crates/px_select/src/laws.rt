//! How a SELECT under way goes on, whoever makes its steps.
ghost use Rattle.std.specs.Prelude.{◌≡◌, ◌≤◌, ◌+◌, ◌*◌, ℕ, Bool, List, Option, Result};
ghost use Rattle.px_calls.specs.declared.query.Doubt.{Doubt as Doubts};
ghost use Rattle.px_calls.specs.declared.query.Point.{Point as Points};
ghost use Rattle.px_calls.specs.Doubtful.{IndexVersion};
ghost use Rattle.px_calls.specs.Known.{Known, TimePasses};
ghost use Rattle.px_calls.specs.Requires.{IsScn};
ghost use Rattle.px_planned.specs.Queries.{query_of};
ghost use Rattle.px_planned.specs.declared.planned.Planned.{Planned as Plans};
ghost use Rattle.px_scan.specs.declared.answer.QueryFault.{QueryFault as Faults};
ghost use Rattle.px_scan.specs.declared.machine.QueryState.{QueryState as States};
ghost use Rattle.px_scan.specs.declared.machine.QueryState.TheVariants as query_state;
ghost use Rattle.px_scan.specs.declared.machine.Rest.{Rest as Rests};
ghost use Rattle.px_scan.specs.declared.machine.Scan.{Scan as Scans};
ghost use Rattle.px_scan.specs.Chains.{AreSteps, AreUnfaulted, IsDoubtSettled, QueryStep, query_after};
ghost use Rattle.px_scan.specs.Fixes.{AreFixed, AreKeepingDoubts};
ghost use Rattle.px_scan.specs.Looking.{AreLooking, HaveFoundDoubts, looked_after, refused_in};
ghost use Rattle.px_scan.specs.Turns.{FitsScan, IsBound, IsQueryNew, QuerySoFar};
ghost use Rattle.px_select.specs.declared.run.SelectTurn.TheVariants.{Stepped, Waiting, Over};
ghost use Rattle.px_select.specs.declared.run.Selected.{Selected as Answers};
ghost use Rattle.px_select.specs.Selecting.{RanSelect, SelectTurns};

use px_calls::Steps;

/// Others' entries between two steps leave a SELECT under way as it is; its own steps carry it on, and its last one is its answer.
pub fn law_turns<S: Steps>()
    ensures others { (p : Plans) → (scn : Option ℕ) → (s : States) → (k : Known) → (k' : Known) → TimePasses k k' → FitsScan S.sound (query_of p) scn s k → FitsScan S.sound (query_of p) scn s k' }
    ensures starts { (p : Plans) → (scn : Option ℕ) → (s : States) → (k : Known) → IsQueryNew s → IsBound k (query_of p) → IsScn scn → QuerySoFar S.sound (query_of p) scn k k s }
    ensures steps { (p : Plans) → (scn : Option ℕ) → (k0 : Known) → (k : Known) → (k' : Known) → (old : States) → (new : States) → QuerySoFar S.sound (query_of p) scn k0 k old → SelectTurns S.sound p scn old k new k' Stepped → QuerySoFar S.sound (query_of p) scn k0 k' new }
    ensures waits { (p : Plans) → (scn : Option ℕ) → (k0 : Known) → (k : Known) → (k' : Known) → (old : States) → (new : States) → (stamp : ℕ) → QuerySoFar S.sound (query_of p) scn k0 k old → SelectTurns S.sound p scn old k new k' (Waiting stamp) → QuerySoFar S.sound (query_of p) scn k0 k' new }
    ensures ends { (p : Plans) → (scn : Option ℕ) → (k0 : Known) → (k : Known) → (k' : Known) → (old : States) → (new : States) → (r : Result Answers Faults) → QuerySoFar S.sound (query_of p) scn k0 k old → SelectTurns S.sound p scn old k new k' (Over r) → RanSelect S.sound p scn k0 k' r }
{}

/// What the steps of a SELECT come to, one after another. Where nobody else acts, one by an index looks at no more than two rows of tables for each
/// doubt that its looks find, and one for each repair that is refused until upkeep is idle. Where it comes to its end without a fault, each doubt
/// that is to be consulted is consulted, and then fixed as that left it; and if nobody else acts, there is an entry of its repair, unless it is to be
/// left.
pub fn law_doubts<S: Steps>()
    ensures looks { (m : ℕ) → (s : States) → (os : List QueryStep) → IsQueryNew s → AreLooking S.sound m s os → (d : ℕ) × HaveFoundDoubts S.sound s os d × (looked_after m os ≤ m + 2 * d + refused_in s os) }
    ensures settled { (p : Plans) → (scn : Option ℕ) → (x : Scans) → (r : Rests) → (d : Doubts) → (k : Known) → (os : List QueryStep) → AreSteps S.sound (query_of p) scn (query_state.Consulting x r d) k os → AreUnfaulted os → query_after (query_state.Consulting x r d) os ≡ query_state.Over → IsDoubtSettled S.sound x.point d os }
    ensures fixed { (p : Plans) → (scn : Option ℕ) → (f : Points → IndexVersion → Bool) → (s : States) → (k : Known) → (os : List QueryStep) → IsQueryNew s → AreSteps S.sound (query_of p) scn s k os → AreKeepingDoubts k f s os → AreUnfaulted os → query_after s os ≡ query_state.Over → AreFixed s os }
{}
