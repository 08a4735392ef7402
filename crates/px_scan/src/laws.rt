//! How a query under way goes on, whoever makes its steps.
ghost use Rattle.std.specs.Prelude.{◌≡◌, ◌≤◌, ◌+◌, ◌*◌, ℕ, Bool, List, Option, Result, length};
ghost use Rattle.px_calls.specs.declared.query.Doubt.{Doubt as Doubts};
ghost use Rattle.px_calls.specs.declared.query.Point.{Point as Points};
ghost use Rattle.px_calls.specs.Doubtful.{IndexVersion};
ghost use Rattle.px_calls.specs.Known.{Known, TimePasses};
ghost use Rattle.px_calls.specs.Requires.{IsScn};
ghost use Rattle.px_gather.specs.Query.{Query};
ghost use Rattle.px_scan.specs.declared.answer.Answer.{Answer as Answers};
ghost use Rattle.px_scan.specs.declared.answer.QueryFault.{QueryFault as Faults};
ghost use Rattle.px_scan.specs.declared.answer.QueryTurn.TheVariants.{Stepped, Waiting, Over};
ghost use Rattle.px_scan.specs.declared.machine.QueryState.{QueryState as States};
ghost use Rattle.px_scan.specs.declared.machine.QueryState.TheVariants as query_state;
ghost use Rattle.px_scan.specs.declared.machine.Rest.{Rest as Rests};
ghost use Rattle.px_scan.specs.declared.machine.Scan.{Scan as Scans};
ghost use Rattle.px_scan.specs.Bounds.{AreSpending, HaveFound, counted_in};
ghost use Rattle.px_scan.specs.Looking.{AreLooking, HaveFoundDoubts, looked_after, refused_in};
ghost use Rattle.px_scan.specs.Fixes.{AreFixed, AreKeepingDoubts};
ghost use Rattle.px_scan.specs.Chains.{AreSteps, AreUnfaulted, IsDoubtSettled, QueryStep, query_after};
ghost use Rattle.px_scan.specs.Turns.{FitsScan, IsBound, IsQueryNew, QuerySoFar, QueryTurns, RanQuery};

use px_calls::Steps;

/// Others' entries between two steps leave a query under way as it is; its own steps carry it on, and its last one is its answer.
pub fn law_turns<S: Steps>()
    ensures others { (q : Query) → (scn : Option ℕ) → (s : States) → (k : Known) → (k' : Known) → TimePasses k k' → FitsScan S.sound q scn s k → FitsScan S.sound q scn s k' }
    ensures starts { (q : Query) → (scn : Option ℕ) → (s : States) → (k : Known) → IsQueryNew s → IsBound k q → IsScn scn → QuerySoFar S.sound q scn k k s }
    ensures steps { (q : Query) → (scn : Option ℕ) → (k0 : Known) → (k : Known) → (k' : Known) → (old : States) → (new : States) → QuerySoFar S.sound q scn k0 k old → QueryTurns S.sound q scn old k new k' Stepped → QuerySoFar S.sound q scn k0 k' new }
    ensures waits { (q : Query) → (scn : Option ℕ) → (k0 : Known) → (k : Known) → (k' : Known) → (old : States) → (new : States) → (stamp : ℕ) → QuerySoFar S.sound q scn k0 k old → QueryTurns S.sound q scn old k new k' (Waiting stamp) → QuerySoFar S.sound q scn k0 k' new }
    ensures ends { (q : Query) → (scn : Option ℕ) → (k0 : Known) → (k : Known) → (k' : Known) → (old : States) → (new : States) → (r : Result Answers Faults) → QuerySoFar S.sound q scn k0 k old → QueryTurns S.sound q scn old k new k' (Over r) → RanQuery S.sound q scn k0 k' r }
{}

/// A doubt that is to be consulted is consulted, and then fixed as that left it, where a query comes to its end without a fault.
pub fn law_doubts<S: Steps>()
    ensures { (q : Query) → (scn : Option ℕ) → (x : Scans) → (r : Rests) → (d : Doubts) → (k : Known) → (os : List QueryStep) → AreSteps S.sound q scn (query_state.Consulting x r d) k os → AreUnfaulted os → query_after (query_state.Consulting x r d) os ≡ query_state.Over → IsDoubtSettled S.sound x.point d os }
{}

/// A query makes at most three steps and three for each key that its looks find, but those of upkeep, those that wait, and repairs that are refused
/// until upkeep is idle.
pub fn law_bound<S: Steps>()
    ensures { (s : States) → (os : List QueryStep) → IsQueryNew s → AreSpending S.sound s os → (n : ℕ) × HaveFound S.sound s os n × (counted_in s os ≤ 3 + 3 * n) }
{}

/// Where nobody else acts, a query by an index looks at no more than two rows of tables for each doubt that its looks find, and one for each repair that
/// is refused until upkeep is idle.
pub fn law_looks<S: Steps>()
    ensures { (m : ℕ) → (s : States) → (os : List QueryStep) → IsQueryNew s → AreLooking S.sound m s os → (d : ℕ) × HaveFoundDoubts S.sound s os d × (looked_after m os ≤ m + 2 * d + refused_in s os) }
{}

/// Where nobody else acts and a query comes to its end without a fault, each doubt that it consulted has an entry of its repair, unless it is to be left.
pub fn law_fixed<S: Steps>()
    ensures { (q : Query) → (scn : Option ℕ) → (f : Points → IndexVersion → Bool) → (s : States) → (k : Known) → (os : List QueryStep) → IsQueryNew s → AreSteps S.sound q scn s k os → AreKeepingDoubts k f s os → AreUnfaulted os → query_after s os ≡ query_state.Over → AreFixed s os }
{}
