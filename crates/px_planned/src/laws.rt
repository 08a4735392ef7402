//! Which path a query takes.
ghost use Rattle.std.specs.Prelude.{◌≡◌, ◌↔◌, ℕ, Ok, Option, Some};
ghost use Rattle.px_bind.specs.declared.request.Query.{Query as Queries};
ghost use Rattle.px_calls.specs.declared.query.By.{By as Bys};
ghost use Rattle.px_plan.specs.Asked.{asked_of};
ghost use Rattle.px_plan.specs.Choice.{is_usable};
ghost use Rattle.px_plan.specs.Plans.{AnswersPlan, key_name};
ghost use Rattle.px_plan.specs.declared.plan.Asked.{Asked as Askeds};
ghost use Rattle.px_plan.specs.declared.plan.Plan.{Plan as Plans};
ghost use Rattle.px_planned.specs.Queries.{IsPathTaken, by_index, takes_at};
ghost use Rattle.px_tables.specs.declared.found.Found.{Found as FoundTable};
ghost use Rattle.px_tables.specs.declared.index.Index.{Index as Indexes};
ghost use Rattle.px_trail.specs.Answers.{IsAmong};

/// The path that a planned query takes is the one that px_plan chooses by the same definitions. A plan, and so EXPLAIN, is by this path too, where the
/// same indexes are usable at its point.
pub fn law_taken()
    ensures taken { (a : Askeds) → (found : FoundTable) → (stamp : ℕ) → (by : Bys) → takes_at a found stamp ≡ Some by ↔ IsPathTaken a found stamp by }
    ensures explained { (q : Queries) → (found : FoundTable) → (point : Option ℕ) → (stamp : ℕ) → (p : Plans) → ((i : Indexes) → IsAmong i found.indexes → is_usable point i ≡ is_usable (Some stamp) i) → AnswersPlan found point q (Ok p) → (i : Option Indexes) × (p.by ≡ key_name i) × IsPathTaken (asked_of q) found stamp (by_index i) }
{}
