//! How a verification under way goes on, whoever makes its steps.
ghost use Rattle.std.specs.Prelude.{◌≡◌, ◌≤◌, ℕ, List, [], length};
ghost use Rattle.px_calls.specs.Known.{Known, TimePasses};
ghost use Rattle.px_trail.specs.declared.entry.Act.{Act as Acts};
ghost use Rattle.px_values.specs.declared.name.IndexId.{IndexId as IndexIds};
ghost use Rattle.px_values.specs.declared.name.TableId.{TableId as TableIds};
ghost use Rattle.px_verifying.specs.declared.answer.Reports.{Reports as Done};
ghost use Rattle.px_verifying.specs.declared.answer.VerifyKind.{VerifyKind as Kinds};
ghost use Rattle.px_verifying.specs.declared.machine.VerifyState.{VerifyState as States};
ghost use Rattle.px_verifying.specs.Turns.{Begins, FitsState, MayBegin, none_done};

use px_calls::Steps;

/// A new verification fits where the numbers of its table and its index were drawn, or nothing is rebuilt; and others' entries between two steps leave one
/// under way as it is.
pub fn law_verifies<S: Steps>()
    ensures starts { (n : ℕ) → (t : TableIds) → (i : IndexIds) → (v : Kinds) → (x : States) → (k : Known) → n ≤ length k.seen → MayBegin t i v k → Begins t i v x → FitsState S.sound n t i v [] none_done x k }
    ensures others { (n : ℕ) → (t : TableIds) → (i : IndexIds) → (v : Kinds) → (own : List Acts) → (done : Done) → (x : States) → (k : Known) → (k' : Known) → TimePasses k k' → FitsState S.sound n t i v own done x k → FitsState S.sound n t i v own done x k' }
{}
