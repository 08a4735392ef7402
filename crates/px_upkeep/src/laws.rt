// How a build on its way goes on, whoever makes its steps.
ghost use Rattle.std.specs.Prelude.{◌≤◌, ℕ, List, [], length};
ghost use Rattle.px_calls.specs.Known.{Known, TimePasses};
ghost use Rattle.px_calls.specs.Requires.{IsDrawn};
ghost use Rattle.px_trail.specs.declared.entry.Act.{Act as Acts};
ghost use Rattle.px_upkeep.specs.declared.build.BuildRun.{BuildRun as Runs};
ghost use Rattle.px_upkeep.specs.Turns.{FitsBuild, IsBuildNew};
ghost use Rattle.px_values.specs.declared.name.IndexId.{IndexId as IndexNumber};
ghost use Rattle.px_values.specs.declared.name.TableId.{TableId as TableNumber};

use px_calls::Steps;

/// A new build fits where the numbers of its table and its index were drawn, and others' entries between two steps leave a build as it is.
pub fn law_builds<S: Steps>()
    ensures starts { (n : ℕ) → (t : TableNumber) → (i : IndexNumber) → (r : Runs) → (k : Known) → n ≤ length k.seen → IsDrawn k t.0 → IsDrawn k i.0 → IsBuildNew t i r → FitsBuild S.sound n t i [] r k }
    ensures others { (n : ℕ) → (t : TableNumber) → (i : IndexNumber) → (own : List Acts) → (r : Runs) → (k : Known) → (k' : Known) → TimePasses k k' → FitsBuild S.sound n t i own r k → FitsBuild S.sound n t i own r k' }
{}
