//! How a report under way goes on, whoever makes its steps.
ghost use Rattle.std.specs.Prelude.{◌≡◌, ℕ, Result};
ghost use Rattle.px_calls.specs.Known.{Known, TimePasses};
ghost use Rattle.px_values.specs.declared.name.IndexId.{IndexId as IndexIds};
ghost use Rattle.px_values.specs.declared.name.TableId.{TableId as TableIds};
ghost use Rattle.px_verify.specs.declared.answer.ReportFault.{ReportFault as Faults};
ghost use Rattle.px_verify.specs.declared.answer.Reported.{Reported as Reporteds};
ghost use Rattle.px_verify.specs.declared.answer.ReportTurn.TheVariants.{Stepped, Waiting, Over};
ghost use Rattle.px_verify.specs.declared.machine.ReportState.{ReportState as States};
ghost use Rattle.px_verify.specs.Turns.{FitsReport, IsReportNew, RanReport, ReportTurns, SoFar};

use px_calls::Steps;

/// Others' entries between two steps leave a report under way as it is; its own steps carry it on, and its last one is what it comes to.
pub fn law_turns<S: Steps>()
    ensures others { (t : TableIds) → (i : IndexIds) → (s : States) → (k : Known) → (k' : Known) → TimePasses k k' → FitsReport S.sound t i s k → FitsReport S.sound t i s k' }
    ensures starts { (t : TableIds) → (i : IndexIds) → (s : States) → (k : Known) → IsReportNew s → SoFar S.sound t i k k s }
    ensures steps { (t : TableIds) → (i : IndexIds) → (k0 : Known) → (k : Known) → (k' : Known) → (old : States) → (new : States) → SoFar S.sound t i k0 k old → ReportTurns S.sound t i old k new k' Stepped → SoFar S.sound t i k0 k' new }
    ensures waits { (t : TableIds) → (i : IndexIds) → (k0 : Known) → (k : Known) → (k' : Known) → (old : States) → (new : States) → (stamp : ℕ) → SoFar S.sound t i k0 k old → ReportTurns S.sound t i old k new k' (Waiting stamp) → SoFar S.sound t i k0 k' new }
    ensures ends { (t : TableIds) → (i : IndexIds) → (k0 : Known) → (k : Known) → (k' : Known) → (old : States) → (new : States) → (r : Result Reporteds Faults) → SoFar S.sound t i k0 k old → ReportTurns S.sound t i old k new k' (Over r) → RanReport S.sound t i k0 k' r }
{}
