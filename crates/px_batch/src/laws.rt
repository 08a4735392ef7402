//! How a batch under way goes on, whoever makes its steps.
ghost use Rattle.std.specs.Prelude.{◌≡◌, ◌≤◌, ◌+◌, ◌*◌, ℕ, List, Result};
ghost use Rattle.px_values.specs.declared.change.Change.{Change as RowChange};
ghost use Rattle.px_values.specs.declared.name.TableId.{TableId as TableNumber};
ghost use Rattle.px_calls.specs.declared.ticket.Receipt.{Receipt as Receipts};
ghost use Rattle.px_calls.specs.declared.ticket.Ticket.{Ticket as Tickets};
ghost use Rattle.px_calls.specs.Known.{Known, TimePasses};
ghost use Rattle.px_calls.specs.Requires.{AreFitting};
ghost use Rattle.px_batch.specs.declared.batch.BatchFault.{BatchFault as Faults};
ghost use Rattle.px_batch.specs.declared.batch.BatchState.{BatchState as States};
ghost use Rattle.px_batch.specs.declared.batch.BatchState.TheVariants.{Beginning};
ghost use Rattle.px_batch.specs.declared.batch.BatchTurn.TheVariants.{Stepped, Waiting, Over};
ghost use Rattle.px_batch.specs.Bounds.{AreSpending, Step, counted_in};
ghost use Rattle.px_batch.specs.Turns.{BatchTurns, FitsBatch, RanBatch, SoFar};

use px_calls::Steps;

/// Others' entries between two steps leave a batch under way as it is; its own steps carry it on, and its last one is its answer.
pub fn law_turns<S: Steps>()
    ensures others { (table : TableNumber) → (cs : List RowChange) → (s : States) → (k : Known) → (k' : Known) → TimePasses k k' → FitsBatch S.sound table cs s k → FitsBatch S.sound table cs s k' }
    ensures starts { (table : TableNumber) → (cs : List RowChange) → (k : Known) → AreFitting k table.0 cs → SoFar S.sound table cs k k Beginning }
    ensures steps { (table : TableNumber) → (cs : List RowChange) → (k0 : Known) → (k : Known) → (k' : Known) → (old : States) → (new : States) → SoFar S.sound table cs k0 k old → BatchTurns S.sound table cs old k new k' Stepped → SoFar S.sound table cs k0 k' new }
    ensures waits { (table : TableNumber) → (cs : List RowChange) → (k0 : Known) → (k : Known) → (k' : Known) → (old : States) → (new : States) → (stamp : ℕ) → SoFar S.sound table cs k0 k old → BatchTurns S.sound table cs old k new k' (Waiting stamp) → SoFar S.sound table cs k0 k' new }
    ensures ends { (table : TableNumber) → (cs : List RowChange) → (k0 : Known) → (k : Known) → (k' : Known) → (old : States) → (new : States) → (r : Result Receipts Faults) → SoFar S.sound table cs k0 k old → BatchTurns S.sound table cs old k new k' (Over r) → RanBatch S.sound table cs k0 k' r }
{}

/// A batch on a table of n indexes makes at most 6 + 2 n steps where nobody else acts, but those of upkeep, those that wait, and beginnings that are
/// refused until upkeep is idle: 22 on a table of eight indexes, the most that CREATE INDEX makes.
pub fn law_bound()
    ensures { (n : ℕ) → (left : Tickets → ℕ) → (os : List Step) → AreSpending n left Beginning os → counted_in Beginning os ≤ 6 + 2 * n }
{}
