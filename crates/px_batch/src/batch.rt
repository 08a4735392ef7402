// A batch as a machine: each step makes one call.
ghost use Rattle.std.specs.Prelude.{◌≡◌, ◌≢◌, ◌≤◌, ℕ, List, [], true, length};
ghost use Rattle.px_values.specs.declared.change.Change.{Change as RowChange};
ghost use Rattle.px_values.specs.declared.name.TableId.{TableId as TableNumber};
ghost use Rattle.px_trail.specs.Batches.{Marking, Verifying, Writing, is_distinct, rows_of};
ghost use Rattle.px_calls.specs.Causes.{index_count};
ghost use Rattle.px_calls.specs.Requires.{AreFitting, CanAbandon, CanEnd, TicketIn};
ghost use Rattle.px_batch.specs.Bounds.{Spends};
ghost use Rattle.px_batch.specs.Turns.{BatchTurns, FitsBatch, IsBatchGoing, KeptWithin, StopIs};

use px_calls::{Marks, Receipt, StepFault, Steps, Ticket, Verifies, Work, Writes};
use px_values::{Changes, Limit, TableId};

/// Why a batch was not made.
#[derive(Clone, Copy)]
pub enum BatchFault {
    NoTable,
    /// The counted quantity would pass this number.
    Limit { which: Limit, count: u64 },
    ReadFault,
    /// The batch may be there for some of its rows.
    WriteFault,
    Damaged { file: u64, place: u64 },
    /// The batch may be there for some of its rows.
    Closed { call: u64 },
    Memory,
}

/// What one step of a batch came to.
#[derive(Drop)]
pub enum BatchTurn {
    Stepped,
    /// The batch of this stamp is pending on a row of this one.
    Waiting { stamp: u64 },
    Over(Result<Receipt, BatchFault>),
}

/// What the next step of a batch is.
pub enum BatchState {
    Beginning,
    /// Upkeep, since the server was busy.
    Settling,
    Marking(Ticket),
    Writing(Ticket),
    Verifying(Ticket),
    Ending(Ticket),
    /// The server was closed: the batch is given up.
    Leaving(Ticket, BatchFault),
    Over,
}

/// Begins the batch.
fn begin<S: Steps>(s: &mut S, table: TableId, changes: &Changes) -> (BatchState, BatchTurn)
    requires some { changes.now ≢ [] }
    requires rows { length changes.now ≤ 1000 }
    requires distinct { is_distinct (rows_of changes.now) ≡ true }
    requires fits { AreFitting (S.known s.old) table.0 changes.now }
    ensures turns { BatchTurns S.sound table changes.now BatchState.Beginning (S.known s.old) result.0 (S.known s.new) result.1 }
    ensures spends { (S.known s.old).alone ≡ true → (n : ℕ) → index_count (S.known s.new) table.0 ≤ n → Spends n (S.left s.old) BatchState.Beginning (S.left s.new) result.0 result.1 }
    ensures one_call { S.one_call s.old s.new }
{
    match s.begin(table, changes) {
        Ok(t) => (BatchState::Marking(t), BatchTurn::Stepped),
        Err(StepFault::Busy { .. }) => (BatchState::Settling, BatchTurn::Stepped),
        Err(StepFault::NotReady { .. }) => (BatchState::Settling, BatchTurn::Stepped),
        Err(StepFault::NoTable) => (BatchState::Over, BatchTurn::Over(Err(BatchFault::NoTable))),
        Err(StepFault::Limit { which, count }) => (
            BatchState::Over,
            BatchTurn::Over(Err(BatchFault::Limit { which, count })),
        ),
        Err(StepFault::ReadFault) => (
            BatchState::Over,
            BatchTurn::Over(Err(BatchFault::ReadFault)),
        ),
        Err(StepFault::Damaged { file, place }) => (
            BatchState::Over,
            BatchTurn::Over(Err(BatchFault::Damaged { file, place })),
        ),
        Err(StepFault::Closed { call }) => (
            BatchState::Over,
            BatchTurn::Over(Err(BatchFault::Closed { call })),
        ),
        Err(StepFault::Memory) => (BatchState::Over, BatchTurn::Over(Err(BatchFault::Memory))),
        Err(_) => unreachable!(),
    }
}

/// Upkeep, until there is none left. Then the batch is begun again.
fn settle<S: Steps>(s: &mut S) -> (BatchState, BatchTurn)
    ensures turns { (table : TableNumber) → (cs : List RowChange) → AreFitting (S.known s.old) table.0 cs → BatchTurns S.sound table cs BatchState.Settling (S.known s.old) result.0 (S.known s.new) result.1 }
    ensures spends { (S.known s.old).alone ≡ true → (n : ℕ) → Spends n (S.left s.old) BatchState.Settling (S.left s.new) result.0 result.1 }
    ensures one_call { S.one_call s.old s.new }
{
    match s.upkeep() {
        Ok(Work::Did) => (BatchState::Settling, BatchTurn::Stepped),
        Ok(Work::Idle) => (BatchState::Beginning, BatchTurn::Stepped),
        Err(StepFault::ReadFault) => (
            BatchState::Over,
            BatchTurn::Over(Err(BatchFault::ReadFault)),
        ),
        Err(StepFault::WriteFault) => (
            BatchState::Over,
            BatchTurn::Over(Err(BatchFault::WriteFault)),
        ),
        Err(StepFault::Damaged { file, place }) => (
            BatchState::Over,
            BatchTurn::Over(Err(BatchFault::Damaged { file, place })),
        ),
        Err(StepFault::Closed { call }) => (
            BatchState::Over,
            BatchTurn::Over(Err(BatchFault::Closed { call })),
        ),
        Err(StepFault::Memory) => (BatchState::Over, BatchTurn::Over(Err(BatchFault::Memory))),
        Err(_) => unreachable!(),
    }
}

/// Marks the index rows of one region.
fn mark<S: Steps>(s: &mut S, mut t: Ticket) -> (BatchState, BatchTurn)
    requires { TicketIn (S.known s.old) t Marking }
    ensures turns { (cs : List RowChange) → KeptWithin S.sound (S.known s.old).base (S.known s.old).seen t.table cs t.stamp → BatchTurns S.sound t.table cs (BatchState.Marking t) (S.known s.old) result.0 (S.known s.new) result.1 }
    ensures spends { (S.known s.old).alone ≡ true → (n : ℕ) → Spends n (S.left s.old) (BatchState.Marking t) (S.left s.new) result.0 result.1 }
    ensures one_call { S.one_call s.old s.new }
{
    match s.mark(&mut t) {
        Ok(Marks::More) => (BatchState::Marking(t), BatchTurn::Stepped),
        Ok(Marks::AllMarked) => (BatchState::Writing(t), BatchTurn::Stepped),
        Err(StepFault::WriteFault) => (
            BatchState::Leaving(t, BatchFault::WriteFault),
            BatchTurn::Stepped,
        ),
        Err(StepFault::Closed { call }) => (
            BatchState::Leaving(t, BatchFault::Closed { call }),
            BatchTurn::Stepped,
        ),
        Err(_) => unreachable!(),
    }
}

/// Writes rows of one region. While an earlier batch is pending on one, the same step is tried again.
fn write<S: Steps>(s: &mut S, mut t: Ticket) -> (BatchState, BatchTurn)
    requires { TicketIn (S.known s.old) t Writing }
    ensures turns { (cs : List RowChange) → KeptWithin S.sound (S.known s.old).base (S.known s.old).seen t.table cs t.stamp → BatchTurns S.sound t.table cs (BatchState.Writing t) (S.known s.old) result.0 (S.known s.new) result.1 }
    ensures spends { (S.known s.old).alone ≡ true → (n : ℕ) → Spends n (S.left s.old) (BatchState.Writing t) (S.left s.new) result.0 result.1 }
    ensures one_call { S.one_call s.old s.new }
{
    match s.write(&mut t) {
        Ok(Writes::More) => (BatchState::Writing(t), BatchTurn::Stepped),
        Ok(Writes::AllWritten) => (BatchState::Verifying(t), BatchTurn::Stepped),
        Err(StepFault::NotYet { stamp }) => (BatchState::Writing(t), BatchTurn::Waiting { stamp }),
        Err(StepFault::WriteFault) => (
            BatchState::Leaving(t, BatchFault::WriteFault),
            BatchTurn::Stepped,
        ),
        Err(StepFault::Closed { call }) => (
            BatchState::Leaving(t, BatchFault::Closed { call }),
            BatchTurn::Stepped,
        ),
        Err(_) => unreachable!(),
    }
}

/// Verifies the index rows of one region. A failure here doesn't fail the batch.
fn verify<S: Steps>(s: &mut S, mut t: Ticket) -> (BatchState, BatchTurn)
    requires { TicketIn (S.known s.old) t Verifying }
    ensures turns { (cs : List RowChange) → KeptWithin S.sound (S.known s.old).base (S.known s.old).seen t.table cs t.stamp → BatchTurns S.sound t.table cs (BatchState.Verifying t) (S.known s.old) result.0 (S.known s.new) result.1 }
    ensures spends { (S.known s.old).alone ≡ true → (n : ℕ) → Spends n (S.left s.old) (BatchState.Verifying t) (S.left s.new) result.0 result.1 }
    ensures one_call { S.one_call s.old s.new }
{
    match s.verify_marks(&mut t) {
        Ok(Verifies::More) => (BatchState::Verifying(t), BatchTurn::Stepped),
        Ok(Verifies::Done) => (BatchState::Ending(t), BatchTurn::Stepped),
        Err(StepFault::WriteFault) => (BatchState::Ending(t), BatchTurn::Stepped),
        Err(StepFault::Closed { .. }) => (BatchState::Ending(t), BatchTurn::Stepped),
        Err(_) => unreachable!(),
    }
}

/// Ends the batch.
fn end<S: Steps>(s: &mut S, t: Ticket) -> (BatchState, BatchTurn)
    requires { CanEnd (S.known s.old) t }
    ensures turns { (cs : List RowChange) → KeptWithin S.sound (S.known s.old).base (S.known s.old).seen t.table cs t.stamp → BatchTurns S.sound t.table cs (BatchState.Ending t) (S.known s.old) result.0 (S.known s.new) result.1 }
    ensures spends { (S.known s.old).alone ≡ true → (n : ℕ) → Spends n (S.left s.old) (BatchState.Ending t) (S.left s.new) result.0 result.1 }
    ensures one_call { S.one_call s.old s.new }
{
    let receipt = s.end(t);
    (BatchState::Over, BatchTurn::Over(Ok(receipt)))
}

/// Gives the batch up.
fn leave<S: Steps>(s: &mut S, t: Ticket, fault: BatchFault) -> (BatchState, BatchTurn)
    requires can { CanAbandon (S.known s.old) t }
    requires told { StopIs fault (S.known s.old) }
    ensures turns { (cs : List RowChange) → BatchTurns S.sound t.table cs (BatchState.Leaving t fault) (S.known s.old) result.0 (S.known s.new) result.1 }
    ensures spends { (S.known s.old).alone ≡ true → (n : ℕ) → Spends n (S.left s.old) (BatchState.Leaving t fault) (S.left s.new) result.0 result.1 }
    ensures one_call { S.one_call s.old s.new }
{
    s.abandon(t);
    (BatchState::Over, BatchTurn::Over(Err(fault)))
}

/// The next step of a batch: one call.
pub(crate) fn advance<S: Steps>(
    s: &mut S,
    table: TableId,
    changes: &Changes,
    state: BatchState,
) -> (BatchState, BatchTurn)
    requires some { changes.now ≢ [] }
    requires rows { length changes.now ≤ 1000 }
    requires distinct { is_distinct (rows_of changes.now) ≡ true }
    requires fits { FitsBatch S.sound table changes.now state (S.known s.old) }
    requires going { IsBatchGoing state }
    ensures turns { BatchTurns S.sound table changes.now state (S.known s.old) result.0 (S.known s.new) result.1 }
    ensures spends { (S.known s.old).alone ≡ true → (n : ℕ) → index_count (S.known s.new) table.0 ≤ n → Spends n (S.left s.old) state (S.left s.new) result.0 result.1 }
    ensures one_call { S.one_call s.old s.new }
{
    match state {
        BatchState::Beginning => begin(s, table, changes),
        BatchState::Settling => settle(s),
        BatchState::Marking(t) => mark(s, t),
        BatchState::Writing(t) => write(s, t),
        BatchState::Verifying(t) => verify(s, t),
        BatchState::Ending(t) => end(s, t),
        BatchState::Leaving(t, fault) => leave(s, t, fault),
        BatchState::Over => unreachable!(),
    }
}

/// Lets a state go that holds no ticket.
pub(crate) fn let_go(state: BatchState)
    requires { state ≡ BatchState.Over }
{
    match state {
        BatchState::Over => {}
        _ => unreachable!(),
    }
}
