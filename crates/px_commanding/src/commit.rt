// A commit of held changes as a machine: each step makes one call.
ghost use Rattle.std.specs.Prelude.{◌≡◌, true};
ghost use Rattle.std.specs.List.{AllByRecursion};
ghost use Rattle.px_held.specs.HeldData.{HeldData};
ghost use Rattle.px_calls.specs.Requires.{IsChangeOf};
ghost use Rattle.px_commanding.specs.Commits.{CommitTurns, FitsCommit, HasRoomForOne, IsBegun, IsEnded, unfound as unfound_as};

use px_batch::{BatchFault, BatchRun, BatchTurn};
use px_calls::{Receipt, StepFault, Steps};
use px_fitting::fits;
use px_held::HeldChanges;
use px_tables::Table;
use px_values::Change;
use std::alloc::Global;

/// A commit on its way, by what the next step is.
pub enum CommitRun {
    /// The table of the changes is to be found.
    Finding,
    /// Their batch is under way. There is room for the receipt.
    Changing(BatchRun, Vec<Receipt>),
}

/// What one step of a commit came to.
pub enum CommitTurn {
    Stepped(CommitRun),
    /// The same step is to be tried again.
    Waiting(CommitRun),
    /// Its receipt, or why there is none.
    Over(Result<Vec<Receipt>, BatchFault>),
}

/// Whether each change is one of a row of the table.
fn all_fit(table: &Table, changes: &[Change]) -> bool
    ensures { result ≡ true → AllByRecursion (IsChangeOf table.now) changes.now }
{
    match changes {
        [] => true,
        [first, others @ ..] => fits(table, first) && all_fit(table, others),
    }
}

/// Begins the batch, where the table that was found is the one of the changes. It makes no call.
fn begin(alloc: Global, held: &HeldChanges, table: &Table) -> Result<CommitRun, BatchFault>
    ensures { IsBegun held.now table.now result }
{
    if table.id != held.table() {
        return Err(BatchFault::NoTable);
    }
    let Ok(changes) = held.batch(alloc) else {
        return Err(BatchFault::Memory);
    };
    if !all_fit(table, changes.as_slice()) {
        drop(changes);
        return Err(BatchFault::Memory);
    }
    let mut receipts = Vec::new(alloc);
    if receipts.reserve(1).is_err() {
        drop(changes);
        drop(receipts);
        return Err(BatchFault::Memory);
    }
    Ok(CommitRun::Changing(BatchRun::new(held.table(), changes), receipts))
}

/// Why no table was found.
fn unfound(fault: StepFault) -> BatchFault
    ensures { result ≡ unfound_as fault }
{
    match fault {
        StepFault::NoTable => BatchFault::NoTable,
        StepFault::Closed { call } => BatchFault::Closed { call },
        _ => BatchFault::Memory,
    }
}

/// Finds the table of the changes.
fn find<S: Steps>(alloc: Global, s: &mut S, held: &HeldChanges) -> CommitTurn
    ensures turns { CommitTurns S.sound held.now CommitRun.Finding (S.known s.old) (S.known s.new) result }
    ensures one_call { S.one_call s.old s.new }
{
    match s.find(held.name()) {
        Ok(found) => {
            let begun = begin(alloc, held, &found.table);
            drop(found);
            match begun {
                Ok(run) => CommitTurn::Stepped(run),
                Err(fault) => CommitTurn::Over(Err(fault)),
            }
        }
        Err(fault) => CommitTurn::Over(Err(unfound(fault))),
    }
}

/// What a batch came to.
fn ended(
    mut receipts: Vec<Receipt>,
    came: Result<Receipt, BatchFault>,
) -> Result<Vec<Receipt>, BatchFault>
    requires { HasRoomForOne receipts }
    ensures { IsEnded came result }
{
    match came {
        Ok(receipt) => {
            receipts.push_reserved(receipt);
            Ok(receipts)
        }
        Err(fault) => {
            drop(receipts);
            Err(fault)
        }
    }
}

/// Goes on with the batch.
fn change<S: Steps>(s: &mut S, mut run: BatchRun, receipts: Vec<Receipt>) -> CommitTurn
    requires { (h : HeldData) × FitsCommit S.sound h (CommitRun.Changing run receipts) (S.known s.old) }
    ensures turns { (h : HeldData) → FitsCommit S.sound h (CommitRun.Changing run receipts) (S.known s.old) → CommitTurns S.sound h (CommitRun.Changing run receipts) (S.known s.old) (S.known s.new) result }
    ensures one_call { S.one_call s.old s.new }
{
    match run.step(s) {
        BatchTurn::Stepped => CommitTurn::Stepped(CommitRun::Changing(run, receipts)),
        BatchTurn::Waiting { .. } => CommitTurn::Waiting(CommitRun::Changing(run, receipts)),
        BatchTurn::Over(came) => {
            run.finish();
            CommitTurn::Over(ended(receipts, came))
        }
    }
}

impl CommitRun {
    /// A run that has made no step.
    pub fn new() -> CommitRun
        ensures { result ≡ CommitRun.Finding }
    {
        CommitRun::Finding
    }

    /// Makes one call, for these changes.
    pub fn step<S: Steps>(self, alloc: Global, s: &mut S, held: &HeldChanges) -> CommitTurn
        requires { FitsCommit S.sound held.now self (S.known s.old) }
        ensures turns { CommitTurns S.sound held.now self (S.known s.old) (S.known s.new) result }
        ensures one_call { S.one_call s.old s.new }
    {
        match self {
            CommitRun::Finding => find(alloc, s, held),
            CommitRun::Changing(run, receipts) => change(s, run, receipts),
        }
    }
}
