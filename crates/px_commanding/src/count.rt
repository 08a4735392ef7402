// The status of a table as a machine: each step makes one call.
ghost use Rattle.std.specs.Prelude.{◌≡◌, ℕ};
ghost use Rattle.px_commanding.specs.Counts.{CountTurns, FitsCount, uncounted as uncounted_as, unfound as unfound_as};

use px_calls::{Status, StepFault, Steps};
use px_values::{Name, TableId};

/// A status on its way, by what the next step is.
#[derive(Clone, Copy)]
pub enum CountRun {
    /// The table is to be found.
    Finding,
    /// The table of this number is to be counted.
    Counting(TableId),
}

/// Why there is no status.
#[derive(Clone, Copy)]
pub enum CountFault {
    NoTable,
    ReadFault,
    Damaged { file: u64, place: u64 },
    Closed { call: u64 },
    Memory,
}

/// What one step of a status came to.
#[derive(Drop)]
pub enum CountTurn {
    Stepped(CountRun),
    Over(Result<Status, CountFault>),
}

/// Why no table was found.
fn unfound(fault: StepFault) -> CountFault
    ensures { result ≡ unfound_as fault }
{
    match fault {
        StepFault::NoTable => CountFault::NoTable,
        StepFault::Closed { call } => CountFault::Closed { call },
        _ => CountFault::Memory,
    }
}

/// Why the table wasn't counted.
fn uncounted(fault: StepFault) -> CountFault
    ensures { result ≡ uncounted_as fault }
{
    match fault {
        StepFault::NoTable => CountFault::NoTable,
        StepFault::ReadFault => CountFault::ReadFault,
        StepFault::Damaged { file, place } => CountFault::Damaged { file, place },
        StepFault::Closed { call } => CountFault::Closed { call },
        _ => CountFault::Memory,
    }
}

/// Finds the table.
fn find<S: Steps>(s: &mut S, name: &Name) -> CountTurn
    ensures turns { (n : ℕ) → FitsCount n name.now CountRun.Finding (S.known s.old) → CountTurns S.sound n name.now CountRun.Finding (S.known s.old) (S.known s.new) result }
    ensures one_call { S.one_call s.old s.new }
{
    match s.find(name) {
        Ok(found) => {
            let table = found.table.id;
            drop(found);
            CountTurn::Stepped(CountRun::Counting(table))
        }
        Err(fault) => CountTurn::Over(Err(unfound(fault))),
    }
}

/// Counts.
fn count<S: Steps>(s: &mut S, name: &Name, table: TableId) -> CountTurn
    ensures turns { (n : ℕ) → FitsCount n name.now (CountRun.Counting table) (S.known s.old) → CountTurns S.sound n name.now (CountRun.Counting table) (S.known s.old) (S.known s.new) result }
    ensures one_call { S.one_call s.old s.new }
{
    match s.status(table) {
        Ok(status) => CountTurn::Over(Ok(status)),
        Err(fault) => CountTurn::Over(Err(uncounted(fault))),
    }
}

impl CountRun {
    /// A run that has made no step.
    pub fn new() -> CountRun
        ensures { result ≡ CountRun.Finding }
    {
        CountRun::Finding
    }

    /// Makes one call, for the table of this name.
    pub fn step<S: Steps>(self, s: &mut S, name: &Name) -> CountTurn
        ensures turns { (n : ℕ) → FitsCount n name.now self (S.known s.old) → CountTurns S.sound n name.now self (S.known s.old) (S.known s.new) result }
        ensures one_call { S.one_call s.old s.new }
    {
        match self {
            CountRun::Finding => find(s, name),
            CountRun::Counting(table) => count(s, name, table),
        }
    }
}
