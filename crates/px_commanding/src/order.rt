// An order to upkeep as a machine: it is given, and then upkeep is stepped until it is idle. Each step makes one call.
ghost use Rattle.std.specs.Prelude.{◌≡◌};
ghost use Rattle.px_commanding.specs.Orders.{OrderLeads, OrderTurns, job_of, undone as undone_as};

use px_calls::{Ordered, StepFault, Steps, Work};

/// An order on its way, by what the next step is.
#[derive(Clone, Copy)]
pub enum OrderRun {
    /// This is to be ordered.
    Ordering(Ordered),
    /// This was ordered, and upkeep is to make a step.
    Working(Ordered),
}

/// Why what was ordered isn't done.
#[derive(Clone, Copy)]
pub enum OrderFault {
    ReadFault,
    WriteFault,
    Damaged { file: u64, place: u64 },
    Closed { call: u64 },
    Memory,
}

/// What one step of an order came to.
#[derive(Clone, Copy)]
pub enum OrderTurn {
    Stepped(OrderRun),
    /// Upkeep has nothing left to do, or why it didn't go on.
    Over(Result<(), OrderFault>),
}

/// Why it wasn't ordered, or upkeep made no step.
fn undone(fault: StepFault) -> OrderFault
    ensures { result ≡ undone_as fault }
{
    match fault {
        StepFault::ReadFault => OrderFault::ReadFault,
        StepFault::WriteFault => OrderFault::WriteFault,
        StepFault::Damaged { file, place } => OrderFault::Damaged { file, place },
        StepFault::Closed { call } => OrderFault::Closed { call },
        _ => OrderFault::Memory,
    }
}

/// Gives the order.
fn order<S: Steps>(s: &mut S, job: Ordered) -> OrderTurn
    ensures turns { OrderTurns S.sound (S.known s.old) (S.known s.new) result }
    ensures leads { OrderLeads (S.ordered s.new) (S.done s.new) (OrderRun.Ordering job) result }
    ensures one_call { S.one_call s.old s.new }
{
    match s.order(job) {
        Ok(()) => OrderTurn::Stepped(OrderRun::Working(job)),
        Err(fault) => OrderTurn::Over(Err(undone(fault))),
    }
}

/// Makes a step of upkeep.
fn work<S: Steps>(s: &mut S, job: Ordered) -> OrderTurn
    ensures turns { OrderTurns S.sound (S.known s.old) (S.known s.new) result }
    ensures leads { OrderLeads (S.ordered s.new) (S.done s.new) (OrderRun.Working job) result }
    ensures one_call { S.one_call s.old s.new }
{
    match s.upkeep() {
        Ok(Work::Did) => OrderTurn::Stepped(OrderRun::Working(job)),
        Ok(Work::Idle) => OrderTurn::Over(Ok(())),
        Err(fault) => OrderTurn::Over(Err(undone(fault))),
    }
}

impl OrderRun {
    /// A run that has made no step.
    pub fn new(job: Ordered) -> OrderRun
        ensures { result ≡ OrderRun.Ordering job }
    {
        OrderRun::Ordering(job)
    }

    /// What is ordered.
    pub fn job(self) -> Ordered
        ensures { result ≡ job_of self }
    {
        match self {
            OrderRun::Ordering(job) | OrderRun::Working(job) => job,
        }
    }

    /// Makes one call. It is over where upkeep was idle behind the order, or where a call was refused.
    pub fn step<S: Steps>(self, s: &mut S) -> OrderTurn
        ensures turns { OrderTurns S.sound (S.known s.old) (S.known s.new) result }
        ensures leads { OrderLeads (S.ordered s.new) (S.done s.new) self result }
        ensures one_call { S.one_call s.old s.new }
    {
        match self {
            OrderRun::Ordering(job) => order(s, job),
            OrderRun::Working(job) => work(s, job),
        }
    }
}
