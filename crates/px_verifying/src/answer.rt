// What a verification is asked for, and what it comes to.
ghost use Rattle.std.specs.Prelude.{◌≡◌};
ghost use Rattle.px_verifying.specs.Kinds.{rebuilds as rebuilds_is, reports_first as reports_first_is, reports_last as reports_last_is};

use px_calls::Made;
use px_values::Limit;
use px_verify::Reported;

/// Which parts a verification has, in order.
#[derive(Clone, Copy)]
pub enum VerifyKind {
    /// A rebuilding alone.
    None,
    /// A report alone.
    Only,
    /// A report, and then a rebuilding.
    Before,
    /// A rebuilding, and then a report.
    After,
    /// A report, a rebuilding, and a report again.
    Both,
}

/// The parts of a verification that are finished.
#[derive(Clone, Copy)]
pub struct Reports {
    /// The report that comes first.
    pub before: Option<Reported>,
    /// The index that the rebuilding made active.
    pub rebuilt: Option<Made>,
    /// The report behind the rebuilding.
    pub after: Option<Reported>,
}

/// Why a part was refused.
#[derive(Clone, Copy)]
pub enum VerifyFault {
    NoTable,
    /// Also where the definitions at the point of a report lack the index.
    NoIndex,
    /// The counted quantity would pass this number. Of Key: a row's key in the index would be longer.
    Limit { which: Limit, count: u64 },
    BelowHorizon { horizon: u64 },
    ReadFault,
    WriteFault,
    Damaged { file: u64, place: u64 },
    Closed { call: u64 },
    Memory,
}

/// The parts that were finished, and why the next one wasn't.
#[derive(Clone, Copy)]
pub struct Unfinished {
    pub done: Reports,
    pub fault: VerifyFault,
}

/// What one step of a verification came to.
#[derive(Clone, Copy)]
pub enum VerifyTurn {
    Stepped,
    /// The same step is to be tried again after steps of others.
    Waiting,
    Over(Result<Reports, Unfinished>),
}

impl VerifyKind {
    /// Whether a report comes first.
    pub fn reports_first(self) -> bool
        ensures { result ≡ reports_first_is self }
    {
        match self {
            VerifyKind::Only | VerifyKind::Before | VerifyKind::Both => true,
            VerifyKind::None | VerifyKind::After => false,
        }
    }

    /// Whether the index is rebuilt.
    pub fn rebuilds(self) -> bool
        ensures { result ≡ rebuilds_is self }
    {
        !matches!(self, VerifyKind::Only)
    }

    /// Whether a report comes behind the rebuilding.
    pub fn reports_last(self) -> bool
        ensures { result ≡ reports_last_is self }
    {
        matches!(self, VerifyKind::After | VerifyKind::Both)
    }
}
