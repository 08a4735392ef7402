// How the end of a verification is told.
ghost use Rattle.std.specs.Prelude.{◌≡◌};
ghost use Rattle.px_verified.specs.Verified as spec;

use crate::asked::Verification;
use px_calls::StepFault;
use px_reply::{Checked, Counts, Refusal, Reply};
use px_verify::{Report, Reported};
use px_verifying::{Reports, Unfinished, VerifyFault};

fn no_table(asked: Verification) -> Refusal
    ensures { result ≡ Refusal.NoTable asked.table }
{
    let Verification {
        table,
        index,
        kind: _kind,
    } = asked;
    drop(index);
    Refusal::NoTable(table)
}

fn no_index(asked: Verification) -> Refusal
    ensures { result ≡ Refusal.NoIndex asked.index }
{
    let Verification {
        table,
        index,
        kind: _kind,
    } = asked;
    drop(table);
    Refusal::NoIndex(index)
}

/// What is told where no table was found.
pub(crate) fn unfound(asked: Verification, fault: StepFault) -> Reply
    ensures { result ≡ spec.unfound asked fault }
{
    match fault {
        StepFault::NoTable => Reply::Refused(no_table(asked)),
        StepFault::Closed { call } => {
            drop(asked);
            Reply::Refused(Refusal::Closed { call })
        }
        _ => {
            drop(asked);
            Reply::Refused(Refusal::Memory)
        }
    }
}

/// What is told where the table has no index of the name.
pub(crate) fn not_indexed(asked: Verification) -> Reply
    ensures { result ≡ Reply.Refused (Refusal.NoIndex asked.index) }
{
    Reply::Refused(no_index(asked))
}

/// Why a part was refused, as it is told.
fn refusal_of(asked: Verification, fault: VerifyFault) -> Refusal
    ensures { result ≡ spec.refusal_of asked fault }
{
    match fault {
        VerifyFault::NoTable => no_table(asked),
        VerifyFault::NoIndex => no_index(asked),
        other => {
            drop(asked);
            refusal_without_a_name(other)
        }
    }
}

/// The same of a fault that names neither the table nor the index.
fn refusal_without_a_name(fault: VerifyFault) -> Refusal
    ensures { result ≡ spec.refusal_without_a_name fault }
{
    match fault {
        VerifyFault::Limit { which, count: _ } => Refusal::Limit(which),
        VerifyFault::BelowHorizon { horizon } => Refusal::BelowHorizon { horizon },
        VerifyFault::ReadFault => Refusal::ReadFault,
        VerifyFault::WriteFault => Refusal::WriteFault,
        VerifyFault::Damaged { file, place } => Refusal::Damaged { file, place },
        VerifyFault::Closed { call } => Refusal::Closed { call },
        VerifyFault::NoTable | VerifyFault::NoIndex | VerifyFault::Memory => Refusal::Memory,
    }
}

fn counts_of(report: Report) -> Counts
    ensures { result ≡ spec.counts_of report }
{
    Counts {
        matching: report.matching,
        unverified: report.unverified,
        missing: report.missing,
        extra: report.extra,
        wrong: report.wrong,
    }
}

/// A report as it is shown.
fn shown(reported: Option<Reported>) -> Option<Counts>
    ensures { result ≡ spec.shown reported }
{
    match reported {
        Some(reported) => Some(counts_of(reported.report)),
        None => None,
    }
}

fn checked_of(done: Reports, refused: Option<Refusal>) -> Checked
    ensures { result ≡ spec.checked_of done refused }
{
    Checked {
        before: shown(done.before),
        rebuilt: done.rebuilt.is_some(),
        after: shown(done.after),
        refused,
    }
}

/// What is told of the end of a verification.
pub(crate) fn told(asked: Verification, came: Result<Reports, Unfinished>) -> Reply
    ensures { result ≡ spec.told_of_verification asked came }
{
    match came {
        Ok(done) => {
            drop(asked);
            Reply::Verified(checked_of(done, None))
        }
        Err(Unfinished { done, fault }) => {
            Reply::Verified(checked_of(done, Some(refusal_of(asked, fault))))
        }
    }
}
