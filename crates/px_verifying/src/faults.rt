// The faults of parts as those of a verification.
ghost use Rattle.std.specs.Prelude.{◌≡◌};
ghost use Rattle.px_verifying.specs.Faults.{build_fault as build_fault_is, definition_fault as definition_fault_is, report_fault as report_fault_is};

use crate::answer::VerifyFault;
use px_defining::DefineFault;
use px_upkeep::BuildFault;
use px_verify::ReportFault;

pub(crate) fn report_fault(f: ReportFault) -> VerifyFault
    ensures { result ≡ report_fault_is f }
{
    match f {
        ReportFault::NoTable => VerifyFault::NoTable,
        ReportFault::NoIndex => VerifyFault::NoIndex,
        ReportFault::BelowHorizon { horizon } => VerifyFault::BelowHorizon { horizon },
        ReportFault::ReadFault => VerifyFault::ReadFault,
        ReportFault::Damaged { file, place } => VerifyFault::Damaged { file, place },
        ReportFault::Closed { call } => VerifyFault::Closed { call },
        ReportFault::Memory => VerifyFault::Memory,
    }
}

pub(crate) fn definition_fault(f: DefineFault) -> VerifyFault
    ensures { result ≡ definition_fault_is f }
{
    match f {
        DefineFault::NoTable => VerifyFault::NoTable,
        DefineFault::NoIndex => VerifyFault::NoIndex,
        DefineFault::Limit { which, count } => VerifyFault::Limit { which, count },
        DefineFault::ReadFault => VerifyFault::ReadFault,
        DefineFault::WriteFault => VerifyFault::WriteFault,
        DefineFault::Damaged { file, place } => VerifyFault::Damaged { file, place },
        DefineFault::Closed { call } => VerifyFault::Closed { call },
        DefineFault::NameExists | DefineFault::Memory => VerifyFault::Memory,
    }
}

pub(crate) fn build_fault(f: BuildFault) -> VerifyFault
    ensures { result ≡ build_fault_is f }
{
    match f {
        BuildFault::NoTable => VerifyFault::NoTable,
        BuildFault::NoIndex => VerifyFault::NoIndex,
        BuildFault::Limit { which, count } => VerifyFault::Limit { which, count },
        BuildFault::BelowHorizon { horizon } => VerifyFault::BelowHorizon { horizon },
        BuildFault::ReadFault => VerifyFault::ReadFault,
        BuildFault::WriteFault => VerifyFault::WriteFault,
        BuildFault::Damaged { file, place } => VerifyFault::Damaged { file, place },
        BuildFault::Closed { call } => VerifyFault::Closed { call },
        BuildFault::Memory => VerifyFault::Memory,
    }
}
