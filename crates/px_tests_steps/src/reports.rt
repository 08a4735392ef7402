// A report on an index of a table that doesn't stand.
use crate::bare::Bare;
use px_values::{IndexId, TableId};
use px_verify::{ReportFault, run_report};

#[test]
fn a_report_is_refused(rt: HostRuntime) {
    let answer = run_report(&rt, rt.alloc(), &mut Bare::new(), TableId(3), IndexId(4));
    assert!(rt; matches!(answer, Err(ReportFault::NoTable)));
}
