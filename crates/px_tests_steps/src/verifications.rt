// A verification of an index whose table doesn't stand, of each kind.
use crate::bare::Bare;
use px_values::{IndexId, TableId};
use px_verifying::{Reports, Unfinished, VerifyFault, VerifyKind, run_verify};
use std::alloc::Global;
use std::sync::Wait;
use std::thread::Threads;

fn is_nothing(done: Reports) -> bool {
    done.before.is_none() && done.rebuilt.is_none() && done.after.is_none()
}

/// Why its first part is refused.
fn fault_of<R: Threads + Wait + Sync>(
    rt: &R,
    alloc: Global,
    kind: VerifyKind,
) -> Option<VerifyFault> {
    match run_verify(rt, alloc, &mut Bare::new(), TableId(3), IndexId(2), kind) {
        Err(Unfinished { done, fault }) if is_nothing(done) => Some(fault),
        _ => None,
    }
}

// The server finds no table for a point, and no memory for a definition.
#[test]
fn each_kind_is_refused(rt: HostRuntime) {
    let alloc = rt.alloc();
    assert!(rt;
        matches!(
            fault_of(&rt, alloc, VerifyKind::None),
            Some(VerifyFault::Memory)
        )
    );
    assert!(rt;
        matches!(
            fault_of(&rt, alloc, VerifyKind::Only),
            Some(VerifyFault::NoTable)
        )
    );
    assert!(rt;
        matches!(
            fault_of(&rt, alloc, VerifyKind::Before),
            Some(VerifyFault::NoTable)
        )
    );
    assert!(rt;
        matches!(
            fault_of(&rt, alloc, VerifyKind::After),
            Some(VerifyFault::Memory)
        )
    );
    assert!(rt;
        matches!(
            fault_of(&rt, alloc, VerifyKind::Both),
            Some(VerifyFault::NoTable)
        )
    );
}
