//! Threads that leave their marks.
use px_tally::{all, both};
use std::test::Fail;

#[test]
fn two_threads_leave_their_marks(rt: HostRuntime) -> Result<(), Fail> {
    let tally = both(&rt, rt.alloc(), 100_000)?;
    assert!(rt; tally.marks.len() == 200_000);
    Ok(())
}

#[test]
fn eight_threads_leave_their_marks(rt: HostRuntime) -> Result<(), Fail> {
    let tally = all(&rt, rt.alloc(), 8, 100_000)?;
    assert!(rt; tally.marks.len() == 800_000);
    Ok(())
}
