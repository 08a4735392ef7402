// Two rounds of three sessions.
use crate::bare::Bare;
use px_outside::{MemSink, Numbers};
use px_rounds::{NoGate, Rounds, run_rounds};
use px_script::{ScriptFault, read_script};
use std::alloc::Global;
use std::sync::Wait;
use std::test::Fail;
use std::thread::Threads;

const SCRIPT: &str = "UPSERT INTO GONE VALUES (1);
@2 !scn 7
@3 DROP TABLE IF EXISTS GONE;
@3 SELEC;
---
@2 UPSERT INTO GONE VALUES (1);
@2 !scn off
@2 UPSERT INTO GONE VALUES (1);
?
@3 !scn 4
";

/// What the first round prints, and the second, by the description of replies.
const FIRST: &str = "E05 no such table: GONE
@2
scn 7
@3
table absent
E01 syntax at byte 0
";

const SECOND: &str = "E02 left out: ?
@2
E13 not under scn
scn off
E05 no such table: GONE
@3
scn 4
";

/// Schedules. They name sessions that are over by then, and some that aren't there; they end early, or go on behind the end.
const SCHEDULES: &[&[u32]] = &[
    &[],
    &[0, 4, 32, 33, 65_535],
    &[3],
    &[3, 3, 3, 3, 3, 3, 3, 3, 3, 3, 3, 3, 3, 3, 3, 3, 3, 3, 3, 3],
    &[
        2, 2, 2, 2, 2, 2, 2, 2, 2, 2, 2, 2, 1, 1, 1, 1, 1, 1, 1, 1, 1, 1, 1, 1, 3, 3, 3, 3, 3, 3,
        3, 3,
    ],
    &[
        1, 2, 3, 3, 2, 1, 1, 2, 3, 3, 2, 1, 1, 2, 3, 3, 2, 1, 1, 2, 3, 3, 2, 1, 1, 2, 3, 3, 2, 1,
        1, 2,
    ],
    &[1, 1, 1, 1, 1, 1, 1, 1, 2, 3],
    &[3, 3, 9, 2, 0, 3, 3, 1, 4_294_967_295, 2, 2, 1],
    &[2, 3, 2, 3, 2, 3],
];

/// How many transcripts the rounds left, and whether the sink failed.
fn run<R: Threads + Wait + Sync>(
    rt: &R,
    alloc: Global,
    schedule: Option<&[u32]>,
    sink: &mut MemSink,
) -> Result<(usize, bool), ScriptFault> {
    let script = read_script(alloc, SCRIPT.as_bytes())?;
    let Rounds {
        server,
        transcripts,
        sink_failed,
        memory,
    } = run_rounds(rt, alloc, &NoGate, Bare::new(), &script, schedule, sink);
    drop(server);
    drop(script);
    let count = transcripts.as_slice().len();
    drop(transcripts);
    if memory {
        return Err(ScriptFault::Memory);
    }
    Ok((count, sink_failed))
}

fn call(alloc: Global, number: u64) -> Result<Numbers, Fail> {
    let mut numbers = Vec::new(alloc);
    numbers.push(number)?;
    Ok(Numbers::of(numbers))
}

/// Whether the sink holds these two texts.
fn holds(sink: &MemSink, first: &str, second: &str) -> bool {
    match sink.held().split_at_checked(first.len()) {
        Some((front, rest)) => front == first.as_bytes() && rest == second.as_bytes(),
        None => false,
    }
}

#[test]
fn each_schedule_gives_the_same_replies(rt: HostRuntime) {
    for schedule in SCHEDULES {
        let mut sink = MemSink::new(rt.alloc());
        let ran = run(&rt, rt.alloc(), Some(*schedule), &mut sink);
        let right = holds(&sink, FIRST, SECOND);
        drop(sink);
        assert!(rt; ran == Ok((6, false)));
        assert!(rt; right);
    }
}

#[test]
fn threads_give_the_same_replies(rt: HostRuntime) {
    let mut sink = MemSink::new(rt.alloc());
    let ran = run(&rt, rt.alloc(), None, &mut sink);
    let right = holds(&sink, FIRST, SECOND);
    drop(sink);
    assert!(rt; ran == Ok((6, false)));
    assert!(rt; right);
}

#[test]
fn a_sink_fails_in_the_first_round(rt: HostRuntime) -> Result<(), Fail> {
    let mut sink = MemSink::new(rt.alloc()).fail_at(call(rt.alloc(), 1)?);
    let ran = run(&rt, rt.alloc(), None, &mut sink);
    let right = holds(&sink, "", "");
    drop(sink);
    assert!(rt; ran == Ok((3, true)));
    assert!(rt; right);
    Ok(())
}

#[test]
fn a_sink_fails_in_the_second_round(rt: HostRuntime) -> Result<(), Fail> {
    let mut sink = MemSink::new(rt.alloc()).fail_at(call(rt.alloc(), 2)?);
    let ran = run(&rt, rt.alloc(), Some(&[3, 2, 1]), &mut sink);
    let right = holds(&sink, FIRST, "");
    drop(sink);
    assert!(rt; ran == Ok((6, true)));
    assert!(rt; right);
    Ok(())
}
