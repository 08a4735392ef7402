// The replies of a round are written before the next begins.
use crate::bare::Bare;
use px_outside::{Failed, MemSink, Sink};
use px_rounds::{Gate, Rounds, run_rounds};
use px_script::{ScriptFault, read_script};
use px_session::SessionRun;
use std::alloc::Global;
use std::sync::Wait;
use std::sync::atomic::{AtomicBool, Ordering};
use std::thread::Threads;

const SCRIPT: &str = "UPSERT INTO GONE VALUES (1);
@2 !scn 7
---
UPSERT INTO GONE VALUES (1);
@2 !scn off
";

/// What the first round prints, and both.
const FIRST: &str = "E05 no such table: GONE\n@2\nscn 7\n";

const BOTH: &str = "E05 no such table: GONE\n@2\nscn 7\nE05 no such table: GONE\n@2\nscn off\n";

/// Tells whether a session has made a step in the second round.
#[derive(Drop)]
struct Second {
    began: AtomicBool,
}

impl Gate for Second {
    fn pass(&self, run: &SessionRun<'_>) {
        if run.round == 2 {
            self.began.store(true, Ordering::SeqCst);
        }
    }
}

/// A sink that counts the bytes that it took before the second round began.
#[derive(Drop)]
struct Early<'a, O: Sink> {
    sink: O,
    gate: &'a Second,
    early: u64,
}

impl<'a, O: Sink> Sink for Early<'a, O> {
    ghost tells = { O.tells };

    ghost held = { λ s. O.held s.sink };

    ghost faults = { λ s. O.faults s.sink };

    fn write(&mut self, from: &[u8]) -> Result<usize, Failed> {
        let taken = self.sink.write(from)?;
        if !self.gate.began.load(Ordering::SeqCst) {
            self.early = self.early.saturating_add(taken as u64);
        }
        Ok(taken)
    }
}

/// How many bytes were written before the second round began, and whether all were at the end.
fn told_early<R: Threads + Wait + Sync>(rt: &R, alloc: Global) -> Result<(u64, bool), ScriptFault> {
    let script = read_script(alloc, SCRIPT.as_bytes())?;
    let gate = Second {
        began: AtomicBool::new(false),
    };
    let mut out = Early {
        sink: MemSink::new(alloc),
        gate: &gate,
        early: 0,
    };
    let Rounds {
        server,
        transcripts,
        sink_failed: _,
        memory: _,
    } = run_rounds(rt, alloc, &gate, Bare::new(), &script, None, &mut out);
    drop(server);
    drop(transcripts);
    drop(script);
    let began = gate.began.load(Ordering::SeqCst);
    let told = (out.early, began && out.sink.held() == BOTH.as_bytes());
    drop(out);
    drop(gate);
    Ok(told)
}

#[test]
fn replies_are_written_before_the_next_round(rt: HostRuntime) {
    let told = told_early(&rt, rt.alloc());
    assert!(rt; told == Ok((FIRST.len() as u64, true)));
}
