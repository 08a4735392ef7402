// Scripts on a server.
ghost use Rattle.std.specs.Prelude.{◌≡◌, [], true};
ghost use Rattle.px_rounds.specs.Turns.{IsSingle, TrailGoesOn};

use px_outside::MemSink;
use px_rounds::{NoGate, Rounds, run_rounds};
use px_script::read_script;
use px_seat::Single;
use px_values::Name;
use std::alloc::Global;
use std::sync::Wait;
use std::thread::Threads;

/// Runs a script. Answers whether all was run, and printed this.
fn told<R: Threads + Wait + Sync, S: Single + Send>(
    rt: &R,
    alloc: Global,
    server: S,
    text: &str,
    schedule: &[u32],
    expected: &str,
) -> (S, bool)
    requires single { IsSingle (S.known server) }
    ensures single { IsSingle (S.known result.0) }
{
    let Ok(script) = read_script(alloc, text.as_bytes()) else {
        return (server, false);
    };
    let mut printed = MemSink::new(alloc);
    let Rounds {
        server,
        transcripts,
        sink_failed,
        memory,
    } = run_rounds(
        rt,
        alloc,
        &NoGate,
        server,
        &script,
        Some(schedule),
        &mut printed,
    );
    drop(transcripts);
    let is_told = !sink_failed && !memory && printed.held() == expected.as_bytes();
    drop(printed);
    (server, is_told)
}

/// The same on a server with which nothing was done.
#[tactic(auto, using(crate::proofs::Serving::is_single))]
pub fn told_first<R: Threads + Wait + Sync, S: Single + Send>(
    rt: &R,
    alloc: Global,
    server: S,
    text: &str,
    schedule: &[u32],
    expected: &str,
) -> (S, bool)
    requires alone { (S.known server).alone ≡ true }
    requires nothing { (S.known server).seen ≡ [] }
{
    told(rt, alloc, server, text, schedule, expected)
}

/// Whether a script prints this behind calls that were made.
#[tactic(auto, using(crate::proofs::Serving::is_single_since))]
pub fn is_told_behind<R: Threads + Wait + Sync, S: Single + Send + Drop>(
    rt: &R,
    alloc: Global,
    mut server: S,
    text: &str,
    expected: &str,
) -> bool
    requires alone { (S.known server).alone ≡ true }
{
    let Ok(name) = Name::from_str(alloc, "ORDERS") else {
        drop(server);
        return false;
    };
    // A script asks for a legal trail, which is told behind each call.
    let Ok(found) = server.find(&name) else {
        drop(server);
        return false;
    };
    drop(found);
    let (server, is_told) = told(rt, alloc, server, text, &[], expected);
    drop(server);
    is_told
}
