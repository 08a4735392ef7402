// All rounds of a script, and their replies.
ghost use Rattle.std.specs.Prelude.{◌≡◌, ◌<◌, ◌≤◌, ◌+◌, ◌^◌, ◌++◌, ◌||◌, length, IfOk, vec_capacity};
ghost use Rattle.px_reply.specs.Printed.{printed};
ghost use Rattle.px_rounds.specs.Rounds.{RanScript, fresh_sessions};
ghost use Rattle.px_rounds.specs.Rounds as spec;
ghost use Rattle.px_rounds.specs.Turns.{IsSingle, TrailGoesOn};
ghost use Rattle.px_rounds.specs.Written.{IsTextWritten, WritesRound};
ghost use Rattle.px_rounds.specs.inner.Ways.{WentOn};

use crate::count::sessions_in;
use crate::desks::{Told, either};
use crate::gate::Gate;
use crate::schedule::run_round;
use px_calls::Steps;
use px_item::Settings;
use px_outside::{Sink, write_all};
use px_reply::{Transcript, Transcripts, print_transcripts};
use px_script::{Round, Script};
use px_seat::Single;
use px_session::SessionState;
use px_values::{Items, Line};
use std::alloc::{AllocError, Global};
use std::sync::Wait;
use std::thread::Threads;

/// What the rounds of a script left: the steps, what the sessions were answered, whether the sink failed, and whether memory was refused
/// outside a statement.
pub struct Rounds<S> {
    pub server: S,
    pub transcripts: Transcripts,
    pub sink_failed: bool,
    pub memory: bool,
}

/// The rounds so far: the steps, the states of the sessions, what they were answered, and what stopped the rounds.
struct Way<S> {
    server: S,
    states: Vec<SessionState>,
    done: Vec<Transcript>,
    sink_failed: bool,
    memory: bool,
}

/// Writes the replies of a round. Answers whether the sink failed, and whether no memory was found to print them.
pub fn write_round<O: Sink>(alloc: Global, answers: &Transcripts, out: &mut O) -> (bool, bool)
    ensures { WritesRound ⟦<O as Sink>⟧ out.old out.new (printed answers.now) result.0 result.1 }
{
    let mut line = Line::new(alloc);
    let Ok(()) = print_transcripts(answers, &mut line) else {
        return (false, true);
    };
    match write_all(out, line.as_slice()) {
        Ok(()) => (false, false),
        Err(_) => (true, false),
    }
}

/// Adds a round's transcripts, for which there is room.
fn keep(done: &mut Vec<Transcript>, more: Vec<Transcript>)
    requires { length done.old.items + length more.items ≤ vec_capacity done.old }
    ensures { done.new.items ≡ done.old.items ++ more.items }
{
    for transcript in more {
        done.push_reserved(transcript);
    }
}

fn first_state() -> SessionState
    ensures { result ≡ spec.first_state }
{
    SessionState {
        settings: Settings {
            scn: None,
            autocommit: true,
            held: None,
        },
        stopped: false,
    }
}

fn fresh_states(alloc: Global, count: usize) -> Result<Vec<SessionState>, AllocError>
    ensures { IfOk result (λ states. states.items ≡ fresh_sessions count) }
{
    let mut states = Vec::with_capacity(alloc, count)?;
    for _ in 0..count {
        states.push_reserved(first_state());
    }
    Ok(states)
}

/// One round more, and its replies, unless they were stopped.
fn go<R: Threads + Wait + Sync, S: Single + Send, G: Gate + Sync, O: Sink>(
    rt: &R,
    alloc: Global,
    gate: &G,
    way: Way<S>,
    number: u64,
    round: &Round,
    schedule: Option<&[u32]>,
    out: &mut O,
) -> Way<S>
    requires single { IsSingle (S.known way.server) }
    requires count { length way.states.items < 2 ^ 32 }
    ensures goes { TrailGoesOn (S.known way.server) (S.known result.server) }
    ensures went { WentOn S.sound ⟦<O as Sink>⟧ number round.now (S.known way.server) (S.known result.server) way.states.items way.done.items result.done.items result.states.items out.old out.new way.sink_failed way.memory result.sink_failed result.memory }
{
    if either(way.sink_failed, way.memory) {
        return way;
    }
    let Way {
        server,
        states,
        mut done,
        sink_failed: _,
        memory: _,
    } = way;
    if done.reserve(states.len()).is_err() {
        return Way {
            server,
            states,
            done,
            sink_failed: false,
            memory: true,
        };
    }
    let (server, ran) = run_round(rt, alloc, gate, server, number, round, states, schedule);
    match ran {
        Err(states) => Way {
            server,
            states,
            done,
            sink_failed: false,
            memory: true,
        },
        Ok(told) => {
            let Told {
                transcripts,
                states,
                lacked,
            } = told;
            let answers = Items::of(transcripts);
            let (sink_failed, print_failed) = write_round(alloc, &answers, out);
            keep(&mut done, answers.into_vec());
            Way {
                server,
                states,
                done,
                sink_failed,
                memory: either(lacked, print_failed),
            }
        }
    }
}

/// Runs the rounds of a script, and writes the replies of each at its end. With a schedule the sessions of a round run on one thread, each
/// by the schedule; without one in threads, through the gate.
pub fn run_rounds<R: Threads + Wait + Sync, S: Single + Send, G: Gate + Sync, O: Sink>(
    rt: &R,
    alloc: Global,
    gate: &G,
    server: S,
    script: &Script,
    schedule: Option<&[u32]>,
    out: &mut O,
) -> Rounds<S>
    requires single { IsSingle (S.known server) }
    ensures goes { TrailGoesOn (S.known server) (S.known result.server) }
    ensures ran { RanScript S.sound (S.known result.server) (length (S.known server).seen) script.now result.transcripts result.sink_failed result.memory }
    ensures written { IsTextWritten ⟦<O as Sink>⟧ out.old out.new (printed result.transcripts) result.sink_failed result.memory }
{
    let rounds = script.as_slice();
    let count = sessions_in(rounds) as usize;
    let Ok(states) = fresh_states(alloc, count) else {
        return Rounds {
            server,
            transcripts: Items::of(Vec::new(alloc)),
            sink_failed: false,
            memory: true,
        };
    };
    let mut way = Way {
        server,
        states,
        done: Vec::new(alloc),
        sink_failed: false,
        memory: false,
    };
    for place in 0..rounds.len() {
        way = go(
            rt,
            alloc,
            gate,
            way,
            place as u64 + 1,
            &rounds[place],
            schedule,
            out,
        );
    }
    let Way {
        server,
        states: _states,
        done,
        sink_failed,
        memory,
    } = way;
    Rounds {
        server,
        transcripts: Items::of(done),
        sink_failed,
        memory,
    }
}
