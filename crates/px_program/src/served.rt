// A script, or a verification, on a server.
ghost use Rattle.std.specs.Prelude.{◌≡◌, ◌⊎◌, [], true, false};
ghost use Rattle.px_program.specs.Answers.{AnswersScript, AnswersVerification, stopped_by};
ghost use Rattle.px_reply.specs.Printed.{printed};
ghost use Rattle.px_rounds.specs.Turns.{TrailGoesOn};
ghost use Rattle.px_rounds.specs.Written.{IsTextWritten};

use crate::replies::{answered, room_for_one, stopped};
use px_outside::Sink;
use px_reply::Transcripts;
use px_rounds::{NoGate, Rounds, run_rounds, write_round};
use px_script::{ScriptFault, read_script};
use px_seat::Single;
use px_values::Items;
use px_verified::{Verification, verify};
use std::alloc::Global;
use std::sync::Wait;
use std::thread::Threads;

/// No memory was found to keep a reply.
fn untold<S: Single + Send>(alloc: Global, server: S) -> Rounds<S>
    ensures server { result.server ≡ server }
    ensures transcripts { result.transcripts ≡ [] }
    ensures sink { result.sink_failed ≡ false }
    ensures memory { result.memory ≡ true }
{
    Rounds {
        server,
        transcripts: Items::of(Vec::new(alloc)),
        sink_failed: false,
        memory: true,
    }
}

/// Writes the replies, after which nothing more is done.
fn told<S: Single + Send, O: Sink>(
    alloc: Global,
    server: S,
    transcripts: Transcripts,
    out: &mut O,
) -> Rounds<S>
    ensures server { result.server ≡ server }
    ensures transcripts { result.transcripts ≡ transcripts }
    ensures written { IsTextWritten ⟦<O as Sink>⟧ out.old out.new (printed transcripts) result.sink_failed result.memory }
{
    let (sink_failed, memory) = write_round(alloc, &transcripts, out);
    Rounds {
        server,
        transcripts,
        sink_failed,
        memory,
    }
}

/// Session 1 is told why nothing of the script is run.
fn refuse<S: Single + Send, O: Sink>(
    alloc: Global,
    server: S,
    fault: ScriptFault,
    len: usize,
    out: &mut O,
) -> Rounds<S>
    ensures server { result.server ≡ server }
    ensures transcripts { (result.transcripts ≡ stopped_by fault len) ⊎ ((result.transcripts ≡ []) × (result.memory ≡ true)) }
    ensures written { IsTextWritten ⟦<O as Sink>⟧ out.old out.new (printed result.transcripts) result.sink_failed result.memory }
{
    match stopped(alloc, fault, len) {
        Err(_) => untold(alloc, server),
        Ok(transcripts) => told(alloc, server, transcripts, out),
    }
}

/// Runs a script on a server with which nothing was done, by a schedule where there is one, and writes its replies. Nobody else acts on it.
#[tactic(auto, using(crate::proofs::Serving::is_single))]
pub fn run_script<R: Threads + Wait + Sync, S: Single + Send, O: Sink>(
    rt: &R,
    alloc: Global,
    server: S,
    script: &[u8],
    schedule: Option<&[u32]>,
    out: &mut O,
) -> Rounds<S>
    requires alone { (S.known server).alone ≡ true }
    requires nothing { (S.known server).seen ≡ [] }
    ensures goes { TrailGoesOn (S.known server) (S.known result.server) }
    ensures answered { AnswersScript S.sound (S.known result.server) 0 script.now result.transcripts result.sink_failed result.memory }
    ensures written { IsTextWritten ⟦<O as Sink>⟧ out.old out.new (printed result.transcripts) result.sink_failed result.memory }
{
    match read_script(alloc, script) {
        Ok(rounds) => run_rounds(rt, alloc, &NoGate, server, &rounds, schedule, out),
        Err(fault) => refuse(alloc, server, fault, script.len(), out),
    }
}

/// Verifies an index on a server with which nothing was done, and writes the reply. Nobody else acts on it. The room for the reply is taken
/// before.
pub fn run_verified<R: Threads + Wait + Sync, S: Single + Send, O: Sink>(
    rt: &R,
    alloc: Global,
    mut server: S,
    asked: Verification,
    out: &mut O,
) -> Rounds<S>
    requires alone { (S.known server).alone ≡ true }
    requires nothing { (S.known server).seen ≡ [] }
    ensures goes { TrailGoesOn (S.known server) (S.known result.server) }
    ensures answered { AnswersVerification S.sound (S.known result.server) 0 asked result.transcripts result.memory }
    ensures written { IsTextWritten ⟦<O as Sink>⟧ out.old out.new (printed result.transcripts) result.sink_failed result.memory }
{
    match room_for_one(alloc) {
        Err(_) => {
            drop(asked);
            untold(alloc, server)
        }
        Ok(room) => {
            server.act_as(1);
            let first = server.seen();
            let reply = verify(rt, alloc, &mut server, asked);
            let last = server.seen();
            let transcripts = answered(alloc, room, reply, first, last);
            told(alloc, server, transcripts, out)
        }
    }
}
