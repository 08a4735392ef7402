// The run of a load.
ghost use Rattle.std.specs.Prelude.{◌≡◌, ◌≤◌, [], true, IfOk};
ghost use Rattle.px_load.specs.Script.{load_text as text_of};
ghost use Rattle.px_load.specs.Told.{told_of_load};
ghost use Rattle.px_loaded.specs.Loads.{RanLoad};
ghost use Rattle.px_rounds.specs.Turns.{TrailGoesOn};
ghost use Rattle.px_rounds.specs.Written.{IsTextWritten};
ghost use Rattle.px_script.specs.Scripts.{script_of};

use crate::writing::{Unread, write_told};
use px_load::{Load, law_load, load_text};
use px_outside::Sink;
use px_rounds::{NoGate, Rounds, run_rounds};
use px_script::{Script, ScriptFault, read_script};
use px_seat::Single;
use px_values::Items;
use std::alloc::{AllocError, Global};
use std::sync::Wait;
use std::thread::Threads;

/// The script of a load, as it is read.
fn script_of_load(alloc: Global, load: Load) -> Result<Script, AllocError>
    requires { load.rows ≤ 100000 }
    ensures { IfOk result (λ script. script ≡ script_of (text_of load)) }
{
    law_load();
    let text = load_text(alloc, load)?;
    match read_script(alloc, text.as_bytes()) {
        Ok(script) => Ok(script),
        Err(ScriptFault::TooLong) => unreachable!(),
        Err(ScriptFault::NotUtf8 { .. }) => unreachable!(),
        Err(ScriptFault::Memory) => Err(AllocError),
    }
}

/// Runs a load on steps with which nothing was done, and writes what is told of it. Nobody else acts on them.
pub fn run_load<R: Threads + Wait + Sync, S: Single + Send, O: Sink>(
    rt: &R,
    alloc: Global,
    server: S,
    load: Load,
    out: &mut O,
) -> Rounds<S>
    requires rows { load.rows ≤ 100000 }
    requires alone { (S.known server).alone ≡ true }
    requires nothing { (S.known server).seen ≡ [] }
    ensures goes { TrailGoesOn (S.known server) (S.known result.server) }
    ensures ran { RanLoad S.sound (S.known result.server) 0 load result.transcripts result.memory }
    ensures written { IsTextWritten ⟦<O as Sink>⟧ out.old out.new (told_of_load load result.transcripts) result.sink_failed result.memory }
{
    let Ok(script) = script_of_load(alloc, load) else {
        return Rounds {
            server,
            transcripts: Items::of(Vec::new(alloc)),
            sink_failed: false,
            memory: true,
        };
    };
    let Rounds {
        server,
        transcripts,
        sink_failed: _,
        memory: lacked,
    } = run_rounds(rt, alloc, &NoGate, server, &script, None, &mut Unread);
    let (sink_failed, unprinted) = write_told(alloc, load, &transcripts, out);
    Rounds {
        server,
        transcripts,
        sink_failed,
        memory: lacked || unprinted,
    }
}
