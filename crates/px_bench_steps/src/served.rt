// A server over a new folder, on which batches are timed.
ghost use Rattle.std.specs.Prelude.{◌≡◌, [], true, IsTrue, ℕ};
ghost use Rattle.px_opening.specs.Opened.{IsOpenedRight, folder_in};
ghost use Rattle.px_recovery.specs.Base.{IsSoundFolder, base_of};
ghost use Rattle.px_server.specs.Others.{BeginsAt};

use crate::making::{BATCHES, Kind, ROWS, batches};
use crate::plain_disk::PlainDisk;
use crate::stepping::{Times, make_all};
use px_opening::{Opened, open};
use px_outside::{Clock, CountsCalls, Disk, FixedClock, MemSink, Metered};
use px_rounds::{NoGate, Rounds, run_rounds};
use px_script::{Script, read_script};
use px_seat::{Based, Single};
use px_server::{Founded, Server};
use px_values::Name;
use std::alloc::Global;
use std::marker::Brand;
use std::rt::Runtime;
use std::sync::Wait;
use std::thread::Threads;

/// A table with one index.
const SET_UP: &str =
    "CREATE TABLE ORDERS (ID BIGINT NOT NULL PRIMARY KEY, CUST VARCHAR, AMT INTEGER);
CREATE INDEX BY_CUST ON ORDERS (CUST) INCLUDE (AMT);
";

/// How long versions are kept, in milliseconds.
const LOOKBACK: u64 = 259_200_000;

/// The times of both kinds of batches.
#[derive(Clone, Copy)]
pub struct Both {
    pub new: Times,
    pub changed: Times,
}

/// Makes the batches of a kind; none where one was refused or made other steps.
fn timed<R: Runtime + Wait, S: Single>(
    rt: &R,
    alloc: Global,
    s: &mut S,
    kind: Kind,
) -> Option<Times> {
    let name = Name::from_str(alloc, "ORDERS").ok()?;
    let Ok(all) = batches(alloc, kind) else {
        drop(name);
        return None;
    };
    let times = make_all(rt, s, &name, all);
    drop(name);
    if times.rows == BATCHES * ROWS {
        Some(times)
    } else {
        None
    }
}

/// Makes the table, and then the batches.
#[tactic(auto, using(crate::proofs::Serving::is_single))]
fn measured<R: Runtime + Threads + Wait + Sync, S: Single + Send + Drop>(
    rt: &R,
    alloc: Global,
    server: S,
    script: &Script,
) -> Option<Both>
    requires alone { (S.known server).alone ≡ true }
    requires nothing { (S.known server).seen ≡ [] }
{
    let mut printed = MemSink::new(alloc);
    let Rounds {
        mut server,
        transcripts,
        sink_failed: _,
        memory: _,
    } = run_rounds(rt, alloc, &NoGate, server, script, Some(&[]), &mut printed);
    drop(printed);
    drop(transcripts);
    let new = timed(rt, alloc, &mut server, Kind::New);
    let changed = timed(rt, alloc, &mut server, Kind::Changed);
    drop(server);
    match (new, changed) {
        (Some(new), Some(changed)) => Some(Both { new, changed }),
        _ => None,
    }
}

/// Times batches on a server with which nothing was done.
fn served<
    R: Runtime + Threads + Wait + Sync,
    D: CountsCalls + Drop + Send,
    C: Clock + Drop + Send,
    B: Based + Founded + Send + Sync,
>(rt: &R, alloc: Global, server: Server<D, C, B>, script: &Script) -> Option<Both>
    requires { server.entries ≡ [] }
{
    measured(rt, alloc, server, script)
}

/// Times batches over a folder that was opened. `B` tells the base, and nothing is told of the disk.
fn over<
    R: Runtime + Threads + Wait + Sync,
    D: CountsCalls + Drop + Send,
    C: Clock + Drop + Send,
    B: Based + Founded + Send + Sync,
>(rt: &R, alloc: Global, disk: D, clock: C, opened: Opened, script: &Script) -> Option<Both>
    requires right { IsOpenedRight opened }
    requires base { B.base ≡ base_of (folder_in opened) }
    requires sound { B.sound → IsSoundFolder (folder_in opened) }
    requires premise { B.premise → ⊥ }
    requires began { BeginsAt ⟦<D as Disk>⟧ B.began disk }
    requires times { IsTrue C.tells → (n : ℕ) → C.times clock n ≡ B.times n }
    requires lookback { B.lookback ≡ 259200000 }
{
    match Server::<D, C, B>::over(alloc, disk, clock, LOOKBACK, opened) {
        Ok(server) => served(rt, alloc, server, script),
        Err(disk) => {
            drop(disk);
            None
        }
    }
}

/// Times batches over a folder that was opened.
fn over_opened<
    R: Runtime + Threads + Wait + Sync,
    D: CountsCalls + Drop + Send,
    C: Clock + Drop + Send,
>(rt: &R, alloc: Global, disk: D, clock: C, opened: Opened, script: &Script) -> Option<Both>
    requires right { IsOpenedRight opened }
{
    over::<R, D, C, Brand>(rt, alloc, disk, clock, opened, script)
}

/// Times batches in a new folder; none where one was refused.
pub fn round<R: Runtime + Threads + Wait + Sync>(rt: &R, alloc: Global) -> Option<Both> {
    let script = read_script(alloc, SET_UP.as_bytes()).ok()?;
    let mut disk = Metered::new(PlainDisk::new(alloc));
    let times = match open(alloc, &mut disk) {
        Ok(opened) => over_opened(rt, alloc, disk, FixedClock(0), opened, &script),
        Err(_) => {
            drop(disk);
            None
        }
    };
    drop(script);
    times
}
