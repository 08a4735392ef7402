// Runs on a server over a disk in memory, by a list of whose step is next.
ghost use Rattle.std.specs.Prelude.{◌≡◌, [], true, IsTrue, ℕ};
ghost use Rattle.px_outside.specs.MemDisk.{mem_calls as calls_of, mem_faults as faults_of, mem_first_fault as first_fault_of};
ghost use Rattle.px_opening.specs.Opened.{IsOpenedRight, folder_in};
ghost use Rattle.px_recovery.specs.Base.{IsSoundFolder, base_of};
ghost use Rattle.px_server.specs.Others.{BeginsAt};

use px_opening::{Opened, open};
use px_outside::{Clock, CountsCalls, Disk, FixedClock, MemDisk, MemSink, Metered};
use px_reply::Transcripts;
use px_rounds::{Gate, NoGate, Rounds, run_rounds};
use px_script::{Script, read_script};
use px_seat::{Based, Single};
use px_server::{Founded, Server};
use px_trail::{Entry, Trail};
use std::alloc::{AllocError, Global};
use std::marker::Brand;
use std::sync::Wait;
use std::thread::Threads;

/// How long versions are kept, in milliseconds, where nothing else is said.
const LOOKBACK: u64 = 259_200_000;

/// What a run left, and what its sessions were answered.
#[derive(Drop)]
pub struct Ran<D> {
    pub disk: D,
    pub trail: Trail,
    pub late: Option<Entry>,
    pub transcripts: Transcripts,
    pub printed: MemSink,
    /// All of the script was run and printed.
    pub whole: bool,
}

/// The disk after a run.
pub fn disk_of(ran: Ran<MemDisk>) -> MemDisk {
    let Ran {
        disk,
        trail,
        late,
        transcripts,
        printed,
        whole: _,
    } = ran;
    drop(trail);
    drop(late);
    drop(transcripts);
    drop(printed);
    disk
}

/// Runs a script on steps with which nothing was done.
#[tactic(auto, using(crate::proofs::Serving::is_single))]
fn scheduled<R: Threads + Wait + Sync, G: Gate + Sync, S: Single + Send>(
    rt: &R,
    alloc: Global,
    gate: &G,
    server: S,
    script: &Script,
    schedule: Option<&[u32]>,
    printed: &mut MemSink,
) -> Rounds<S>
    requires alone { (S.known server).alone ≡ true }
    requires nothing { (S.known server).seen ≡ [] }
{
    run_rounds(rt, alloc, gate, server, script, schedule, printed)
}

/// Runs a script on a server with which nothing was done.
fn served<
    R: Threads + Wait + Sync,
    G: Gate + Sync,
    D: CountsCalls + Send,
    C: Clock + Drop + Send,
    B: Based + Founded + Send + Sync,
>(
    rt: &R,
    alloc: Global,
    gate: &G,
    server: Server<D, C, B>,
    script: &Script,
    schedule: Option<&[u32]>,
) -> Ran<D>
    requires { server.entries ≡ [] }
{
    let mut printed = MemSink::new(alloc);
    let Rounds {
        server,
        transcripts,
        sink_failed,
        memory,
    } = scheduled(rt, alloc, gate, server, script, schedule, &mut printed);
    let (disk, trail, late) = server.finish();
    Ran {
        disk,
        trail,
        late,
        transcripts,
        printed,
        whole: !(sink_failed || memory),
    }
}

/// Runs a script over a folder that was opened. `B` tells the base, and nothing is told of the disk.
fn run_over<
    R: Threads + Wait + Sync,
    G: Gate + Sync,
    D: CountsCalls + Send,
    C: Clock + Drop + Send,
    B: Based + Founded + Send + Sync,
>(
    rt: &R,
    alloc: Global,
    gate: &G,
    disk: D,
    clock: C,
    lookback: u64,
    opened: Opened,
    script: &Script,
    schedule: Option<&[u32]>,
) -> Result<Ran<D>, D>
    requires right { IsOpenedRight opened }
    requires base { B.base ≡ base_of (folder_in opened) }
    requires sound { B.sound → IsSoundFolder (folder_in opened) }
    requires premise { B.premise → ⊥ }
    requires began { BeginsAt ⟦<D as Disk>⟧ B.began disk }
    requires times { IsTrue C.tells → (n : ℕ) → C.times clock n ≡ B.times n }
    requires lookback { lookback ≡ B.lookback }
{
    match Server::<D, C, B>::over(alloc, disk, clock, lookback, opened) {
        Ok(server) => Ok(served(rt, alloc, gate, server, script, schedule)),
        Err(disk) => Err(disk),
    }
}

/// Runs a script over a folder that was opened.
fn run_opened<
    R: Threads + Wait + Sync,
    G: Gate + Sync,
    D: CountsCalls + Send,
    C: Clock + Drop + Send,
>(
    rt: &R,
    alloc: Global,
    gate: &G,
    disk: D,
    clock: C,
    lookback: u64,
    opened: Opened,
    script: &Script,
    schedule: Option<&[u32]>,
) -> Result<Ran<D>, D>
    requires right { IsOpenedRight opened }
{
    run_over::<R, G, D, C, Brand>(
        rt, alloc, gate, disk, clock, lookback, opened, script, schedule,
    )
}

/// Opens the folder, and runs a script on its tables. The disk comes back where a call of it failed.
fn run_on<R: Threads + Wait + Sync, G: Gate + Sync, D: CountsCalls + Send>(
    rt: &R,
    alloc: Global,
    gate: &G,
    mut disk: D,
    lookback: u64,
    script: &Script,
    schedule: Option<&[u32]>,
) -> Result<Ran<D>, D> {
    match open(alloc, &mut disk) {
        Ok(opened) => run_opened(
            rt,
            alloc,
            gate,
            disk,
            FixedClock(0),
            lookback,
            opened,
            script,
            schedule,
        ),
        Err(_) => Err(disk),
    }
}

/// What became of a run: it was run, or the folder wasn't opened, or memory was lacked.
#[derive(Drop)]
pub enum Outcome {
    Ran(Ran<MemDisk>),
    Unopened(MemDisk),
    Lacked,
}

impl Outcome {
    /// What was run, if anything was.
    pub fn ran(self) -> Option<Ran<MemDisk>> {
        match self {
            Outcome::Ran(ran) => Some(ran),
            Outcome::Unopened(disk) => {
                drop(disk);
                None
            }
            Outcome::Lacked => None,
        }
    }
}

/// A run of a script that was read, on a disk that had no call yet: in threads through a gate, or by a schedule.
fn run_through<R: Threads + Wait + Sync, G: Gate + Sync>(
    rt: &R,
    alloc: Global,
    gate: &G,
    disk: MemDisk,
    lookback: u64,
    script: &Script,
    schedule: Option<&[u32]>,
) -> Outcome
    requires fresh { (calls_of disk ≡ 0) × (faults_of disk ≡ 0) × (first_fault_of disk ≡ 0) }
{
    match run_on(
        rt,
        alloc,
        gate,
        Metered::new(disk),
        lookback,
        script,
        schedule,
    ) {
        Ok(
            Ran {
                disk,
                trail,
                late,
                transcripts,
                printed,
                whole,
            },
        ) => Outcome::Ran(Ran {
            disk: disk.into_disk(),
            trail,
            late,
            transcripts,
            printed,
            whole,
        }),
        Err(disk) => Outcome::Unopened(disk.into_disk()),
    }
}

/// A run of a script that was read by a schedule, on a disk that had no call yet.
pub fn run_read<R: Threads + Wait + Sync>(
    rt: &R,
    alloc: Global,
    disk: MemDisk,
    script: &Script,
    schedule: &[u32],
) -> Outcome
    requires fresh { (calls_of disk ≡ 0) × (faults_of disk ≡ 0) × (first_fault_of disk ≡ 0) }
{
    run_through(rt, alloc, &NoGate, disk, LOOKBACK, script, Some(schedule))
}

/// What a script prints on an empty folder in memory, if all of it is run: in threads through a gate, or by a schedule.
pub fn run_whole<R: Threads + Wait + Sync, G: Gate + Sync>(
    rt: &R,
    alloc: Global,
    gate: &G,
    text: &str,
    schedule: Option<&[u32]>,
) -> Option<MemSink> {
    let script = read_script(alloc, text.as_bytes()).ok()?;
    let Ran {
        disk,
        trail,
        late,
        transcripts,
        printed,
        whole,
    } = run_through(
        rt,
        alloc,
        gate,
        MemDisk::new(alloc),
        LOOKBACK,
        &script,
        schedule,
    )
    .ran()?;
    drop(disk);
    drop(trail);
    drop(late);
    drop(transcripts);
    if whole {
        return Some(printed);
    }
    drop(printed);
    None
}

/// A run of a script on a disk that had no call yet.
pub fn run<R: Threads + Wait + Sync>(
    rt: &R,
    alloc: Global,
    disk: MemDisk,
    text: &str,
    schedule: &[u32],
) -> Outcome
    requires fresh { (calls_of disk ≡ 0) × (faults_of disk ≡ 0) × (first_fault_of disk ≡ 0) }
{
    let Ok(script) = read_script(alloc, text.as_bytes()) else {
        drop(disk);
        return Outcome::Lacked;
    };
    run_read(rt, alloc, disk, &script, schedule)
}

/// A run of a script on a disk that had no call yet, in which versions are kept so long.
pub fn run_back<R: Threads + Wait + Sync>(
    rt: &R,
    alloc: Global,
    disk: MemDisk,
    lookback: u64,
    text: &str,
    schedule: &[u32],
) -> Outcome
    requires fresh { (calls_of disk ≡ 0) × (faults_of disk ≡ 0) × (first_fault_of disk ≡ 0) }
{
    let Ok(script) = read_script(alloc, text.as_bytes()) else {
        drop(disk);
        return Outcome::Lacked;
    };
    run_through(rt, alloc, &NoGate, disk, lookback, &script, Some(schedule))
}
