// A server over a new folder, on which calls are made.
ghost use Rattle.std.specs.Prelude.{◌≡◌, [], true, IsTrue, ℕ};
ghost use Rattle.px_opening.specs.Opened.{IsOpenedRight, folder_in};
ghost use Rattle.px_recovery.specs.Base.{IsSoundFolder, base_of};
ghost use Rattle.px_server.specs.Others.{BeginsAt};

use crate::dropping::{AGAIN, Use, again_printed, dropped_behind, made};
use crate::full::filled;
use crate::late::{is_absent, late, met};
use crate::scripts::is_told_behind;
use crate::waiting::{ASKED, ASKING, met_in_turn};
use px_opening::{Opened, open};
use px_outside::{Clock, CountsCalls, Disk, FixedClock, MemDisk, Metered};
use px_seat::Based;
use px_server::{Founded, Server};
use std::alloc::Global;
use std::marker::Brand;
use std::sync::Wait;
use std::thread::Threads;

/// What is done on the server.
#[derive(Clone, Copy)]
pub enum Case {
    /// A region is filled.
    Full,
    /// A repair comes late.
    Late,
    /// An index is to be dropped while its table is in use.
    InUse(Use),
    /// A batch waits for an earlier one.
    Waiting,
}

/// What was otherwise than it is to be.
#[derive(Clone, Copy, Debug)]
pub enum Wrong {
    NoMemory,
    NoServer,
    NoBatch,
    NotMade,
    MadeOtherwise,
    NotBusy,
    NotSettled,
    NotMet,
    NotPrepared,
    NoTable,
    NoIndex,
    NotOpened,
    NotLooked,
    NoDoubt,
    NotConsulted,
    ConsultedOtherwise,
    NotRaised,
    NotGone,
    NotAbsent,
    NotInUse,
    NotDropped,
    NotRefused,
    NotWaiting,
    NotFound,
}

/// Runs the late repair on a server with which nothing was done.
fn run_late<
    R: Threads + Wait + Sync,
    D: CountsCalls + Drop + Send,
    C: Clock + Drop + Send,
    B: Based + Founded + Send + Sync,
>(rt: &R, alloc: Global, server: Server<D, C, B>) -> Result<(), Wrong>
    requires { server.entries ≡ [] }
{
    let (mut server, is_met) = met(rt, alloc, server);
    if !is_met {
        drop(server);
        return Err(Wrong::NotMet);
    }
    if let Err(wrong) = late(rt, alloc, &mut server) {
        drop(server);
        return Err(wrong);
    }
    if is_absent(rt, alloc, server) {
        Ok(())
    } else {
        Err(Wrong::NotAbsent)
    }
}

/// Runs the drop of an index on a server with which nothing was done.
fn run_in_use<
    R: Threads + Wait + Sync,
    D: CountsCalls + Drop + Send,
    C: Clock + Drop + Send,
    B: Based + Founded + Send + Sync,
>(rt: &R, alloc: Global, server: Server<D, C, B>, used: Use) -> Result<(), Wrong>
    requires { server.entries ≡ [] }
{
    let (mut server, is_made) = made(rt, alloc, server);
    if !is_made {
        drop(server);
        return Err(Wrong::NotPrepared);
    }
    if let Err(wrong) = dropped_behind(alloc, &mut server, used) {
        drop(server);
        return Err(wrong);
    }
    if is_told_behind(rt, alloc, server, AGAIN, again_printed(used)) {
        Ok(())
    } else {
        Err(Wrong::NotRefused)
    }
}

/// Runs two batches of one row on a server with which nothing was done.
fn run_waiting<
    R: Threads + Wait + Sync,
    D: CountsCalls + Drop + Send,
    C: Clock + Drop + Send,
    B: Based + Founded + Send + Sync,
>(rt: &R, alloc: Global, server: Server<D, C, B>) -> Result<(), Wrong>
    requires { server.entries ≡ [] }
{
    let (mut server, is_made) = made(rt, alloc, server);
    if !is_made {
        drop(server);
        return Err(Wrong::NotPrepared);
    }
    if let Err(wrong) = met_in_turn(alloc, &mut server) {
        drop(server);
        return Err(wrong);
    }
    if is_told_behind(rt, alloc, server, ASKING, ASKED) {
        Ok(())
    } else {
        Err(Wrong::NotFound)
    }
}

/// Runs a case on a server with which nothing was done.
fn run_on<
    R: Threads + Wait + Sync,
    D: CountsCalls + Drop + Send,
    C: Clock + Drop + Send,
    B: Based + Founded + Send + Sync,
>(rt: &R, alloc: Global, server: Server<D, C, B>, case: Case) -> Result<(), Wrong>
    requires { server.entries ≡ [] }
{
    match case {
        Case::Full => {
            let mut server = server;
            let end = filled(rt, alloc, &mut server);
            drop(server);
            end
        }
        Case::Late => run_late(rt, alloc, server),
        Case::InUse(used) => run_in_use(rt, alloc, server, used),
        Case::Waiting => run_waiting(rt, alloc, server),
    }
}

/// Runs a case over a folder that was opened. `B` tells the base, and nothing is told of the disk.
fn run_over<
    R: Threads + Wait + Sync,
    D: CountsCalls + Drop + Send,
    C: Clock + Drop + Send,
    B: Based + Founded + Send + Sync,
>(
    rt: &R,
    alloc: Global,
    disk: D,
    clock: C,
    lookback: u64,
    opened: Opened,
    case: Case,
) -> Result<(), Wrong>
    requires right { IsOpenedRight opened }
    requires base { B.base ≡ base_of (folder_in opened) }
    requires sound { B.sound → IsSoundFolder (folder_in opened) }
    requires premise { B.premise → ⊥ }
    requires began { BeginsAt ⟦<D as Disk>⟧ B.began disk }
    requires times { IsTrue C.tells → (n : ℕ) → C.times clock n ≡ B.times n }
    requires lookback { lookback ≡ B.lookback }
{
    match Server::<D, C, B>::over(alloc, disk, clock, lookback, opened) {
        Ok(server) => run_on(rt, alloc, server, case),
        Err(disk) => {
            drop(disk);
            Err(Wrong::NoMemory)
        }
    }
}

/// Runs a case over a folder that was opened.
fn run_opened<R: Threads + Wait + Sync, D: CountsCalls + Drop + Send, C: Clock + Drop + Send>(
    rt: &R,
    alloc: Global,
    disk: D,
    clock: C,
    lookback: u64,
    opened: Opened,
    case: Case,
) -> Result<(), Wrong>
    requires right { IsOpenedRight opened }
{
    run_over::<R, D, C, Brand>(rt, alloc, disk, clock, lookback, opened, case)
}

/// Runs a case in a new folder.
pub fn run<R: Threads + Wait + Sync>(
    rt: &R,
    alloc: Global,
    lookback: u64,
    case: Case,
) -> Result<(), Wrong> {
    let mut disk = Metered::new(MemDisk::new(alloc));
    match open(alloc, &mut disk) {
        Ok(opened) => run_opened(rt, alloc, disk, FixedClock(0), lookback, opened, case),
        Err(_) => {
            drop(disk);
            Err(Wrong::NoServer)
        }
    }
}
