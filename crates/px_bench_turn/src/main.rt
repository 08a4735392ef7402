//! How long a turn takes, under the turn lock and under std's mutex.
//! It is called as `px_bench_turn WHICH SEATS TURNS`, where WHICH is `turn` or `mutex`: each of so many threads takes
//! so many turns, and leaves a mark in each. It prints the turns a second, and the least and the most turns of a
//! thread while all of them took turns. With no words it takes a few turns under both, and prints no times.
//! Nothing is proved of times. `bench/turns.sh` runs it with 1, 2, 8 and 32 seats.
#![tactic(auto)]

ghost use Rattle.std.specs.Prelude.{◌<◌};

mod mutexed;
mod spread;

use mutexed::all_mutexed;
use px_tally::{Tally, all};
use spread::spread;
use std::alloc::{AllocError, Global};
use std::rt::Runtime;
use std::sync::Wait;
use std::thread::Threads;
use std::time::Instant;
use std::{env, io};

/// What guards the marks.
#[derive(Clone, Copy, Drop)]
enum Which {
    Turn,
    Mutex,
}

impl Which {
    fn parse(word: &str) -> Option<Which> {
        match word {
            "turn" => Some(Which::Turn),
            "mutex" => Some(Which::Mutex),
            _ => None,
        }
    }
}

// The marks of so many threads that take so many turns each.
fn marks<R: Threads + Wait + Sync>(
    rt: &R,
    alloc: Global,
    which: Which,
    seats: u32,
    turns: u32,
) -> Result<Tally, AllocError>
    requires { 0 < seats }
{
    match which {
        Which::Turn => all(rt, alloc, seats, turns),
        Which::Mutex => all_mutexed(rt, alloc, seats, turns),
    }
}

// Takes the turns, and prints how fast that was.
fn measure<R: Runtime + Threads + Wait + Sync>(
    rt: &R,
    alloc: Global,
    which: Which,
    seats: u32,
    turns: u32,
) -> io::Result<()>
    requires { 0 < seats }
{
    let start = Instant::now(rt)?;
    let tally = marks(rt, alloc, which, seats, turns)?;
    let micros = start.elapsed(rt)?.as_micros();
    let (least, most) = spread(alloc, &tally.marks, seats, turns)?;
    let taken = tally.marks.len() as u64;
    let a_second = (u128::from(taken) * 1_000_000)
        .checked_div(micros)
        .unwrap_or(0);
    println!(rt;
        "{seats} seats: {taken} turns, {a_second} a second, least {least} and most {most} of a seat"
    )
}

// A few turns under both, so that a gate can run the program.
fn show<R: Runtime + Threads + Wait + Sync>(rt: &R, alloc: Global) -> io::Result<()> {
    let turned = marks(rt, alloc, Which::Turn, 3, 100)?;
    let mutexed = marks(rt, alloc, Which::Mutex, 3, 100)?;
    let (turned, mutexed) = (turned.marks.len(), mutexed.marks.len());
    println!(rt; "{turned} turns under the turn lock, {mutexed} under the mutex")
}

fn main(rt: HostRuntime) -> io::Result<()> {
    let alloc = rt.alloc();
    let mut words = env::args(&rt)?.skip(1);
    let (Some(which), Some(seats), Some(turns)) = (words.next(), words.next(), words.next()) else {
        return show(&rt, alloc);
    };
    match (
        Which::parse(&which),
        seats.parse::<u32>(),
        turns.parse::<u32>(),
    ) {
        (Some(which), Ok(seats), Ok(turns)) if 0 < seats => measure(
            &rt, alloc, which, seats, turns,
        ),
        _ => println!(rt; "usage: px_bench_turn turn|mutex SEATS TURNS"),
    }
}
