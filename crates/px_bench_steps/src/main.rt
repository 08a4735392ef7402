//! Times the steps of batches on a server over a disk in memory. `px_bench_steps ROUNDS` makes, in so many new folders, 20 batches of 100
//! new rows of a table with one index, and then 20 that change these rows, and prints how many rows a second each kind passes in its best
//! round, and in how many parts of a thousand of that time each step is made. Without an argument it does so once, and prints the counts alone.
//! Nothing is proved of times. `bench/server.sh` builds it by LLVM and runs it.
#![tactic(auto)]

mod making;
mod plain_disk;
mod served;
mod stepping;

use crate::served::{Both, round};
use crate::stepping::{NAMES, Times};
use std::alloc::Global;
use std::rt::Runtime;
use std::sync::Wait;
use std::thread::Threads;
use std::{env, io};

/// How many there are for each whole.
fn rate(part: u64, by: u64, whole: u64) -> u64 {
    (u128::from(part).wrapping_mul(u128::from(by)) / u128::from(whole.max(1))
        % 1_000_000_000_000) as u64
}

/// Prints how many rows a second, and the share of each step.
fn print<R: Runtime>(rt: &R, kind: &str, times: &Times) -> io::Result<()> {
    let all = times.all();
    let rows = rate(times.rows, 1_000_000_000, all);
    println!(rt; "{kind}: {rows} rows a second")?;
    for step in 0..6 {
        let (name, nanos) = (NAMES[step], times.steps[step]);
        let (share, each) = (rate(nanos, 1_000, all), rate(nanos, 1, times.rows));
        println!(rt; "    {name}: {share} of 1,000, {each} nanoseconds a row")?;
    }
    Ok(())
}

/// Prints what came of the best round of each kind.
fn print_all<R: Runtime>(rt: &R, both: &Both) -> io::Result<()> {
    print(rt, "new rows", &both.new)?;
    print(rt, "changed rows", &both.changed)
}

/// Makes the rounds.
fn run<R: Runtime + Threads + Wait + Sync>(
    rt: &R,
    alloc: Global,
    rounds: u64,
    is_timed: bool,
) -> io::Result<()> {
    let mut both = Both {
        new: Times::NONE,
        changed: Times::NONE,
    };
    for _ in 0..rounds {
        let Some(times) = round(rt, alloc) else {
            return println!(rt; "a batch was refused");
        };
        both = Both {
            new: both.new.best(times.new),
            changed: both.changed.best(times.changed),
        };
    }
    if is_timed {
        return print_all(rt, &both);
    }
    let (new, changed) = (both.new.rows, both.changed.rows);
    println!(rt; "{new} rows written, {changed} changed")
}

fn main(rt: HostRuntime) -> io::Result<()> {
    let mut words = env::args(&rt)?;
    drop(words.next());
    let rounds = words.next();
    drop(words);
    match rounds {
        Some(word) => {
            let rounds = word.as_str().parse::<u64>().unwrap_or(100);
            drop(word);
            run(&rt, rt.alloc(), rounds, true)
        }
        None => run(&rt, rt.alloc(), 1, false),
    }
}
