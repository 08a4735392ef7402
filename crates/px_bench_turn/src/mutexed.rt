//! The same turns under std's mutex.
ghost use Rattle.std.specs.Prelude.{◌<◌};

use px_tally::{Mark, Tally};
use std::alloc::{AllocError, Global};
use std::sync::{Mutex, Wait};
use std::thread;
use std::thread::Threads;

// The turns of one thread. It ends early where there is no memory.
fn mark_turns<R: Wait>(rt: &R, lock: &Mutex<Tally>, seat: u32, turns: u32) {
    for turn in 0..turns {
        if lock.lock(rt).add(Mark { seat, turn }).is_err() {
            break;
        }
    }
}

/// So many threads take so many turns each.
pub(crate) fn all_mutexed<R: Threads + Wait + Sync>(
    rt: &R,
    alloc: Global,
    seats: u32,
    turns: u32,
) -> Result<Tally, AllocError>
    requires { 0 < seats }
{
    let lock = Mutex::new(Tally::new(alloc));
    let shared = &lock;
    let mut list = Vec::with_capacity(alloc, seats as usize)?;
    for seat in 0..seats {
        list.push(seat)?;
    }
    thread::for_each_mut(
        rt,
        list.as_mut_slice(),
        seats as usize,
        &|_, seat| {
            mark_turns(rt, shared, *seat, turns);
        },
    );
    Ok(lock.into_inner())
}
