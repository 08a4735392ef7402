// The steps of batches, each timed by itself.
ghost use Rattle.std.specs.Prelude.{◌≡◌, ◌≢◌, ◌≤◌, [], true, length};
ghost use Rattle.px_trail.specs.Batches.{is_distinct, rows_of};
ghost use Rattle.px_calls.specs.Requires.{AreFitting};

use px_batch::{BatchFault, BatchRun, BatchTurn};
use px_calls::{Receipt, Steps, Work};
use px_tests_making::{Batch, are_fitting};
use px_values::{Changes, Name, TableId};
use std::alloc::Global;
use std::rt::Runtime;
use std::sync::Wait;
use std::thread;
use std::time::Instant;

/// The steps of a batch of a table with one index, in their order. The first is the look for the table, the others are calls of the run.
pub const NAMES: [&str; 6] = ["find", "begin", "mark", "write", "verify_marks", "end"];

/// How many rows all batches had, and in how many nanoseconds each step was made. Of a batch that made other steps the rows don't count.
#[derive(Clone, Copy)]
pub struct Times {
    pub rows: u64,
    pub steps: [u64; 6],
}

impl Times {
    pub const NONE: Times = Times {
        rows: 0,
        steps: [0; 6],
    };

    /// Adds how long a step took.
    fn add(&mut self, step: usize, nanos: u64) {
        if let Some(all) = self.steps.get_mut(step) {
            *all = all.saturating_add(nanos);
        }
    }

    /// The time of all steps.
    pub fn all(&self) -> u64 {
        let mut sum: u64 = 0;
        for nanos in &self.steps {
            sum = sum.saturating_add(*nanos);
        }
        sum
    }

    /// The faster of two rounds.
    pub fn best(self, other: Times) -> Times {
        if self.rows == 0 || other.all() < self.all() {
            other
        } else {
            self
        }
    }
}

/// How many nanoseconds passed.
fn since<R: Runtime>(rt: &R, start: &Option<Instant>) -> u64 {
    match start {
        Some(start) => match start.elapsed(rt) {
            Ok(passed) => (passed.as_nanos() % 1_000_000_000_000) as u64,
            Err(_) => 0,
        },
        None => 0,
    }
}

/// How many rows a batch wrote that is over; none where it made other steps.
fn rows_made(made: &Result<Receipt, BatchFault>, step: usize) -> u64 {
    match made {
        Ok(receipt) => if step == 6 {
            u64::from(receipt.rows)
        } else {
            0
        },
        Err(_) => 0,
    }
}

/// Makes a batch, and adds how long each of its steps took.
fn step_all<R: Runtime + Wait, S: Steps>(
    rt: &R,
    s: &mut S,
    table: TableId,
    changes: Changes,
    times: &mut Times,
)
    requires some { changes ≢ [] }
    requires rows { length changes ≤ 1000 }
    requires distinct { is_distinct (rows_of changes) ≡ true }
    requires fits { AreFitting (S.known s.old) table.0 changes }
{
    let mut run = BatchRun::new(table, changes);
    let mut step: usize = 1;
    'steps: for _ in rt.forever() {
        let start = Instant::now(rt).ok();
        let turn = run.step(s);
        times.add(step, since(rt, &start));
        step = step.saturating_add(1);
        match turn {
            BatchTurn::Stepped => {}
            BatchTurn::Waiting { .. } => thread::yield_now(),
            BatchTurn::Over(result) => {
                run.finish();
                let rows = rows_made(&result, step);
                drop(result);
                times.rows = times.rows.saturating_add(rows);
                return;
            }
        }
    }
    unreachable!()
}

/// Makes a batch, if its rows fit the table that has the name.
#[tactic(auto, using(px_tests_making::proofs::Fitting::fitting))]
fn make<R: Runtime + Wait, S: Steps>(
    rt: &R,
    s: &mut S,
    name: &Name,
    batch: Batch,
    times: &mut Times,
) {
    let Batch { changes } = batch;
    let start = Instant::now(rt).ok();
    let Ok(found) = s.find(name) else {
        drop(changes);
        return;
    };
    times.add(0, since(rt, &start));
    let table = found.table.id;
    let is_fitting = are_fitting(&found.table, changes.as_slice());
    drop(found);
    if is_fitting {
        step_all(rt, s, table, changes, times);
    } else {
        drop(changes);
    }
}

/// Makes all upkeep, so that no batch waits for it.
fn settle<S: Steps>(s: &mut S) {
    for _ in 0..1_000 {
        match s.upkeep() {
            Ok(Work::Did) => {}
            _ => return,
        }
    }
}

/// Makes all batches, each behind the upkeep that is due, which isn't timed.
pub fn make_all<R: Runtime + Wait, S: Steps>(
    rt: &R,
    s: &mut S,
    name: &Name,
    all: Vec<Batch>,
) -> Times {
    let mut times = Times::NONE;
    for batch in all {
        settle(s);
        make(rt, s, name, batch, &mut times);
    }
    times
}
