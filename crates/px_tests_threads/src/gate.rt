// A session is held between two steps of its batch until another has been answered.
use px_rounds::Gate;
use px_session::SessionRun;
use px_tests_runs::runs::run_whole;
use std::alloc::Global;
use std::sync::Wait;
use std::sync::atomic::{AtomicBool, AtomicU64, Ordering};
use std::thread;
use std::thread::Threads;

const SCRIPT: &str = "UPSERT INTO KV VALUES ('a','b');
@2 SELECT * FROM KV;
";

/// So often a gate looks before it gives up.
const MOST_LOOKS: u64 = 1_000_000;

/// So many steps session 1 makes before that which marks its batch: it begins its statement, finds the table, and begins the batch.
const BEFORE_MARK: u64 = 3;

/// Holds session 1 after its step `mark` until session 2 has its reply, and session 2 before its first step until session 1 is there.
#[derive(Drop)]
struct Held {
    passes: AtomicU64,
    marked: AtomicBool,
    answered: AtomicBool,
    given_up: AtomicBool,
}

impl Held {
    fn new() -> Held {
        Held {
            passes: AtomicU64::new(0),
            marked: AtomicBool::new(false),
            answered: AtomicBool::new(false),
            given_up: AtomicBool::new(false),
        }
    }

    /// Whether session 2 had its reply while session 1 was held.
    fn held_one(&self) -> bool {
        self.answered.load(Ordering::SeqCst)
            && self.marked.load(Ordering::SeqCst)
            && !self.given_up.load(Ordering::SeqCst)
    }

    /// Waits until it is so, or until a gate gave up.
    fn wait_for(&self, flag: &AtomicBool) {
        for _ in 0..MOST_LOOKS {
            if flag.load(Ordering::SeqCst) || self.given_up.load(Ordering::SeqCst) {
                return;
            }
            thread::yield_now();
        }
        self.given_up.store(true, Ordering::SeqCst);
    }
}

impl Gate for Held {
    fn pass(&self, run: &SessionRun<'_>) {
        if run.session == 1 {
            if self.passes.fetch_add(1, Ordering::SeqCst) == BEFORE_MARK {
                self.marked.store(true, Ordering::SeqCst);
                self.wait_for(&self.answered);
            }
        } else if run.items.is_empty() {
            self.wait_for(&self.marked);
        } else {
            self.answered.store(true, Ordering::SeqCst);
        }
    }
}

/// Whether session 2 was answered while session 1 was held, and both as they must be.
fn runs_beside<R: Threads + Wait + Sync>(rt: &R, alloc: Global) -> bool {
    let gate = Held::new();
    let right = match run_whole(rt, alloc, &gate, SCRIPT, None) {
        Some(printed) => printed.held() == "1 row affected\n@2\n0 rows selected\n".as_bytes(),
        None => false,
    };
    right && gate.held_one()
}

#[test]
fn a_query_is_answered_between_two_steps_of_a_batch(rt: HostRuntime) {
    assert!(rt; runs_beside(&rt, rt.alloc()));
}
