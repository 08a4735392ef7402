// What a run leaves.
ghost use Rattle.std.specs.Prelude.{◌≡◌, [], None};
ghost use Rattle.px_program.specs.Status.{is_memory_status};

use crate::status::Status;
use px_reply::Transcripts;
use px_trail::{Entry, Trail};
use px_values::Items;
use std::alloc::Global;

/// What a run leaves.
#[derive(Drop)]
pub struct Outcome<D> {
    pub status: Status,
    pub disk: D,
    /// What was done to the tables, in order.
    pub trail: Trail,
    /// What the step would have added whose failed write closed the server.
    pub late: Option<Entry>,
    pub transcripts: Transcripts,
    /// Whether memory was refused outside a statement.
    pub memory: bool,
}

impl<D> Outcome<D> {
    ghost use Rattle.px_program.specs.inner.Outcomes.{with_disk};

    /// The same with what is made of its disk.
    pub fn map_disk<E, F: FnOnce(D) -> E>(self, make: F) -> Outcome<E>
        requires { F.IsAlwaysCallable make }
        ensures disk { F.post make self.disk result.disk }
        ensures rest { result ≡ with_disk result.disk self }
    {
        let Outcome {
            status,
            disk,
            trail,
            late,
            transcripts,
            memory,
        } = self;
        Outcome {
            status,
            disk: make(disk),
            trail,
            late,
            transcripts,
            memory,
        }
    }
}

/// What a run leaves that opened no folder.
pub fn unrun<D>(alloc: Global, disk: D, status: Status) -> Outcome<D>
    ensures status { result.status ≡ status }
    ensures disk { result.disk ≡ disk }
    ensures entries { result.trail.entries ≡ [] }
    ensures late { result.late ≡ None }
    ensures transcripts { result.transcripts ≡ [] }
    ensures memory { result.memory ≡ is_memory_status status }
{
    Outcome {
        status,
        disk,
        trail: Trail::new(alloc),
        late: None,
        transcripts: Items::of(Vec::new(alloc)),
        memory: matches!(status, Status::Memory),
    }
}
