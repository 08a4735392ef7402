// The rows of a batch are written.
ghost use Rattle.std.specs.Prelude.{◌≡◌, ◌<◌, ◌≤◌, ℕ, IfErr, IfOk, Some};
ghost use Rattle.px_trail.specs.Batches.{Writing};
ghost use Rattle.px_calls.specs.Calls.{DidWrite};
ghost use Rattle.px_calls.specs.Causes.{Refuses, rows_cause};
ghost use Rattle.px_calls.specs.Requires.{TicketIn};
ghost use Rattle.px_trail.specs.declared.entry.Act.TheVariants.{Wrote as WroteAct};
ghost use Rattle.px_server.specs.CallsLeft.{calls_left};
ghost use Rattle.px_server.specs.DeviceCalls.{Blames, MakesAtMost};
ghost use Rattle.px_server.specs.Shown.{known_by};

use crate::shutting::shut;
use crate::{Founded, Server};
use px_batching::{Unwritten, blocker};
use px_calls::{StepFault, Ticket, Writes};
use px_outside::{Clock, CountsCalls};
use px_seat::Based;
use px_standing::numbered_place;
use px_trail::{Act, Entry};
use px_values::Rows;

/// The entry that tells that rows of a batch are written.
fn wrote(seat: u32, calls: u64, t: &Ticket, rows: Rows) -> Entry
    ensures { result ≡ record { seat = seat; calls = calls; act = WroteAct t.now.table t.now.stamp rows } }
{
    Entry {
        seat,
        calls,
        act: Act::Wrote {
            table: t.table,
            stamp: t.stamp,
            rows,
        },
    }
}

/// Keeps what the step would have added whose write failed.
fn keep(late: &mut Option<Entry>, entry: Entry)
    ensures { late.new ≡ Some entry }
{
    *late = Some(entry);
}

impl<D: CountsCalls, C: Clock, B: Based + Founded> Server<D, C, B> {
    /// Writes the rows of the batch, once no earlier batch is still to write one of them. It takes no memory. All of them go to one region.
    pub fn write(&mut self, t: &mut Ticket) -> Result<Writes, StepFault>
        requires { TicketIn (known_by B.base B.damaged self.old) t.old Writing }
        ensures ticket { t.new ≡ t.old }
        ensures fewer { IfOk result (λ _. calls_left self.new.groups t.old < calls_left self.old.groups t.old) }
        ensures no_more { IfErr result (λ f. (stamp : ℕ) → f ≡ StepFault.NotYet stamp → calls_left self.new.groups t.old ≤ calls_left self.old.groups t.old) }
        ensures ok { IfOk result (DidWrite (known_by B.base B.damaged self.old) (known_by B.base B.damaged self.new) t.old) }
        ensures refused { IfErr result (Refuses (rows_cause t.old.table.0 t.old.stamp) (known_by B.base B.damaged self.old) (known_by B.base B.damaged self.new)) }
        ensures counts { MakesAtMost 4 self.old self.new }
        ensures blames { IfErr result (Blames self.old self.new) }
    {
        if let Some(call) = self.closed {
            return Err(StepFault::Closed { call });
        }
        let Some(place) = numbered_place(&self.standing, t.table) else {
            unreachable!()
        };
        let Some(batch) = self.groups[place].batch_place(t.stamp) else {
            unreachable!()
        };
        if let Some(stamp) = blocker(&self.groups[place], batch) {
            return Err(StepFault::NotYet { stamp });
        }
        let group = &mut self.groups[place];
        let outcome = px_batching::write(group, &mut self.disk, &mut self.frame, batch);
        let calls = self.disk.call_count();
        match outcome {
            Ok(rows) => {
                self.trail.push(wrote(self.seat, calls, t, rows));
                Ok(Writes::AllWritten)
            }
            Err(Unwritten { rows }) => {
                keep(&mut self.late, wrote(self.seat, calls, t, rows));
                self.closed = Some(calls);
                shut(&mut self.trail, self.seat, calls);
                Err(StepFault::WriteFault)
            }
        }
    }
}
