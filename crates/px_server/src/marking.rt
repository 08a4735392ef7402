// The marks of a batch.
ghost use Rattle.std.specs.Prelude.{◌≡◌, ◌<◌, IfErr, IfOk};
ghost use Rattle.px_trail.specs.Batches.{Marking, Verifying};
ghost use Rattle.px_trail.specs.declared.entry.Act.TheVariants.{Phase as PhaseAct};
ghost use Rattle.px_calls.specs.Calls.{DidMark, DidVerify};
ghost use Rattle.px_calls.specs.Causes.{Refuses, write_cause};
ghost use Rattle.px_calls.specs.Requires.{TicketIn};
ghost use Rattle.px_server.specs.CallsLeft.{calls_left};
ghost use Rattle.px_server.specs.DeviceCalls.{Blames, MakesAtMost};
ghost use Rattle.px_server.specs.Shown.{known_by};

use crate::shutting::shut;
use crate::{Founded, Server};
use px_calls::{Marks, StepFault, Ticket, Verifies};
use px_outside::{Clock, CountsCalls, Failed};
use px_seat::Based;
use px_standing::numbered_place;
use px_trail::{Act, Entry};

/// The entry that tells that a phase of a batch is done.
fn done(seat: u32, calls: u64, t: &Ticket, phase: u8) -> Entry
    ensures { result ≡ record { seat = seat; calls = calls; act = PhaseAct t.now.table t.now.stamp phase } }
{
    Entry {
        seat,
        calls,
        act: Act::Phase {
            table: t.table,
            stamp: t.stamp,
            phase,
        },
    }
}

impl<D: CountsCalls, C: Clock, B: Based + Founded> Server<D, C, B> {
    /// Marks the batch's rows in its next index. With the last one, or at once where there is none, its first phase is done. It takes no memory.
    pub fn mark(&mut self, t: &mut Ticket) -> Result<Marks, StepFault>
        requires { TicketIn (known_by B.base B.damaged self.old) t.old Marking }
        ensures ticket { t.new ≡ t.old }
        ensures fewer { IfOk result (λ _. calls_left self.new.groups t.old < calls_left self.old.groups t.old) }
        ensures ok { IfOk result (DidMark (known_by B.base B.damaged self.old) (known_by B.base B.damaged self.new) t.old) }
        ensures refused { IfErr result (Refuses write_cause (known_by B.base B.damaged self.old) (known_by B.base B.damaged self.new)) }
        ensures counts { MakesAtMost 4 self.old self.new }
        ensures blames { IfErr result (Blames self.old self.new) }
    {
        if let Some(call) = self.closed {
            return Err(StepFault::Closed { call });
        }
        let Some(place) = numbered_place(&self.standing, t.table) else {
            unreachable!()
        };
        let Some(batch) = self.groups[place].batch_place(t.stamp) else {
            unreachable!()
        };
        let group = &mut self.groups[place];
        let outcome = px_batching::mark(group, &mut self.disk, &mut self.frame, batch);
        let calls = self.disk.call_count();
        match outcome {
            Ok(marked) => match marked {
                Marks::More => Ok(Marks::More),
                Marks::AllMarked => {
                    self.trail.push(done(self.seat, calls, t, 1));
                    Ok(Marks::AllMarked)
                }
            },
            Err(Failed) => {
                self.closed = Some(calls);
                shut(&mut self.trail, self.seat, calls);
                Err(StepFault::WriteFault)
            }
        }
    }

    /// Closes the batch's marks at its next index, but those of rows that other batches changed. With the last one, or at once where there
    /// is none, its third phase is done. It takes no memory.
    pub fn verify_marks(&mut self, t: &mut Ticket) -> Result<Verifies, StepFault>
        requires { TicketIn (known_by B.base B.damaged self.old) t.old Verifying }
        ensures ticket { t.new ≡ t.old }
        ensures fewer { IfOk result (λ _. calls_left self.new.groups t.old < calls_left self.old.groups t.old) }
        ensures ok { IfOk result (DidVerify (known_by B.base B.damaged self.old) (known_by B.base B.damaged self.new) t.old) }
        ensures refused { IfErr result (Refuses write_cause (known_by B.base B.damaged self.old) (known_by B.base B.damaged self.new)) }
        ensures counts { MakesAtMost 4 self.old self.new }
        ensures blames { IfErr result (Blames self.old self.new) }
    {
        if let Some(call) = self.closed {
            return Err(StepFault::Closed { call });
        }
        let Some(place) = numbered_place(&self.standing, t.table) else {
            unreachable!()
        };
        let Some(batch) = self.groups[place].batch_place(t.stamp) else {
            unreachable!()
        };
        let group = &mut self.groups[place];
        let outcome = px_batching::verify(group, &mut self.disk, &mut self.frame, batch);
        let calls = self.disk.call_count();
        match outcome {
            Ok(verified) => match verified {
                Verifies::More => Ok(Verifies::More),
                Verifies::Done => {
                    self.trail.push(done(self.seat, calls, t, 3));
                    Ok(Verifies::Done)
                }
            },
            Err(Failed) => {
                self.closed = Some(calls);
                shut(&mut self.trail, self.seat, calls);
                Err(StepFault::WriteFault)
            }
        }
    }
}
