// Base versions.
ghost use Rattle.std.specs.Prelude.{◌≡◌, ◌≢◌, ◌≤◌, [], IfErr, IfOk, length};
ghost use Rattle.px_basing.specs.declared.fault.BaseFault.{BaseFault as Fault};
ghost use Rattle.px_calls.specs.Calls.{DidBase};
ghost use Rattle.px_calls.specs.Causes.{Refuses, base_cause};
ghost use Rattle.px_calls.specs.Requires.{HasOpen, MayBase};
ghost use Rattle.px_server.specs.Bases.{AnswersBase, RefusesBases};
ghost use Rattle.px_server.specs.DeviceCalls.{Blames, MakesAtMost};
ghost use Rattle.px_server.specs.Shown.{known_by};

use crate::shutting::shut;
use crate::{Founded, Server};
use px_basing::BaseFault;
use px_calls::{BaseRows, Point, StepFault};
use px_defined::index_place;
use px_outside::{Clock, CountsCalls};
use px_seat::Based;
use px_standing::numbered_place;
use px_trail::{Act, Entry};
use px_values::IndexId;

/// What is answered where base versions weren't written.
fn unbased(fault: BaseFault) -> StepFault
    ensures { AnswersBase fault result }
{
    match fault {
        BaseFault::Busy {
            region,
            cells,
            bytes,
        } => StepFault::Busy {
            region,
            cells,
            bytes,
        },
        BaseFault::NotReady { region } => StepFault::NotReady { region },
        BaseFault::WriteFault => StepFault::WriteFault,
        BaseFault::Memory => StepFault::Memory,
    }
}

impl<D: CountsCalls, C: Clock, B: Based + Founded> Server<D, C, B> {
    /// Gives rows of a point their base versions in an index that was born there.
    pub fn base(&mut self, p: &Point, index: IndexId, rows: &BaseRows) -> Result<u64, StepFault>
        requires open { HasOpen (known_by B.base B.damaged self.old) p.now }
        requires some { rows.now ≢ [] }
        requires few { length rows.now ≤ 64 }
        requires rows { MayBase B.sound (known_by B.base B.damaged self.old) p.now index.0 rows.now }
        ensures ok { IfOk result (DidBase (known_by B.base B.damaged self.old) (known_by B.base B.damaged self.new) p.now index rows.now) }
        ensures caused { IfErr result (RefusesBases self.old.groups p.now index rows.now) }
        ensures refused { IfErr result (Refuses base_cause (known_by B.base B.damaged self.old) (known_by B.base B.damaged self.new)) }
        ensures counts { MakesAtMost 4 self.old self.new }
        ensures blames { IfErr result (Blames self.old self.new) }
    {
        if let Some(call) = self.closed {
            return Err(StepFault::Closed { call });
        }
        let Some(place) = numbered_place(&self.standing, p.table) else {
            unreachable!()
        };
        let Some(at) = index_place(&self.groups[place], index) else {
            unreachable!()
        };
        if self.trail.reserve(1, 0).is_err() {
            return Err(StepFault::Memory);
        }
        let based = px_basing::base(
            self.alloc,
            &mut self.disk,
            &mut self.groups[place],
            at,
            rows.as_slice(),
        );
        let calls = self.disk.call_count();
        match based {
            Ok(owners) => {
                self.trail.push(Entry {
                    seat: self.seat,
                    calls,
                    act: Act::Based {
                        index,
                        rows: owners,
                    },
                });
                Ok(self.trail.len())
            }
            Err(BaseFault::WriteFault) => {
                self.closed = Some(calls);
                shut(&mut self.trail, self.seat, calls);
                Err(StepFault::WriteFault)
            }
            Err(fault) => {
                self.trail.give_back(1, 0);
                Err(unbased(fault))
            }
        }
    }
}
