// Batches begin.
ghost use Rattle.std.specs.Prelude.{◌≡◌, ◌≢◌, ◌≤◌, ◌+◌, ◌*◌, [], Err, IfErr, IfOk, OnErr, OnOk, length, true};
ghost use Rattle.px_calls.specs.Calls.{DidBegin};
ghost use Rattle.px_calls.specs.Causes.{Refuses, begin_cause, index_count};
ghost use Rattle.px_calls.specs.Requires.{AreFitting};
ghost use Rattle.px_group.specs.Group.{IsRightGroup};
ghost use Rattle.px_calls.specs.declared.fault.StepFault.{StepFault as Fault};
ghost use Rattle.px_outside.specs.OnDisk.{Rose};
ghost use Rattle.px_phases.specs.Batch.{AllFit};
ghost use Rattle.px_region.specs.OnlyRead.{HasOnlyRead};
ghost use Rattle.px_trail.specs.Batches.{is_distinct, rows_of};
ghost use Rattle.px_beginning.specs.Leaves.{KeepsRooms, LeavesGroup};
ghost use Rattle.px_server.specs.Beginning.{HasTaken, IsUnbegun, LetsIn, RefusesBatch};
ghost use Rattle.px_server.specs.CallsLeft.{calls_left};
ghost use Rattle.px_server.specs.DeviceCalls.{Blames, MakesNoCall};
ghost use Rattle.px_server.specs.Shown.{known_by};

use crate::missing::told;
use crate::readying::{Ready, Started, ready_of};
use crate::taking::take_room;
use crate::{Founded, Server};
use px_beginning::{admit, law_begins};
use px_calls::{StepFault, Ticket};
use px_group::Group;
use px_outside::{Clock, CountsCalls, Disk};
use px_seat::Based;
use px_standing::numbered_place;
use px_trail::{Act, Entry, Trail};
use px_values::{Changes, TableId};
use std::alloc::Global;

/// Lets a batch of these changes begin, while the clock shows this, and takes room for its entries. A refused one leaves all as it was,
/// but how many rows were looked at.
fn let_in<D: Disk>(
    alloc: Global,
    disk: &mut D,
    group: &mut Group,
    trail: &mut Trail,
    changes: &Changes,
    clock: u64,
) -> Result<Started, StepFault>
    requires right { IsRightGroup group.old }
    requires fit { AllFit group.old.table changes.now }
    requires distinct { is_distinct (rows_of changes.now) ≡ true }
    requires some { changes.now ≢ [] }
    requires few { length changes.now ≤ 1000 }
    ensures begun { IfOk result (LetsIn group.old group.new changes.now clock) }
    ensures taken { OnOk result (HasTaken trail.old trail.new changes.now) }
    ensures refused { IfErr result (IsUnbegun group.old trail.old.entries changes.now clock) }
    ensures leaves { OnErr result (LeavesGroup group.old group.new × KeepsRooms group.old group.new) }
    ensures trail { OnErr result (trail.new ≡ trail.old) }
    ensures failed { result ≡ Err Fault.ReadFault → Rose ⟦<D as Disk>⟧ disk.old disk.new }
    ensures only_read { HasOnlyRead ⟦<D as Disk>⟧ disk.old disk.new }
{
    law_begins();
    let ready = ready_of(alloc, disk, group, changes, clock)?;
    match take_room(group, trail, &ready) {
        Ok(()) => {
            let Ready { prepared, started } = ready;
            admit(group, prepared);
            Ok(started)
        }
        Err(fault) => {
            drop(ready);
            Err(fault)
        }
    }
}

impl<D: CountsCalls, C: Clock, B: Based + Founded> Server<D, C, B> {
    /// Draws a stamp, and begins the batch.
    pub fn begin(&mut self, table: TableId, changes: &Changes) -> Result<Ticket, StepFault>
        requires some { changes.now ≢ [] }
        requires rows { length changes.now ≤ 1000 }
        requires distinct { is_distinct (rows_of changes.now) ≡ true }
        requires fits { AreFitting (known_by B.base B.damaged self.old) table.0 changes.now }
        ensures few { IfOk result (λ ticket. calls_left self.new.groups ticket ≤ 3 + 2 * index_count (known_by B.base B.damaged self.new) table.0) }
        ensures ok { IfOk result (DidBegin B.sound (known_by B.base B.damaged self.old) (known_by B.base B.damaged self.new) table changes.now) }
        ensures refused { IfErr result (Refuses (begin_cause B.sound table.0 changes.now) (known_by B.base B.damaged self.old) (known_by B.base B.damaged self.new)) }
        ensures caused { IfErr result (RefusesBatch self.old.groups table self.old.entries changes.now) }
        ensures counts { MakesNoCall self.old self.new }
        ensures blames { IfErr result (Blames self.old self.new) }
    {
        if let Some(call) = self.closed {
            return Err(StepFault::Closed { call });
        }
        let Some(place) = numbered_place(&self.standing, table) else {
            return Err(StepFault::NoTable);
        };
        // For a read that fails.
        if self.trail.reserve(1, 0).is_err() {
            return Err(StepFault::Memory);
        }
        let clock = self.clock.now();
        let begun = let_in(
            self.alloc,
            &mut self.disk,
            &mut self.groups[place],
            &mut self.trail,
            changes,
            clock,
        );
        match begun {
            Ok(started) => {
                let Started { stamp, changes } = started;
                self.trail.give_back(1, 0);
                self.trail.push(Entry {
                    seat: self.seat,
                    calls: self.disk.call_count(),
                    act: Act::Begun {
                        table,
                        stamp,
                        changes,
                    },
                });
                Ok(Ticket { table, stamp })
            }
            Err(fault) => {
                let calls = self.disk.call_count();
                Err(told(&mut self.trail, self.seat, calls, fault))
            }
        }
    }
}
