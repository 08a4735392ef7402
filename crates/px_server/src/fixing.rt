// Repairs.
ghost use Rattle.std.specs.Prelude.{◌≡◌, ◌≢◌, ◌≤◌, ◌+◌, ◌↔◌, true, Err, IfErr, IfOk, IsSome, IsTrue};
ghost use Rattle.px_calls.specs.Calls.{DidFix};
ghost use Rattle.px_calls.specs.Causes.{Refuses, fix_cause};
ghost use Rattle.px_calls.specs.Doubtful.{IndexVersion, IsForRoom, version_of};
ghost use Rattle.px_calls.specs.declared.query.Point.{Point as Points};
ghost use Rattle.px_repairs.specs.declared.repairing.RepairFault.{RepairFault as Cause};
ghost use Rattle.px_server.specs.Looks.{rows_looked};
ghost use Rattle.px_server.specs.DeviceCalls.{Blames, MakesAtMost};
ghost use Rattle.px_server.specs.Shown.{known_by};
ghost use Rattle.px_server.specs.Sights.{have_doubt};
ghost use Rattle.px_server.specs.Repairs.{AddsNoEntry, Answers, Mends, RefusesFix};

use crate::missing::miss;
use crate::shutting::shut;
use crate::{Founded, Server};
use px_calls::{Doubt, Fixing, StepFault};
use px_outside::{Clock, CountsCalls};
use px_pointreads::doubt_place;
use px_repairs::RepairFault;
use px_seat::Based;
use px_trail::{Act, Entry};
use px_values::Key;
use std::alloc::{AllocError, Global};

/// Another key with the same bytes.
fn copied(alloc: Global, key: &Key) -> Result<Key, AllocError>
    ensures { IfOk result (λ k. k ≡ key.now) }
{
    let bytes = Vec::from_slice(alloc, key.as_slice())?;
    Ok(Key::of(bytes))
}

/// Whether no entry tells of it: nothing was written, and no read failed.
fn has_stayed(fixed: &Result<Fixing, RepairFault>) -> bool
    ensures { IsTrue result ↔ AddsNoEntry fixed.now }
{
    match fixed {
        Ok(Fixing::Fixed) => false,
        Ok(_) => true,
        Err(RepairFault::ReadFault | RepairFault::WriteFault) => false,
        Err(_) => true,
    }
}

/// Whether a read failed.
fn has_missed(fixed: &Result<Fixing, RepairFault>) -> bool
    ensures { IsTrue result ↔ (fixed.now ≡ Err Cause.ReadFault) }
{
    match fixed {
        Err(RepairFault::ReadFault) => true,
        _ => false,
    }
}

/// What is answered of a repair in the region of a number.
fn answered(fixed: Result<Fixing, RepairFault>, region: u32) -> Result<Fixing, StepFault>
    ensures { Answers region fixed result }
{
    match fixed {
        Ok(fixing) => Ok(fixing),
        Err(RepairFault::Busy { cells, bytes }) => Err(StepFault::Busy {
            region,
            cells,
            bytes,
        }),
        Err(RepairFault::NotReady) => Err(StepFault::NotReady { region }),
        Err(RepairFault::ReadFault) => Err(StepFault::ReadFault),
        Err(RepairFault::WriteFault) => Err(StepFault::WriteFault),
        Err(RepairFault::Damaged { file, place }) => Err(StepFault::Damaged { file, place }),
        Err(RepairFault::Memory) => Err(StepFault::Memory),
    }
}

impl<D: CountsCalls, C: Clock, B: Based + Founded> Server<D, C, B> {
    /// Repairs the index row of a doubt, by a verdict of its own. It may come after the point is closed. A version that is in doubt at a point isn't gone,
    /// and what is in doubt at another key stays so.
    pub fn fix(&mut self, d: &Doubt) -> Result<Fixing, StepFault>
        requires { IsSome d.now.verdict }
        ensures ok { IfOk result (DidFix (known_by B.base B.damaged self.old) (known_by B.base B.damaged self.new) d.now) }
        ensures fixes { IfOk result (Mends self.old.groups self.new.groups d.now) }
        ensures counted { rows_looked self.new.groups ≤ rows_looked self.old.groups + 1 }
        ensures there { IfOk result (λ fixing. (p : Points) → have_doubt self.old.groups p (version_of d.now) ≡ true → fixing ≢ Fixing.Gone) }
        ensures others { IfOk result (λ _. B.sound → (p : Points) → (v : IndexVersion) → v.key ≢ d.now.key → have_doubt self.new.groups p v ≡ have_doubt self.old.groups p v) }
        ensures still { IfErr result (λ f. IsForRoom f → (p : Points) → (v : IndexVersion) → have_doubt self.new.groups p v ≡ have_doubt self.old.groups p v) }
        ensures refused { IfErr result (Refuses (fix_cause B.sound) (known_by B.base B.damaged self.old) (known_by B.base B.damaged self.new)) }
        ensures caused { IfErr result (RefusesFix self.old.groups d.now) }
        ensures counts { MakesAtMost 4 self.old self.new }
        ensures blames { IfErr result (Blames self.old self.new) }
    {
        if let Some(call) = self.closed {
            return Err(StepFault::Closed { call });
        }
        let Some(at) = doubt_place(&self.groups, d.index) else {
            return Ok(Fixing::Gone);
        };
        let Ok(key) = copied(self.alloc, &d.key) else {
            return Err(StepFault::Memory);
        };
        if self.trail.reserve(1, 0).is_err() {
            drop(key);
            return Err(StepFault::Memory);
        }
        let group = &mut self.groups[at.group];
        let region = group.indexes[at.index].region.number();
        let fixed = px_repairs::fix(
            self.alloc,
            &mut self.disk,
            group,
            at.index,
            d.key.as_slice(),
            d.stamp,
        );
        let calls = self.disk.call_count();
        if has_missed(&fixed) {
            drop(key);
            return Err(miss(&mut self.trail, self.seat, calls));
        }
        if has_stayed(&fixed) {
            drop(key);
            self.trail.give_back(1, 0);
            return answered(fixed, region);
        }
        match fixed {
            Ok(fixing) => {
                self.trail.push(Entry {
                    seat: self.seat,
                    calls,
                    act: Act::Fixed {
                        index: d.index,
                        key,
                    },
                });
                Ok(fixing)
            }
            Err(_) => {
                drop(key);
                self.closed = Some(calls);
                shut(&mut self.trail, self.seat, calls);
                Err(StepFault::WriteFault)
            }
        }
    }
}
