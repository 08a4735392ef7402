// Points.
ghost use Rattle.std.specs.Prelude.{◌≡◌, ◌++◌, ◌∷◌, [], ◌+◌, length, IfErr, IfNone, IfOk, IfSome, IsErr, OnOk};
ghost use Rattle.px_trail.specs.Count.{counted_act};
ghost use Rattle.px_phases.specs.Batch.{BatchData};
ghost use Rattle.px_noting.specs.Points.{HasOpened, IsSameBesidePoints};
ghost use Rattle.px_calls.specs.Calls.{DidOpen};
ghost use Rattle.px_calls.specs.Causes.{Refuses, open_cause};
ghost use Rattle.px_calls.specs.Known.{Adds};
ghost use Rattle.px_calls.specs.Requires.{HasOpen, IsScn};
ghost use Rattle.px_trail.specs.declared.entry.Act.TheVariants.{Released as ReleasedAct};
ghost use Rattle.px_calls.specs.declared.fault.StepFault.TheVariants.{Memory};
ghost use Rattle.px_server.specs.Looks.{rows_looked};
ghost use Rattle.px_server.specs.Points.{HasBatchLeft, HasNoneLeft, IsNoPointOf, IsPointOf, is_left_at};
ghost use Rattle.px_server.specs.DeviceCalls.{Blames, MakesNoCall};
ghost use Rattle.px_server.specs.Shown.{known_by};

use crate::{Founded, Server};
use px_calls::{Point, StepFault};
use px_group::Group;
use px_noting::reserve_point;
use px_outside::{Clock, CountsCalls};
use px_phases::OpenBatch;
use px_seat::Based;
use px_standing::{found, numbered_place};
use px_trail::{Act, Entry, Trail};
use px_values::TableId;

/// Whether the batch is at or below the point and is still to write its rows.
fn is_left_at(batch: &OpenBatch, point: u64) -> bool
    ensures { result ≡ is_left_at point batch.now }
{
    batch.stamp() <= point && batch.is_left()
}

/// The stamp of the first batch at or below the point that is still to write its rows.
fn left_at(group: &Group, point: u64) -> Option<u64>
    ensures left { IfSome result (HasBatchLeft group.now point) }
    ensures none { IfNone result (HasNoneLeft group.now point) }
{
    let place = group
        .batches
        .iter()
        .position(|begun| is_left_at(&begun.batch, point))?;
    Some(group.batches[place].batch.stamp())
}

/// The stamp of a point: the last one, or under an SCN at most the one below it, where all is written there.
fn point_of(group: &Group, scn: Option<u64>) -> Result<u64, StepFault>
    requires { IsScn scn }
    ensures point { IfOk result (IsPointOf group.now scn) }
    ensures none { IfErr result (IsNoPointOf group.now scn) }
{
    let Some(scn) = scn else {
        return Ok(group.last);
    };
    if scn - 1 < group.horizon {
        return Err(StepFault::BelowHorizon {
            horizon: group.horizon,
        });
    }
    let point = (scn - 1).min(group.last);
    match left_at(group, point) {
        Some(stamp) => Err(StepFault::NotYet { stamp }),
        None => Ok(point),
    }
}

/// Opens a point of a seat, and adds the entry that tells it, which counts no bytes. There is room then for the entry of its release too.
fn note_point(
    group: &mut Group,
    trail: &mut Trail,
    stamp: u64,
    entry: Entry,
) -> Result<(), StepFault>
    requires { counted_act entry.act ≡ 0 }
    ensures same { IsSameBesidePoints group.old group.new }
    ensures opened { OnOk result (HasOpened group.old group.new entry.seat stamp) }
    ensures count { OnOk result (length group.new.points.items ≡ length group.old.points.items + 1) }
    ensures entries { OnOk result (trail.new.entries ≡ trail.old.entries ++ entry ∷ []) }
    ensures room { OnOk result (trail.new.room ≡ trail.old.room + 1) }
    ensures points { IsErr result → group.new.points.items ≡ group.old.points.items }
    ensures trail { IsErr result → trail.new ≡ trail.old }
    ensures memory { IfErr result (λ f. f ≡ Memory) }
{
    if reserve_point(group).is_err() || trail.reserve(2, 0).is_err() {
        drop(entry);
        return Err(StepFault::Memory);
    }
    px_noting::open_point(group, entry.seat, stamp);
    trail.push(entry);
    Ok(())
}

impl<D: CountsCalls, C: Clock, B: Based + Founded> Server<D, C, B> {
    /// Opens a point of the table: a current one, or one as of an SCN.
    pub fn open_point(&mut self, table: TableId, scn: Option<u64>) -> Result<Point, StepFault>
        requires { IsScn scn }
        ensures unlooked { rows_looked self.new.groups ≡ rows_looked self.old.groups }
        ensures ok { IfOk result (DidOpen (known_by B.base B.damaged self.old) (known_by B.base B.damaged self.new) table scn) }
        ensures refused { IfErr result (Refuses (open_cause table.0 scn) (known_by B.base B.damaged self.old) (known_by B.base B.damaged self.new)) }
        ensures counts { MakesNoCall self.old self.new }
        ensures blames { IfErr result (Blames self.old self.new) }
    {
        if let Some(call) = self.closed {
            return Err(StepFault::Closed { call });
        }
        let Some(place) = numbered_place(&self.standing, table) else {
            return Err(StepFault::NoTable);
        };
        let stamp = point_of(&self.groups[place], scn)?;
        let Ok(mut found) = found(self.alloc, &self.standing, place, self.trail.len()) else {
            return Err(StepFault::Memory);
        };
        let scn = scn.is_some();
        let entry = Entry {
            seat: self.seat,
            calls: self.disk.call_count(),
            act: Act::Opened { table, stamp, scn },
        };
        if let Err(fault) = note_point(&mut self.groups[place], &mut self.trail, stamp, entry) {
            drop(found);
            return Err(fault);
        }
        found.at = self.trail.len();
        Ok(Point {
            table,
            stamp,
            scn,
            found,
        })
    }

    /// Closes the point. It takes no memory.
    pub fn close_point(&mut self, p: Point)
        requires { HasOpen (known_by B.base B.damaged self.old) p }
        ensures unlooked { rows_looked self.new.groups ≡ rows_looked self.old.groups }
        ensures adds { Adds (known_by B.base B.damaged self.old) (known_by B.base B.damaged self.new) (ReleasedAct p.table p.stamp) }
        ensures counts { MakesNoCall self.old self.new }
    {
        let Point {
            table,
            stamp,
            scn: _,
            found,
        } = p;
        drop(found);
        match numbered_place(&self.standing, table) {
            Some(place) => {
                px_noting::close_point(&mut self.groups[place], self.seat, stamp);
                self.trail.push(Entry {
                    seat: self.seat,
                    calls: self.disk.call_count(),
                    act: Act::Released { table, stamp },
                });
            }
            None => unreachable!(),
        }
    }
}
