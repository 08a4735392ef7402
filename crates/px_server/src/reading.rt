// Reading at a point.
ghost use Rattle.std.specs.Prelude.{◌≡◌, ◌≤◌, ◌+◌, IfErr, IfOk, List, None, Some, length, map};
ghost use Rattle.px_calls.specs.Calls.{DidConsult, DidLook};
ghost use Rattle.px_calls.specs.Causes.{Refuses, read_cause};
ghost use Rattle.px_calls.specs.Counts.{HasRisenBy};
ghost use Rattle.px_calls.specs.Doubtful.{AreDoubtful, IndexVersion};
ghost use Rattle.px_calls.specs.Requires.{CanConsult, CanLook, HasOpen};
ghost use Rattle.px_values.specs.declared.row.Value.{Value as ColumnValue};
ghost use Rattle.px_calls.specs.declared.query.By.TheVariants.{Index as ByIndex, Table as ByTable};
ghost use Rattle.px_calls.specs.declared.query.Point.{Point as Points};
ghost use Rattle.px_values.specs.declared.name.IndexId.{IndexId as Number};
ghost use Rattle.px_pointreads.specs.Due.{verdict_as};
ghost use Rattle.px_server.specs.Looks.{AreOfIndexAt, HasCountedOf, rows_in, rows_looked};
ghost use Rattle.px_server.specs.DeviceCalls.{Blames, MakesNoCall};
ghost use Rattle.px_server.specs.Shown.{known_by};
ghost use Rattle.px_server.specs.Sights.{have_doubt};
ghost use Rattle.px_server.specs.Verdicts.{HasDueVerdict};

use crate::missing::{told, unread};
use crate::{Founded, Server};
use px_calls::{Chunk, Doubt, Held, Path, Point, StepFault, Verdict};
use px_indexrow::Repair;
use px_looks::NextKeys;
use px_outside::{Clock, CountsCalls};
use px_pointreads::{consult, look, point_place};
use px_seat::Based;
use px_values::{Key, Row};

/// The chunk of these keys, after so many entries.
fn chunk(next: NextKeys, at: u64) -> Chunk
    ensures { (result.found ≡ next.found) × ((result.next ≡ next.next) × (result.at ≡ at)) }
{
    let NextKeys { found, next } = next;
    Chunk { found, next, at }
}

/// The row with the number of entries after which it stands so.
fn held(row: Option<Row>, at: u64) -> Option<Held>
    ensures none { row ≡ None → result ≡ None }
    ensures some { (r : List ColumnValue) → row ≡ Some r → result ≡ Some (record { row = r; at = at }) }
{
    match row {
        Some(row) => Some(Held { row, at }),
        None => None,
    }
}

/// The verdict of a repair.
fn verdict_of(repair: Repair) -> Verdict
    ensures { result ≡ verdict_as repair }
{
    match repair {
        Repair::Leave => Verdict::Leave,
        Repair::Verify => Verdict::Verify,
        Repair::Retire => Verdict::Retire,
        Repair::Erase => Verdict::Erase,
    }
}

impl<D: CountsCalls, C: Clock, B: Based + Founded> Server<D, C, B> {
    /// The next keys of the path past `after`. By an index, they are those of which the point sees a version, a key is sure exactly where that is verified, and
    /// no row of a table is looked at.
    pub fn look(&mut self, p: &Point, path: &Path, after: &Option<Key>) -> Result<Chunk, StepFault>
        requires open { HasOpen (known_by B.base B.damaged self.old) p.now }
        requires path { CanLook p.now path.now }
        ensures ok { IfOk result (DidLook B.sound (known_by B.base B.damaged self.old) (known_by B.base B.damaged self.new) p.now path.now after.now) }
        ensures versions { IfOk result (λ c. (i : Number) → path.now.by ≡ ByIndex i → AreOfIndexAt self.old.groups p.now path.now i after.now c.found c.next) }
        ensures no_row { (i : Number) → path.now.by ≡ ByIndex i → map rows_in self.new.groups ≡ map rows_in self.old.groups }
        ensures risen { IfOk result (λ c. path.now.by ≡ ByTable → HasRisenBy (length c.found) (rows_looked self.old.groups) (rows_looked self.new.groups)) }
        ensures counted { IfOk result (λ c. HasCountedOf self.old.groups self.new.groups p.now path.now.by (length c.found)) }
        ensures doubts { IfOk result (λ c. AreDoubtful (have_doubt self.new.groups) p.now c.found) }
        ensures refused { IfErr result (Refuses (read_cause B.sound) (known_by B.base B.damaged self.old) (known_by B.base B.damaged self.new)) }
        ensures counts { MakesNoCall self.old self.new }
        ensures blames { IfErr result (Blames self.old self.new) }
    {
        if let Some(call) = self.closed {
            return Err(StepFault::Closed { call });
        }
        let Some(place) = point_place(&self.groups, p) else {
            return Err(StepFault::Memory);
        };
        if self.trail.reserve(1, 0).is_err() {
            return Err(StepFault::Memory);
        }
        let group = &mut self.groups[place];
        match look(self.alloc, &mut self.disk, group, p, path, after) {
            Ok(next) => {
                self.trail.give_back(1, 0);
                Ok(chunk(next, self.trail.len()))
            }
            Err(fault) => {
                let calls = self.disk.call_count();
                Err(told(&mut self.trail, self.seat, calls, unread(fault)))
            }
        }
    }

    /// The row of a doubt at the point, where its key is the doubt's. Leaves a verdict in the doubt: what is due of its version now, if what was
    /// opened is sound.
    pub fn consult(&mut self, p: &Point, d: &mut Doubt) -> Result<Option<Held>, StepFault>
        requires open { HasOpen (known_by B.base B.damaged self.old) p.now }
        requires doubt { CanConsult p.now d.old }
        ensures ok { IfOk result (DidConsult B.sound (known_by B.base B.damaged self.old) (known_by B.base B.damaged self.new) p.now d.old d.new) }
        ensures due { IfOk result (λ _. B.sound → HasDueVerdict B.base self.old.entries self.old.groups d.new) }
        ensures same { IfErr result (λ f. d.new ≡ d.old) }
        ensures counted { rows_looked self.new.groups ≤ rows_looked self.old.groups + 1 }
        ensures doubts { (q : Points) → (v : IndexVersion) → have_doubt self.new.groups q v ≡ have_doubt self.old.groups q v }
        ensures refused { IfErr result (Refuses (read_cause B.sound) (known_by B.base B.damaged self.old) (known_by B.base B.damaged self.new)) }
        ensures counts { MakesNoCall self.old self.new }
        ensures blames { IfErr result (Blames self.old self.new) }
    {
        if let Some(call) = self.closed {
            return Err(StepFault::Closed { call });
        }
        let Some(place) = point_place(&self.groups, p) else {
            return Err(StepFault::Memory);
        };
        if self.trail.reserve(1, 0).is_err() {
            return Err(StepFault::Memory);
        }
        let group = &mut self.groups[place];
        match consult(self.alloc, &mut self.disk, group, p, d) {
            Ok(consulted) => {
                self.trail.give_back(1, 0);
                d.verdict = Some(verdict_of(consulted.verdict));
                Ok(held(consulted.row, self.trail.len()))
            }
            Err(fault) => {
                let calls = self.disk.call_count();
                Err(told(&mut self.trail, self.seat, calls, unread(fault)))
            }
        }
    }
}
