// The server as drivers see it.
ghost use Rattle.std.specs.Prelude.{◌≡◌, ◌≢◌, ◌≤◌, ◌+◌, ◌*◌, [], IfErr, IfOk, IsSome, length, map, true};
ghost use Rattle.px_trail.specs.Batches.{is_distinct, rows_of};
ghost use Rattle.px_calls.specs.Calls.{DidBegin, DidConsult, DidFix, DidLook};
ghost use Rattle.px_calls.specs.Causes.{Refuses, begin_cause, fix_cause, index_count, read_cause};
ghost use Rattle.px_calls.specs.Counts.{HasRisenBy};
ghost use Rattle.px_calls.specs.Doubtful.{AreDoubtful, AreOthersDoubtful, AreStillDoubtful, IsForRoom, version_of};
ghost use Rattle.px_calls.specs.Requires.{AreFitting, CanConsult, CanLook, HasOpen};
ghost use Rattle.px_calls.specs.declared.query.By.TheVariants.{Index as ByIndex, Table as ByTable};
ghost use Rattle.px_calls.specs.declared.query.Point.{Point as Points};
ghost use Rattle.px_values.specs.declared.name.IndexId.{IndexId as Number};
ghost use Rattle.px_server.specs.Beginning.{RefusesBatch};
ghost use Rattle.px_server.specs.Looks.{AreOfIndexAt, HasCountedOf, rows_in, rows_looked};
ghost use Rattle.px_server.specs.Repairs.{Mends, RefusesFix};
ghost use Rattle.px_server.specs.Sights.{have_doubt};

use crate::{Founded, Server};
use px_calls::{
    BaseRows, Chunk, Definition, Doubt, Fixing, Held, Made, Marks, Ordered, Path, Point, Receipt,
    Status, StepFault, Steps, Ticket, Verifies, Work, Writes,
};
use px_outside::{Clock, CountsCalls};
use px_seat::{Based, Single};
use px_tables::Found;
use px_values::{Changes, IndexId, Key, Name, TableId};

impl<D: CountsCalls, C: Clock, B: Based + Founded> Steps for Server<D, C, B> {
    ghost use Rattle.px_server.specs.CallsLeft.{calls_left};
    ghost use Rattle.px_server.specs.Shown.{known_by};
    ghost use Rattle.px_server.specs.Sights.{have_doubt};
    ghost use Rattle.px_server.specs.Upkeep.{IsDoneBy, IsOrderedBy};

    ghost known = { λ s. known_by B.base B.damaged s };

    // It doesn't count its calls.
    ghost one_call = { λ _ _. Unit {0} };

    ghost left = { λ s. calls_left s.groups };

    ghost looked = { λ s. rows_looked s.groups };

    ghost doubtful = { λ s. have_doubt s.groups };

    ghost sound = { B.sound };

    ghost ordered = { λ s job. IsOrderedBy s job };

    ghost done = { λ s job. IsDoneBy s job };

    fn find(&mut self, name: &Name) -> Result<Found, StepFault> {
        Server::find(self, name)
    }

    fn define(&mut self, definition: &Definition) -> Result<Made, StepFault> {
        match definition {
            Definition::Table(what) => self.define_table(what),
            Definition::Index(what) => self.define_index(what),
            Definition::Active { table, index } => self.define_active(*table, *index),
            Definition::Disabled { table, index } => self.disable_index(*table, *index),
            Definition::Rebuilding { table, index } => self.rebuild_index(*table, *index),
            Definition::DropTable(table) => self.drop_table(*table),
            Definition::DropIndex { table, index } => self.drop_index(*table, *index),
        }
    }

    fn begin(&mut self, table: TableId, changes: &Changes) -> Result<Ticket, StepFault>
        requires some { changes.now ≢ [] }
        requires rows { length changes.now ≤ 1000 }
        requires distinct { is_distinct (rows_of changes.now) ≡ true }
        requires fits { AreFitting (known_by B.base B.damaged self.old) table.0 changes.now }
        ensures few { IfOk result (λ t. (known_by B.base B.damaged self.old).alone ≡ true → calls_left self.new.groups t ≤ 3 + 2 * index_count (known_by B.base B.damaged self.new) table.0) }
        ensures ok { IfOk result (DidBegin B.sound (known_by B.base B.damaged self.old) (known_by B.base B.damaged self.new) table changes.now) }
        ensures refused { IfErr result (Refuses (begin_cause B.sound table.0 changes.now) (known_by B.base B.damaged self.old) (known_by B.base B.damaged self.new)) }
        ensures caused { IfErr result (RefusesBatch self.old.groups table self.old.entries changes.now) }
    {
        Server::begin(self, table, changes)
    }

    fn mark(&mut self, t: &mut Ticket) -> Result<Marks, StepFault> {
        Server::mark(self, t)
    }

    fn write(&mut self, t: &mut Ticket) -> Result<Writes, StepFault> {
        Server::write(self, t)
    }

    fn verify_marks(&mut self, t: &mut Ticket) -> Result<Verifies, StepFault> {
        Server::verify_marks(self, t)
    }

    fn end(&mut self, t: Ticket) -> Receipt {
        Server::end(self, t)
    }

    fn abandon(&mut self, t: Ticket) {
        Server::abandon(self, t)
    }

    fn open_point(&mut self, table: TableId, scn: Option<u64>) -> Result<Point, StepFault> {
        Server::open_point(self, table, scn)
    }

    fn look(&mut self, p: &Point, path: &Path, after: &Option<Key>) -> Result<Chunk, StepFault>
        requires open { HasOpen (known_by B.base B.damaged self.old) p.now }
        requires path { CanLook p.now path.now }
        ensures unlooked { (known_by B.base B.damaged self.old).alone ≡ true → (i : Number) → path.now.by ≡ ByIndex i → rows_looked self.new.groups ≡ rows_looked self.old.groups }
        ensures looked_each { IfOk result (λ c. (known_by B.base B.damaged self.old).alone ≡ true → path.now.by ≡ ByTable → HasRisenBy (length c.found) (rows_looked self.old.groups) (rows_looked self.new.groups)) }
        ensures doubts { IfOk result (λ c. (known_by B.base B.damaged self.old).alone ≡ true → B.sound → AreDoubtful (have_doubt self.new.groups) p.now c.found) }
        ensures ok { IfOk result (DidLook B.sound (known_by B.base B.damaged self.old) (known_by B.base B.damaged self.new) p.now path.now after.now) }
        ensures versions { IfOk result (λ c. (i : Number) → path.now.by ≡ ByIndex i → AreOfIndexAt self.old.groups p.now path.now i after.now c.found c.next) }
        ensures no_row { (i : Number) → path.now.by ≡ ByIndex i → map rows_in self.new.groups ≡ map rows_in self.old.groups }
        ensures counted { IfOk result (λ c. HasCountedOf self.old.groups self.new.groups p.now path.now.by (length c.found)) }
        ensures refused { IfErr result (Refuses (read_cause B.sound) (known_by B.base B.damaged self.old) (known_by B.base B.damaged self.new)) }
    {
        Server::look(self, p, path, after)
    }

    fn consult(&mut self, p: &Point, d: &mut Doubt) -> Result<Option<Held>, StepFault>
        requires open { HasOpen (known_by B.base B.damaged self.old) p.now }
        requires doubt { CanConsult p.now d.old }
        ensures looked_once { (known_by B.base B.damaged self.old).alone ≡ true → rows_looked self.new.groups ≤ rows_looked self.old.groups + 1 }
        ensures still { (known_by B.base B.damaged self.old).alone ≡ true → AreStillDoubtful (known_by B.base B.damaged self.old) (have_doubt self.old.groups) (have_doubt self.new.groups) }
        ensures ok { IfOk result (DidConsult B.sound (known_by B.base B.damaged self.old) (known_by B.base B.damaged self.new) p.now d.old d.new) }
        ensures same { IfErr result (λ f. d.new ≡ d.old) }
        ensures counted { rows_looked self.new.groups ≤ rows_looked self.old.groups + 1 }
        ensures refused { IfErr result (Refuses (read_cause B.sound) (known_by B.base B.damaged self.old) (known_by B.base B.damaged self.new)) }
    {
        Server::consult(self, p, d)
    }

    fn fix(&mut self, d: &Doubt) -> Result<Fixing, StepFault>
        requires { IsSome d.now.verdict }
        ensures looked_once { (known_by B.base B.damaged self.old).alone ≡ true → rows_looked self.new.groups ≤ rows_looked self.old.groups + 1 }
        ensures there { IfOk result (λ fixing. (known_by B.base B.damaged self.old).alone ≡ true → B.sound → (p : Points) → HasOpen (known_by B.base B.damaged self.old) p → have_doubt self.old.groups p (version_of d.now) ≡ true → fixing ≢ Fixing.Gone) }
        ensures others { IfOk result (λ _. (known_by B.base B.damaged self.old).alone ≡ true → B.sound → AreOthersDoubtful (known_by B.base B.damaged self.old) d.now.key (have_doubt self.old.groups) (have_doubt self.new.groups)) }
        ensures still { IfErr result (λ f. (known_by B.base B.damaged self.old).alone ≡ true → IsForRoom f → AreStillDoubtful (known_by B.base B.damaged self.old) (have_doubt self.old.groups) (have_doubt self.new.groups)) }
        ensures ok { IfOk result (DidFix (known_by B.base B.damaged self.old) (known_by B.base B.damaged self.new) d.now) }
        ensures fixes { IfOk result (Mends self.old.groups self.new.groups d.now) }
        ensures counted { rows_looked self.new.groups ≤ rows_looked self.old.groups + 1 }
        ensures refused { IfErr result (Refuses (fix_cause B.sound) (known_by B.base B.damaged self.old) (known_by B.base B.damaged self.new)) }
        ensures caused { IfErr result (RefusesFix self.old.groups d.now) }
    {
        Server::fix(self, d)
    }

    fn base(&mut self, p: &Point, index: IndexId, rows: &BaseRows) -> Result<u64, StepFault> {
        Server::base(self, p, index, rows)
    }

    fn close_point(&mut self, p: Point) {
        Server::close_point(self, p)
    }

    fn order(&mut self, job: Ordered) -> Result<(), StepFault> {
        Server::order(self, job)
    }

    fn upkeep(&mut self) -> Result<Work, StepFault> {
        Server::upkeep(self)
    }

    fn status(&mut self, table: TableId) -> Result<Status, StepFault> {
        Server::status(self, table)
    }

    fn seen(&self) -> u64 {
        Server::seen(self)
    }
}

impl<D: CountsCalls, C: Clock, B: Based + Founded> Single for Server<D, C, B> {
    fn act_as(&mut self, seat: u32) {
        Server::act_as(self, seat)
    }
}
