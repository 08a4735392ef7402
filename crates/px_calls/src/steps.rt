// The steps.
ghost use Rattle.std.specs.Prelude.{◌≡◌, ◌≢◌, ℕ, Bool, length, IfOk, IfErr, IsSome, true, [], ◌<◌, ◌≤◌, ◌+◌, ◌*◌};
ghost use Rattle.px_trail.specs.Batches.{Marking, Writing, Verifying, is_distinct, rows_of};
ghost use Rattle.px_trail.specs.declared.entry.Act.TheVariants.{Ended, Released};
ghost use Rattle.px_values.specs.declared.name.IndexId.{IndexId as IndexNumber};
ghost use Rattle.px_calls.specs.declared.query.By.TheVariants.{Index as ByIndex, Table as ByTable};
ghost use Rattle.px_calls.specs.declared.query.Point.{Point as Points};
ghost use Rattle.px_calls.specs.declared.status.Ordered.{Ordered as Orders};
ghost use Rattle.px_calls.specs.declared.ticket.Ticket.{Ticket as Tickets};
ghost use Rattle.px_calls.specs.Counts.{HasRisenBy};
ghost use Rattle.px_calls.specs.Doubtful.{AreDoubtful, AreOthersDoubtful, AreStillDoubtful, IndexVersion, IsForRoom, version_of};
ghost use Rattle.px_calls.specs.Known.{Known, Sees, Adds};
ghost use Rattle.px_calls.specs.Requires.{AreFitting, CanAbandon, CanConsult, CanDefine, CanEnd, CanLook, HasOpen, IsScn, MayBase, TicketIn};
ghost use Rattle.px_calls.specs.Causes.{Refuses, base_cause, begin_cause, define_cause, find_cause, fix_cause, index_count, open_cause, order_cause, read_cause, rows_cause, status_cause, upkeep_cause, write_cause};
ghost use Rattle.px_calls.specs.Calls.{DidBase, DidBegin, DidConsult, DidCount, DidDefine, DidFind, DidFix, DidLook, DidMark, DidOpen, DidOrder, DidVerify, DidWork, DidWrite, IsIdleWork, IsReceipt};

use crate::definition::{Definition, Made};
use crate::fault::StepFault;
use crate::query::{BaseRows, Chunk, Doubt, Fixing, Held, Path, Point};
use crate::status::{Ordered, Status, Work};
use crate::ticket::{Marks, Receipt, Ticket, Verifies, Writes};
use px_tables::Found;
use px_values::{Changes, IndexId, Key, Name, TableId};

/// One event of the system is one call. Other seats may act between two calls: a call's clauses say what the seat has then
/// seen, which begins with what it had seen and ends with what the call added.
pub trait Steps {
    /// What the seat that calls knows of the trail.
    ghost known: { Self → Known };

    /// That one call leads from the first to the second. Nothing more is told of it, so code over any steps can say it only where it makes exactly one
    /// call; what counts its calls says by it that one more was made.
    ghost one_call: { Self → Self → Type 0 };

    /// How many calls are left at most to a batch before it may end, where nobody else acts and no call of it is refused.
    ghost left: { Self → Tickets → ℕ };

    /// How many rows of tables were looked at, where nobody else acts.
    ghost looked: { Self → ℕ };

    /// Whether a version of an index row is in doubt at a point, where nobody else acts.
    ghost doubtful: { Self → Points → IndexVersion → Bool };

    /// That what was opened is sound. What is told of rows and index rows rests on it; what is told of the trail doesn't.
    ghost sound: { Type 0 };

    /// That this job was ordered of each table, when the seat had seen what it now has: that all which stands in the logs be flushed; or that the horizon
    /// rise as far as it may, and each region forget at it.
    ghost ordered: { Self → Orders → Type 0 };

    /// That all that was ordered by such a job was done, when the seat had seen what it now has.
    ghost done: { Self → Orders → Type 0 };

    /// The table of a name, with its indexes.
    fn find(&mut self, name: &Name) -> Result<Found, StepFault>
        ensures one_call { one_call self.old self.new }
        ensures ok { IfOk result (DidFind (known self.old) (known self.new) name.now) }
        ensures refused { IfErr result (Refuses (find_cause name.now) (known self.old) (known self.new)) };

    /// Makes a table or an index, makes an index active, disables one or builds it again, or drops one.
    fn define(&mut self, definition: &Definition) -> Result<Made, StepFault>
        requires { CanDefine sound (known self.old) definition.now }
        ensures one_call { one_call self.old self.new }
        ensures ok { IfOk result (DidDefine (known self.old) (known self.new) definition.now) }
        ensures refused { IfErr result (Refuses (define_cause definition.now) (known self.old) (known self.new)) };

    /// Draws a stamp, and begins the batch.
    fn begin(&mut self, table: TableId, changes: &Changes) -> Result<Ticket, StepFault>
        requires some { changes.now ≢ [] }
        requires rows { length changes.now ≤ 1000 }
        requires distinct { is_distinct (rows_of changes.now) ≡ true }
        requires fits { AreFitting (known self.old) table.0 changes.now }
        ensures one_call { one_call self.old self.new }
        ensures ok { IfOk result (DidBegin sound (known self.old) (known self.new) table changes.now) }
        ensures few { IfOk result (λ t. (known self.old).alone ≡ true → left self.new t ≤ 3 + 2 * index_count (known self.new) table.0) }
        ensures refused { IfErr result (Refuses (begin_cause sound table.0 changes.now) (known self.old) (known self.new)) };

    /// Phase 1 on one region: marks the batch's index rows. It takes no memory.
    fn mark(&mut self, t: &mut Ticket) -> Result<Marks, StepFault>
        requires { TicketIn (known self.old) t.old Marking }
        ensures one_call { one_call self.old self.new }
        ensures ticket { t.new ≡ t.old }
        ensures ok { IfOk result (DidMark (known self.old) (known self.new) t.old) }
        ensures fewer { IfOk result (λ _. (known self.old).alone ≡ true → left self.new t.old < left self.old t.old) }
        ensures refused { IfErr result (Refuses write_cause (known self.old) (known self.new)) };

    /// Phase 2 on one region: writes rows, each once no earlier batch is pending on it. It takes no memory.
    fn write(&mut self, t: &mut Ticket) -> Result<Writes, StepFault>
        requires { TicketIn (known self.old) t.old Writing }
        ensures one_call { one_call self.old self.new }
        ensures ticket { t.new ≡ t.old }
        ensures ok { IfOk result (DidWrite (known self.old) (known self.new) t.old) }
        ensures fewer { IfOk result (λ _. (known self.old).alone ≡ true → left self.new t.old < left self.old t.old) }
        ensures no_more { IfErr result (λ f. (known self.old).alone ≡ true → (stamp : ℕ) → f ≡ StepFault.NotYet stamp → left self.new t.old ≤ left self.old t.old) }
        ensures refused { IfErr result (Refuses (rows_cause t.old.table.0 t.old.stamp) (known self.old) (known self.new)) };

    /// Phase 3 on one region: verifies the index rows of rows that no other batch changed. It takes no memory.
    fn verify_marks(&mut self, t: &mut Ticket) -> Result<Verifies, StepFault>
        requires { TicketIn (known self.old) t.old Verifying }
        ensures one_call { one_call self.old self.new }
        ensures ticket { t.new ≡ t.old }
        ensures ok { IfOk result (DidVerify (known self.old) (known self.new) t.old) }
        ensures fewer { IfOk result (λ _. (known self.old).alone ≡ true → left self.new t.old < left self.old t.old) }
        ensures refused { IfErr result (Refuses write_cause (known self.old) (known self.new)) };

    /// Ends the batch. It takes no memory.
    fn end(&mut self, t: Ticket) -> Receipt
        requires { CanEnd (known self.old) t }
        ensures one_call { one_call self.old self.new }
        ensures adds { Adds (known self.old) (known self.new) (Ended t.table t.stamp) }
        ensures receipt { IsReceipt (known self.new) t result };

    /// Gives up a batch that can't go on, since the server is closed.
    fn abandon(&mut self, t: Ticket)
        requires { CanAbandon (known self.old) t }
        ensures one_call { one_call self.old self.new }
        ensures sees { Sees (known self.old) (known self.new) };

    /// Opens a point of the table: a current one, or one as of an SCN.
    fn open_point(&mut self, table: TableId, scn: Option<u64>) -> Result<Point, StepFault>
        requires { IsScn scn }
        ensures one_call { one_call self.old self.new }
        ensures ok { IfOk result (DidOpen (known self.old) (known self.new) table scn) }
        ensures unlooked { (known self.old).alone ≡ true → looked self.new ≡ looked self.old }
        ensures refused { IfErr result (Refuses (open_cause table.0 scn) (known self.old) (known self.new)) };

    /// The next keys of the path past `after`. By an index no row is looked at; by the table's own keys at least each row that is given, up to the
    /// count's last value.
    fn look(&mut self, p: &Point, path: &Path, after: &Option<Key>) -> Result<Chunk, StepFault>
        requires open { HasOpen (known self.old) p.now }
        requires path { CanLook p.now path.now }
        ensures one_call { one_call self.old self.new }
        ensures ok { IfOk result (DidLook sound (known self.old) (known self.new) p.now path.now after.now) }
        ensures unlooked { (known self.old).alone ≡ true → (i : IndexNumber) → path.now.by ≡ ByIndex i → looked self.new ≡ looked self.old }
        ensures looked_each { IfOk result (λ c. (known self.old).alone ≡ true → path.now.by ≡ ByTable → HasRisenBy (length c.found) (looked self.old) (looked self.new)) }
        ensures doubts { IfOk result (λ c. (known self.old).alone ≡ true → sound → AreDoubtful (doubtful self.new) p.now c.found) }
        ensures refused { IfErr result (Refuses (read_cause sound) (known self.old) (known self.new)) };

    /// The row of a doubt at the point, where its key is the doubt's. Leaves a verdict in the doubt.
    fn consult(&mut self, p: &Point, d: &mut Doubt) -> Result<Option<Held>, StepFault>
        requires open { HasOpen (known self.old) p.now }
        requires doubt { CanConsult p.now d.old }
        ensures one_call { one_call self.old self.new }
        ensures ok { IfOk result (DidConsult sound (known self.old) (known self.new) p.now d.old d.new) }
        ensures same { IfErr result (λ f. d.new ≡ d.old) }
        ensures looked_once { (known self.old).alone ≡ true → looked self.new ≤ looked self.old + 1 }
        ensures still { (known self.old).alone ≡ true → AreStillDoubtful (known self.old) (doubtful self.old) (doubtful self.new) }
        ensures refused { IfErr result (Refuses (read_cause sound) (known self.old) (known self.new)) };

    /// Repairs the index row of a doubt, by a verdict of its own. It may come after the point is closed. Where the version is still in doubt at an open
    /// point, it isn't gone.
    fn fix(&mut self, d: &Doubt) -> Result<Fixing, StepFault>
        requires { IsSome d.now.verdict }
        ensures one_call { one_call self.old self.new }
        ensures ok { IfOk result (DidFix (known self.old) (known self.new) d.now) }
        ensures looked_once { (known self.old).alone ≡ true → looked self.new ≤ looked self.old + 1 }
        ensures there { IfOk result (λ fixing. (known self.old).alone ≡ true → sound → (p : Points) → HasOpen (known self.old) p → doubtful self.old p (version_of d.now) ≡ true → fixing ≢ Fixing.Gone) }
        ensures others { IfOk result (λ _. (known self.old).alone ≡ true → sound → AreOthersDoubtful (known self.old) d.now.key (doubtful self.old) (doubtful self.new)) }
        ensures still { IfErr result (λ f. (known self.old).alone ≡ true → IsForRoom f → AreStillDoubtful (known self.old) (doubtful self.old) (doubtful self.new)) }
        ensures refused { IfErr result (Refuses (fix_cause sound) (known self.old) (known self.new)) };

    /// Gives rows of the point their base versions in an index that was born there: verified ones, at its birth.
    fn base(&mut self, p: &Point, index: IndexId, rows: &BaseRows) -> Result<u64, StepFault>
        requires open { HasOpen (known self.old) p.now }
        requires some { rows.now ≢ [] }
        requires few { length rows.now ≤ 64 }
        requires rows { MayBase sound (known self.old) p.now index.0 rows.now }
        ensures one_call { one_call self.old self.new }
        ensures ok { IfOk result (DidBase (known self.old) (known self.new) p.now index rows.now) }
        ensures refused { IfErr result (Refuses base_cause (known self.old) (known self.new)) };

    /// Closes the point. It takes no memory.
    fn close_point(&mut self, p: Point)
        requires { HasOpen (known self.old) p }
        ensures one_call { one_call self.old self.new }
        ensures unlooked { (known self.old).alone ≡ true → looked self.new ≡ looked self.old }
        ensures adds { Adds (known self.old) (known self.new) (Released p.table p.stamp) };

    /// Asks for what upkeep is to do before it is due, of each region of each table that stands. It makes no step of it, adds nothing to the trail and
    /// touches no file: `upkeep` makes the steps, and isn't Idle before they are made. It is refused only where the server is closed.
    fn order(&mut self, job: Ordered) -> Result<(), StepFault>
        ensures one_call { one_call self.old self.new }
        ensures ok { IfOk result (DidOrder (known self.old) (known self.new)) }
        ensures ordered { IfOk result (λ _. ordered self.new job) }
        ensures refused { IfErr result (Refuses order_cause (known self.old) (known self.new)) };

    /// One step of one job of upkeep. It is Idle where no region of a table that stands has a step to make: then all that was ordered is done.
    fn upkeep(&mut self) -> Result<Work, StepFault>
        ensures one_call { one_call self.old self.new }
        ensures ok { IfOk result (DidWork (known self.old) (known self.new)) }
        ensures unlooked { (known self.old).alone ≡ true → looked self.new ≡ looked self.old }
        ensures still { IfOk result (λ _. (known self.old).alone ≡ true → sound → AreStillDoubtful (known self.old) (doubtful self.old) (doubtful self.new)) }
        ensures done { IfOk result (λ work. IsIdleWork work → (job : Orders) → done self.new job) }
        ensures refused { IfErr result (Refuses (upkeep_cause sound) (known self.old) (known self.new)) };

    /// The table's last stamp and horizon, and counts of its cells, files and index rows.
    fn status(&mut self, table: TableId) -> Result<Status, StepFault>
        ensures one_call { one_call self.old self.new }
        ensures ok { IfOk result (DidCount (known self.old) (known self.new) table) }
        ensures refused { IfErr result (Refuses (status_cause sound table.0) (known self.old) (known self.new)) };

    /// The number of entries that the seat has seen. It is no step.
    fn seen(&self) -> u64
        ensures { result ≡ length (known self.now).seen };
}
