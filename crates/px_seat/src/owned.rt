// Steps of a single owner, under the lock.
ghost use Rattle.std.specs.Prelude.{◌≡◌, ◌≢◌, ◌≤◌, true, [], length, IfOk, IfErr, IsSome};
ghost use Rattle.px_trail.specs.Batches.{Marking, Writing, Verifying, is_distinct, rows_of};
ghost use Rattle.px_trail.specs.Legal.{IsLegal};
ghost use Rattle.px_trail.specs.declared.entry.Act.TheVariants.{Ended, Released};
ghost use Rattle.px_calls.specs.Known.{Known, Sees, Adds};
ghost use Rattle.px_calls.specs.Requires.{AreFitting, CanAbandon, CanConsult, CanDefine, CanEnd, CanLook, HasOpen, IsScn, MayBase, TicketIn};
ghost use Rattle.px_calls.specs.Causes.{Refuses, base_cause, begin_cause, define_cause, find_cause, fix_cause, open_cause, order_cause, read_cause, rows_cause, status_cause, upkeep_cause, write_cause};
ghost use Rattle.px_calls.specs.Calls.{DidBase, DidBegin, DidConsult, DidCount, DidDefine, DidFind, DidFix, DidLook, DidMark, DidOpen, DidOrder, DidVerify, DidWork, DidWrite, IsIdleWork, IsReceipt};
ghost use Rattle.px_calls.specs.declared.status.Ordered.{Ordered as Orders};
ghost use Rattle.px_seat.specs.Grown.{Grew, IsOwned};

use px_calls::{
    BaseRows, Chunk, Definition, Doubt, Fixing, Held, Made, Marks, Ordered, Path, Point, Receipt,
    Status, StepFault, Steps, Ticket, Verifies, Work, Writes,
};
use px_tables::Found;
use px_trail::Entry;
use px_turn::Trailed;
use px_values::{Changes, IndexId, Key, Name, TableId};
use std::marker::{Brand, Model, PhantomData};

/// Steps that one owner makes, for one seat after another.
pub trait Single: Steps {
    /// Lets a seat act.
    fn act_as(&mut self, seat: u32)
        ensures { Self.known self.new ≡ record (Self.known self.old) { seat = seat } };
}

/// What stands before the first entry, and which places of which files aren't of the format. Each call of a program picks them.
pub trait Based {
    ghost use Rattle.std.specs.Prelude.{ℕ, Bool};
    ghost use Rattle.px_trail.specs.Trail.{Base};

    ghost base: { Base };

    ghost damaged: { ℕ → ℕ → Bool };
}

impl Based for Brand {
    ghost use Rattle.std.specs.Prelude.{None, false};

    ghost base = { record { tables = λ t. None; indexes = λ i. None; next = 0; last = λ t. 0; horizon = λ t. 0; data_horizon = λ t. 0; state = λ t r p. None; changed = λ t r s. false } };

    ghost damaged = { λ file place. false };
}

/// The steps of one owner, whose trail is legal. Contracts see the owner's steps.
pub struct Owned<S: Single, B: Based> {
    core: S,
    of: PhantomData<B>,
}

impl<S: Single, B: Based> Model for Owned<S, B> {
    ghost use Rattle.px_seat.specs.Grown.{IsOwned};

    ghost Value = { S };

    ghost view = { λ s. s.core };

    ghost invariant = { λ s. IsOwned B.base B.damaged (S.known s.core) };
}

impl<S: Single, B: Based> Trailed for Owned<S, B> {
    type Entry = Entry;

    ghost trail = { λ v. (S.known v).seen };

    ghost seat_of = { λ e. e.seat };

    fn entries(&self) -> u64 {
        self.core.seen()
    }
}

impl<S: Single, B: Based> Owned<S, B> {
    /// Steps on which nobody else acts.
    pub fn new(core: S) -> Owned<S, B>
        requires alone { (S.known core).alone ≡ true }
        requires legal { IsLegal (S.known core).base (S.known core).seen }
        requires base { (S.known core).base ≡ B.base }
        requires damaged { (S.known core).damaged ≡ B.damaged }
        ensures { result ≡ core }
    {
        Owned {
            core,
            of: PhantomData,
        }
    }

    /// The owner's steps again.
    pub fn into_core(self) -> S
        ensures same { result ≡ self }
        ensures owned { IsOwned B.base B.damaged (S.known result) }
    {
        let Owned { core, of: _ } = self;
        core
    }

    /// Lets a seat act.
    pub(crate) fn act_as(&mut self, seat: u32)
        ensures known { S.known self.new ≡ record (S.known self.old) { seat = seat } }
        ensures owned { IsOwned B.base B.damaged (S.known self.new) }
    {
        self.core.act_as(seat);
    }

    /// The number of entries.
    pub(crate) fn seen(&self) -> u64
        ensures { result ≡ length (S.known self.now).seen }
    {
        self.core.seen()
    }

    /// The table of a name, with its indexes.
    pub(crate) fn find(&mut self, name: &Name) -> Result<Found, StepFault>
        ensures grew { Grew (S.known self.old) (S.known self.new) }
        ensures owned { IsOwned B.base B.damaged (S.known self.new) }
        ensures ok { IfOk result (DidFind (S.known self.old) (S.known self.new) name.now) }
        ensures refused { IfErr result (Refuses (find_cause name.now) (S.known self.old) (S.known self.new)) }
    {
        self.core.find(name)
    }

    /// Makes a table or an index, makes an index active, disables one or builds it again, or drops one.
    pub(crate) fn define(&mut self, definition: &Definition) -> Result<Made, StepFault>
        requires { CanDefine S.sound (S.known self.old) definition.now }
        ensures grew { Grew (S.known self.old) (S.known self.new) }
        ensures owned { IsOwned B.base B.damaged (S.known self.new) }
        ensures ok { IfOk result (DidDefine (S.known self.old) (S.known self.new) definition.now) }
        ensures refused { IfErr result (Refuses (define_cause definition.now) (S.known self.old) (S.known self.new)) }
    {
        self.core.define(definition)
    }

    /// Draws a stamp, and begins the batch.
    pub(crate) fn begin(&mut self, table: TableId, changes: &Changes) -> Result<Ticket, StepFault>
        requires some { changes.now ≢ [] }
        requires rows { length changes.now ≤ 1000 }
        requires distinct { is_distinct (rows_of changes.now) ≡ true }
        requires fits { AreFitting (S.known self.old) table.0 changes.now }
        ensures grew { Grew (S.known self.old) (S.known self.new) }
        ensures owned { IsOwned B.base B.damaged (S.known self.new) }
        ensures ok { IfOk result (DidBegin S.sound (S.known self.old) (S.known self.new) table changes.now) }
        ensures refused { IfErr result (Refuses (begin_cause S.sound table.0 changes.now) (S.known self.old) (S.known self.new)) }
    {
        self.core.begin(table, changes)
    }

    /// Phase 1 on one region: marks the batch's index rows.
    pub(crate) fn mark(&mut self, t: &mut Ticket) -> Result<Marks, StepFault>
        requires { TicketIn (S.known self.old) t.old Marking }
        ensures grew { Grew (S.known self.old) (S.known self.new) }
        ensures owned { IsOwned B.base B.damaged (S.known self.new) }
        ensures ticket { t.new ≡ t.old }
        ensures ok { IfOk result (DidMark (S.known self.old) (S.known self.new) t.old) }
        ensures refused { IfErr result (Refuses write_cause (S.known self.old) (S.known self.new)) }
    {
        self.core.mark(t)
    }

    /// Phase 2 on one region: writes rows.
    pub(crate) fn write(&mut self, t: &mut Ticket) -> Result<Writes, StepFault>
        requires { TicketIn (S.known self.old) t.old Writing }
        ensures grew { Grew (S.known self.old) (S.known self.new) }
        ensures owned { IsOwned B.base B.damaged (S.known self.new) }
        ensures ticket { t.new ≡ t.old }
        ensures ok { IfOk result (DidWrite (S.known self.old) (S.known self.new) t.old) }
        ensures refused { IfErr result (Refuses (rows_cause t.old.table.0 t.old.stamp) (S.known self.old) (S.known self.new)) }
    {
        self.core.write(t)
    }

    /// Phase 3 on one region: verifies index rows.
    pub(crate) fn verify_marks(&mut self, t: &mut Ticket) -> Result<Verifies, StepFault>
        requires { TicketIn (S.known self.old) t.old Verifying }
        ensures grew { Grew (S.known self.old) (S.known self.new) }
        ensures owned { IsOwned B.base B.damaged (S.known self.new) }
        ensures ticket { t.new ≡ t.old }
        ensures ok { IfOk result (DidVerify (S.known self.old) (S.known self.new) t.old) }
        ensures refused { IfErr result (Refuses write_cause (S.known self.old) (S.known self.new)) }
    {
        self.core.verify_marks(t)
    }

    /// Ends the batch.
    pub(crate) fn end(&mut self, t: Ticket) -> Receipt
        requires { CanEnd (S.known self.old) t }
        ensures grew { Grew (S.known self.old) (S.known self.new) }
        ensures owned { IsOwned B.base B.damaged (S.known self.new) }
        ensures adds { Adds (S.known self.old) (S.known self.new) (Ended t.table t.stamp) }
        ensures receipt { IsReceipt (S.known self.new) t result }
    {
        self.core.end(t)
    }

    /// Gives up a batch that can't go on, since the server is closed.
    pub(crate) fn abandon(&mut self, t: Ticket)
        requires { CanAbandon (S.known self.old) t }
        ensures grew { Grew (S.known self.old) (S.known self.new) }
        ensures owned { IsOwned B.base B.damaged (S.known self.new) }
        ensures sees { Sees (S.known self.old) (S.known self.new) }
    {
        self.core.abandon(t);
    }

    /// Opens a point of the table.
    pub(crate) fn open_point(
        &mut self,
        table: TableId,
        scn: Option<u64>,
    ) -> Result<Point, StepFault>
        requires { IsScn scn }
        ensures grew { Grew (S.known self.old) (S.known self.new) }
        ensures owned { IsOwned B.base B.damaged (S.known self.new) }
        ensures ok { IfOk result (DidOpen (S.known self.old) (S.known self.new) table scn) }
        ensures refused { IfErr result (Refuses (open_cause table.0 scn) (S.known self.old) (S.known self.new)) }
    {
        self.core.open_point(table, scn)
    }

    /// The next keys of the path past `after`.
    pub(crate) fn look(
        &mut self,
        p: &Point,
        path: &Path,
        after: &Option<Key>,
    ) -> Result<Chunk, StepFault>
        requires open { HasOpen (S.known self.old) p.now }
        requires path { CanLook p.now path.now }
        ensures grew { Grew (S.known self.old) (S.known self.new) }
        ensures owned { IsOwned B.base B.damaged (S.known self.new) }
        ensures ok { IfOk result (DidLook S.sound (S.known self.old) (S.known self.new) p.now path.now after.now) }
        ensures refused { IfErr result (Refuses (read_cause S.sound) (S.known self.old) (S.known self.new)) }
    {
        self.core.look(p, path, after)
    }

    /// The row of a doubt at the point. Leaves a verdict in the doubt.
    pub(crate) fn consult(&mut self, p: &Point, d: &mut Doubt) -> Result<Option<Held>, StepFault>
        requires open { HasOpen (S.known self.old) p.now }
        requires doubt { CanConsult p.now d.old }
        ensures grew { Grew (S.known self.old) (S.known self.new) }
        ensures owned { IsOwned B.base B.damaged (S.known self.new) }
        ensures ok { IfOk result (DidConsult S.sound (S.known self.old) (S.known self.new) p.now d.old d.new) }
        ensures same { IfErr result (λ f. d.new ≡ d.old) }
        ensures refused { IfErr result (Refuses (read_cause S.sound) (S.known self.old) (S.known self.new)) }
    {
        self.core.consult(p, d)
    }

    /// Repairs the index row of a doubt.
    pub(crate) fn fix(&mut self, d: &Doubt) -> Result<Fixing, StepFault>
        requires { IsSome d.now.verdict }
        ensures grew { Grew (S.known self.old) (S.known self.new) }
        ensures owned { IsOwned B.base B.damaged (S.known self.new) }
        ensures ok { IfOk result (DidFix (S.known self.old) (S.known self.new) d.now) }
        ensures refused { IfErr result (Refuses (fix_cause S.sound) (S.known self.old) (S.known self.new)) }
    {
        self.core.fix(d)
    }

    /// Gives rows of the point their base versions in an index that was born there.
    pub(crate) fn base(
        &mut self,
        p: &Point,
        index: IndexId,
        rows: &BaseRows,
    ) -> Result<u64, StepFault>
        requires open { HasOpen (S.known self.old) p.now }
        requires some { rows.now ≢ [] }
        requires few { length rows.now ≤ 64 }
        requires rows { MayBase S.sound (S.known self.old) p.now index.0 rows.now }
        ensures grew { Grew (S.known self.old) (S.known self.new) }
        ensures owned { IsOwned B.base B.damaged (S.known self.new) }
        ensures ok { IfOk result (DidBase (S.known self.old) (S.known self.new) p.now index rows.now) }
        ensures refused { IfErr result (Refuses base_cause (S.known self.old) (S.known self.new)) }
    {
        self.core.base(p, index, rows)
    }

    /// Closes the point.
    pub(crate) fn close_point(&mut self, p: Point)
        requires { HasOpen (S.known self.old) p }
        ensures grew { Grew (S.known self.old) (S.known self.new) }
        ensures owned { IsOwned B.base B.damaged (S.known self.new) }
        ensures adds { Adds (S.known self.old) (S.known self.new) (Released p.table p.stamp) }
    {
        self.core.close_point(p);
    }

    /// Asks for what upkeep is to do.
    pub(crate) fn order(&mut self, job: Ordered) -> Result<(), StepFault>
        ensures grew { Grew (S.known self.old) (S.known self.new) }
        ensures owned { IsOwned B.base B.damaged (S.known self.new) }
        ensures ok { IfOk result (DidOrder (S.known self.old) (S.known self.new)) }
        ensures ordered { IfOk result (λ _. S.ordered self.new job) }
        ensures refused { IfErr result (Refuses order_cause (S.known self.old) (S.known self.new)) }
    {
        self.core.order(job)
    }

    /// One step of one job of upkeep.
    pub(crate) fn upkeep(&mut self) -> Result<Work, StepFault>
        ensures grew { Grew (S.known self.old) (S.known self.new) }
        ensures owned { IsOwned B.base B.damaged (S.known self.new) }
        ensures ok { IfOk result (DidWork (S.known self.old) (S.known self.new)) }
        ensures done { IfOk result (λ work. IsIdleWork work → (job : Orders) → S.done self.new job) }
        ensures refused { IfErr result (Refuses (upkeep_cause S.sound) (S.known self.old) (S.known self.new)) }
    {
        self.core.upkeep()
    }

    /// The table's last stamp and horizon, and its counts.
    pub(crate) fn status(&mut self, table: TableId) -> Result<Status, StepFault>
        ensures grew { Grew (S.known self.old) (S.known self.new) }
        ensures owned { IsOwned B.base B.damaged (S.known self.new) }
        ensures ok { IfOk result (DidCount (S.known self.old) (S.known self.new) table) }
        ensures refused { IfErr result (Refuses (status_cause S.sound table.0) (S.known self.old) (S.known self.new)) }
    {
        self.core.status(table)
    }
}
