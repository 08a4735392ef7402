// A seat at the lock, as steps.
ghost use Rattle.std.specs.Prelude.{◌≡◌, length};
ghost use Rattle.px_turn.specs.Seats.{IsSeat, name_of, seat_number, seen_by_seat};
ghost use Rattle.px_seat.specs.Grown.{WasSo, mine};

use crate::owned::{Based, Owned, Single};
use px_calls::{
    BaseRows, Chunk, Definition, Doubt, Fixing, Held, Made, Marks, Ordered, Path, Point, Receipt,
    Status, StepFault, Steps, Ticket, Verifies, Work, Writes, count_after,
};
use px_tables::Found;
use px_turn::{TurnLock, TurnSeat};
use px_values::{Changes, IndexId, Key, Name, TableId};
use std::marker::{Brand, PhantomData};
use std::sync::Wait;

/// Which lock it is. Each call of a program picks it.
pub trait LockNamed {
    ghost use Rattle.px_turn.specs.Seats.{Name};

    ghost name: { Name };
}

impl LockNamed for Brand {
    ghost use Rattle.std.specs.Prelude.{[]};

    ghost name = { record { table = record { words = 0; slots = 0; views_name = 0; atom = 0; block = 0; offset = 0; slot_names = [] }; seats = 0 } };
}

/// How many calls a seat has made, and how many entries it has seen.
#[derive(Drop)]
struct Counts {
    calls: u64,
    seen: u64,
}

impl Counts {
    ghost use Rattle.px_calls.specs.Counts.{count_after};

    /// One call more, in which so many entries were seen.
    fn count(&mut self, seen: u64)
        ensures calls { self.new.calls ≡ count_after self.old.calls }
        ensures seen { self.new.seen ≡ seen }
    {
        self.calls = count_after(self.calls);
        self.seen = seen;
    }
}

/// A seat at the lock, between two turns. It counts its calls.
pub struct SeatAt<'a, R: Wait, S: Single, N: LockNamed, B: Based> {
    rt: &'a R,
    lock: &'a TurnLock<Owned<S, B>>,
    seat: TurnSeat<Owned<S, B>>,
    id: u32,
    counts: Counts,
    of: PhantomData<(N, B)>,
    ghost named: { name_of lock.now ≡ N.name },
    ghost is_seat: { IsSeat N.name seat × (seat_number seat ≡ id) },
    ghost counted: { counts.seen ≡ length (seen_by_seat seat) },
}

impl<'a, R: Wait, S: Single, N: LockNamed, B: Based> SeatAt<'a, R, S, N, B> {
    /// The seat of this number at this lock, which has seen so many entries.
    pub fn new(
        rt: &'a R,
        lock: &'a TurnLock<Owned<S, B>>,
        seat: TurnSeat<Owned<S, B>>,
        id: u32,
        seen: u64,
    ) -> SeatAt<'a, R, S, N, B>
        requires named { name_of lock.now ≡ N.name }
        requires is_seat { IsSeat N.name seat × (seat_number seat ≡ id) }
        requires counted { seen ≡ length (seen_by_seat seat) }
        ensures { (result.seat ≡ seat) × (result.id ≡ id) }
    {
        SeatAt {
            rt,
            lock,
            seat,
            id,
            counts: Counts { calls: 0, seen },
            of: PhantomData,
        }
    }

    /// The seat again, to close the lock with.
    pub fn seat(self) -> TurnSeat<Owned<S, B>>
        ensures same { result ≡ self.entry.seat }
        ensures is_seat { IsSeat N.name result × (seat_number result ≡ self.entry.id) }
    {
        let SeatAt {
            rt: _,
            lock: _,
            seat,
            id: _,
            counts: _,
            of: _,
        } = self;
        seat
    }
}

impl<'a, R: Wait, S: Single, N: LockNamed, B: Based> Steps for SeatAt<'a, R, S, N, B> {
    ghost use Rattle.std.specs.Prelude.{false};
    ghost use Rattle.px_calls.specs.Counts.{count_after};

    ghost known = { λ s. mine s.id B.base B.damaged (seen_by_seat s.seat) };

    ghost one_call = { λ a b. b.counts.calls ≡ count_after a.counts.calls };

    // Others may act, so nothing is told of it.
    ghost left = { λ _ _. 0 };

    ghost looked = { λ _. 0 };

    ghost doubtful = { λ _ _ _. false };

    ghost sound = { S.sound };

    ghost ordered = { λ s job. WasSo S S.known (λ owner. S.ordered owner job) (seen_by_seat s.seat) };

    ghost done = { λ s job. WasSo S S.known (λ owner. S.done owner job) (seen_by_seat s.seat) };

    fn find(&mut self, name: &Name) -> Result<Found, StepFault> {
        let mut guard = self.lock.enter(self.rt, &mut self.seat);
        let server = guard.value();
        server.act_as(self.id);
        let reply = server.find(name);
        let seen = server.seen();
        guard.leave();
        self.counts.count(seen);
        reply
    }

    fn define(&mut self, definition: &Definition) -> Result<Made, StepFault> {
        let mut guard = self.lock.enter(self.rt, &mut self.seat);
        let server = guard.value();
        server.act_as(self.id);
        let reply = server.define(definition);
        let seen = server.seen();
        guard.leave();
        self.counts.count(seen);
        reply
    }

    fn begin(&mut self, table: TableId, changes: &Changes) -> Result<Ticket, StepFault> {
        let mut guard = self.lock.enter(self.rt, &mut self.seat);
        let server = guard.value();
        server.act_as(self.id);
        let reply = server.begin(table, changes);
        let seen = server.seen();
        guard.leave();
        self.counts.count(seen);
        reply
    }

    fn mark(&mut self, t: &mut Ticket) -> Result<Marks, StepFault> {
        let mut guard = self.lock.enter(self.rt, &mut self.seat);
        let server = guard.value();
        server.act_as(self.id);
        let reply = server.mark(t);
        let seen = server.seen();
        guard.leave();
        self.counts.count(seen);
        reply
    }

    fn write(&mut self, t: &mut Ticket) -> Result<Writes, StepFault> {
        let mut guard = self.lock.enter(self.rt, &mut self.seat);
        let server = guard.value();
        server.act_as(self.id);
        let reply = server.write(t);
        let seen = server.seen();
        guard.leave();
        self.counts.count(seen);
        reply
    }

    fn verify_marks(&mut self, t: &mut Ticket) -> Result<Verifies, StepFault> {
        let mut guard = self.lock.enter(self.rt, &mut self.seat);
        let server = guard.value();
        server.act_as(self.id);
        let reply = server.verify_marks(t);
        let seen = server.seen();
        guard.leave();
        self.counts.count(seen);
        reply
    }

    fn end(&mut self, t: Ticket) -> Receipt {
        let mut guard = self.lock.enter(self.rt, &mut self.seat);
        let server = guard.value();
        server.act_as(self.id);
        let reply = server.end(t);
        let seen = server.seen();
        guard.leave();
        self.counts.count(seen);
        reply
    }

    fn abandon(&mut self, t: Ticket) {
        let mut guard = self.lock.enter(self.rt, &mut self.seat);
        let server = guard.value();
        server.act_as(self.id);
        server.abandon(t);
        let seen = server.seen();
        guard.leave();
        self.counts.count(seen);
    }

    fn open_point(&mut self, table: TableId, scn: Option<u64>) -> Result<Point, StepFault> {
        let mut guard = self.lock.enter(self.rt, &mut self.seat);
        let server = guard.value();
        server.act_as(self.id);
        let reply = server.open_point(table, scn);
        let seen = server.seen();
        guard.leave();
        self.counts.count(seen);
        reply
    }

    fn look(&mut self, p: &Point, path: &Path, after: &Option<Key>) -> Result<Chunk, StepFault> {
        let mut guard = self.lock.enter(self.rt, &mut self.seat);
        let server = guard.value();
        server.act_as(self.id);
        let reply = server.look(p, path, after);
        let seen = server.seen();
        guard.leave();
        self.counts.count(seen);
        reply
    }

    fn consult(&mut self, p: &Point, d: &mut Doubt) -> Result<Option<Held>, StepFault> {
        let mut guard = self.lock.enter(self.rt, &mut self.seat);
        let server = guard.value();
        server.act_as(self.id);
        let reply = server.consult(p, d);
        let seen = server.seen();
        guard.leave();
        self.counts.count(seen);
        reply
    }

    fn fix(&mut self, d: &Doubt) -> Result<Fixing, StepFault> {
        let mut guard = self.lock.enter(self.rt, &mut self.seat);
        let server = guard.value();
        server.act_as(self.id);
        let reply = server.fix(d);
        let seen = server.seen();
        guard.leave();
        self.counts.count(seen);
        reply
    }

    fn base(&mut self, p: &Point, index: IndexId, rows: &BaseRows) -> Result<u64, StepFault> {
        let mut guard = self.lock.enter(self.rt, &mut self.seat);
        let server = guard.value();
        server.act_as(self.id);
        let reply = server.base(p, index, rows);
        let seen = server.seen();
        guard.leave();
        self.counts.count(seen);
        reply
    }

    fn close_point(&mut self, p: Point) {
        let mut guard = self.lock.enter(self.rt, &mut self.seat);
        let server = guard.value();
        server.act_as(self.id);
        server.close_point(p);
        let seen = server.seen();
        guard.leave();
        self.counts.count(seen);
    }

    fn order(&mut self, job: Ordered) -> Result<(), StepFault> {
        let mut guard = self.lock.enter(self.rt, &mut self.seat);
        let server = guard.value();
        server.act_as(self.id);
        let reply = server.order(job);
        let seen = server.seen();
        guard.leave();
        self.counts.count(seen);
        reply
    }

    fn upkeep(&mut self) -> Result<Work, StepFault> {
        let mut guard = self.lock.enter(self.rt, &mut self.seat);
        let server = guard.value();
        server.act_as(self.id);
        let reply = server.upkeep();
        let seen = server.seen();
        guard.leave();
        self.counts.count(seen);
        reply
    }

    fn status(&mut self, table: TableId) -> Result<Status, StepFault> {
        let mut guard = self.lock.enter(self.rt, &mut self.seat);
        let server = guard.value();
        server.act_as(self.id);
        let reply = server.status(table);
        let seen = server.seen();
        guard.leave();
        self.counts.count(seen);
        reply
    }

    fn seen(&self) -> u64 {
        self.counts.seen
    }
}
