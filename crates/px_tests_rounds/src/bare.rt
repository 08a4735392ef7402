// A server without a table, for the seat that acts.
ghost use Rattle.std.specs.Prelude.{◌≡◌};

use px_calls::{
    BaseRows, Chunk, Definition, Doubt, Fixing, Held, Made, Marks, Ordered, Path, Point, Receipt,
    Status, StepFault, Steps, Ticket, Verifies, Work, Writes,
};
use px_seat::Single;
use px_tables::Found;
use px_values::{Changes, IndexId, Key, Name, TableId};

/// A server on which no table stands.
#[derive(Drop)]
pub(crate) struct Bare {
    seat: u32,
}

impl Bare {
    pub(crate) fn new() -> Bare {
        Bare { seat: 1 }
    }
}

impl Single for Bare {
    fn act_as(&mut self, seat: u32) {
        self.seat = seat;
    }
}

impl Steps for Bare {
    ghost use Rattle.std.specs.Prelude.{false};
    ghost use Rattle.px_tests_rounds.specs.Bare.{bare};

    ghost known = { λ s. bare s.seat };

    ghost one_call = { λ _ _. Unit {0} };

    ghost left = { λ _ _. 0 };

    ghost looked = { λ _. 0 };

    ghost doubtful = { λ _ _ _. false };

    ghost sound = { Unit {0} };

    ghost ordered = { λ _ _. Unit {0} };

    ghost done = { λ _ _. Unit {0} };

    fn find(&mut self, _name: &Name) -> Result<Found, StepFault> {
        Err(StepFault::NoTable)
    }

    fn define(&mut self, _definition: &Definition) -> Result<Made, StepFault> {
        Err(StepFault::Memory)
    }

    fn begin(&mut self, _table: TableId, _changes: &Changes) -> Result<Ticket, StepFault> {
        Err(StepFault::NoTable)
    }

    fn mark(&mut self, _t: &mut Ticket) -> Result<Marks, StepFault> {
        unreachable!()
    }

    fn write(&mut self, _t: &mut Ticket) -> Result<Writes, StepFault> {
        unreachable!()
    }

    fn verify_marks(&mut self, _t: &mut Ticket) -> Result<Verifies, StepFault> {
        unreachable!()
    }

    fn end(&mut self, _t: Ticket) -> Receipt {
        unreachable!()
    }

    fn abandon(&mut self, _t: Ticket) {
        unreachable!()
    }

    fn open_point(&mut self, _table: TableId, _scn: Option<u64>) -> Result<Point, StepFault> {
        Err(StepFault::NoTable)
    }

    fn look(&mut self, _p: &Point, _path: &Path, _after: &Option<Key>) -> Result<Chunk, StepFault> {
        unreachable!()
    }

    fn consult(&mut self, _p: &Point, _d: &mut Doubt) -> Result<Option<Held>, StepFault> {
        unreachable!()
    }

    fn fix(&mut self, _d: &Doubt) -> Result<Fixing, StepFault> {
        Ok(Fixing::Gone)
    }

    // No point is open where no table stands, so no build of an index comes this far.
    fn base(&mut self, _p: &Point, _index: IndexId, _rows: &BaseRows) -> Result<u64, StepFault> {
        unreachable!()
    }

    fn close_point(&mut self, _p: Point) {
        unreachable!()
    }

    fn order(&mut self, _job: Ordered) -> Result<(), StepFault> {
        Ok(())
    }

    fn upkeep(&mut self) -> Result<Work, StepFault> {
        Ok(Work::Idle)
    }

    fn status(&mut self, _table: TableId) -> Result<Status, StepFault> {
        Err(StepFault::NoTable)
    }

    fn seen(&self) -> u64 {
        0
    }
}
