// What stands.
ghost use Rattle.std.specs.Prelude.{◌≡◌, IfOk, IfErr};
ghost use Rattle.px_calls.specs.Calls.{DidFind};
ghost use Rattle.px_calls.specs.Causes.{Refuses, find_cause};
ghost use Rattle.px_server.specs.DeviceCalls.{Blames, MakesNoCall};
ghost use Rattle.px_server.specs.Shown.{known_by};

use crate::{Founded, Server};
use px_calls::StepFault;
use px_outside::{Clock, CountsCalls};
use px_seat::Based;
use px_standing::{found, table_place};
use px_tables::Found;
use px_values::Name;

impl<D: CountsCalls, C: Clock, B: Based + Founded> Server<D, C, B> {
    /// The table of a name, with its indexes.
    pub fn find(&mut self, name: &Name) -> Result<Found, StepFault>
        ensures ok { IfOk result (DidFind (known_by B.base B.damaged self.old) (known_by B.base B.damaged self.new) name.now) }
        ensures refused { IfErr result (Refuses (find_cause name.now) (known_by B.base B.damaged self.old) (known_by B.base B.damaged self.new)) }
        ensures counts { MakesNoCall self.old self.new }
        ensures blames { IfErr result (Blames self.old self.new) }
    {
        if let Some(call) = self.closed {
            return Err(StepFault::Closed { call });
        }
        let Some(place) = table_place(&self.standing, name) else {
            return Err(StepFault::NoTable);
        };
        match found(self.alloc, &self.standing, place, self.trail.len()) {
            Ok(table) => Ok(table),
            Err(_) => Err(StepFault::Memory),
        }
    }
}
