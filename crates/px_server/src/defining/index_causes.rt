// Why no index is made.
ghost use Rattle.std.specs.Prelude.{◌≡◌, IfNone, IfSome};
ghost use Rattle.px_calls.specs.Causes.{Refuses, define_cause};
ghost use Rattle.px_calls.specs.declared.definition.Definition.TheVariants.{Index as IndexDefinition};
ghost use Rattle.px_server.specs.inner.Indexing.{MayMakeIndex};
ghost use Rattle.px_server.specs.Shown.{known_by};

use crate::defining::tables::limit;
use crate::{Founded, Server};
use px_calls::StepFault;
use px_outside::{Clock, CountsCalls};
use px_seat::Based;
use px_standing::{is_free, numbered_place};
use px_tables::NewIndex;
use px_values::Limit;

impl<D: CountsCalls, C: Clock, B: Based + Founded> Server<D, C, B> {
    /// Why no index is made.
    pub(crate) fn index_refusal(&self, what: &NewIndex) -> Option<StepFault>
        ensures refused { IfSome result (Refuses (define_cause (IndexDefinition what.now)) (known_by B.base B.damaged self.now) (known_by B.base B.damaged self.now)) }
        ensures may { IfNone result (MayMakeIndex (known_by B.base B.damaged self.now) what.now) }
    {
        if let Some(call) = self.closed {
            return Some(StepFault::Closed { call });
        }
        let Some(place) = numbered_place(&self.standing, what.table) else {
            return Some(StepFault::NoTable);
        };
        if !is_free(&self.standing, &what.name) {
            return Some(StepFault::NameExists);
        }
        if !self.standing.has_room_for_index(what.table) {
            return Some(limit(Limit::Indexes));
        }
        if self.groups[place].last >= Limit::Stamps.most() {
            return Some(limit(Limit::Stamps));
        }
        if !self.standing.has_numbers(2) {
            return Some(limit(Limit::Ids));
        }
        None
    }
}
