// An index is disabled.
ghost use Rattle.std.specs.Prelude.{◌≡◌, IfErr, IfOk};
ghost use Rattle.px_calls.specs.Calls.{DidDefine};
ghost use Rattle.px_calls.specs.Causes.{Refuses, define_cause};
ghost use Rattle.px_calls.specs.declared.definition.Definition.TheVariants.{Disabled as DisabledDefinition};
ghost use Rattle.px_server.specs.DeviceCalls.{Blames, MakesAtMost};
ghost use Rattle.px_server.specs.Shown.{known_by};

use crate::defining::failing::{entered, take_entry};
use crate::defining::prepared::IndexToPut;
use crate::defining::put::index_to_put;
use crate::defining::quiet::quiet_place;
use crate::{Founded, Server};
use px_calls::{Made, StepFault};
use px_outside::{Clock, CountsCalls};
use px_schema::CatalogItem;
use px_seat::Based;
use px_tables::IndexState;
use px_trail::Act;
use px_values::{IndexId, TableId};
use std::mem;

impl<D: CountsCalls, C: Clock, B: Based + Founded> Server<D, C, B> {
    /// Disables an index, where no point and no batch of its table is open. No batch maintains it from then on. One that is disabled stays so.
    pub fn disable_index(&mut self, table: TableId, index: IndexId) -> Result<Made, StepFault>
        ensures ok { IfOk result (DidDefine (known_by B.base B.damaged self.old) (known_by B.base B.damaged self.new) (DisabledDefinition table index)) }
        ensures refused { IfErr result (Refuses (define_cause (DisabledDefinition table index)) (known_by B.base B.damaged self.old) (known_by B.base B.damaged self.new)) }
        ensures counts { MakesAtMost 4 self.old self.new }
        ensures blames { IfErr result (Blames self.old self.new) }
    {
        let place = quiet_place(
            self.closed,
            &self.standing,
            self.groups.as_slice(),
            table,
            index,
        )?;
        let one = &self.standing.indexes.as_slice()[place.index];
        let (birth, region) = (one.birth, one.region);
        let made = index_to_put(
            self.alloc,
            &self.groups[place.table].table,
            &self.standing,
            place.index,
            IndexState::Disabled,
            birth,
            region,
        )?;
        let Ok(()) = take_entry(&mut self.trail) else {
            drop(made);
            return Err(StepFault::Memory);
        };
        let IndexToPut {
            index: before,
            item,
            standing,
        } = made;
        drop(before);
        let act = Act::IndexState {
            table,
            index,
            state: IndexState::Disabled,
            stamp: birth,
        };
        match entered(
            self.catalog
                .append(&mut self.disk, CatalogItem::IndexIs(item)),
            &self.disk,
            self.seat,
            act,
            &mut self.trail,
            &mut self.late,
            &mut self.closed,
        ) {
            Ok(()) => {
                px_defined::drop_index(&mut self.groups[place.table], index);
                let before = mem::replace(&mut self.standing, standing);
                drop(before);
                Ok(Made {
                    number: index.0,
                    stamp: birth,
                    at: self.trail.len(),
                })
            }
            Err(fault) => {
                drop(standing);
                Err(fault)
            }
        }
    }
}
