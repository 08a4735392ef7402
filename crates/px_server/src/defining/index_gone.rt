// An index is dropped.
ghost use Rattle.std.specs.Prelude.{◌≡◌, IfErr, IfOk};
ghost use Rattle.px_calls.specs.Calls.{DidDefine};
ghost use Rattle.px_calls.specs.Causes.{Refuses, define_cause};
ghost use Rattle.px_calls.specs.declared.definition.Definition.TheVariants.{DropIndex as DropDefinition};
ghost use Rattle.px_server.specs.DeviceCalls.{Blames, MakesAtMost};
ghost use Rattle.px_server.specs.Shown.{known_by};

use crate::defining::failing::{entered, take_entry};
use crate::defining::quiet::quiet_place;
use crate::defining::tables::standing_after;
use crate::{Founded, Server};
use px_calls::{Made, StepFault};
use px_outside::{Clock, CountsCalls};
use px_schema::CatalogItem;
use px_seat::Based;
use px_trail::Act;
use px_values::{IndexId, TableId};
use std::mem;

impl<D: CountsCalls, C: Clock, B: Based + Founded> Server<D, C, B> {
    /// Drops an index, where no point and no batch of its table is open. One that is disabled has no region here.
    pub fn drop_index(&mut self, table: TableId, index: IndexId) -> Result<Made, StepFault>
        ensures ok { IfOk result (DidDefine (known_by B.base B.damaged self.old) (known_by B.base B.damaged self.new) (DropDefinition table index)) }
        ensures refused { IfErr result (Refuses (define_cause (DropDefinition table index)) (known_by B.base B.damaged self.old) (known_by B.base B.damaged self.new)) }
        ensures counts { MakesAtMost 4 self.old self.new }
        ensures blames { IfErr result (Blames self.old self.new) }
    {
        let place = quiet_place(
            self.closed,
            &self.standing,
            self.groups.as_slice(),
            table,
            index,
        )?;
        let item = CatalogItem::IndexGone(index);
        let Ok(standing) = standing_after(self.alloc, &self.standing, item) else {
            return Err(StepFault::Memory);
        };
        let Ok(()) = take_entry(&mut self.trail) else {
            drop(standing);
            return Err(StepFault::Memory);
        };
        let act = Act::Dropped {
            table,
            index: Some(index),
        };
        match entered(
            self.catalog
                .append(&mut self.disk, CatalogItem::IndexGone(index)),
            &self.disk,
            self.seat,
            act,
            &mut self.trail,
            &mut self.late,
            &mut self.closed,
        ) {
            Ok(()) => {
                px_defined::drop_index(&mut self.groups[place.table], index);
                let before = mem::replace(&mut self.standing, standing);
                drop(before);
                Ok(Made {
                    number: index.0,
                    stamp: 0,
                    at: self.trail.len(),
                })
            }
            Err(fault) => {
                drop(standing);
                Err(fault)
            }
        }
    }
}
