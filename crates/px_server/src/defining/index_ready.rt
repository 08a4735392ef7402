// An index becomes one that queries read.
ghost use Rattle.std.specs.Prelude.{◌≡◌, IfErr, IfOk};
ghost use Rattle.px_calls.specs.Calls.{DidDefine};
ghost use Rattle.px_calls.specs.Causes.{Refuses, define_cause};
ghost use Rattle.px_calls.specs.Requires.{MayActivate};
ghost use Rattle.px_calls.specs.declared.definition.Definition.TheVariants.{Active as ActiveDefinition};
ghost use Rattle.px_server.specs.DeviceCalls.{Blames, MakesAtMost};
ghost use Rattle.px_server.specs.Shown.{known_by};

use crate::defining::failing::{entered, take_entry};
use crate::defining::prepared::{IndexToPut, index_to_activate};
use crate::{Founded, Server};
use px_calls::{Made, StepFault};
use px_defined::index_place;
use px_outside::{Clock, CountsCalls};
use px_schema::CatalogItem;
use px_seat::Based;
use px_standing::numbered_place;
use px_tables::IndexState;
use px_trail::Act;
use px_values::{IndexId, TableId};
use std::mem;

impl<D: CountsCalls, C: Clock, B: Based + Founded> Server<D, C, B> {
    /// Lets queries read the index. Each row that its table had at its birth was given its base version.
    pub fn define_active(&mut self, table: TableId, index: IndexId) -> Result<Made, StepFault>
        requires { MayActivate B.sound (known_by B.base B.damaged self.old) table.0 index.0 }
        ensures ok { IfOk result (DidDefine (known_by B.base B.damaged self.old) (known_by B.base B.damaged self.new) (ActiveDefinition table index)) }
        ensures refused { IfErr result (Refuses (define_cause (ActiveDefinition table index)) (known_by B.base B.damaged self.old) (known_by B.base B.damaged self.new)) }
        ensures counts { MakesAtMost 4 self.old self.new }
        ensures blames { IfErr result (Blames self.old self.new) }
    {
        if let Some(call) = self.closed {
            return Err(StepFault::Closed { call });
        }
        let Some(place) = numbered_place(&self.standing, table) else {
            return Err(StepFault::NoTable);
        };
        let group = &self.groups[place];
        let Some(at) = index_place(group, index) else {
            return Err(StepFault::NoIndex);
        };
        let part = &group.indexes[at];
        let stamp = part.index.birth;
        let made = index_to_activate(self.alloc, &self.standing, &part.index)?;
        let Ok(()) = take_entry(&mut self.trail) else {
            drop(made);
            return Err(StepFault::Memory);
        };
        let IndexToPut {
            index: before,
            item,
            standing,
        } = made;
        drop(before);
        let act = Act::IndexState {
            table,
            index,
            state: IndexState::Active,
            stamp,
        };
        match entered(
            self.catalog
                .append(&mut self.disk, CatalogItem::IndexIs(item)),
            &self.disk,
            self.seat,
            act,
            &mut self.trail,
            &mut self.late,
            &mut self.closed,
        ) {
            Ok(()) => {
                px_defined::make_active(&mut self.groups[place], at);
                let before = mem::replace(&mut self.standing, standing);
                drop(before);
                Ok(Made {
                    number: index.0,
                    stamp,
                    at: self.trail.len(),
                })
            }
            Err(fault) => {
                drop(standing);
                Err(fault)
            }
        }
    }
}
