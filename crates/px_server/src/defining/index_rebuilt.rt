// An index is built again.
ghost use Rattle.std.specs.Prelude.{◌≡◌, IfErr, IfOk};
ghost use Rattle.px_calls.specs.Calls.{DidDefine};
ghost use Rattle.px_calls.specs.Causes.{Refuses, define_cause};
ghost use Rattle.px_calls.specs.declared.definition.Definition.TheVariants.{Rebuilding as RebuildingDefinition};
ghost use Rattle.px_server.specs.DeviceCalls.{Blames, MakesAtMost};
ghost use Rattle.px_server.specs.Shown.{known_by};

use crate::defining::failing::{entered, take_entry};
use crate::defining::prepared::IndexToPut;
use crate::defining::put::index_to_put;
use crate::defining::quiet::quiet_place;
use crate::defining::stamps::next_stamp;
use crate::defining::tables::limit;
use crate::{Founded, Server};
use px_calls::{Made, StepFault};
use px_defined::{replace_index, reserve_index};
use px_outside::{Clock, CountsCalls};
use px_schema::CatalogItem;
use px_seat::Based;
use px_tables::IndexState;
use px_trail::Act;
use px_values::{IndexId, Limit, TableId};
use std::mem;

impl<D: CountsCalls, C: Clock, B: Based + Founded> Server<D, C, B> {
    /// Builds an index again, where no point and no batch of its table is open: it has a new birth then, and a new region without a cell.
    pub fn rebuild_index(&mut self, table: TableId, index: IndexId) -> Result<Made, StepFault>
        ensures ok { IfOk result (DidDefine (known_by B.base B.damaged self.old) (known_by B.base B.damaged self.new) (RebuildingDefinition table index)) }
        ensures refused { IfErr result (Refuses (define_cause (RebuildingDefinition table index)) (known_by B.base B.damaged self.old) (known_by B.base B.damaged self.new)) }
        ensures counts { MakesAtMost 4 self.old self.new }
        ensures blames { IfErr result (Blames self.old self.new) }
    {
        let place = quiet_place(
            self.closed,
            &self.standing,
            self.groups.as_slice(),
            table,
            index,
        )?;
        if self.groups[place.table].last >= Limit::Stamps.most() {
            return Err(limit(Limit::Stamps));
        }
        if !self.standing.has_numbers(1) {
            return Err(limit(Limit::Ids));
        }
        let stamp = next_stamp(&mut self.clock, self.groups[place.table].last);
        let (birth, region) = (stamp, self.standing.next);
        let made = index_to_put(
            self.alloc,
            &self.groups[place.table].table,
            &self.standing,
            place.index,
            IndexState::Building,
            birth,
            region,
        )?;
        let Ok(()) = take_entry(&mut self.trail) else {
            drop(made);
            return Err(StepFault::Memory);
        };
        let Ok(()) = reserve_index(&mut self.groups[place.table]) else {
            drop(made);
            return Err(StepFault::Memory);
        };
        let IndexToPut {
            index: anew,
            item,
            standing,
        } = made;
        let act = Act::IndexState {
            table,
            index,
            state: IndexState::Building,
            stamp,
        };
        match entered(
            self.catalog
                .append(&mut self.disk, CatalogItem::IndexIs(item)),
            &self.disk,
            self.seat,
            act,
            &mut self.trail,
            &mut self.late,
            &mut self.closed,
        ) {
            Ok(()) => {
                replace_index(self.alloc, &mut self.groups[place.table], anew);
                let before = mem::replace(&mut self.standing, standing);
                drop(before);
                Ok(Made {
                    number: index.0,
                    stamp,
                    at: self.trail.len(),
                })
            }
            Err(fault) => {
                drop(anew);
                drop(standing);
                Err(fault)
            }
        }
    }
}
