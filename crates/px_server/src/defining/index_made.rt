// An index is made.
ghost use Rattle.std.specs.Prelude.{◌≡◌, IfErr, IfOk};
ghost use Rattle.px_calls.specs.Calls.{DidDefine};
ghost use Rattle.px_calls.specs.Causes.{Refuses, define_cause};
ghost use Rattle.px_calls.specs.Requires.{IsIndexFit};
ghost use Rattle.px_calls.specs.declared.definition.Definition.TheVariants.{Index as IndexDefinition};
ghost use Rattle.px_server.specs.inner.Indexing.{MayMakeIndex};
ghost use Rattle.px_server.specs.DeviceCalls.{Blames, MakesAtMost};
ghost use Rattle.px_server.specs.Shown.{known_by};

use crate::defining::failing::{entered, take_entry};
use crate::defining::prepared::{IndexToMake, index_to_make};
use crate::defining::stamps::next_stamp;
use crate::{Founded, Server};
use px_calls::{Made, StepFault};
use px_defined::{add_index, reserve_index};
use px_outside::{Clock, CountsCalls};
use px_schema::CatalogItem;
use px_seat::Based;
use px_standing::numbered_place;
use px_tables::NewIndex;
use px_trail::Act;
use std::mem;

impl<D: CountsCalls, C: Clock, B: Based + Founded> Server<D, C, B> {
    /// Makes an index, which is then being built.
    pub fn define_index(&mut self, what: &NewIndex) -> Result<Made, StepFault>
        requires { IsIndexFit (known_by B.base B.damaged self.old) what.now }
        ensures ok { IfOk result (DidDefine (known_by B.base B.damaged self.old) (known_by B.base B.damaged self.new) (IndexDefinition what.now)) }
        ensures refused { IfErr result (Refuses (define_cause (IndexDefinition what.now)) (known_by B.base B.damaged self.old) (known_by B.base B.damaged self.new)) }
        ensures counts { MakesAtMost 4 self.old self.new }
        ensures blames { IfErr result (Blames self.old self.new) }
    {
        if let Some(fault) = self.index_refusal(what) {
            return Err(fault);
        }
        self.make_index(what)
    }

    /// Makes the index, where nothing hinders it.
    fn make_index(&mut self, what: &NewIndex) -> Result<Made, StepFault>
        requires may { MayMakeIndex (known_by B.base B.damaged self.old) what.now }
        requires fits { IsIndexFit (known_by B.base B.damaged self.old) what.now }
        ensures ok { IfOk result (DidDefine (known_by B.base B.damaged self.old) (known_by B.base B.damaged self.new) (IndexDefinition what.now)) }
        ensures refused { IfErr result (Refuses (define_cause (IndexDefinition what.now)) (known_by B.base B.damaged self.old) (known_by B.base B.damaged self.new)) }
        ensures counts { MakesAtMost 4 self.old self.new }
        ensures blames { IfErr result (Blames self.old self.new) }
    {
        let Some(place) = numbered_place(&self.standing, what.table) else {
            unreachable!()
        };
        let stamp = next_stamp(&mut self.clock, self.groups[place].last);
        let made = index_to_make(self.alloc, &self.standing, stamp, what)?;
        let Ok(()) = take_entry(&mut self.trail) else {
            drop(made);
            return Err(StepFault::Memory);
        };
        let Ok(()) = reserve_index(&mut self.groups[place]) else {
            drop(made);
            return Err(StepFault::Memory);
        };
        let IndexToMake {
            index,
            item,
            what: definition,
            standing,
        } = made;
        let number = index.id;
        let act = Act::IndexMade {
            table: what.table,
            index: number,
            stamp,
            what: definition,
        };
        match entered(
            self.catalog
                .append(&mut self.disk, CatalogItem::IndexIs(item)),
            &self.disk,
            self.seat,
            act,
            &mut self.trail,
            &mut self.late,
            &mut self.closed,
        ) {
            Ok(()) => {
                add_index(self.alloc, &mut self.groups[place], index);
                let before = mem::replace(&mut self.standing, standing);
                drop(before);
                Ok(Made {
                    number: number.0,
                    stamp,
                    at: self.trail.len(),
                })
            }
            Err(fault) => {
                drop(index);
                drop(standing);
                Err(fault)
            }
        }
    }
}
