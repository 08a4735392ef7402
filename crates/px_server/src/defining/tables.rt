// Tables are made and dropped.
ghost use Rattle.std.specs.Prelude.{◌≡◌, ◌≢◌, ◌<◌, ◌≤◌, ◌+◌, ◌∷◌, [], ◌^◌, ℕ, length, IfOk, IfErr, OnOk};
ghost use Rattle.std.specs.List.{AllByRecursion};
ghost use Rattle.px_calls.specs.Calls.{DidDefine};
ghost use Rattle.px_calls.specs.Causes.{Refuses, define_cause};
ghost use Rattle.px_calls.specs.Requires.{IsNewTable};
ghost use Rattle.px_calls.specs.declared.fault.StepFault.TheVariants.{Limit as LimitFault};
ghost use Rattle.px_calls.specs.declared.definition.Definition.TheVariants.{Table as NewTableOf, DropTable as DropTableOf};
ghost use Rattle.px_defined.specs.Defined.{IsNewGroup};
ghost use Rattle.px_trail.specs.Trail.{made_table as table_of_definition};
ghost use Rattle.px_values.specs.Limits.{most_of};
ghost use Rattle.px_schema.specs.declared.item.CatalogItem.TheVariants.{TableIs};
ghost use Rattle.px_schema.specs.Stands.{drawn_by, stands_after};
ghost use Rattle.px_server.specs.DeviceCalls.{Blames, MakesAtMost};
ghost use Rattle.px_server.specs.Shown.{known_by};
ghost use Rattle.px_server.specs.inner.Making.{AreParts, IsUnmade, MayMake, table_made};

use crate::defining::failing::{entered, take_entry, take_room};
use crate::defining::spelled::{are_spelled, is_spelled};
use crate::{Founded, Server};
use px_calls::{Made, StepFault};
use px_defined::new_group;
use px_group::Group;
use px_outside::{Clock, CountsCalls};
use px_schema::{CatalogItem, Standing};
use px_seat::Based;
use px_standing::{is_free, new_table, numbered_place};
use px_tables::{NewTable, Table};
use px_trail::Act;
use px_values::{Limit, TableId};
use std::alloc::{AllocError, Global};
use std::mem;

/// Whether a table may be made, or why it isn't. One with a name that the catalogue can't spell, as an empty one, is told as want of
/// memory: no statement has such a name.
fn check_table(closed: Option<u64>, standing: &Standing, what: &NewTable) -> Result<(), StepFault>
    requires few { length what.now.least_keys ≤ 16 }
    ensures ok { OnOk result (MayMake standing.now closed what.now) }
    ensures refused { IfErr result (IsUnmade standing.now closed what.now) }
{
    let regions = what.least_keys.as_slice().len();
    if let Some(call) = closed {
        return Err(StepFault::Closed { call });
    }
    if !is_free(standing, &what.name) {
        return Err(StepFault::NameExists);
    }
    if !standing.has_room_for_table() {
        return Err(limit(Limit::Tables));
    }
    if !standing.has_numbers(regions as u64 + 1) {
        return Err(limit(Limit::Ids));
    }
    if what.key.as_slice().len() > 255
        || !is_spelled(&what.name)
        || !are_spelled(what.columns.as_slice())
    {
        return Err(StepFault::Memory);
    }
    Ok(())
}

/// A limit that would be passed.
pub(crate) fn limit(which: Limit) -> StepFault
    ensures { result ≡ LimitFault which (most_of which) }
{
    StepFault::Limit {
        which,
        count: which.most(),
    }
}

/// The table with the next numbers.
fn numbered(alloc: Global, next: u32, what: &NewTable) -> Result<Table, AllocError>
    requires { next + length what.now.least_keys < 2 ^ 32 }
    ensures { IfOk result (λ t. t ≡ table_of_definition next (record { 0 = next + length what.now.least_keys }) what.now) }
{
    let copy = what.copied(alloc)?;
    new_table(alloc, next, copy)
}

/// What stands after a definition.
pub(crate) fn standing_after(
    alloc: Global,
    standing: &Standing,
    item: CatalogItem,
) -> Result<Standing, AllocError>
    requires short { AllByRecursion (λ k. k < 4294967295) (drawn_by item) }
    ensures { IfOk result (λ s. s ≡ stands_after standing.now item) }
{
    match standing.copied(alloc) {
        Ok(copy) => copy.after(item),
        Err(fault) => {
            drop(item);
            Err(fault)
        }
    }
}

/// What a table takes that is made: its record, its group, what stands then, and its definition once more, for the entry.
struct Parts {
    item: Table,
    group: Group,
    standing: Standing,
    copy: NewTable,
}

/// The group of a new table, and its definition once more.
fn group_and_copy(
    alloc: Global,
    next: u32,
    what: &NewTable,
) -> Result<(Group, NewTable), AllocError>
    requires one { what.now.least_keys ≡ [] ∷ [] }
    requires numbers { next + length what.now.least_keys < 2 ^ 32 }
    ensures group { IfOk result (λ p. IsNewGroup (table_of_definition next (record { 0 = next + length what.now.least_keys }) what.now) p.0) }
    ensures copy { IfOk result (λ p. p.1 ≡ what.now) }
{
    let table = numbered(alloc, next, what)?;
    match what.copied(alloc) {
        Ok(copy) => Ok((new_group(alloc, table), copy)),
        Err(fault) => {
            drop(table);
            Err(fault)
        }
    }
}

/// What stands with the new table.
fn standing_with(
    alloc: Global,
    standing: &Standing,
    what: &NewTable,
) -> Result<Standing, AllocError>
    requires { standing.now.next + (length what.now.least_keys + 1) ≤ 4294967295 }
    ensures { IfOk result (λ s. s ≡ stands_after standing.now (TableIs (table_made standing.now what.now))) }
{
    let table = numbered(alloc, standing.next, what)?;
    standing_after(alloc, standing, CatalogItem::TableIs(table))
}

/// All of it but the record.
fn standing_and_group(
    alloc: Global,
    standing: &Standing,
    what: &NewTable,
) -> Result<(Standing, Group, NewTable), AllocError>
    requires one { what.now.least_keys ≡ [] ∷ [] }
    requires numbers { standing.now.next + (length what.now.least_keys + 1) ≤ 4294967295 }
    ensures standing { IfOk result (λ p. p.0 ≡ stands_after standing.now (TableIs (table_made standing.now what.now))) }
    ensures group { IfOk result (λ p. IsNewGroup (table_made standing.now what.now) p.1) }
    ensures copy { IfOk result (λ p. p.2 ≡ what.now) }
{
    let then = standing_with(alloc, standing, what)?;
    match group_and_copy(alloc, standing.next, what) {
        Ok((group, copy)) => Ok((then, group, copy)),
        Err(fault) => {
            drop(then);
            Err(fault)
        }
    }
}

/// All memory that the table takes.
fn parts_of(alloc: Global, standing: &Standing, what: &NewTable) -> Result<Parts, AllocError>
    requires one { what.now.least_keys ≡ [] ∷ [] }
    requires numbers { standing.now.next + (length what.now.least_keys + 1) ≤ 4294967295 }
    ensures { IfOk result (λ p. AreParts standing.now what.now p.item p.group p.standing p.copy) }
{
    let item = numbered(alloc, standing.next, what)?;
    match standing_and_group(alloc, standing, what) {
        Ok((standing, group, copy)) => Ok(Parts {
            item,
            group,
            standing,
            copy,
        }),
        Err(fault) => {
            drop(item);
            Err(fault)
        }
    }
}

impl<D: CountsCalls, C: Clock, B: Based + Founded> Server<D, C, B> {
    /// Makes a table. Its region has nothing yet.
    pub fn define_table(&mut self, what: &NewTable) -> Result<Made, StepFault>
        requires { IsNewTable what.now }
        ensures ok { IfOk result (DidDefine (known_by B.base B.damaged self.old) (known_by B.base B.damaged self.new) (NewTableOf what.now)) }
        ensures refused { IfErr result (Refuses (define_cause (NewTableOf what.now)) (known_by B.base B.damaged self.old) (known_by B.base B.damaged self.new)) }
        ensures counts { MakesAtMost 4 self.old self.new }
        ensures blames { IfErr result (Blames self.old self.new) }
    {
        if let Err(fault) = check_table(self.closed, &self.standing, what) {
            return Err(fault);
        }
        let Ok(parts) = parts_of(self.alloc, &self.standing, what) else {
            return Err(StepFault::Memory);
        };
        let Parts {
            item,
            group,
            standing,
            copy,
        } = parts;
        let Ok(()) = take_room(&mut self.groups, &mut self.trail) else {
            drop(item);
            drop(group);
            drop(standing);
            drop(copy);
            return Err(StepFault::Memory);
        };
        let table = group.table.id;
        let act = Act::Made { table, what: copy };
        match entered(
            self.catalog
                .append(&mut self.disk, CatalogItem::TableIs(item)),
            &self.disk,
            self.seat,
            act,
            &mut self.trail,
            &mut self.late,
            &mut self.closed,
        ) {
            Ok(()) => {
                self.groups.push_reserved(group);
                let before = mem::replace(&mut self.standing, standing);
                drop(before);
                Ok(Made {
                    number: table.0,
                    stamp: 0,
                    at: self.trail.len(),
                })
            }
            Err(fault) => {
                drop(group);
                drop(standing);
                Err(fault)
            }
        }
    }

    /// Drops a table with its indexes, where no point and no batch of it is open.
    pub fn drop_table(&mut self, table: TableId) -> Result<Made, StepFault>
        ensures ok { IfOk result (DidDefine (known_by B.base B.damaged self.old) (known_by B.base B.damaged self.new) (DropTableOf table)) }
        ensures refused { IfErr result (Refuses (define_cause (DropTableOf table)) (known_by B.base B.damaged self.old) (known_by B.base B.damaged self.new)) }
        ensures counts { MakesAtMost 4 self.old self.new }
        ensures blames { IfErr result (Blames self.old self.new) }
    {
        if let Some(call) = self.closed {
            return Err(StepFault::Closed { call });
        }
        let Some(place) = numbered_place(&self.standing, table) else {
            return Err(StepFault::NoTable);
        };
        let count = px_noting::uses(&self.groups[place]);
        if count > 0 {
            return Err(StepFault::InUse { count });
        }
        let item = CatalogItem::TableGone(table);
        let Ok(standing) = standing_after(self.alloc, &self.standing, item) else {
            return Err(StepFault::Memory);
        };
        let Ok(()) = take_entry(&mut self.trail) else {
            drop(standing);
            return Err(StepFault::Memory);
        };
        let act = Act::Dropped { table, index: None };
        match entered(
            self.catalog
                .append(&mut self.disk, CatalogItem::TableGone(table)),
            &self.disk,
            self.seat,
            act,
            &mut self.trail,
            &mut self.late,
            &mut self.closed,
        ) {
            Ok(()) => {
                self.groups.retain(|group| group.table.id.0 != table.0);
                let before = mem::replace(&mut self.standing, standing);
                drop(before);
                Ok(Made {
                    number: table.0,
                    stamp: 0,
                    at: self.trail.len(),
                })
            }
            Err(fault) => {
                drop(standing);
                Err(fault)
            }
        }
    }
}
