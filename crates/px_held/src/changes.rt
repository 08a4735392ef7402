// The changes of one table that are held.
ghost use Rattle.std.specs.Prelude.{◌≡◌, ◌≢◌, ◌≤◌, [], length, true, IfErr, IfOk, OnErr, OnOk};
ghost use Rattle.px_trail.specs.Batches.{is_distinct, rows_of};
ghost use Rattle.px_trail.specs.Trail.{table_shape};
ghost use Rattle.px_held.specs.Held.{AreTooMany, with_changes};
ghost use Rattle.px_held.specs.HeldData as spec;

use crate::holding::{HoldFault, hold, hold_each};
use px_copying::copied;
use px_tables::Table;
use px_values::{Change, Changes, Name, TableId};
use std::alloc::{AllocError, Global};
use std::collections::VecDeque;
use std::marker::Model;

/// Changes of one table that are held: at least one, at most 1,000, each of another row.
#[derive(Drop)]
pub struct HeldChanges {
    table: TableId,
    name: Name,
    changes: Vec<Change>,
}

impl Model for HeldChanges {
    ghost use Rattle.px_held.specs.HeldData.{HeldData, IsBatch};

    ghost Value = { HeldData };

    ghost view = { λ h. record { table = h.table; name = h.name; changes = h.changes.items } };

    ghost invariant = { λ h. IsBatch h.changes.items };
}

impl HeldChanges {
    ghost use Rattle.px_held.specs.Held.{IsFull};
    ghost use Rattle.px_held.specs.HeldData.{HoldsOne, IsBatch, with_more};

    /// The first change of a table.
    pub fn first(alloc: Global, table: &Table, change: Change) -> Result<HeldChanges, AllocError>
        ensures { IfOk result (HoldsOne table.now change) }
    {
        let name = match Name::from_str(alloc, table.name.as_str()) {
            Ok(name) => name,
            Err(fault) => {
                drop(change);
                return Err(fault);
            }
        };
        let mut changes = Vec::new(alloc);
        match changes.push(change) {
            Ok(()) => Ok(HeldChanges {
                table: table.id,
                name,
                changes,
            }),
            Err(failed) => {
                drop(failed);
                drop(changes);
                drop(name);
                Err(AllocError)
            }
        }
    }

    /// Holds one change more of the table. Where it isn't held, all stays as it was.
    pub fn hold(&mut self, alloc: Global, table: &Table, change: Change) -> Result<(), HoldFault>
        requires { length table.now.columns ≤ 255 }
        ensures ok { OnOk result (self.new ≡ with_more table.now self.old change) }
        ensures err { OnErr result (self.new ≡ self.old) }
        ensures fault { IfErr result (λ fault. IsFull fault self.old.changes change.row) }
    {
        hold(alloc, table, &mut self.changes, change)
    }

    pub fn table(&self) -> TableId
        ensures { result ≡ self.now.table }
    {
        self.table
    }

    pub fn name(&self) -> &Name
        ensures { result.now ≡ self.now.name }
    {
        &self.name
    }

    /// How many rows are changed.
    pub fn rows(&self) -> u64
        ensures { result ≡ length self.now.changes }
    {
        self.changes.len() as u64
    }

    /// The changes of a batch of them.
    pub fn batch(&self, alloc: Global) -> Result<Changes, AllocError>
        ensures copied { IfOk result (λ changes. changes ≡ self.now.changes) }
        ensures batch { IfOk result IsBatch }
    {
        copied(alloc, self.changes.as_slice())
    }
}

/// The changes of a table of this number and name that are held, with these behind them.
fn with_each(
    alloc: Global,
    of: &Table,
    table: TableId,
    name: &Name,
    mut held: Vec<Change>,
    changes: VecDeque<Change>,
) -> Result<HeldChanges, HoldFault>
    requires places { length of.now.columns ≤ 255 }
    requires some { with_changes (table_shape of.now) held.items changes.items ≢ [] }
    requires rows { length held.items ≤ 1000 }
    requires distinct { is_distinct (rows_of held.items) ≡ true }
    ensures held { IfOk result (λ h. h ≡ spec.held_as table name.now (with_changes (table_shape of.now) held.items changes.items)) }
    ensures fault { IfErr result (λ fault. AreTooMany fault (table_shape of.now) held.items changes.items) }
{
    match hold_each(alloc, of, &mut held, changes) {
        Ok(()) => match Name::from_str(alloc, name.as_str()) {
            Ok(name) => Ok(HeldChanges {
                table,
                name,
                changes: held,
            }),
            Err(_) => {
                drop(held);
                Err(HoldFault::Memory)
            }
        },
        Err(fault) => {
            drop(held);
            Err(fault)
        }
    }
}

/// What is held of a table with all of these changes, which are held one after the other behind what was held of it. It is
/// refused where more than 1,000 rows would be held, or where no memory is found. What was held stays as it was, whatever comes.
pub fn held_with(
    alloc: Global,
    table: &Table,
    held: &Option<HeldChanges>,
    changes: VecDeque<Change>,
) -> Result<Option<HeldChanges>, HoldFault>
    requires { length table.now.columns ≤ 255 }
    ensures held { IfOk result (λ after. after ≡ spec.held_with table.now held.now changes.items) }
    ensures rows { OnOk result (length (with_changes (table_shape table.now) (spec.changes_in held.now) changes.items) ≤ 1000) }
    ensures fault { IfErr result (λ fault. AreTooMany fault (table_shape table.now) (spec.changes_in held.now) changes.items) }
{
    match held {
        Some(held) => match copied(alloc, held.changes.as_slice()) {
            Ok(copies) => {
                let copies = copies.into_vec();
                let held = with_each(alloc, table, held.table, &held.name, copies, changes)?;
                Ok(Some(held))
            }
            Err(_) => {
                drop(changes);
                Err(HoldFault::Memory)
            }
        },
        None => {
            if changes.is_empty() {
                drop(changes);
                return Ok(None);
            }
            let none = Vec::new(alloc);
            let held = with_each(alloc, table, table.id, &table.name, none, changes)?;
            Ok(Some(held))
        }
    }
}
