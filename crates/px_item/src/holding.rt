// What becomes of a row where changes are held.
ghost use Rattle.std.specs.Prelude.{◌≡◌, ◌≤◌, length, true, false};
ghost use Rattle.px_item.specs.Right as spec;

use crate::answered::{Asked, Settings, told};
use crate::binding::row_of;
use crate::item::{ItemRun, ItemState, ItemTurn, over};
use px_ast::Statement;
use px_commanding::CommitRun;
use px_held::{HeldChanges, HoldFault};
use px_reply::{Refusal, Reply};
use px_tables::{Found, Table};
use px_values::{Change, CountWord, Limit, TableId};
use std::alloc::Global;

/// Whether the row of the statement is held.
pub(crate) fn holds(settings: &Settings, statement: &Statement) -> bool
    ensures { result ≡ spec.holds settings.now statement.now }
{
    !settings.autocommit && matches!(statement, Statement::Upsert(_))
}

/// Whether changes of another table are held.
pub(crate) fn is_of_another(held: &Option<HeldChanges>, table: TableId) -> bool
    ensures another { result ≡ true → spec.IsOfAnother held.now table }
    ensures none { result ≡ false → spec.IsOfNoOther held.now table }
{
    match held {
        Some(held) => held.table() != table,
        None => false,
    }
}

/// Holds one change more. Where it isn't held, all stays as it was.
fn added(
    alloc: Global,
    held: Option<HeldChanges>,
    table: &Table,
    change: Change,
) -> (Option<HeldChanges>, Result<(), HoldFault>)
    requires places { length table.now.columns ≤ 255 }
    requires other { spec.IsOfNoOther held table.now.id }
    ensures { spec.AddsChange table.now held change result.0 result.1 }
{
    match held {
        Some(mut held) => {
            let came = held.hold(alloc, table, change);
            (Some(held), came)
        }
        None => match HeldChanges::first(alloc, table, change) {
            Ok(held) => (Some(held), Ok(())),
            Err(_) => (None, Err(HoldFault::Memory)),
        },
    }
}

/// What is told of so many rows that are held, or aren't.
pub(crate) fn held_reply(rows: u64, came: Result<(), HoldFault>) -> Reply
    ensures { result ≡ spec.held_reply rows came }
{
    match came {
        Ok(()) => Reply::Count {
            rows,
            word: CountWord::Held,
        },
        Err(HoldFault::Rows) => Reply::Refused(Refusal::Limit(Limit::Rows)),
        Err(HoldFault::Memory) => Reply::Refused(Refusal::Memory),
    }
}

/// Holds a change, or goes on to commit what is held of another table first. It makes no call.
fn keep<'a>(alloc: Global, asked: Asked<'a>, table: &Table, change: Change) -> ItemTurn<'a>
    requires { length table.now.columns ≤ 255 }
    ensures { spec.Keeps asked.entry table.now change result }
{
    if is_of_another(&asked.settings.held, table.id) {
        drop(change);
        return ItemTurn::Stepped(ItemRun {
            asked,
            state: ItemState::Committing(true, CommitRun::new()),
        });
    }
    let Asked {
        piece: _piece,
        settings,
        first,
    } = asked;
    let Settings {
        scn,
        autocommit,
        held,
    } = settings;
    let (held, came) = added(alloc, held, table, change);
    let after = Settings {
        scn,
        autocommit,
        held,
    };
    ItemTurn::Over(told(alloc, held_reply(1, came), first, after))
}

/// Goes on with an UPSERT whose table was found, where changes are held. It makes no call.
pub(crate) fn hold<'a>(
    alloc: Global,
    asked: Asked<'a>,
    statement: Statement,
    found: Found,
) -> ItemTurn<'a>
    requires { spec.is_upsert statement ≡ true }
    ensures { spec.Holds asked.entry statement found result }
{
    let row = row_of(alloc, &statement, &found);
    drop(statement);
    let turn = match row {
        Ok(change) => keep(alloc, asked, &found.table, change),
        Err(refusal) => ItemTurn::Over(over(alloc, asked, Reply::Refused(refusal))),
    };
    drop(found);
    turn
}
