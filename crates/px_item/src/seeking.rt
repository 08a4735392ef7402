// A DELETE whose rows are found, and whose removals are held.
ghost use Rattle.std.specs.Prelude.{◌≡◌, ◌≤◌, ℕ, List, length, true, false};
ghost use Rattle.px_trail.specs.declared.entry.Act.{Act};
ghost use Rattle.px_item.specs.Right as right;
ghost use Rattle.px_item.specs.Seeking as spec;
ghost use Rattle.px_item.specs.Turns.{FitsItem, ItemTurns};

use crate::answered::{Answered, Asked, Settings, told};
use crate::binding::search_of;
use crate::holding::{held_reply, is_of_another};
use crate::item::{ItemRun, ItemState, ItemTurn, over};
use crate::refusing::unselected;
use px_ast::Statement;
use px_calls::Steps;
use px_commanding::CommitRun;
use px_held::{HeldChanges, HoldFault, held_with};
use px_planned::Planned;
use px_removals::removals;
use px_reply::{Refusal, Reply};
use px_scan::QueryFault;
use px_select::{SelectRun, SelectTurn, Selected};
use px_sorted::Shown;
use px_tables::{Found, Table};
use px_values::{Change, TableId};
use std::alloc::Global;
use std::collections::VecDeque;

/// Whether the removals of the statement's rows are held.
pub(crate) fn holds_rows(settings: &Settings, statement: &Statement) -> bool
    ensures { result ≡ right.holds_rows settings.now statement.now }
{
    !settings.autocommit && matches!(statement, Statement::Delete(_))
}

/// Goes on to find the rows, or to commit what is held of another table first. It makes no call.
fn search<'a>(
    alloc: Global,
    asked: Asked<'a>,
    statement: Statement,
    table: TableId,
    query: Planned,
) -> ItemTurn<'a>
    ensures { spec.Searches asked.entry statement table query result }
{
    if is_of_another(&asked.settings.held, table) {
        drop(statement);
        drop(query);
        return ItemTurn::Stepped(ItemRun {
            asked,
            state: ItemState::Committing(true, CommitRun::new()),
        });
    }
    ItemTurn::Stepped(ItemRun {
        asked,
        state: ItemState::Seeking(statement, SelectRun::new(alloc, query, None)),
    })
}

/// Goes on with a DELETE whose table was found, where its removals are held. It makes no call.
pub(crate) fn seek<'a>(
    alloc: Global,
    asked: Asked<'a>,
    statement: Statement,
    found: Found,
) -> ItemTurn<'a>
    requires { right.is_delete statement ≡ true }
    ensures { spec.Seeks asked.entry statement found result }
{
    let query = search_of(alloc, &statement, &found);
    let table = found.table.id;
    drop(found);
    match query {
        Ok(query) => search(alloc, asked, statement, table, query),
        Err(refusal) => {
            drop(statement);
            ItemTurn::Over(over(alloc, asked, Reply::Refused(refusal)))
        }
    }
}

/// Holds changes of the table. Where they aren't held, all stays as it was.
fn added(
    alloc: Global,
    held: Option<HeldChanges>,
    table: &Table,
    changes: VecDeque<Change>,
) -> (Option<HeldChanges>, Result<(), HoldFault>)
    requires places { length table.now.columns ≤ 255 }
    requires other { right.IsOfNoOther held table.now.id }
    ensures { spec.AddsRows table.now held changes.items result.0 result.1 }
{
    match held_with(alloc, table, &held, changes) {
        Ok(after) => {
            drop(held);
            (after, Ok(()))
        }
        Err(fault) => (held, Err(fault)),
    }
}

/// Holds the removals of the rows.
fn keep(alloc: Global, asked: Asked<'_>, table: &Table, changes: VecDeque<Change>) -> Answered
    requires places { length table.now.columns ≤ 255 }
    requires other { right.IsOfNoOther asked.settings.held table.now.id }
    ensures { spec.KeepsRows asked.entry table.now changes.items result }
{
    let rows = changes.len() as u64;
    let Asked {
        piece: _piece,
        settings,
        first,
    } = asked;
    let Settings {
        scn,
        autocommit,
        held,
    } = settings;
    let (held, came) = added(alloc, held, table, changes);
    let after = Settings {
        scn,
        autocommit,
        held,
    };
    told(alloc, held_reply(rows, came), first, after)
}

/// Holds the removals of the rows that were found.
fn found(alloc: Global, asked: Asked<'_>, table: &Table, selected: Selected) -> Answered
    requires places { length table.now.columns ≤ 255 }
    requires other { right.IsOfNoOther asked.settings.held table.now.id }
    ensures { spec.KeepsFound asked.entry table.now selected result }
{
    let Selected {
        shown,
        first: _first,
        last: _last,
    } = selected;
    let Shown { rows, places } = shown;
    drop(places);
    match removals(alloc, table, rows) {
        Ok(changes) => keep(alloc, asked, table, changes),
        Err(_) => over(alloc, asked, Reply::Refused(Refusal::Memory)),
    }
}

/// What the search came to.
fn sought(
    alloc: Global,
    asked: Asked<'_>,
    statement: Statement,
    table: &Table,
    came: Result<Selected, QueryFault>,
) -> Answered
    requires places { length table.now.columns ≤ 255 }
    requires other { right.IsOfNoOther asked.settings.held table.now.id }
    ensures { spec.IsSought asked.entry statement table.now came result }
{
    match came {
        Ok(selected) => {
            drop(statement);
            found(alloc, asked, table, selected)
        }
        Err(fault) => {
            let reply = unselected(alloc, &statement, fault);
            drop(statement);
            over(alloc, asked, reply)
        }
    }
}

/// Goes on to find the rows of a DELETE.
pub(crate) fn gather<'a, S: Steps>(
    alloc: Global,
    s: &mut S,
    asked: Asked<'a>,
    statement: Statement,
    mut run: SelectRun,
) -> ItemTurn<'a>
    requires { (before : ℕ) × (own : List Act) × FitsItem S.sound before asked own (ItemState.Seeking statement run) (S.known s.old) }
    ensures turns { (before : ℕ) → (own : List Act) → FitsItem S.sound before asked.entry own (ItemState.Seeking statement run) (S.known s.old) → ItemTurns S.sound before asked.entry own (S.known s.old) (S.known s.new) result }
    ensures one_call { S.one_call s.old s.new }
{
    match run.step(s) {
        SelectTurn::Stepped => ItemTurn::Stepped(ItemRun {
            asked,
            state: ItemState::Seeking(statement, run),
        }),
        SelectTurn::Waiting { .. } => ItemTurn::Waiting(ItemRun {
            asked,
            state: ItemState::Seeking(statement, run),
        }),
        SelectTurn::Over(came) => {
            let answered = sought(alloc, asked, statement, &run.planned().table, came);
            run.finish();
            ItemTurn::Over(answered)
        }
    }
}
