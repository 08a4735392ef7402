// What a statement asks for, where its table was found.
ghost use Rattle.std.specs.Prelude.{◌≡◌, ◌≤◌, ◌∷◌, [], ℕ, Option, true, length, IfErr, IfOk};
ghost use Rattle.px_calls.specs.Requires.{IsScn};
ghost use Rattle.px_ast.specs.declared.statement.Statement.TheVariants as s;
ghost use Rattle.px_deleting.specs.Asking.{planned_for};
ghost use Rattle.px_reply.specs.declared.refusal.Refusal.TheVariants.{Memory};
ghost use Rattle.px_item.specs.Builds.{altered as altered_as};
ghost use Rattle.px_item.specs.Right as spec;
ghost use Rattle.px_item.specs.Seeking.{IsSearchOf};

use crate::refusing::bind_refusal;
use px_ast::{CreateIndex, CreateTable, IndexAction, Statement};
use px_batch::BatchRun;
use px_bind::{Query, Request, bind};
use px_calls::{Definition, Receipt};
use px_create::indexes::bind_index;
use px_create::tables::bind_table;
use px_defining::DefineRun;
use px_deleting::DeleteRun;
use px_expr::Bound;
use px_fitting::fits;
use px_plan::{PlanFault, choose, explain};
use px_planned::Planned;
use px_reply::{Defined, Refusal, Reply};
use px_select::SelectRun;
use px_tables::{Found, Table};
use px_values::{Change, Changes, IndexId, Items, Line, TableId};
use std::alloc::{AllocError, Global};

/// The most columns that have a place of one byte.
const MOST_PLACES: usize = 255;

/// What comes of a statement whose table was found.
pub(crate) enum Next {
    /// With room for the batch's receipt.
    Change(BatchRun, Vec<Receipt>),
    Define(DefineRun),
    Select(SelectRun),
    Delete(DeleteRun),
    Tell(Reply),
}

/// The definition that a CREATE TABLE asks for.
fn created(alloc: Global, create: &CreateTable) -> Result<DefineRun, Refusal>
    requires { spec.is_none_of create.now.splits ≡ true }
    ensures { spec.IsCreation create.now result }
{
    match bind_table(alloc, create) {
        Ok(table) => {
            if table.key.as_slice().is_empty() {
                drop(table);
                return Err(Refusal::Memory);
            }
            Ok(DefineRun::new(Definition::Table(table)))
        }
        Err(fault) => Err(bind_refusal(fault)),
    }
}

/// The definition that a statement asks for, where that is a CREATE TABLE, which asks for no table that stands. It makes no call.
pub(crate) fn creation_of(
    alloc: Global,
    statement: &Statement,
) -> Option<Result<DefineRun, Refusal>>
    requires { spec.is_answer_built statement.now ≡ true }
    ensures { spec.IsCreationIf statement.now result }
{
    match statement {
        Statement::CreateTable(create) => Some(created(alloc, create)),
        _ => None,
    }
}

/// A list of one change.
fn one(alloc: Global, change: Change) -> Result<Changes, AllocError>
    ensures { IfOk result (λ changes. changes ≡ change ∷ []) }
{
    let mut changes = Vec::new(alloc);
    match changes.push(change) {
        Ok(()) => Ok(Items::of(changes)),
        Err(failed) => {
            drop(failed);
            drop(changes);
            Err(AllocError)
        }
    }
}

/// A batch of one change, where it fits.
fn batch_of(alloc: Global, of: &Table, table: TableId, change: Change) -> Next
    ensures { spec.IsBatchOfOne of.now table change result }
{
    if !fits(of, &change) {
        drop(change);
        return Next::Tell(Reply::Refused(Refusal::Memory));
    }
    let mut receipts = Vec::new(alloc);
    if receipts.reserve_exact(1).is_err() {
        drop(change);
        drop(receipts);
        return Next::Tell(Reply::Refused(Refusal::Memory));
    }
    match one(alloc, change) {
        Ok(changes) => Next::Change(BatchRun::new(table, changes), receipts),
        Err(_) => {
            drop(receipts);
            Next::Tell(Reply::Refused(Refusal::Memory))
        }
    }
}

/// The change of an UPSERT whose table was found.
pub(crate) fn row_of(alloc: Global, statement: &Statement, found: &Found) -> Result<Change, Refusal>
    requires { spec.is_upsert statement.now ≡ true }
    ensures { spec.IsUpsertChange found.now statement.now result }
{
    if found.table.columns.as_slice().len() > MOST_PLACES {
        return Err(Refusal::Memory);
    }
    match bind(alloc, statement, Some(found)) {
        Ok(
            Request::Upsert {
                table: _table,
                change,
            },
        ) => Ok(change),
        Ok(other) => {
            drop(other);
            Err(Refusal::Memory)
        }
        Err(fault) => Err(bind_refusal(fault)),
    }
}

fn upserted(alloc: Global, statement: &Statement, found: &Found) -> Next
    requires upserts { spec.is_upsert statement.now ≡ true }
    requires places { length found.now.table.columns ≤ 255 }
    ensures { (scn : Option ℕ) → spec.IsNext scn found.now statement.now result }
{
    match bind(alloc, statement, Some(found)) {
        Ok(Request::Upsert { table, change }) => batch_of(alloc, &found.table, table, change),
        Ok(other) => {
            drop(other);
            Next::Tell(Reply::Refused(Refusal::Memory))
        }
        Err(fault) => Next::Tell(Reply::Refused(bind_refusal(fault))),
    }
}

fn index_dropped(alloc: Global, statement: &Statement, found: &Found) -> Next
    requires drops { spec.drops_index statement.now ≡ true }
    requires places { length found.now.table.columns ≤ 255 }
    ensures { (scn : Option ℕ) → spec.IsNext scn found.now statement.now result }
{
    match bind(alloc, statement, Some(found)) {
        Ok(Request::DropIndex { table, index }) => {
            Next::Define(DefineRun::new(Definition::DropIndex { table, index }))
        }
        Ok(Request::AbsentIndex) => Next::Tell(Reply::Defined(Defined::IndexAbsent)),
        Ok(other) => {
            drop(other);
            Next::Tell(Reply::Refused(Refusal::Memory))
        }
        Err(fault) => Next::Tell(Reply::Refused(bind_refusal(fault))),
    }
}

/// The index that a CREATE INDEX asks for. The grammar reads none without a column.
fn index_created(alloc: Global, create: &CreateIndex, found: &Found) -> Next
    requires places { length found.now.table.columns ≤ 255 }
    ensures { (scn : Option ℕ) → spec.IsNext scn found.now (s.CreateIndex create.now) result }
{
    match bind_index(alloc, &found.table, create) {
        Ok(index) => {
            if index.parts.as_slice().is_empty() {
                drop(index);
                return Next::Tell(Reply::Refused(Refusal::Memory));
            }
            Next::Define(DefineRun::new(Definition::Index(index)))
        }
        Err(fault) => Next::Tell(Reply::Refused(bind_refusal(fault))),
    }
}

/// What an ALTER INDEX asks for.
fn altered(table: TableId, action: IndexAction, index: IndexId) -> Definition
    ensures { result ≡ altered_as table action index }
{
    match action {
        IndexAction::Disable => Definition::Disabled { table, index },
        IndexAction::Rebuild => Definition::Rebuilding { table, index },
    }
}

fn index_altered(alloc: Global, statement: &Statement, found: &Found) -> Next
    requires alters { spec.alters_index statement.now ≡ true }
    requires places { length found.now.table.columns ≤ 255 }
    ensures { (scn : Option ℕ) → spec.IsNext scn found.now statement.now result }
{
    match bind(alloc, statement, Some(found)) {
        Ok(
            Request::AlterIndex {
                table,
                index,
                action,
            },
        ) => Next::Define(DefineRun::new(altered(table, action, index))),
        Ok(other) => {
            drop(other);
            Next::Tell(Reply::Refused(Refusal::Memory))
        }
        Err(fault) => Next::Tell(Reply::Refused(bind_refusal(fault))),
    }
}

/// Whether a point may be opened as of it.
fn is_scn(scn: Option<u64>) -> bool
    ensures { result ≡ true → IsScn scn }
{
    match scn {
        Some(number) => 0 < number && number <= 9_223_372_036_854_775_808,
        None => true,
    }
}

/// A query on the table that it was bound to.
fn planned(alloc: Global, table: &Table, query: Query, scn: Option<u64>) -> Next
    ensures { spec.IsPlannedOf table.now scn query result }
{
    let table = match table.copied(alloc) {
        Ok(table) => table,
        Err(_) => {
            drop(query);
            return Next::Tell(Reply::Refused(Refusal::Memory));
        }
    };
    match Planned::new(alloc, table, query) {
        Ok(planned) => Next::Select(SelectRun::new(alloc, planned, scn)),
        Err(_) => Next::Tell(Reply::Refused(Refusal::Memory)),
    }
}

fn selected(alloc: Global, statement: &Statement, found: &Found, scn: Option<u64>) -> Next
    requires selects { spec.is_select statement.now ≡ true }
    requires places { length found.now.table.columns ≤ 255 }
    ensures { spec.IsNext scn found.now statement.now result }
{
    if !is_scn(scn) {
        return Next::Tell(Reply::Refused(Refusal::Memory));
    }
    match bind(alloc, statement, Some(found)) {
        Ok(Request::Select(query)) => planned(alloc, &found.table, query, scn),
        Ok(other) => {
            drop(other);
            Next::Tell(Reply::Refused(Refusal::Memory))
        }
        Err(fault) => Next::Tell(Reply::Refused(bind_refusal(fault))),
    }
}

/// The removal of the rows of a table that meet a condition.
fn deletion(alloc: Global, table: &Table, filter: Option<Bound>) -> Next
    ensures { spec.IsDeletionOf table.now filter result }
{
    let table = match table.copied(alloc) {
        Ok(table) => table,
        Err(_) => {
            drop(filter);
            return Next::Tell(Reply::Refused(Refusal::Memory));
        }
    };
    match DeleteRun::new(alloc, table, filter) {
        Ok(run) => Next::Delete(run),
        Err(_) => Next::Tell(Reply::Refused(Refusal::Memory)),
    }
}

/// The query by which a DELETE finds its rows.
fn query_of(alloc: Global, table: &Table, filter: Option<Bound>) -> Result<Planned, Refusal>
    ensures ok { IfOk result (λ query. query ≡ planned_for table.now filter) }
    ensures err { IfErr result (λ refusal. refusal ≡ Memory) }
{
    let table = match table.copied(alloc) {
        Ok(table) => table,
        Err(_) => {
            drop(filter);
            return Err(Refusal::Memory);
        }
    };
    match px_deleting::planned(alloc, table, filter) {
        Ok(query) => Ok(query),
        Err(_) => Err(Refusal::Memory),
    }
}

/// The query by which a DELETE whose table was found finds its rows.
pub(crate) fn search_of(
    alloc: Global,
    statement: &Statement,
    found: &Found,
) -> Result<Planned, Refusal>
    requires { spec.is_delete statement.now ≡ true }
    ensures { IsSearchOf found.now statement.now result }
{
    if found.table.columns.as_slice().len() > MOST_PLACES {
        return Err(Refusal::Memory);
    }
    match bind(alloc, statement, Some(found)) {
        Ok(
            Request::Delete {
                table: _table,
                filter,
            },
        ) => query_of(alloc, &found.table, filter),
        Ok(other) => {
            drop(other);
            Err(Refusal::Memory)
        }
        Err(fault) => Err(bind_refusal(fault)),
    }
}

fn deleted(alloc: Global, statement: &Statement, found: &Found) -> Next
    requires deletes { spec.is_delete statement.now ≡ true }
    requires places { length found.now.table.columns ≤ 255 }
    ensures { (scn : Option ℕ) → spec.IsNext scn found.now statement.now result }
{
    match bind(alloc, statement, Some(found)) {
        Ok(
            Request::Delete {
                table: _table,
                filter,
            },
        ) => deletion(alloc, &found.table, filter),
        Ok(other) => {
            drop(other);
            Next::Tell(Reply::Refused(Refusal::Memory))
        }
        Err(fault) => Next::Tell(Reply::Refused(bind_refusal(fault))),
    }
}

/// The point of an EXPLAIN: as of the SCN, or the current one.
fn point_of(scn: Option<u64>) -> Option<u64>
    requires { IsScn scn }
    ensures { result ≡ spec.point_of scn }
{
    match scn {
        Some(number) => Some(number - 1),
        None => None,
    }
}

/// What is told of the plan of a query.
fn explanation(alloc: Global, query: Query, found: &Found, point: Option<u64>) -> Reply
    ensures { spec.IsExplanation found.now point query result }
{
    match choose(alloc, query, found, point) {
        Ok(plan) => {
            let mut lines = Line::new(alloc);
            let came = explain(&plan, &mut lines);
            drop(plan);
            match came {
                Ok(()) => Reply::Explained(lines),
                Err(_) => {
                    drop(lines);
                    Reply::Refused(Refusal::Memory)
                }
            }
        }
        Err(PlanFault::IndexJoin) => Reply::Refused(Refusal::IndexJoin),
        Err(PlanFault::Memory) => Reply::Refused(Refusal::Memory),
    }
}

fn explained(alloc: Global, statement: &Statement, found: &Found, scn: Option<u64>) -> Next
    requires explains { spec.is_explain statement.now ≡ true }
    requires places { length found.now.table.columns ≤ 255 }
    ensures { spec.IsNext scn found.now statement.now result }
{
    if !is_scn(scn) {
        return Next::Tell(Reply::Refused(Refusal::Memory));
    }
    match bind(alloc, statement, Some(found)) {
        Ok(Request::Explain(query)) => {
            Next::Tell(explanation(alloc, query, found, point_of(scn)))
        }
        Ok(other) => {
            drop(other);
            Next::Tell(Reply::Refused(Refusal::Memory))
        }
        Err(fault) => Next::Tell(Reply::Refused(bind_refusal(fault))),
    }
}

/// What comes of a statement whose table was found. It makes no call.
pub(crate) fn next_of(alloc: Global, statement: &Statement, found: &Found, scn: Option<u64>) -> Next
    ensures { spec.IsNext scn found.now statement.now result }
{
    if found.table.columns.as_slice().len() > MOST_PLACES {
        return Next::Tell(Reply::Refused(Refusal::Memory));
    }
    match statement {
        Statement::Upsert(_) => upserted(alloc, statement, found),
        Statement::DropTable(_) => {
            Next::Define(DefineRun::new(Definition::DropTable(found.table.id)))
        }
        Statement::CreateIndex(create) => index_created(alloc, create, found),
        Statement::DropIndex(_) => index_dropped(alloc, statement, found),
        Statement::AlterIndex(_) => index_altered(alloc, statement, found),
        Statement::Delete(_) => deleted(alloc, statement, found),
        Statement::Select(_) => selected(alloc, statement, found, scn),
        Statement::Explain(_) => explained(alloc, statement, found, scn),
        _ => Next::Tell(Reply::Refused(Refusal::Memory)),
    }
}
