// Statements bound to what stands.
ghost use Rattle.std.specs.Prelude.{◌≡◌, ◌≤◌, IfOk, false, length};
ghost use Rattle.std.specs.Option.{option_copied};
ghost use Rattle.px_resolve.specs.Answers.{AnswersFirst};
ghost use Rattle.px_create.specs.Indexes.{index_faults, index_id_named, missing_index, new_index};
ghost use Rattle.px_bind.specs.Queries.{IsQuery, delete_faults, filter_of, select_faults};
ghost use Rattle.px_bind.specs.Requests.{Asks, AsksIn, HasPlaces, IsFoundFor, alter_request, drop_request, faults_in, faults_of};
ghost use Rattle.px_create.specs.Tables.{new_table, table_faults};
ghost use Rattle.px_bind.specs.Upserts.{upsert_change, upsert_faults};
ghost use Rattle.px_bind.specs.declared.request.Query.{Query};

use crate::Request;
use crate::queries::{bind_delete, bind_select};
use crate::upserts::bind_upsert;
use px_ast::{AlterIndex, CreateIndex, CreateTable, Delete, DropIndex, Select, Statement, Upsert};
use px_create::indexes::{bind_index, bind_index_name};
use px_create::tables::bind_table;
use px_resolve::fault::BindFault;
use px_tables::{Found, Table};
use std::alloc::Global;

/// What a statement asks for, in places and values, or why it is refused.
///
/// `found` is the table that the statement names, with its indexes; CREATE TABLE needs none and passes over it. Of all
/// that is wrong the first of `faults_of` is answered: names in text order, then literals in text order, then NULLs in
/// key columns, then limits of names and counts. Whether a name is taken, a number of tables or indexes is passed, and
/// a hint can be followed isn't said here. The statement stays as it is.
pub fn bind(
    alloc: Global,
    statement: &Statement,
    found: Option<&Found>,
) -> Result<Request, BindFault>
    requires found { IsFoundFor statement.now (option_copied found) }
    requires places { HasPlaces (option_copied found) }
    ensures refused { AnswersFirst (faults_of (option_copied found.entry) statement.now) result }
    ensures asked { IfOk result (Asks (option_copied found.entry) statement.now) }
{
    match (statement, found) {
        (Statement::CreateTable(create), _) => create_table(alloc, create),
        (_, Some(found)) => bind_in(alloc, statement, found),
        (_, None) => unreachable!(),
    }
}

/// The same where the table stands.
fn bind_in(alloc: Global, statement: &Statement, found: &Found) -> Result<Request, BindFault>
    requires { length found.now.table.columns ≤ 255 }
    ensures faults { AnswersFirst (faults_in found.now statement.now) result }
    ensures request { IfOk result (AsksIn found.now statement.now) }
{
    match statement {
        Statement::CreateTable(create) => create_table(alloc, create),
        Statement::DropTable(_) => Ok(Request::DropTable(found.table.id)),
        Statement::CreateIndex(create) => create_index(alloc, &found.table, create),
        Statement::DropIndex(dropped) => drop_index(alloc, found, dropped),
        Statement::AlterIndex(alter) => alter_index(alloc, found, alter),
        Statement::Upsert(upsert) => upsert_request(alloc, &found.table, upsert),
        Statement::Delete(delete) => delete_request(alloc, &found.table, delete),
        Statement::Select(select) => select_request(alloc, &found.table, select),
        Statement::Explain(select) => explain_request(alloc, &found.table, select),
    }
}

fn create_table(alloc: Global, create: &CreateTable) -> Result<Request, BindFault>
    ensures faults { AnswersFirst (table_faults create.now) result }
    ensures request { IfOk result (λ r. r ≡ Request.CreateTable create.now.if_not_exists (new_table create.now)) }
{
    match bind_table(alloc, create) {
        Ok(table) => Ok(Request::CreateTable {
            if_not_exists: create.if_not_exists,
            table,
        }),
        Err(fault) => Err(fault),
    }
}

fn create_index(alloc: Global, table: &Table, create: &CreateIndex) -> Result<Request, BindFault>
    requires { length table.now.columns ≤ 255 }
    ensures faults { AnswersFirst (index_faults table.now create.now) result }
    ensures request { IfOk result (λ r. r ≡ Request.CreateIndex create.now.if_not_exists (new_index table.now create.now)) }
{
    match bind_index(alloc, table, create) {
        Ok(index) => Ok(Request::CreateIndex {
            if_not_exists: create.if_not_exists,
            index,
        }),
        Err(fault) => Err(fault),
    }
}

fn drop_index(alloc: Global, found: &Found, dropped: &DropIndex) -> Result<Request, BindFault>
    ensures faults { AnswersFirst (missing_index found.now.indexes dropped.now.if_exists dropped.now.name) result }
    ensures request { IfOk result (λ r. r ≡ drop_request found.now.table.id (index_id_named found.now.indexes dropped.now.name)) }
{
    let indexes = found.indexes.as_slice();
    match bind_index_name(alloc, indexes, dropped.if_exists, &dropped.name) {
        Ok(Some(index)) => Ok(Request::DropIndex {
            table: found.table.id,
            index,
        }),
        Ok(None) => Ok(Request::AbsentIndex),
        Err(fault) => Err(fault),
    }
}

fn alter_index(alloc: Global, found: &Found, alter: &AlterIndex) -> Result<Request, BindFault>
    ensures faults { AnswersFirst (missing_index found.now.indexes false alter.now.name) result }
    ensures request { IfOk result (λ r. r ≡ alter_request found.now.table.id alter.now.action (index_id_named found.now.indexes alter.now.name)) }
{
    let indexes = found.indexes.as_slice();
    match bind_index_name(alloc, indexes, false, &alter.name) {
        Ok(Some(index)) => Ok(Request::AlterIndex {
            table: found.table.id,
            index,
            action: alter.action,
        }),
        Ok(None) => Ok(Request::AbsentIndex),
        Err(fault) => Err(fault),
    }
}

fn upsert_request(alloc: Global, table: &Table, upsert: &Upsert) -> Result<Request, BindFault>
    requires { length table.now.columns ≤ 255 }
    ensures faults { AnswersFirst (upsert_faults table.now upsert.now) result }
    ensures request { IfOk result (λ r. r ≡ Request.Upsert table.now.id (upsert_change table.now upsert.now)) }
{
    match bind_upsert(alloc, table, upsert) {
        Ok(change) => Ok(Request::Upsert {
            table: table.id,
            change,
        }),
        Err(fault) => Err(fault),
    }
}

fn delete_request(alloc: Global, table: &Table, delete: &Delete) -> Result<Request, BindFault>
    requires { length table.now.columns ≤ 255 }
    ensures faults { AnswersFirst (delete_faults table.now.columns delete.now) result }
    ensures request { IfOk result (λ r. r ≡ Request.Delete table.now.id (filter_of table.now.columns delete.now.filter)) }
{
    match bind_delete(alloc, table.columns.as_slice(), delete) {
        Ok(filter) => Ok(Request::Delete {
            table: table.id,
            filter,
        }),
        Err(fault) => Err(fault),
    }
}

fn select_request(alloc: Global, table: &Table, select: &Select) -> Result<Request, BindFault>
    requires { length table.now.columns ≤ 255 }
    ensures faults { AnswersFirst (select_faults table.now.columns select.now) result }
    ensures request { IfOk result (λ r. (query : Query) × IsQuery table.now select.now query × (r ≡ Request.Select query)) }
{
    match bind_select(alloc, table, select) {
        Ok(query) => Ok(Request::Select(query)),
        Err(fault) => Err(fault),
    }
}

fn explain_request(alloc: Global, table: &Table, select: &Select) -> Result<Request, BindFault>
    requires { length table.now.columns ≤ 255 }
    ensures faults { AnswersFirst (select_faults table.now.columns select.now) result }
    ensures request { IfOk result (λ r. (query : Query) × IsQuery table.now select.now query × (r ≡ Request.Explain query)) }
{
    match bind_select(alloc, table, select) {
        Ok(query) => Ok(Request::Explain(query)),
        Err(fault) => Err(fault),
    }
}
