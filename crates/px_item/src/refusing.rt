// Refusals of the layers below, as they are told.
ghost use Rattle.std.specs.Prelude.{◌≡◌, ◌⊎◌};
ghost use Rattle.px_reply.specs.declared.refusal.Refusal.TheVariants.{Memory};
ghost use Rattle.px_reply.specs.declared.reply.Reply.TheVariants.{Refused};
ghost use Rattle.px_item.specs.Right as spec;

use px_ast::Statement;
use px_batch::BatchFault;
use px_calls::StepFault;
use px_commanding::{CountFault, OrderFault};
use px_commands::CommandFault;
use px_defining::DefineFault;
use px_parse::SyntaxFault;
use px_reply::{Defined, Refusal, Reply};
use px_resolve::fault::BindFault;
use px_scan::QueryFault;
use px_upkeep::BuildFault;
use px_values::{Limit, Name};
use std::alloc::Global;

pub(crate) fn syntax_refusal(fault: SyntaxFault) -> Refusal
    ensures { result ≡ spec.syntax_refusal fault }
{
    match fault {
        SyntaxFault::Unexpected { place } => Refusal::Syntax {
            place: place as u64,
        },
        SyntaxFault::LeftOut { name } => Refusal::LeftOut { name },
        SyntaxFault::TooDeep => Refusal::Limit(Limit::Depth),
        SyntaxFault::Memory => Refusal::Memory,
    }
}

pub(crate) fn command_refusal(fault: CommandFault) -> Refusal
    ensures { result ≡ spec.command_refusal fault }
{
    match fault {
        CommandFault::Syntax { place } => Refusal::Syntax {
            place: (place as u64).saturating_add(1),
        },
        CommandFault::OutOfRange { place } => Refusal::OutOfRange {
            place: (place as u64).saturating_add(1),
        },
        CommandFault::Memory => Refusal::Memory,
    }
}

pub(crate) fn bind_refusal(fault: BindFault) -> Refusal
    ensures { result ≡ spec.bind_refusal fault }
{
    match fault {
        BindFault::NoIndex(name) => Refusal::NoIndex(name),
        BindFault::NoColumn(name) => Refusal::NoColumn(name),
        BindFault::Twice(name) => Refusal::Twice(name),
        BindFault::Mismatch { place } => Refusal::Mismatch {
            place: place as u64,
        },
        BindFault::OutOfRange { place } => Refusal::OutOfRange {
            place: place as u64,
        },
        BindFault::NullKey(name) => Refusal::NullKey(name),
        BindFault::Passed(limit) => Refusal::Limit(limit),
        BindFault::Memory => Refusal::Memory,
    }
}

/// The name of the statement's table.
pub(crate) fn table_named(statement: &Statement) -> &Name
    ensures { result.now ≡ spec.table_named statement.now }
{
    match statement {
        Statement::CreateTable(create) => &create.name,
        Statement::DropTable(dropped) => &dropped.name,
        Statement::CreateIndex(create) => &create.table,
        Statement::DropIndex(dropped) => &dropped.table,
        Statement::AlterIndex(alter) => &alter.table,
        Statement::Upsert(upsert) => &upsert.table,
        Statement::Delete(delete) => &delete.table,
        Statement::Select(select) => &select.table,
        Statement::Explain(select) => &select.table,
    }
}

/// No table has the name.
fn no_table(alloc: Global, name: &Name) -> Reply
    ensures { (result ≡ Refused (Refusal.NoTable name.now)) ⊎ (result ≡ Refused Memory) }
{
    match Name::from_str(alloc, name.as_str()) {
        Ok(name) => Reply::Refused(Refusal::NoTable(name)),
        Err(_) => Reply::Refused(Refusal::Memory),
    }
}

/// The table has no index of the name.
fn no_index(alloc: Global, name: &Name) -> Reply
    ensures { (result ≡ Refused (Refusal.NoIndex name.now)) ⊎ (result ≡ Refused Memory) }
{
    match Name::from_str(alloc, name.as_str()) {
        Ok(name) => Reply::Refused(Refusal::NoIndex(name)),
        Err(_) => Reply::Refused(Refusal::Memory),
    }
}

/// The statement's table doesn't stand.
pub(crate) fn table_absent(alloc: Global, statement: &Statement) -> Reply
    ensures { (result ≡ spec.table_absent statement.now) ⊎ (result ≡ Refused Memory) }
{
    match statement {
        Statement::CreateTable(_) => Reply::Refused(Refusal::Memory),
        Statement::DropTable(dropped) => {
            if dropped.if_exists {
                Reply::Defined(Defined::TableAbsent)
            } else {
                no_table(alloc, &dropped.name)
            }
        }
        _ => no_table(alloc, table_named(statement)),
    }
}

/// The statement's index doesn't stand.
fn index_absent(alloc: Global, statement: &Statement) -> Reply
    ensures { (result ≡ spec.index_absent statement.now) ⊎ (result ≡ Refused Memory) }
{
    match statement {
        Statement::DropIndex(dropped) => {
            if dropped.if_exists {
                Reply::Defined(Defined::IndexAbsent)
            } else {
                no_index(alloc, &dropped.name)
            }
        }
        Statement::CreateIndex(create) => no_index(alloc, &create.name),
        Statement::AlterIndex(alter) => no_index(alloc, &alter.name),
        _ => Reply::Refused(Refusal::Memory),
    }
}

/// A table or an index has the name.
fn name_exists(alloc: Global, name: &Name) -> Reply
    ensures { (result ≡ Refused (Refusal.NameExists name.now)) ⊎ (result ≡ Refused Memory) }
{
    match Name::from_str(alloc, name.as_str()) {
        Ok(name) => Reply::Refused(Refusal::NameExists(name)),
        Err(_) => Reply::Refused(Refusal::Memory),
    }
}

/// The name of what the statement makes stands.
fn name_taken(alloc: Global, statement: &Statement) -> Reply
    ensures { (result ≡ spec.name_taken statement.now) ⊎ (result ≡ Refused Memory) }
{
    match statement {
        Statement::CreateTable(create) => {
            if create.if_not_exists {
                Reply::Defined(Defined::TableKept)
            } else {
                name_exists(alloc, &create.name)
            }
        }
        Statement::CreateIndex(index) => {
            if index.if_not_exists {
                Reply::Defined(Defined::IndexKept)
            } else {
                name_exists(alloc, &index.name)
            }
        }
        _ => Reply::Refused(Refusal::Memory),
    }
}

/// What is told where no table was found.
pub(crate) fn unfound(alloc: Global, statement: &Statement, fault: StepFault) -> Reply
    ensures { (result ≡ spec.unfound statement.now fault) ⊎ (result ≡ Refused Memory) }
{
    match fault {
        StepFault::NoTable => table_absent(alloc, statement),
        StepFault::Closed { call } => Reply::Refused(Refusal::Closed { call }),
        _ => Reply::Refused(Refusal::Memory),
    }
}

/// What is told of a batch that wasn't made.
pub(crate) fn unchanged(alloc: Global, statement: &Statement, fault: BatchFault) -> Reply
    ensures { (result ≡ Refused (spec.batch_refusal (spec.table_named statement.now) fault)) ⊎ ((result ≡ Refused Memory) × (fault ≡ BatchFault.NoTable)) }
{
    uncommitted(alloc, table_named(statement), fault)
}

/// What is told of a commit that wasn't made.
pub(crate) fn uncommitted(alloc: Global, name: &Name, fault: BatchFault) -> Reply
    ensures { spec.StopsDelete result name.now fault }
{
    match fault {
        BatchFault::NoTable => no_table(alloc, name),
        BatchFault::Limit { which, count: _ } => Reply::Refused(Refusal::Limit(which)),
        BatchFault::ReadFault => Reply::Refused(Refusal::ReadFault),
        BatchFault::WriteFault => Reply::Refused(Refusal::WriteFault),
        BatchFault::Damaged { file, place } => Reply::Refused(Refusal::Damaged { file, place }),
        BatchFault::Closed { call } => Reply::Refused(Refusal::Closed { call }),
        BatchFault::Memory => Reply::Refused(Refusal::Memory),
    }
}

/// What is told of a table that has no status.
pub(crate) fn uncounted(alloc: Global, name: &Name, fault: CountFault) -> Reply
    ensures { (result ≡ Refused (spec.count_refusal name.now fault)) ⊎ (result ≡ Refused Memory) }
{
    match fault {
        CountFault::NoTable => no_table(alloc, name),
        CountFault::ReadFault => Reply::Refused(Refusal::ReadFault),
        CountFault::Damaged { file, place } => Reply::Refused(Refusal::Damaged { file, place }),
        CountFault::Closed { call } => Reply::Refused(Refusal::Closed { call }),
        CountFault::Memory => Reply::Refused(Refusal::Memory),
    }
}

/// What is told of an order that isn't done.
pub(crate) fn undone(fault: OrderFault) -> Refusal
    ensures { result ≡ spec.order_refusal fault }
{
    match fault {
        OrderFault::ReadFault => Refusal::ReadFault,
        OrderFault::WriteFault => Refusal::WriteFault,
        OrderFault::Damaged { file, place } => Refusal::Damaged { file, place },
        OrderFault::Closed { call } => Refusal::Closed { call },
        OrderFault::Memory => Refusal::Memory,
    }
}

/// What is told of a definition that wasn't made.
pub(crate) fn undefined(alloc: Global, statement: &Statement, fault: DefineFault) -> Reply
    ensures { (result ≡ spec.undefined statement.now fault) ⊎ (result ≡ Refused Memory) }
{
    match fault {
        DefineFault::NameExists => name_taken(alloc, statement),
        DefineFault::NoTable => table_absent(alloc, statement),
        DefineFault::NoIndex => index_absent(alloc, statement),
        DefineFault::Limit { which, count: _ } => Reply::Refused(Refusal::Limit(which)),
        DefineFault::ReadFault => Reply::Refused(Refusal::ReadFault),
        DefineFault::WriteFault => Reply::Refused(Refusal::WriteFault),
        DefineFault::Damaged { file, place } => Reply::Refused(Refusal::Damaged { file, place }),
        DefineFault::Closed { call } => Reply::Refused(Refusal::Closed { call }),
        DefineFault::Memory => Reply::Refused(Refusal::Memory),
    }
}

/// What is told of an index that doesn't stand active.
pub(crate) fn unbuilt(alloc: Global, statement: &Statement, fault: BuildFault) -> Reply
    ensures { (result ≡ spec.not_built statement.now fault) ⊎ (result ≡ Refused Memory) }
{
    match fault {
        BuildFault::NoTable => table_absent(alloc, statement),
        BuildFault::NoIndex => index_absent(alloc, statement),
        BuildFault::Limit { which, count: _ } => Reply::Refused(Refusal::Limit(which)),
        BuildFault::BelowHorizon { horizon } => {
            Reply::Refused(Refusal::BelowHorizon { horizon })
        }
        BuildFault::ReadFault => Reply::Refused(Refusal::ReadFault),
        BuildFault::WriteFault => Reply::Refused(Refusal::WriteFault),
        BuildFault::Damaged { file, place } => Reply::Refused(Refusal::Damaged { file, place }),
        BuildFault::Closed { call } => Reply::Refused(Refusal::Closed { call }),
        BuildFault::Memory => Reply::Refused(Refusal::Memory),
    }
}

/// What is told of a SELECT that has no answer.
pub(crate) fn unselected(alloc: Global, statement: &Statement, fault: QueryFault) -> Reply
    ensures { (result ≡ Refused (spec.query_refusal (spec.table_named statement.now) fault)) ⊎ (result ≡ Refused Memory) }
{
    match fault {
        QueryFault::NoTable => no_table(alloc, table_named(statement)),
        QueryFault::BelowHorizon { horizon } => {
            Reply::Refused(Refusal::BelowHorizon { horizon })
        }
        QueryFault::IndexJoin => Reply::Refused(Refusal::IndexJoin),
        QueryFault::ReadFault => Reply::Refused(Refusal::ReadFault),
        QueryFault::WriteFault => Reply::Refused(Refusal::WriteFault),
        QueryFault::Damaged { file, place } => Reply::Refused(Refusal::Damaged { file, place }),
        QueryFault::Closed { call } => Reply::Refused(Refusal::Closed { call }),
        QueryFault::Memory => Reply::Refused(Refusal::Memory),
    }
}
