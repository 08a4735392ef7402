// What a statement asks for.
use px_ast::IndexAction;
use px_expr::Bound;
use px_tables::{KeyPlace, NewIndex, NewTable};
use px_values::{Change, IndexId, Items, Name, TableId};

/// A hint that can be read. Whether it can be followed is known when the path is chosen.
#[derive(Drop)]
pub enum Hint {
    /// The index of this name.
    Index(Name),
    NoIndex,
}

/// A query. Columns are places in the table.
#[derive(Drop)]
pub struct Query {
    pub table: TableId,
    /// In text order.
    pub hints: Items<Hint>,
    /// What is shown, in text order.
    pub shown: Items<u8>,
    pub filter: Option<Bound>,
    pub order: Items<KeyPlace>,
    pub limit: Option<u64>,
}

/// What a statement asks for.
#[derive(Drop)]
pub enum Request {
    CreateTable {
        if_not_exists: bool,
        table: NewTable,
    },
    DropTable(TableId),
    CreateIndex {
        if_not_exists: bool,
        index: NewIndex,
    },
    DropIndex {
        table: TableId,
        index: IndexId,
    },
    /// DROP INDEX IF EXISTS of an index that doesn't stand.
    AbsentIndex,
    AlterIndex {
        table: TableId,
        index: IndexId,
        action: IndexAction,
    },
    Upsert {
        table: TableId,
        change: Change,
    },
    Delete {
        table: TableId,
        filter: Option<Bound>,
    },
    Select(Query),
    Explain(Query),
}
