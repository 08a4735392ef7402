// What `define` takes and answers.
use px_tables::{NewIndex, NewTable};
use px_values::{IndexId, TableId};

/// A change of the catalogue.
#[derive(Drop)]
pub enum Definition {
    /// A new table.
    Table(NewTable),
    /// A new index, which is then being built.
    Index(NewIndex),
    /// The index is built.
    Active { table: TableId, index: IndexId },
    /// The index isn't maintained any more.
    Disabled { table: TableId, index: IndexId },
    /// The index is being built again, from an empty region and a new birth on.
    Rebuilding { table: TableId, index: IndexId },
    /// The table goes, with all of its indexes.
    DropTable(TableId),
    /// The index goes.
    DropIndex { table: TableId, index: IndexId },
}

/// A definition that was made: the number of its table or index, the stamp that it drew or the birth of the index that it
/// made active or disabled, else 0, and the number of entries with its own.
#[derive(Clone, Copy)]
pub struct Made {
    pub number: u32,
    pub stamp: u64,
    pub at: u64,
}
