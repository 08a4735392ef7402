// What a record of the catalogue tells behind its snapshot.
use px_tables::{Index, Table};
use px_values::{IndexId, TableId};

/// A definition, or the end of one.
#[derive(Drop)]
pub enum CatalogItem {
    /// The table stands so from now on.
    TableIs(Table),
    /// The index stands so from now on.
    IndexIs(Index),
    /// The table is dropped, and its indexes with it.
    TableGone(TableId),
    IndexGone(IndexId),
}
