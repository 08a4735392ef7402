// What stands.
use px_tables::{Index, Table};
use px_values::Items;

/// The tables and indexes that stand, and the next number that is drawn.
#[derive(Drop)]
pub struct Standing {
    pub next: u32,
    /// In order of definition.
    pub tables: Items<Table>,
    /// In order of definition.
    pub indexes: Items<Index>,
}
