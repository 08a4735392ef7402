// A file of cells that is open.
use crate::index::Index;

/// A file of cells, of which the index and the footer are kept and no cell.
#[derive(Drop)]
pub struct RegionFile {
    pub(crate) file: u64,
    pub(crate) index: Index,
}
