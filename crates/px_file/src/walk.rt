// A walk over the blocks of a file.
ghost use Rattle.std.specs.Prelude.{◌≡◌, ◌<◌, ◌↔◌, IsTrue, true, length};

use crate::index::Index;
use crate::writer::MOST_BLOCKS;
use px_cells::Cells;

/// The blocks that were read so far: their index, the cells of the last, and whether a further one may stand behind them.
#[derive(Drop)]
pub(crate) struct Walk {
    pub(crate) index: Index,
    pub(crate) before: Cells,
    pub(crate) more: bool,
}

impl Walk {
    /// Whether a further block is looked for.
    pub(crate) fn goes_on(&self) -> bool
        ensures { IsTrue result ↔ ((self.now.more ≡ true) × (length self.now.index.entries.items < 4294967295)) }
    {
        self.more && self.index.entries.len() < MOST_BLOCKS
    }
}
