//! What the turns of a table are made of.
ghost use Rattle.std.specs.Prelude.{◌≡◌, ℕ, Some};
ghost use Rattle.std.specs.Ordering.{nat_cmp};
ghost use Rattle.std.specs.BTreeMap.{get};
ghost use Rattle.std.specs.BTreeSet.{contains};
ghost use Rattle.px_turns.specs.Turns.{IsKept, IsMarkedUpTo};
ghost use Rattle.px_turns.specs.inner.Found.{found};

use std::alloc::Global;
use std::collections::{BTreeMap, BTreeSet};

/// Of each row the stamps of the batches that are still to write it, in their order. A row that none is to write isn't there.
#[derive(Drop)]
pub struct PendingRows {
    pub(crate) alloc: Global,
    pub(crate) rows: BTreeMap<Vec<u8>, Vec<u64>>,
}

/// How many points are open at each stamp. A stamp without a point isn't there.
#[derive(Drop)]
pub struct OpenPoints {
    pub(crate) counts: BTreeMap<u64, u64>,
    pub ghost some: { (s : ℕ) → get nat_cmp counts s ≡ Some 0 → ⊥ },
}

/// The batches that are undecided, and those that haven't ended.
#[derive(Drop)]
pub struct Batches {
    pub(crate) undecided: BTreeSet<u64>,
    pub(crate) unclosed: BTreeSet<u64>,
}

/// The last stamp and the horizon of a table, the rows that are still to be written, the batches that have begun and not ended,
/// and the points that are open.
#[derive(Drop)]
pub struct Turns {
    pub(crate) last: u64,
    pub(crate) horizon: u64,
    pub(crate) pending: PendingRows,
    pub(crate) batches: Batches,
    pub(crate) points: OpenPoints,
    pub ghost kept: { IsKept last (found pending.rows) },
    pub ghost undecided_up: { IsMarkedUpTo last (contains nat_cmp batches.undecided) },
    pub ghost unclosed_up: { IsMarkedUpTo last (contains nat_cmp batches.unclosed) },
}
