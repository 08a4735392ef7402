// Putting a batch into pieces.
ghost use Rattle.std.specs.Prelude.{◌≡◌, ◌≤◌, ◌<◌, ◌+◌, ◌-◌, ◌++◌, [], true, false, length, drop, take, vec_len, vec_capacity};
ghost use Rattle.px_cells.specs.Order.{IsAscending, IsSettled};
ghost use Rattle.px_memstore.specs.Pieces.{chained};
ghost use Rattle.px_memstore.specs.inner.Pieces.{ArePieces, HasBegin, IsLast, IsPut, IsSame, lists};
ghost use Rattle.px_memstore.specs.inner.Waiting.{IsIdle, waiting_room};

use crate::cutting::{PIECE, is_tight};
use crate::merging::merge;
use crate::pieces::Pieces;
use crate::waiting::Waiting;
use px_cells::{Cell, place_of};

/// The last cells of a batch, which belong into one piece.
#[derive(Clone, Copy)]
struct Last {
    /// The place of the piece.
    at: usize,
    /// Where they begin in the batch.
    from: usize,
}

/// Where the cells of a sorted batch begin that aren't below those of a piece.
fn begin_of(batch: &[Cell], piece: &[Cell]) -> usize
    requires { IsAscending batch.now }
    ensures { HasBegin batch.now piece.now result }
{
    match piece.first() {
        None => 0,
        Some(cell) => place_of(batch, cell.key()),
    }
}

/// The last cells of a batch.
fn last_of(pieces: &Pieces, batch: &[Cell]) -> Last
    requires pieces { ArePieces (lists pieces.now) }
    requires sorted { IsAscending batch.now }
    requires some { 0 < length batch.now }
    ensures { IsLast (lists pieces.now) batch.now result.at result.from }
{
    let key = batch[batch.len() - 1].key();
    let at = pieces.place_of(key);
    let from = if at == 0 {
        0
    } else {
        begin_of(batch, pieces.piece(at))
    };
    Last { at, from }
}

impl Pieces {
    /// How many cells more a piece should take.
    fn free(&self, at: usize) -> usize
        requires { at ≤ length self.now.others.items }
    {
        if at > 0 {
            return self.others[at - 1].capacity() - self.others[at - 1].len();
        }
        PIECE.saturating_sub(self.first.len())
    }

    /// The last cells of a batch, once the piece where they belong was cut, if they have no room there.
    #[tactic(auto, using(crate::proofs::Puts::same_itself, crate::proofs::Puts::same_trans))]
    fn room_for(&mut self, spares: &mut Vec<Vec<Cell>>, batch: &[Cell]) -> Last
        requires pieces { ArePieces (lists self.old) }
        requires sorted { IsAscending batch.now }
        requires some { 0 < length batch.now }
        ensures same { IsSame self.old self.new }
        ensures last { IsLast (lists self.new) batch.now result.at result.from }
    {
        let last = last_of(self, batch);
        if self.free(last.at) < batch.len() - last.from {
            self.cut_for(spares, last.at, batch[batch.len() - 1].key());
            return last_of(self, batch);
        }
        last
    }

    /// Moves the cells of all others into the first.
    pub(crate) fn gather(&mut self)
        requires room { length (chained (lists self.old)) ≤ vec_capacity self.old.first }
        ensures first { self.new.first.items ≡ chained (lists self.old) }
        ensures others { self.new.others.items ≡ [] }
        ensures count { self.new.count ≡ self.old.count }
        ensures capacity { vec_capacity self.old.first ≤ vec_capacity self.new.first }
    {
        self.others.as_mut_slice().reverse();
        while let Some(piece) = self.others.pop() {
            append(&mut self.first, piece);
        }
    }

    /// Merges the cells of a batch from a place on into the first piece.
    fn merge_first(&mut self, waiting: &mut Waiting, batch: &mut Vec<Cell>, from: usize)
        requires pieces { ArePieces (lists self.old) }
        requires count { self.old.count ≡ length (chained (lists self.old)) }
        requires room { self.old.count + vec_len batch.old ≤ vec_capacity self.old.first }
        requires sorted { IsAscending batch.old.items }
        requires last { IsLast (lists self.old) batch.old.items 0 from }
        requires none { IsIdle waiting.old }
        requires aside { vec_len batch.old ≤ waiting_room waiting.old }
        ensures put { IsPut self.old batch.old.items self.new batch.new.items }
        ensures none { IsIdle waiting.new }
        ensures aside { waiting_room waiting.old ≤ waiting_room waiting.new }
    {
        let free = self.free(0);
        let from = if free == 0 {
            from
        } else {
            from.max(batch.len().saturating_sub(free))
        };
        let before = self.first.len();
        merge(&mut self.first, waiting, batch, from);
        self.count = self.count - before + self.first.len();
    }

    /// Merges the last cells of a batch from a place on, as many as there is room for, into another piece; false where there is no room.
    fn merge_other(
        &mut self,
        at: usize,
        waiting: &mut Waiting,
        batch: &mut Vec<Cell>,
        from: usize,
    ) -> bool
        requires at { at < length self.old.others.items }
        requires pieces { ArePieces (lists self.old) }
        requires count { self.old.count ≡ length (chained (lists self.old)) }
        requires room { self.old.count + vec_len batch.old ≤ vec_capacity self.old.first }
        requires sorted { IsAscending batch.old.items }
        requires last { IsLast (lists self.old) batch.old.items (at + 1) from }
        requires none { IsIdle waiting.old }
        requires aside { vec_len batch.old ≤ waiting_room waiting.old }
        ensures put { result ≡ true → IsPut self.old batch.old.items self.new batch.new.items }
        ensures full { result ≡ false → (self.new ≡ self.old) × (batch.new ≡ batch.old) }
        ensures none { IsIdle waiting.new }
        ensures aside { waiting_room waiting.old ≤ waiting_room waiting.new }
    {
        let free = self.others[at].capacity() - self.others[at].len();
        if free == 0 {
            return false;
        }
        let from = from.max(batch.len().saturating_sub(free));
        let piece = &mut self.others[at];
        let before = piece.len();
        merge(piece, waiting, batch, from);
        let after = piece.len();
        let tight = is_tight(piece);
        self.count = self.count - before + after;
        self.is_tight = self.is_tight || tight;
        true
    }

    /// Merges the last cells of a batch into the piece where they belong. Where it is full, the cells of all pieces come into one.
    fn put_last(&mut self, last: Last, waiting: &mut Waiting, batch: &mut Vec<Cell>)
        requires pieces { ArePieces (lists self.old) }
        requires count { self.old.count ≡ length (chained (lists self.old)) }
        requires room { self.old.count + vec_len batch.old ≤ vec_capacity self.old.first }
        requires sorted { IsAscending batch.old.items }
        requires last { IsLast (lists self.old) batch.old.items last.at last.from }
        requires none { IsIdle waiting.old }
        requires aside { vec_len batch.old ≤ waiting_room waiting.old }
        ensures put { IsPut self.old batch.old.items self.new batch.new.items }
        ensures none { IsIdle waiting.new }
        ensures aside { waiting_room waiting.old ≤ waiting_room waiting.new }
    {
        if last.at == 0 {
            self.merge_first(waiting, batch, last.from);
            return;
        }
        if self.merge_other(last.at - 1, waiting, batch, last.from) {
            return;
        }
        self.gather();
        self.merge_first(waiting, batch, 0);
    }

    /// Merges a sorted batch. Of two cells at one place that of the batch is kept.
    pub(crate) fn put(
        &mut self,
        spares: &mut Vec<Vec<Cell>>,
        waiting: &mut Waiting,
        batch: Vec<Cell>,
    )
        requires pieces { ArePieces (lists self.old) }
        requires count { self.old.count ≡ length (chained (lists self.old)) }
        requires room { self.old.count + vec_len batch ≤ vec_capacity self.old.first }
        requires sorted { IsAscending batch.items }
        requires none { IsIdle waiting.old }
        requires aside { vec_len batch ≤ waiting_room waiting.old }
        ensures merged { IsSettled (batch.items ++ chained (lists self.old)) (chained (lists self.new)) }
        ensures pieces { ArePieces (lists self.new) }
        ensures count { self.new.count ≡ length (chained (lists self.new)) }
        ensures len { self.new.count ≤ self.old.count + vec_len batch }
        ensures capacity { vec_capacity self.old.first ≤ vec_capacity self.new.first }
        ensures none { IsIdle waiting.new }
        ensures aside { waiting_room waiting.old ≤ waiting_room waiting.new }
    {
        let mut batch = batch;
        while !batch.is_empty() {
            let last = self.room_for(spares, &batch);
            self.put_last(last, waiting, &mut batch);
        }
    }
}

/// Adds cells for which there is room.
fn append(to: &mut Vec<Cell>, cells: Vec<Cell>)
    requires { vec_len to.old + vec_len cells ≤ vec_capacity to.old }
    ensures items { to.new.items ≡ to.old.items ++ cells.items }
    ensures len { vec_len to.new ≡ vec_len to.old + vec_len cells }
    ensures capacity { vec_capacity to.old ≤ vec_capacity to.new }
{
    let mut cells = cells;
    let _ = to.append(&mut cells);
}
