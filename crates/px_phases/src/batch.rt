// An open batch.
ghost use Rattle.std.specs.Prelude.{◌≡◌, ◌<◌, ℕ, ◌∷◌, [], List, Some, None, length, is_some, true, if◌then◌else◌};
ghost use Rattle.px_cells.specs.CellData.{CellData};
ghost use Rattle.px_keptcells.specs.Kept.{but, laid};
ghost use Rattle.px_openbatches.specs.Pending.{meet_flags};
ghost use Rattle.px_trail.specs.Batches.{rows_of};
ghost use Rattle.px_phases.specs.Batch.{BatchData, IsHanded};

use crate::flags::meet;
use px_cells::Cells;
use px_keptcells::KeptCells;
use px_values::Changes;
use std::collections::VecDeque;
use std::marker::Model;

/// A batch that has begun and not ended: its changes, the rows on which another batch was pending, and the cells that it still
/// has to hand out. Once it is made, nothing that it does takes memory.
#[derive(Drop)]
pub struct OpenBatch {
    stamp: u64,
    changes: Changes,
    /// For each change, whether another batch was pending on its row.
    met: Vec<bool>,
    /// The marks for each index that isn't marked yet, in order.
    marks: VecDeque<KeptCells>,
    /// The data cells, until they are written.
    puts: Option<KeptCells>,
    /// What closes the marks, for each index at which that isn't done yet, in order.
    closes: VecDeque<KeptCells>,
}

impl Model for OpenBatch {
    ghost use Rattle.px_phases.specs.Batch.{BatchData};
    ghost use Rattle.px_phases.specs.inner.Fields.{batch_data, IsBatch};

    ghost Value = { BatchData };

    ghost view = { batch_data };

    ghost invariant = { IsBatch };
}

impl OpenBatch {
    /// A batch that begins. It is told of each change whether another batch is pending on its row.
    pub fn new(
        stamp: u64,
        changes: Changes,
        met: Vec<bool>,
        marks: VecDeque<KeptCells>,
        puts: KeptCells,
        closes: VecDeque<KeptCells>,
    ) -> OpenBatch
        requires { length met.items ≡ length changes }
        ensures { result ≡ record { stamp = stamp; changes = changes; met = met.items; marks = marks.items; puts = Some puts; closes = closes.items } }
    {
        OpenBatch {
            stamp,
            changes,
            met,
            marks,
            puts: Some(puts),
            closes,
        }
    }

    pub fn stamp(&self) -> u64
        ensures { result ≡ self.now.stamp }
    {
        self.stamp
    }

    pub fn changes(&self) -> &Changes
        ensures { result.now ≡ self.now.changes }
    {
        &self.changes
    }

    /// How many indexes are to be marked.
    pub fn to_mark(&self) -> usize
        ensures { result ≡ length self.now.marks }
    {
        self.marks.len()
    }

    /// Whether its rows are to be written.
    pub fn is_left(&self) -> bool
        ensures { result ≡ is_some self.now.puts }
    {
        self.puts.is_some()
    }

    /// At how many indexes the marks are to be closed.
    pub fn to_close(&self) -> usize
        ensures { result ≡ length self.now.closes }
    {
        self.closes.len()
    }

    /// For each change, whether another batch was pending on its row.
    pub fn met(&self) -> &[bool]
        ensures { result.now ≡ self.now.met }
    {
        self.met.as_slice()
    }

    /// What closes the marks at the next index, those of the rows too on which another batch was pending.
    pub fn next_closes(&self) -> &KeptCells
        requires { 0 < length self.now.closes }
        ensures { (parts : List (List CellData)) (rest : List (List (List CellData))) → self.now.closes ≡ parts ∷ rest → result.now ≡ parts }
    {
        &self.closes[0]
    }

    /// Another batch begins with these changes. Where this one is still to write its rows, it was met on those of its rows that
    /// the other changes too.
    pub fn meet(&mut self, others: &Changes)
        ensures { self.new ≡ record self.old { met = if is_some self.old.puts then meet_flags (rows_of others.now) self.old.met (rows_of self.old.changes) else self.old.met } }
    {
        if self.puts.is_some() {
            meet(&mut self.met, &self.changes, others);
        }
    }

    /// Hands out the marks for the next index.
    pub fn take_marks(&mut self) -> Cells
        requires { 0 < length self.old.marks }
        ensures { (parts : List (List CellData)) (rest : List (List (List CellData))) → self.old.marks ≡ parts ∷ rest → IsHanded result (laid parts) × (self.new ≡ record self.old { marks = rest }) }
    {
        let Some(kept) = self.marks.pop_front() else {
            unreachable!()
        };
        kept.hand(&[])
    }

    /// Hands out the data cells of its rows.
    pub fn take_puts(&mut self) -> Cells
        requires { is_some self.old.puts ≡ true }
        ensures { (parts : List (List CellData)) → self.old.puts ≡ Some parts → IsHanded result (laid parts) × (self.new ≡ record self.old { puts = None }) }
    {
        let Some(kept) = self.puts.take() else {
            unreachable!()
        };
        kept.hand(&[])
    }

    /// Hands out what closes the marks at the next index, but those of the rows on which another batch was pending.
    pub fn take_closes(&mut self) -> Cells
        requires { 0 < length self.old.closes }
        ensures { (parts : List (List CellData)) (rest : List (List (List CellData))) → self.old.closes ≡ parts ∷ rest → IsHanded result (laid (but self.old.met parts)) × (self.new ≡ record self.old { closes = rest }) }
    {
        let Some(kept) = self.closes.pop_front() else {
            unreachable!()
        };
        kept.hand(&self.met)
    }
}
