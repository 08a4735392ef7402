// The batches of a region, as they are read from its log.
ghost use Rattle.std.specs.Prelude.{◌≡◌, ◌≤◌, ◌++◌, ◌∷◌, [], List, OnOk};
ghost use Rattle.px_gatelog.specs.Format.{LogRecord};

use crate::batch::{BATCH_RECORD, BatchFault, NumberedBatch, read_batch};
use crate::wal::{Replayed, Reread, Wal};
use px_cells::Cells;
use px_gatelog::{GateLog, LogReader};
use px_memstore::MemStore;
use std::alloc::{AllocError, Global};

/// Takes the batches of a region's log one after the other, and stores the cells of those above the flushed number.
#[derive(Drop)]
pub struct BatchReader {
    alloc: Global,
    flushed: u64,
    /// The number of the last batch; the flushed number where none was taken.
    last: u64,
    /// Whether one was taken.
    some: bool,
    /// The number of the last batch before those of the newest segment; the flushed number where there is none.
    older_to: u64,
    store: MemStore,
    /// How many cells were stored, and the sum of their bytes.
    cells: u64,
    bytes: u64,
}

impl LogReader for BatchReader {
    ghost use Rattle.px_wal.specs.Form.{wal_form};
    ghost use Rattle.px_wal.specs.inner.Reader.{HoldsOlder, HoldsRecords};

    ghost form = { λ reader. wal_form reader.flushed };

    ghost has_read = { λ reader records. HoldsRecords reader records };

    ghost has_older = { λ reader records. HoldsOlder reader records };

    fn reads_both(&self) -> bool {
        true
    }

    fn may_end(&self) -> bool {
        true
    }

    fn begin_newest(&mut self) {
        self.older_to = self.last;
    }

    fn take(&mut self, kind: u8, body: &[u8]) -> Result<Option<u64>, AllocError> {
        if kind != BATCH_RECORD {
            return Ok(Some(0));
        }
        match read_batch(self.alloc, self.flushed, self.some, self.last, body) {
            Err(BatchFault::NoMemory) => Err(AllocError),
            Err(BatchFault::Wrong(place)) => Ok(Some(5 + place)),
            Ok(batch) => {
                self.keep(batch, body.len() as u64 - 12)?;
                Ok(None)
            }
        }
    }
}

impl BatchReader {
    ghost use Rattle.px_wal.specs.Batches.{LogBatch};
    ghost use Rattle.px_wal.specs.Form.{IsLogBatch, is_next};
    ghost use Rattle.px_wal.specs.Batch.{log_batch};
    ghost use Rattle.px_wal.specs.inner.Reader.{HoldsBatches};
    ghost use Rattle.px_cellbytes.specs.Spelling.{all_bytes};
    ghost use Rattle.std.specs.Prelude.{◌+◌, length, true};
    ghost use Rattle.px_cells.specs.Order.{IsAscending, IsSettled};

    /// A reader that has taken no batch.
    pub fn new(alloc: Global, flushed: u64) -> BatchReader
        ensures empty { HoldsBatches result [] }
        ensures flushed { result.flushed ≡ flushed }
    {
        BatchReader {
            alloc,
            flushed,
            last: flushed,
            some: false,
            older_to: flushed,
            store: MemStore::new(alloc),
            cells: 0,
            bytes: 0,
        }
    }

    /// Stores cells that have so many bytes.
    fn add(&mut self, cells: Cells, bytes: u64) -> Result<(), AllocError>
        requires sorted { IsAscending cells }
        ensures store { OnOk result (IsSettled (cells ++ self.old.store.cells) self.new.store.cells) }
        ensures cells { OnOk result (self.new.cells ≡ self.old.cells + length cells) }
        ensures bytes { OnOk result (self.new.bytes ≡ self.old.bytes + bytes) }
        ensures same { (self.new.flushed ≡ self.old.flushed) × (self.new.last ≡ self.old.last) × (self.new.some ≡ self.old.some) × (self.new.older_to ≡ self.old.older_to) }
    {
        let count = cells.len() as u64;
        let Some(all_cells) = self.cells.checked_add(count) else {
            return Err(AllocError);
        };
        let Some(all_bytes) = self.bytes.checked_add(bytes) else {
            return Err(AllocError);
        };
        self.store.reserve(count)?;
        self.store.put(cells);
        self.cells = all_cells;
        self.bytes = all_bytes;
        Ok(())
    }

    /// Takes a batch whose cells have so many bytes.
    fn keep(&mut self, batch: NumberedBatch, bytes: u64) -> Result<(), AllocError>
        requires batch { IsLogBatch (log_batch batch) }
        requires next { is_next self.old.flushed self.old.some self.old.last batch.number ≡ true }
        requires bytes { bytes ≡ length (all_bytes batch.cells) }
        ensures kept { (batches : List LogBatch) → HoldsBatches self.old batches → OnOk result (HoldsBatches self.new (batches ++ log_batch batch ∷ [])) }
        ensures same { self.new.flushed ≡ self.old.flushed }
        ensures older { self.new.older_to ≡ self.old.older_to }
    {
        let NumberedBatch { number, cells } = batch;
        if number <= self.flushed {
            self.last = number;
            self.some = true;
            return Ok(());
        }
        self.add(cells, bytes)?;
        self.last = number;
        self.some = true;
        Ok(())
    }

    /// The log with what was taken of it.
    pub(crate) fn into_replayed(self, log: GateLog) -> Replayed
        ensures log { result.wal.log ≡ log }
        ensures last { result.wal.last ≡ self.last }
        ensures older { result.wal.older_to ≡ self.older_to }
        ensures stored { (result.store ≡ self.store) × (result.cells ≡ self.cells) × (result.bytes ≡ self.bytes) }
    {
        let BatchReader {
            alloc: _,
            flushed: _,
            last,
            some: _,
            older_to,
            store,
            cells,
            bytes,
        } = self;
        Replayed {
            wal: Wal {
                log,
                last,
                older_to,
            },
            store,
            cells,
            bytes,
        }
    }

    /// What was taken.
    pub(crate) fn into_reread(self) -> Reread
        ensures { (result.store ≡ self.store) × (result.cells ≡ self.cells) × (result.bytes ≡ self.bytes) }
    {
        let BatchReader {
            alloc: _,
            flushed: _,
            last: _,
            some: _,
            older_to: _,
            store,
            cells,
            bytes,
        } = self;
        Reread {
            store,
            cells,
            bytes,
        }
    }
}
