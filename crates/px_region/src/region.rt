// A region, and what is written to it.
ghost use Rattle.std.specs.Prelude.{◌≡◌, ◌≢◌, ◌≤◌, ◌<◌, ◌+◌, ◌*◌, ◌^◌, ◌⊎◌, ◌++◌, ◌↔◌, [], ℕ, List, length, IsTrue, IfOk, IsErr, OnOk, OnErr, Ok, Err, false};
ghost use Rattle.std.specs.List.{AllByRecursion};
ghost use Rattle.px_cellbytes.specs.Spelling.{IsShortEnough, all_bytes};
ghost use Rattle.px_wal.specs.Wal.{is_wal_open, room_of_wal};

use crate::PromiseFault;
use crate::stamps::LeastStamps;
use px_cells::{Cell, Cells};
use px_flushing::Flushing;
use px_gatelog::Frame;
use px_memstore::MemStore;
use px_outside::{Disk, Failed};
use px_wal::{Manifest, Wal};
use std::alloc::Global;

/// The most cells and bytes that stand in a log above its flushed number.
const MOST_CELLS: u64 = 16_384;

const MOST_BYTES: u64 = 16_777_216;

/// How many bytes a record of one cell has besides the cell, and the gate behind it.
const AROUND: u64 = 19;

/// A region of a table or an index.
#[derive(Drop)]
pub struct Region {
    pub(crate) alloc: Global,
    pub(crate) number: u32,
    pub(crate) wal: Wal,
    pub(crate) manifest: Manifest,
    /// The files that the manifest names, and the flush that may be under way.
    pub(crate) flushing: Flushing,
    /// The horizon that the manifest names.
    pub(crate) horizon: u64,
    /// The cells of all batches and files.
    pub(crate) store: MemStore,
    /// How many cells the batches above the flushed number have, and the sum of their bytes.
    pub(crate) cells: u64,
    pub(crate) bytes: u64,
    /// For how many cells and bytes room was promised.
    pub(crate) promised: u64,
    pub(crate) promised_bytes: u64,
    /// How many rows were looked at.
    pub(crate) looked: u64,
    /// The number of the last batch that is ordered to be flushed, 0 where none is.
    pub(crate) ordered: u64,
    /// Whether a compaction that forgets is wanted.
    pub(crate) wanted: bool,
    /// The least stamps of the batches above the flushed number.
    pub(crate) stamps: LeastStamps,
    ghost roomy: { 19 * promised + promised_bytes ≤ room_of_wal wal },
    ghost stored: { promised ≤ store.room },
    ghost few: { promised ≤ 16384 },
    ghost light: { promised_bytes ≤ 16777216 },
    ghost counted: { cells + promised ≤ 18446744073709551615 },
    ghost weighed: { bytes + promised_bytes ≤ 18446744073709551615 },
    ghost numbered: { 1 ≤ promised → wal.last + promised ≤ 18446744073709551615 },
    ghost opened: { 1 ≤ promised → is_wal_open wal },
    ghost later: { 1 ≤ promised → manifest.snapshot.flushed ≤ wal.last },
}

/// How many bytes cells have.
fn byte_len(cells: &[Cell]) -> u64
    requires short { AllByRecursion IsShortEnough cells.now }
    requires small { length (all_bytes cells.now) < 2 ^ 32 }
    ensures { result ≡ length (all_bytes cells.now) }
{
    let mut bytes = 0;
    for cell in cells {
        bytes += 14 + cell.key().len() as u64 + cell.value().len() as u64;
    }
    bytes
}

impl Region {
    ghost use Rattle.px_region.specs.Region.{RegionData, RegionHolds, RegionStands, data_of, read_of, with_batch};
    ghost use Rattle.px_merge.specs.Settle.{settle};
    ghost use Rattle.px_region.specs.Promise.{HasLogRoom, HasOpenLog, IsAlike, IsLogReady, PassesLimit};
    ghost use Rattle.px_region.specs.Fresh.{IsFreshRegion};
    ghost use Rattle.px_region.specs.Ordered.{flushed_of};
    ghost use Rattle.px_outside.specs.OnDisk.{LeavesOnly, Passes, Rose, TouchesOnly};
    ghost use Rattle.px_cells.specs.CellData.{CellData};
    ghost use Rattle.px_cellbytes.specs.Reading.{IsWritten};
    ghost use Rattle.px_wal.specs.Files.{HasFile};
    ghost use Rattle.px_region.specs.declared.fault.PromiseFault.TheVariants.{Busy, NotReady};

    /// The region of a number of which no file was ever written. It makes no call.
    pub fn fresh(alloc: Global, number: u32) -> Region
        ensures fresh { IsFreshRegion number result }
        ensures read { read_of result ≡ [] }
    {
        Region {
            alloc,
            number,
            wal: Wal::fresh(number),
            manifest: Manifest::fresh(alloc, number),
            flushing: Flushing::fresh(alloc, number),
            horizon: 0,
            store: MemStore::new(alloc),
            cells: 0,
            bytes: 0,
            promised: 0,
            promised_bytes: 0,
            looked: 0,
            ordered: 0,
            wanted: false,
            stamps: LeastStamps::none(),
        }
    }

    /// The number up to which its manifest says that its log is flushed.
    pub(crate) fn flushed(&self) -> u64
        ensures { result ≡ flushed_of self.now }
    {
        self.manifest.snapshot().flushed
    }

    /// Its number.
    pub fn number(&self) -> u32
        ensures { result ≡ self.now.number }
    {
        self.number
    }

    /// Whether its log is open.
    pub fn has_log(&self) -> bool
        ensures { IsTrue result ↔ HasOpenLog self.now }
    {
        self.wal.is_open()
    }

    /// Whether its log is open, and a batch appended to it counts. The last batch of a folder that no program left may lie
    /// below the flushed number, and then the next would be passed over.
    pub fn is_ready(&self) -> bool
        ensures { IsTrue result ↔ IsLogReady self.now }
    {
        self.wal.is_open() && self.flushed() <= self.wal.last()
    }

    /// Whether so many cells and bytes more would be too many.
    fn is_busy(&self, cells: u64, bytes: u64) -> bool
        ensures { IsTrue result ↔ PassesLimit self.now cells bytes }
    {
        let all_cells = (self.cells + self.promised).saturating_add(cells);
        let all_bytes = (self.bytes + self.promised_bytes).saturating_add(bytes);
        all_cells > MOST_CELLS || all_bytes > MOST_BYTES
    }

    /// Whether the log has room for so many cells and bytes more, each cell in a batch of its own.
    fn has_room(&self, cells: u64, bytes: u64) -> bool
        requires { PassesLimit self.now cells bytes → ⊥ }
        ensures { IsTrue result ↔ HasLogRoom self.now cells bytes }
    {
        let all = self.promised + cells;
        self.wal.last() <= u64::MAX - all
            && self
                .wal
                .has_room(AROUND * all + self.promised_bytes + bytes)
    }

    /// Takes room for so many cells and bytes, in the log and in memory. The bytes of a cell are 14 and those of its key
    /// and its value.
    ///
    /// It is NotReady where the log isn't open or has no room; Busy, with the cells and bytes that stand in the log or are
    /// promised, exactly where those would pass 16,384 cells or 16,777,216 bytes together with these.
    pub fn promise(&mut self, cells: u64, bytes: u64) -> Result<(), PromiseFault>
        ensures promised { OnOk result ((self.new.promised ≡ self.old.promised + cells) × (self.new.promised_bytes ≡ self.old.promised_bytes + bytes)) }
        ensures refused { OnErr result ((self.new.promised ≡ self.old.promised) × (self.new.promised_bytes ≡ self.old.promised_bytes)) }
        ensures busy { (a b : ℕ) → (result ≡ Err (Busy a b)) ↔ (IsLogReady self.old × PassesLimit self.old cells bytes × (a ≡ self.old.cells + self.old.promised) × (b ≡ self.old.bytes + self.old.promised_bytes)) }
        ensures not_ready { (result ≡ Err NotReady) ↔ ((IsLogReady self.old → ⊥) ⊎ ((PassesLimit self.old cells bytes → ⊥) × (HasLogRoom self.old cells bytes → ⊥))) }
        ensures alike { IsAlike self.old self.new }
        ensures read { read_of self.new ≡ read_of self.old }
        ensures looked { self.new.looked ≡ self.old.looked }
    {
        if !self.is_ready() {
            return Err(PromiseFault::NotReady);
        }
        if self.is_busy(cells, bytes) {
            return Err(PromiseFault::Busy {
                cells: self.cells + self.promised,
                bytes: self.bytes + self.promised_bytes,
            });
        }
        if !self.has_room(cells, bytes) {
            return Err(PromiseFault::NotReady);
        }
        if self.store.reserve(self.promised + cells).is_err() {
            return Err(PromiseFault::Memory);
        }
        self.promised += cells;
        self.promised_bytes += bytes;
        Ok(())
    }

    /// Gives back room that was promised.
    pub fn give_back(&mut self, cells: u64, bytes: u64)
        requires cells { cells ≤ self.old.promised }
        requires bytes { bytes ≤ self.old.promised_bytes }
        ensures promised { (self.new.promised + cells ≡ self.old.promised) × (self.new.promised_bytes + bytes ≡ self.old.promised_bytes) }
        ensures alike { IsAlike self.old self.new }
        ensures read { read_of self.new ≡ read_of self.old }
        ensures looked { self.new.looked ≡ self.old.looked }
    {
        self.promised -= cells;
        self.promised_bytes -= bytes;
    }

    /// Writes a batch, for which room was promised, before all that the region has. After `Ok` it is there, and so much of
    /// the promise is used. A stop in the call leaves it whole or not at all. It takes no memory. Where the disk fails, nothing
    /// is promised any more, and no call may follow.
    pub fn apply<D: Disk>(
        &mut self,
        disk: &mut D,
        cells: Cells,
        frame: &mut Frame,
    ) -> Result<(), Failed>
        requires some { 1 ≤ length cells }
        requires written { IsWritten cells }
        requires promised { length cells ≤ self.old.promised }
        requires promised_bytes { length (all_bytes cells) ≤ self.old.promised_bytes }
        requires room { 12 + length (all_bytes cells) ≤ frame.old.room }
        ensures done { (s : RegionData) → RegionHolds ⟦<D as Disk>⟧ self.old disk.old s → OnOk result (RegionHolds ⟦<D as Disk>⟧ self.new disk.new (with_batch s cells)) }
        ensures read { OnOk result (read_of self.new ≡ settle (cells ++ read_of self.old)) }
        ensures unread { OnErr result (read_of self.new ≡ read_of self.old) }

        // At each moment of the call a stop leaves the region without the batch, or with it.
        ensures any_moment { (s : RegionData) → RegionHolds ⟦<D as Disk>⟧ self.old disk.old s
            → LeavesOnly ⟦<D as Disk>⟧ disk.old disk.new (λ moment image. RegionStands self.old.number image s ⊎ RegionStands self.old.number image (with_batch s cells)) }
        ensures failed { IsErr result → Rose ⟦<D as Disk>⟧ disk.old disk.new }
        ensures promised { OnOk result ((self.new.promised + length cells ≡ self.old.promised) × (self.new.promised_bytes + length (all_bytes cells) ≡ self.old.promised_bytes)) }
        ensures counted { OnOk result ((self.new.cells ≡ self.old.cells + length cells) × (self.new.bytes ≡ self.old.bytes + length (all_bytes cells))) }
        ensures touches { (s : RegionData) → RegionHolds ⟦<D as Disk>⟧ self.old disk.old s → TouchesOnly ⟦<D as Disk>⟧ disk.old disk.new (HasFile self.old.number) }
        ensures counts { Passes ⟦<D as Disk>⟧ disk.old disk.new 4 }
        ensures number { self.new.number ≡ self.old.number }
        ensures looked { self.new.looked ≡ self.old.looked }
        ensures horizon { (data_of self.new).horizon ≡ (data_of self.old).horizon }
        ensures frame { frame.old.room ≤ frame.new.room }
    {
        let count = cells.len() as u64;
        let bytes = byte_len(cells.as_slice());
        match self.wal.append(disk, &cells, frame) {
            Err(_fault) => {
                drop(cells);
                self.promised = 0;
                self.promised_bytes = 0;
                Err(Failed)
            }
            Ok(number) => {
                self.stamps.add(number, cells.as_slice());
                self.store.put(cells);
                self.promised -= count;
                self.promised_bytes -= bytes;
                self.cells += count;
                self.bytes += bytes;
                Ok(())
            }
        }
    }
}
