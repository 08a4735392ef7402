// A batch as the body of a record.
ghost use Rattle.std.specs.Prelude.{◌≡◌, ◌≢◌, ◌≤◌, ◌<◌, ◌+◌, ◌^◌, ℕ, Some, None, true, false, length, drop, take, IfOk, IfErr, IfSome, OnOk, Err, MatchOption};
ghost use Rattle.std.specs.Int.{w64, w32, from_be_bytes, to_be_bytes};
ghost use Rattle.px_wal.specs.Batch.{log_batch};
ghost use Rattle.px_wal.specs.Form.{IsLogBatch, batch_body, cell_count_in, differs_at, is_next as next_test, number_in, number_place as first_place, wrong_by};
ghost use Rattle.px_cellbytes.specs.Reading.{AreCells, place_of_fault};
ghost use Rattle.px_wal.specs.declared.batch.BatchFault.{BatchFault};
ghost use Rattle.px_wal.specs.declared.batch.BatchFault.TheVariants.{Wrong};
ghost use Rattle.px_cellbytes.specs.declared.fault.CellFault.TheVariants.{Memory as NoMemory};

use byteorder::{BigEndian, ByteOrder};
use px_cellbytes::{CellFault, read_cells};
use px_cells::Cells;
use std::alloc::Global;

/// The kind of a record with a batch.
pub(crate) const BATCH_RECORD: u8 = 2;

/// The bytes of a body before its cells.
const HEAD: usize = 12;

/// Cells that were written together, and their number.
#[derive(Drop)]
pub(crate) struct NumberedBatch {
    pub(crate) number: u64,
    pub(crate) cells: Cells,
}

/// Why a body has no batch.
#[derive(Clone, Copy, Debug, PartialEq, Eq)]
pub(crate) enum BatchFault {
    /// The place is the first that isn't of the format.
    Wrong(u64),
    NoMemory,
}

/// Whether a number comes next. The first is at most one above the flushed number.
fn is_next(flushed: u64, some: bool, last: u64, number: u64) -> bool
    ensures { result ≡ next_test flushed some last number }
{
    if some {
        number > 0 && number - 1 == last
    } else {
        number <= flushed || number - 1 == flushed
    }
}

/// The first place from one on where bytes are others.
fn differ(at: u64, right: &[u8], found: &[u8]) -> u64
    requires { at + length right.now < 100 }
    ensures place { result ≡ differs_at at right.now found.now }
    ensures within { result ≤ at + length right.now }
{
    match right {
        [] => at,
        [x, right @ ..] => match found {
            [] => at,
            [y, found @ ..] => {
                if *x == *y {
                    differ(at + 1, right, found)
                } else {
                    at
                }
            }
        },
    }
}

/// The first of a number's bytes that differs from those of the one that comes behind another.
fn number_place(last: u64, number: u64) -> u64
    ensures place { result ≡ first_place (last + 1) number }
    ensures within { result ≤ 8 }
{
    match last.checked_add(1) {
        None => 0,
        Some(right) => differ(0, &right.to_be_bytes(), &number.to_be_bytes()),
    }
}

fn place_of(fault: CellFault) -> Option<u64>
    ensures place { MatchOption result (fault ≡ NoMemory) (λ place. place ≡ place_of_fault fault) }
    ensures some { IfSome result (λ place. fault ≢ NoMemory) }
{
    match fault {
        CellFault::Short { place }
        | CellFault::BadKind { place }
        | CellFault::OutOfOrder { place } => Some(place),
        CellFault::Memory => None,
    }
}

/// The number at the beginning of a body.
#[tactic(auto, unfolding(crate::specs::Form::number_in))]
fn number_of(body: &[u8]) -> u64
    requires { 8 ≤ length body.now }
    ensures number { result ≡ number_in body.now }
    ensures spelled { to_be_bytes w64 result ≡ take 8 body.now }
{
    BigEndian::read_u64(&body[..8])
}

/// The count behind the number.
#[tactic(auto, unfolding(crate::specs::Form::cell_count_in))]
fn count_of(body: &[u8]) -> u32
    requires { 12 ≤ length body.now }
    ensures count { result ≡ cell_count_in body.now }
    ensures spelled { to_be_bytes w32 result ≡ take 4 (drop 8 body.now) }
{
    BigEndian::read_u32(&body[8..HEAD])
}

/// The cells of a body whose number is right, or its first wrong place.
fn cells_of(alloc: Global, body: &[u8]) -> Result<Cells, BatchFault>
    requires long { 12 ≤ length body.now }
    requires short { length body.now < 2 ^ 32 }
    ensures cells { IfOk result (λ cells. AreCells (drop 12 body.now) (cell_count_in body.now) cells) }
    ensures spelled { IfOk result (λ cells. to_be_bytes w32 (length cells) ≡ take 4 (drop 8 body.now)) }
    ensures counted { IfOk result (λ cells. length cells < 2 ^ 32) }
    ensures wrong { (place right : ℕ) → result ≡ Err (Wrong place) → wrong_by true right body.now ≡ Some place }
    ensures within { (place : ℕ) → result ≡ Err (Wrong place) → place ≤ length body.now }
{
    let count = count_of(body);
    match read_cells(alloc, &body[HEAD..], count) {
        Ok(cells) => Ok(cells),
        Err(fault) => match place_of(fault) {
            Some(place) => Err(BatchFault::Wrong(12 + place)),
            None => Err(BatchFault::NoMemory),
        },
    }
}

/// The batch of a body, whose number must come next, or the first wrong place.
pub(crate) fn read_batch(
    alloc: Global,
    flushed: u64,
    some: bool,
    last: u64,
    body: &[u8],
) -> Result<NumberedBatch, BatchFault>
    requires short { length body.now < 2 ^ 32 }
    ensures body { IfOk result (λ b. body.now ≡ batch_body (log_batch b)) }
    ensures batch { IfOk result (λ b. IsLogBatch (log_batch b)) }
    ensures next { IfOk result (λ b. next_test flushed some last b.number ≡ true) }
    ensures right { OnOk result ((place : ℕ) → wrong_by (next_test flushed some last (number_in body.now)) place body.now ≡ None) }
    ensures wrong { (place : ℕ) → result ≡ Err (Wrong place) → wrong_by (next_test flushed some last (number_in body.now)) (first_place (last + 1) (number_in body.now)) body.now ≡ Some place }
    ensures within { (place : ℕ) → result ≡ Err (Wrong place) → place ≤ length body.now }
{
    if body.len() < 8 {
        return Err(BatchFault::Wrong(0));
    }
    let number = number_of(body);
    if !is_next(flushed, some, last, number) {
        return Err(BatchFault::Wrong(number_place(last, number)));
    }
    if body.len() < HEAD {
        return Err(BatchFault::Wrong(8));
    }
    let cells = cells_of(alloc, body)?;
    Ok(NumberedBatch { number, cells })
}
