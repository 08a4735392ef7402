// Reading a block.
ghost use Rattle.std.specs.Prelude.{◌≡◌, ◌≢◌, ◌≤◌, ◌<◌, ◌+◌, ◌^◌, ◌++◌, ◌∷◌, ◌⊎◌, [], List, Result, Err, length, take, drop, IsTrue, ◌↔◌, IfOk, IfErr};
ghost use Rattle.px_cells.specs.CellData.{CellData};
ghost use Rattle.px_cellbytes.specs.declared.fault.CellFault.{CellFault};
ghost use Rattle.px_cellbytes.specs.Spelling.{all_bytes};
ghost use Rattle.px_block.specs.Block.{IsClosedBlock, block_bytes, count_bytes};
ghost use Rattle.px_block.specs.Reading.{AreBlock, BeginWith, HasCount, IsBlockFault, IsBodyFault, IsFront, IsFrontFault, IsReading, behind as behind_of, count_in};

use crate::write::BLOCK_SIZE;
use byteorder::{BigEndian, ByteOrder};
use px_cellbytes::{CellFault, moved, read_cell, size_of};
use px_cells::{Cell, Cells};
use std::alloc::Global;

/// How many bytes the count has.
const COUNT: usize = 4;

/// The block that begins some bytes: its cells, and where it ends.
#[derive(Drop)]
pub struct Front {
    pub cells: Cells,
    pub end: usize,
}

/// Reads all of the bytes as one block.
///
/// `Ok` gives its cells in order. Else the fault tells the first place at which the bytes aren't a block: `Short` at 0
/// where they don't begin with a count of cells, as `read_cells` of px_cellbytes for a cell, `OutOfOrder` for the first byte
/// behind the cell with which the block is full, and for the first behind its last cell. `Memory` says that an allocation
/// was refused.
pub fn read_block(alloc: Global, bytes: &[u8]) -> Result<Cells, CellFault>
    ensures ok { IfOk result (λ cells. AreBlock bytes.now cells) }
    ensures fault { IfErr result (λ fault. fault ≢ CellFault.Memory → IsBlockFault bytes.now fault) }
{
    match read_front(alloc, bytes, &[]) {
        Ok(front) => whole(front, bytes.len()),
        Err(fault) => Err(fault),
    }
}

/// The cells of a block that ends where all of so many bytes do.
fn whole(front: Front, total: usize) -> Result<Cells, CellFault>
    ensures cells { IfOk result (λ cells. (cells ≡ front.cells) × (total ≤ front.end)) }
    ensures fault { IfErr result (λ fault. (fault ≡ CellFault.OutOfOrder front.end) × (front.end < total)) }
{
    if front.end < total {
        return Err(CellFault::OutOfOrder {
            place: front.end as u64,
        });
    }
    Ok(front.cells)
}

/// Reads the block that begins the bytes and comes behind these cells, of which only the last tells.
///
/// What stands behind the block isn't looked at. Faults are those of `read_block`; the first cell is `OutOfOrder` where it
/// isn't above the last of those before.
pub fn read_front(alloc: Global, bytes: &[u8], before: &[Cell]) -> Result<Front, CellFault>
    ensures front { IfOk result (λ front. IsFront before.now bytes.now front.cells (drop front.end bytes.now)) }
    ensures end { IfOk result (λ front. (front.end ≡ length (block_bytes front.cells)) × (front.end ≤ length bytes.now)) }
    ensures fault { IfErr result (λ fault. fault ≢ CellFault.Memory → IsFrontFault before.now bytes.now fault) }
{
    if !has_count(bytes) {
        return Err(CellFault::Short { place: 0 });
    }
    let count = count_of(bytes);
    match read_body(alloc, &bytes[COUNT..], count, before) {
        Ok(body) => Ok(Front {
            cells: body.cells,
            end: COUNT + body.end,
        }),
        Err(fault) => Err(moved(COUNT, fault)),
    }
}

/// Whether the bytes begin with a count of cells that isn't zero.
pub fn has_count(bytes: &[u8]) -> bool
    ensures { IsTrue result ↔ HasCount bytes.now }
{
    bytes.len() >= COUNT && count_of(bytes) != 0
}

/// The count at the beginning.
#[tactic(auto, unfolding(crate::specs::Reading::count_in))]
fn count_of(bytes: &[u8]) -> u32
    requires { 4 ≤ length bytes.now }
    ensures count { result ≡ count_in bytes.now }
    ensures spelled { count_bytes result ≡ take 4 bytes.now }
{
    BigEndian::read_u32(&bytes[..COUNT])
}

/// So many cells of a block that begin the bytes, and where they end.
fn read_body(alloc: Global, bytes: &[u8], count: u32, before: &[Cell]) -> Result<Front, CellFault>
    requires some { count ≢ 0 }
    ensures begin { IfOk result (λ body. BeginWith before.now bytes.now body.cells (drop body.end bytes.now)) }
    ensures closed { IfOk result (λ body. IsClosedBlock body.cells) }
    ensures counted { IfOk result (λ body. length body.cells ≡ count) }
    ensures end { IfOk result (λ body. (body.end ≡ length (all_bytes body.cells)) × (body.end ≤ length bytes.now)) }
    ensures fault { IfErr result (λ fault. fault ≢ CellFault.Memory → IsBodyFault before.now count bytes.now fault) }
{
    let mut cells = Cells::new(alloc);
    let mut at = 0;
    for _ in 0..count {
        if at >= BLOCK_SIZE {
            return Err(CellFault::OutOfOrder { place: at as u64 });
        }
        match read_cell(alloc, &bytes[at..], behind(before, cells.as_slice())) {
            Ok(cell) => {
                at += size_of(&cell);
                if cells.push(cell).is_err() {
                    return Err(CellFault::Memory);
                }
            }
            Err(fault) => return Err(moved(at, fault)),
        }
    }
    Ok(Front { cells, end: at })
}

/// The cells that stand before the next cell of a block.
fn behind<'a>(before: &'a [Cell], cells: &'a [Cell]) -> &'a [Cell]
    ensures { result.now ≡ behind_of before.now cells.now }
{
    match cells {
        [] => before,
        [_, ..] => cells,
    }
}
