// Writing a block.
ghost use Rattle.std.specs.Prelude.{◌≡◌, ◌≤◌, ◌<◌, ◌+◌, ◌^◌, ◌++◌, length, vec_len, vec_capacity, IsOk, OnOk, OnErr};
ghost use Rattle.std.specs.List.{AllByRecursion};
ghost use Rattle.px_cellbytes.specs.Spelling.{IsShortEnough};
ghost use Rattle.px_block.specs.Block.{block_bytes, count_bytes};

use px_cellbytes::write_all;
use px_cells::Cell;
use std::alloc::AllocError;

/// A block is closed when its cells have this many bytes or more.
pub const BLOCK_SIZE: usize = 32_768;

/// Adds the bytes of a block of these cells. It is Ok where there is spare room for them; an Err leaves the bytes as they
/// were.
pub fn write_block(cells: &[Cell], to: &mut Vec<u8>) -> Result<(), AllocError>
    requires short { AllByRecursion IsShortEnough cells.now }
    requires counted { length cells.now < 2 ^ 32 }
    ensures written { OnOk result (to.new.items ≡ to.old.items ++ block_bytes cells.now) }
    ensures kept { OnErr result (to.new.items ≡ to.old.items) }
    ensures room { vec_len to.old + length (block_bytes cells.now) ≤ vec_capacity to.old → IsOk result }
{
    let start = to.len();
    write_count(cells.len() as u32, to)?;
    if write_all(cells, to).is_err() {
        to.truncate(start);
        return Err(AllocError);
    }
    Ok(())
}

#[tactic(auto, unfolding(crate::specs::Block::count_bytes))]
fn write_count(count: u32, to: &mut Vec<u8>) -> Result<(), AllocError>
    ensures written { OnOk result (to.new.items ≡ to.old.items ++ count_bytes count) }
    ensures kept { OnErr result (to.new.items ≡ to.old.items) }
    ensures room { vec_len to.old + 4 ≤ vec_capacity to.old → IsOk result }
    ensures capacity { vec_capacity to.old ≤ vec_capacity to.new }
{
    to.extend_from_slice(&count.to_be_bytes())
}
