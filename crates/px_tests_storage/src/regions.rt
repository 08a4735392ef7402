// Batches in a region.
ghost use Rattle.std.specs.Prelude.{◌≤◌, ◌<◌, ◌^◌, length};

use px_cellbytes::read_cells;
use px_gatelog::Frame;
use px_outside::MemDisk;
use px_region::{JobStep, Region};
use std::alloc::Global;

/// Makes a region's files where there are none.
pub fn prepared(disk: &mut MemDisk, region: &mut Region) -> Option<()> {
    for _ in 0..8 {
        if region.prepare_step(disk).ok()? == JobStep::Done {
            return Some(());
        }
    }
    None
}

/// Writes the cells of bytes into a region as one batch.
pub fn put(
    alloc: Global,
    disk: &mut MemDisk,
    region: &mut Region,
    bytes: &[u8],
    count: u32,
) -> Option<()>
    requires few { 1 ≤ count }
    requires short { length bytes.now < 2 ^ 32 }
{
    region.promise(count as u64, bytes.len() as u64).ok()?;
    let mut frame = Frame::with_room(alloc, 12 + bytes.len() as u64).ok()?;
    let done = match read_cells(alloc, bytes, count) {
        Ok(cells) => region.apply(disk, cells, &mut frame).is_ok(),
        Err(_) => false,
    };
    drop(frame);
    if done { Some(()) } else { None }
}
