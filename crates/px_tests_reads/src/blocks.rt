use crate::files::made;
use px_blockcache::BlockCache;
use px_cells::Cells;
use px_outside::MemDisk;
use px_reads::ReadFile;
use std::alloc::Global;
use std::process::Abort;
use std::test::Fail;

/// Whether these are the four rows of a block.
fn are_of(cells: &Cells, block: usize) -> bool {
    let Ok(block) = u8::try_from(block) else {
        return false;
    };
    let mut row = block.wrapping_mul(4);
    for cell in cells.as_slice() {
        if cell.key().first() != Some(&row) {
            return false;
        }
        row = row.wrapping_add(1);
    }
    cells.len() == 4
}

#[test]
fn a_block_is_read_once(rt: HostRuntime) -> Result<(), Fail> {
    let alloc = rt.alloc();
    let mut disk = MemDisk::new(alloc);
    let done = read_blocks(&rt, alloc, &mut disk);
    drop(disk);
    done
}

fn read_blocks(rt: &impl Abort, alloc: Global, disk: &mut MemDisk) -> Result<(), Fail> {
    let read = made(alloc, disk, &[0, 1, 2, 3, 4, 5, 6, 7], 1, 4).ok_or("not made")?;
    let done = read_blocks_of(rt, alloc, disk, &read);
    drop(read);
    done
}

fn read_blocks_of(
    rt: &impl Abort,
    alloc: Global,
    disk: &mut MemDisk,
    read: &ReadFile,
) -> Result<(), Fail> {
    let mut cache = BlockCache::new(alloc)?;
    let done = read_once(rt, alloc, disk, read, &mut cache);
    drop(cache);
    done
}

/// Takes each block, and puts it back.
fn keep_each(
    rt: &impl Abort,
    alloc: Global,
    disk: &mut MemDisk,
    read: &ReadFile,
    cache: &mut BlockCache,
) -> Result<(), Fail> {
    for number in 0..read.file.blocks() {
        let cells = cache
            .take(alloc, disk, &read.file, number)
            .ok()
            .ok_or("not read")?;
        let is_right = are_of(&cells, number);
        cache.keep(read.file.number(), number, cells);
        assert!(rt; is_right);
    }
    Ok(())
}

/// Takes each block out.
fn take_each(
    rt: &impl Abort,
    alloc: Global,
    disk: &mut MemDisk,
    read: &ReadFile,
    cache: &mut BlockCache,
) -> Result<(), Fail> {
    for number in 0..read.file.blocks() {
        let cells = cache
            .take(alloc, disk, &read.file, number)
            .ok()
            .ok_or("not read")?;
        let is_right = are_of(&cells, number);
        drop(cells);
        assert!(rt; is_right);
    }
    Ok(())
}

fn read_once(
    rt: &impl Abort,
    alloc: Global,
    disk: &mut MemDisk,
    read: &ReadFile,
    cache: &mut BlockCache,
) -> Result<(), Fail> {
    assert!(rt; read.file.blocks() == 2);
    let calls = disk.calls_made().len();
    keep_each(rt, alloc, disk, read, cache)?;
    assert!(rt; disk.calls_made().len() == calls + 2);
    take_each(rt, alloc, disk, read, cache)?;
    assert!(rt; disk.calls_made().len() == calls + 2);

    // They were taken out, and not put back.
    let cells = cache
        .take(alloc, disk, &read.file, 0)
        .ok()
        .ok_or("not read")?;
    let is_read = disk.calls_made().len() == calls + 3;
    cache.keep(read.file.number(), 0, cells);
    assert!(rt; is_read);
    cache.clear();
    let cells = cache
        .take(alloc, disk, &read.file, 0)
        .ok()
        .ok_or("not read")?;
    drop(cells);
    assert!(rt; disk.calls_made().len() == calls + 4);
    Ok(())
}
