// Disks that hold the same, and those that follow another's calls.
use px_outside::{CallMade, DeviceCall, Disk, Failed, MemDisk};
use std::alloc::{AllocError, Global};

/// Adds the numbers of the files that calls wrote to, each once.
pub fn add_files(made: &[CallMade], files: &mut Vec<u64>) -> Result<(), AllocError> {
    for call in made {
        if call.call == DeviceCall::Write && !files.iter().any(|file| *file == call.file) {
            files.push(call.file)?;
        }
    }
    Ok(())
}

fn copy_file(from: &mut MemDisk, to: &mut MemDisk, file: u64) -> Result<(), Failed> {
    let mut room = [0u8; 1024];
    let pieces = from.len(file)? / 1024;
    for piece in 0..pieces.saturating_add(1) {
        let at = piece.wrapping_mul(1024);
        let count = from.read(file, at, &mut room)?;
        to.write(file, at, &room[..count])?;
    }
    to.sync(file)
}

/// A disk that holds the same in these files, and had no call; none where a disk failed.
pub fn copied(alloc: Global, from: &mut MemDisk, files: &[u64]) -> Option<MemDisk> {
    let mut to = MemDisk::new(alloc);
    for file in files {
        if copy_file(from, &mut to, *file).is_err() {
            drop(to);
            return None;
        }
    }
    Some(to.image())
}

/// Makes one of another disk's calls. Whether it changes what is there.
fn follow(disk: &mut MemDisk, call: &CallMade) -> Result<bool, Failed> {
    match call.call {
        DeviceCall::Write => disk.write(call.file, call.at, &call.bytes)?,
        DeviceCall::Cut => disk.cut(call.file, call.at)?,
        _ => return Ok(false),
    }
    Ok(true)
}

/// Makes those of another disk's calls behind so many, up to another count. Whether one changes what is there; none where one failed.
pub fn followed(disk: &mut MemDisk, made: &[CallMade], behind: u64, to: u64) -> Option<bool> {
    let mut is_changed = false;
    for call in made {
        if call.number > behind && call.number <= to {
            is_changed = follow(disk, call).ok()? || is_changed;
        }
    }
    Some(is_changed)
}
