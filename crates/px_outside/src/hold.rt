// A folder that is held, so that no other process uses it meanwhile.
use crate::levels::level_above;
use std::fs::{self, File, OpenOptions, TryLockError};
use std::io::{self, ErrorKind};
use std::rt::Files;

/// Whether the folder is held.
#[derive(Drop)]
pub(crate) enum Hold {
    /// No call has looked for it.
    Unasked,
    /// The first call found none. What another process makes of it since is not this run's.
    Missing,
    /// It is locked, until the handle is dropped or the process ends.
    Held(File),
}

/// A file or a folder, open for reading alone.
pub(crate) fn open_folder<R: Files<File = File>>(rt: &R, path: &str) -> io::Result<File> {
    let mut options = OpenOptions::new();
    options.read(true);
    rt.open_file(&options, path)
}

/// Locks the folder. A file system that knows no such lock is used without it.
fn locked(handle: File) -> io::Result<File> {
    match handle.try_lock() {
        Err(TryLockError::WouldBlock) => {
            drop(handle);
            Err(in_use())
        }
        _ => Ok(handle),
    }
}

/// The fault of a folder that another process holds.
fn in_use() -> io::Error {
    io::Error::new(
        ErrorKind::WouldBlock,
        "the folder is in use by another process",
    )
}

/// Holds the folder, where there is one.
pub(crate) fn hold_folder<R: Files<File = File>>(rt: &R, path: &str) -> io::Result<Hold> {
    match open_folder(rt, path) {
        Ok(handle) => Ok(Hold::Held(locked(handle)?)),
        Err(fault) if fault.kind() == ErrorKind::NotFound => Ok(Hold::Missing),
        Err(fault) => Err(fault),
    }
}

/// Makes the folder and the levels above it that are missing, and holds it. One that has come in between is another
/// process's.
pub(crate) fn make_folder<R: Files<File = File>>(rt: &R, path: &str) -> io::Result<Hold> {
    fs::create_dir_all(rt, level_above(path))?;
    match fs::create_dir(rt, path) {
        Ok(()) => Ok(Hold::Held(locked(open_folder(rt, path)?)?)),
        Err(fault) if fault.kind() == ErrorKind::AlreadyExists => Err(in_use()),
        Err(fault) => Err(fault),
    }
}
