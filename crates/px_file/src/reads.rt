// Reads of a file.
ghost use Rattle.std.specs.Prelude.{◌≡◌, ◌≢◌, ◌≤◌, ◌<◌, ◌+◌, ◌^◌, ℕ, true, IsTrue, IfOk, IsErr, OnOk, Err, length, take, drop};
ghost use Rattle.px_outside.specs.OnDisk.{Passes, Rose, Stays};
ghost use Rattle.px_cellbytes.specs.Reading.{place_of_fault};
ghost use Rattle.px_cellbytes.specs.declared.fault.CellFault.TheVariants.{Memory as NoMemory};
ghost use Rattle.px_file.specs.Format.{letters as file_letters, tail_bytes};
ghost use Rattle.px_file.specs.Reading.{DiffersAt};

use crate::FileFault;
use crate::compare::difference;
use crate::index::Index;
use crate::tail::tail;
use crate::writer::LETTERS;
use px_cellbytes::CellFault;
use px_outside::Disk;
use std::alloc::Global;

/// Fills the front of a buffer with what stands at a place, as much as fits, and answers how much it is.
pub(crate) fn read_at<D: Disk>(
    disk: &mut D,
    file: u64,
    at: u64,
    into: &mut [u8],
) -> Result<usize, FileFault>
    ensures fits { IfOk result (λ n. n ≤ length into.new) }
    ensures bytes { IfOk result (λ n. IsTrue D.tells → take n into.new ≡ take (length into.old) (drop at (D.seen disk.old file))) }
    ensures seen { D.seen disk.new ≡ D.seen disk.old }
    ensures quiet { Stays ⟦<D as Disk>⟧ disk.old disk.new }
    ensures failed { IsErr result → (result ≡ Err FileFault.ReadFault) × Rose ⟦<D as Disk>⟧ disk.old disk.new }
    ensures counts { Passes ⟦<D as Disk>⟧ disk.old disk.new 1 }
{
    let n = disk.read(file, at, into)?;
    Ok(n)
}

/// So many bytes that stand at a place, or as many as there are.
pub(crate) fn read_bytes<D: Disk>(
    alloc: Global,
    disk: &mut D,
    file: u64,
    at: u64,
    len: u32,
) -> Result<Vec<u8>, FileFault>
    ensures bytes { IfOk result (λ bytes. IsTrue D.tells → bytes.items ≡ take len (drop at (D.seen disk.old file))) }
    ensures within { IfOk result (λ bytes. length bytes.items ≤ len) }
    ensures seen { D.seen disk.new ≡ D.seen disk.old }
    ensures quiet { Stays ⟦<D as Disk>⟧ disk.old disk.new }
    ensures failed { result ≡ Err FileFault.ReadFault → Rose ⟦<D as Disk>⟧ disk.old disk.new }
    ensures whole { (f place : ℕ) → result ≢ Err (FileFault.Damaged f place) }
    ensures counts { Passes ⟦<D as Disk>⟧ disk.old disk.new 1 }
{
    let mut bytes = vec![in alloc; 0u8; len as usize]?;
    let n = read_at(disk, file, at, &mut bytes)?;
    bytes.truncate(n);
    Ok(bytes)
}

/// The fault of a block that stands at a place of a file.
pub(crate) fn damaged(file: u64, at: u64, fault: CellFault) -> FileFault
    requires { at + place_of_fault fault < 2 ^ 64 }
    ensures memory { fault ≡ NoMemory → result ≡ FileFault.Memory }
    ensures place { fault ≢ NoMemory → result ≡ FileFault.Damaged file (at + place_of_fault fault) }
{
    match fault {
        CellFault::Short { place }
        | CellFault::BadKind { place }
        | CellFault::OutOfOrder { place } => FileFault::Damaged {
            file,
            place: at + place,
        },
        CellFault::Memory => FileFault::Memory,
    }
}

/// Tests the first letters of a file.
pub(crate) fn read_letters<D: Disk>(disk: &mut D, file: u64) -> Result<(), FileFault>
    ensures right { OnOk result (IsTrue D.tells → take 8 (D.seen disk.old file) ≡ file_letters) }
    ensures wrong { (at place : ℕ) → result ≡ Err (FileFault.Damaged at place) → (at ≡ file) × (IsTrue D.tells → DiffersAt file_letters (take 8 (D.seen disk.old file)) place) }
    ensures seen { D.seen disk.new ≡ D.seen disk.old }
    ensures quiet { Stays ⟦<D as Disk>⟧ disk.old disk.new }
    ensures failed { result ≡ Err FileFault.ReadFault → Rose ⟦<D as Disk>⟧ disk.old disk.new }
    ensures counts { Passes ⟦<D as Disk>⟧ disk.old disk.new 1 }
{
    let mut letters = [0u8; 8];
    let n = read_at(disk, file, 0, &mut letters)?;
    match difference(&LETTERS, &letters[..n]) {
        None => Ok(()),
        Some(place) => Err(FileFault::Damaged {
            file,
            place: place as u64,
        }),
    }
}

/// Tests that index and footer stand behind the blocks of a file, and nothing else.
pub(crate) fn read_tail<D: Disk>(
    alloc: Global,
    disk: &mut D,
    file: u64,
    index: &Index,
) -> Result<(), FileFault>
    ensures right { OnOk result (IsTrue D.tells → drop index.now.end (D.seen disk.old file) ≡ tail_bytes index.now.entries.items index.now.end index.now.cells index.now.stamp) }
    ensures wrong { (at place : ℕ) → result ≡ Err (FileFault.Damaged at place) → (at ≡ file) × (IsTrue D.tells
        → (inner : ℕ) × DiffersAt (tail_bytes index.now.entries.items index.now.end index.now.cells index.now.stamp) (drop index.now.end (D.seen disk.old file)) inner × (place ≡ index.now.end + inner)) }
    ensures seen { D.seen disk.new ≡ D.seen disk.old }
    ensures quiet { Stays ⟦<D as Disk>⟧ disk.old disk.new }
    ensures failed { result ≡ Err FileFault.ReadFault → Rose ⟦<D as Disk>⟧ disk.old disk.new }
    ensures counts { Passes ⟦<D as Disk>⟧ disk.old disk.new 1 }
{
    let right = tail(alloc, index)?;
    let mut found = vec![in alloc; 0u8; right.len() + 1]?;
    let n = read_at(disk, file, index.end, &mut found)?;
    match difference(&right, &found[..n]) {
        None => Ok(()),
        Some(place) => Err(FileFault::Damaged {
            file,
            place: index.end + place as u64,
        }),
    }
}
