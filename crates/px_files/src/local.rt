// The number of a new file.
ghost use Rattle.std.specs.Prelude.{◌≡◌, ◌≤◌, ◌<◌, ℕ, IsTrue, ◌↔◌, map, MatchOption};
ghost use Rattle.px_wal.specs.SnapshotOf.{file_data};
ghost use Rattle.px_files.specs.Locals.{IsFreeLocal, IsNamed};

use px_wal::FileEntry;

/// Whether a file with the local number is named.
fn is_named(files: &[FileEntry], local: u32) -> bool
    ensures { IsTrue result ↔ IsNamed (map file_data files.now) local }
{
    match files {
        [] => false,
        [file, rest @ ..] => file.local == local || is_named(rest, local),
    }
}

/// The least local number from 4 on that no file has, if there is one.
pub fn free_local(files: &[FileEntry]) -> Option<u32>
    ensures { MatchOption result ((local : ℕ) → 4 ≤ local → local < 4294967295 → IsNamed (map file_data files.now) local) (λ local. IsFreeLocal (map file_data files.now) local) }
{
    for local in 4..u32::MAX {
        if !is_named(files, local) {
            return Some(local);
        }
    }
    None
}
