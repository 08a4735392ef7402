// The laws of a region's files.
ghost use Rattle.std.specs.Prelude.{◌≡◌, ℕ, List, IsTrue};
ghost use Rattle.px_outside.specs.Disk.{Image};
ghost use Rattle.px_outside.specs.OnDisk.{Stays, TouchesOnly};
ghost use Rattle.px_outside.specs.Standing.{StandsIn};
ghost use Rattle.px_cells.specs.CellData.{CellData};
ghost use Rattle.px_file.specs.Format.{FileStands};
ghost use Rattle.px_file.specs.declared.region_file.RegionFile.{RegionFile as OpenFile};
ghost use Rattle.px_wal.specs.Snapshot.{FileData};
ghost use Rattle.px_files.specs.Files.{FilesStand, HaveFiles, IsNamedFile};

use px_outside::Disk;

/// Bytes are a file of one list of cells at most, and so are the files of a region.
pub fn files_stand_for_one()
    ensures one { (bytes : List ℕ) (a b : List CellData) (s t : ℕ) → FileStands bytes a s → FileStands bytes b t → a ≡ b }
    ensures all { (region : ℕ) (image : Image) (named : List FileData) (a b : List (List CellData)) → FilesStand region image named a → FilesStand region image named b → a ≡ b }
{}

/// Calls on other files leave the files as they are, and so do calls that change nothing. What a stop leaves of them stands
/// for their lists.
pub fn files_are_kept<D: Disk>()
    ensures apart { (region : ℕ) (old new : D) (named : List FileData) (files : List OpenFile) (lists : List (List CellData)) → TouchesOnly ⟦<D as Disk>⟧ old new (λ touched. IsNamedFile region named touched → ⊥)
        → HaveFiles ⟦<D as Disk>⟧ region old named files lists → HaveFiles ⟦<D as Disk>⟧ region new named files lists }
    ensures quiet { (region : ℕ) (old new : D) (named : List FileData) (files : List OpenFile) (lists : List (List CellData)) → Stays ⟦<D as Disk>⟧ old new → D.seen new ≡ D.seen old
        → HaveFiles ⟦<D as Disk>⟧ region old named files lists → HaveFiles ⟦<D as Disk>⟧ region new named files lists }
    ensures stand { (region : ℕ) (disk : D) (named : List FileData) (files : List OpenFile) (lists : List (List CellData)) → IsTrue D.tells → HaveFiles ⟦<D as Disk>⟧ region disk named files lists
        → StandsIn ⟦<D as Disk>⟧ disk (IsNamedFile region named) (λ image. FilesStand region image named lists) }
{}
