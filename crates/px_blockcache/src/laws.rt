//! Right blocks stay right.
ghost use Rattle.std.specs.Prelude.{◌≡◌, ◌⊎◌, [], ℕ, List, get_or, All, Contains, IsTrue};
ghost use Rattle.px_cells.specs.CellData.{CellData};
ghost use Rattle.px_file.specs.Files.{HasBlocks};
ghost use Rattle.px_file.specs.declared.region_file.RegionFile.{RegionFile};
ghost use Rattle.px_blockcache.specs.Cached.{AreRightBlocks, BlockData, IsRightBlock};

use px_outside::Disk;

/// What was read of a file is right, and it may be put to right ones. They stay right while their files are seen as they were.
pub fn right_blocks_stay_right<D: Disk>()
    ensures none { (disk : D) → AreRightBlocks ⟦<D as Disk>⟧ disk [] }
    ensures read { (disk : D) (file : RegionFile) (blocks : List (List CellData)) (number : ℕ) → HasBlocks ⟦<D as Disk>⟧ file disk blocks → IsTrue D.tells
        → IsRightBlock ⟦<D as Disk>⟧ disk (record { file = file.file; number = number; cells = get_or blocks number [] }) }
    ensures kept { (disk : D) (block : BlockData) (old new : List BlockData) → (IsTrue D.tells → IsRightBlock ⟦<D as Disk>⟧ disk block) → All (λ b. Contains old b ⊎ (b ≡ block)) new
        → AreRightBlocks ⟦<D as Disk>⟧ disk old → AreRightBlocks ⟦<D as Disk>⟧ disk new }
    ensures stay { (old new : D) (cached : List BlockData) → All (λ b. D.seen new b.file ≡ D.seen old b.file) cached → AreRightBlocks ⟦<D as Disk>⟧ old cached → AreRightBlocks ⟦<D as Disk>⟧ new cached }
{}
