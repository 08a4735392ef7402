// The laws of a file that is open.
ghost use Rattle.std.specs.Prelude.{◌≡◌, ◌≢◌, List, IsTrue};
ghost use Rattle.px_outside.specs.Disk.{Image};
ghost use Rattle.px_outside.specs.OnDisk.{IsLeft, Stays, TouchesOnly};
ghost use Rattle.px_cells.specs.CellData.{CellData};
ghost use Rattle.px_file.specs.Files.{HasBlocks};
ghost use Rattle.px_file.specs.Format.{FileStands, cells_in, greatest_stamp_in};
ghost use Rattle.px_file.specs.declared.region_file.RegionFile.{RegionFile};

use px_outside::Disk;

/// Calls on other files leave a file as it is, and so do calls that change nothing.
pub fn a_file_is_kept<D: Disk>()
    ensures apart { (old new : D) (file : RegionFile) (blocks : List (List CellData)) → TouchesOnly ⟦<D as Disk>⟧ old new (λ touched. touched ≢ file.file)
        → HasBlocks ⟦<D as Disk>⟧ file old blocks → HasBlocks ⟦<D as Disk>⟧ file new blocks }
    ensures quiet { (old new : D) (file : RegionFile) (blocks : List (List CellData)) → Stays ⟦<D as Disk>⟧ old new → D.seen new ≡ D.seen old
        → HasBlocks ⟦<D as Disk>⟧ file old blocks → HasBlocks ⟦<D as Disk>⟧ file new blocks }
{}

/// What a stop leaves of a file stands for its cells.
pub fn a_file_stands<D: Disk>()
    ensures { (disk : D) (image : Image) (file : RegionFile) (blocks : List (List CellData)) → IsTrue D.tells → IsLeft ⟦<D as Disk>⟧ disk (D.calls disk) image
        → HasBlocks ⟦<D as Disk>⟧ file disk blocks → FileStands (image file.file) (cells_in blocks) (greatest_stamp_in (cells_in blocks)) }
{}
