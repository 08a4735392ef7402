//! What is spelled is told, and only that.
ghost use Rattle.std.specs.Prelude.{◌≡◌, ◌<◌, ◌++◌, ℕ, List, IsTrue, length};
ghost use Rattle.px_cells.specs.CellData.{CellData};
ghost use Rattle.px_cellbytes.specs.Reading.{IsWritten};
ghost use Rattle.px_cellbytes.specs.Spelling.{all_bytes};
ghost use Rattle.px_block.specs.Reading.{AreBlock};
ghost use Rattle.px_file.specs.Files.{HasBlocks};
ghost use Rattle.px_file.specs.Format.{AreBlocks, cells_in, file_bytes};
ghost use Rattle.px_file.specs.declared.region_file.RegionFile.{RegionFile};
ghost use Rattle.px_told.specs.Told.{block_told, cells_told, file_told};

use px_outside::Disk;

/// The bytes of cells tell these cells, whatever stands behind them, and those of a block tell its cells.
pub fn what_is_spelled_is_told()
    ensures cells { (cells : List CellData) (rest : List ℕ) → IsWritten cells → cells_told (length cells) (all_bytes cells ++ rest) ≡ cells }
    ensures block { (bytes : List ℕ) (cells : List CellData) → AreBlock bytes cells → block_told bytes ≡ cells }
{}

/// An open file tells the cells of its blocks.
pub fn a_file_tells_its_cells<D: Disk>()
    ensures { (disk : D) (file : RegionFile) (blocks : List (List CellData)) → IsTrue D.tells → HasBlocks ⟦<D as Disk>⟧ file disk blocks → file_told file.index.entries.items (D.seen disk file.file) ≡ cells_in blocks }
{}

/// Bytes are a file of one list of blocks at most.
pub fn a_file_has_one_list_of_blocks()
    ensures { (xs ys : List (List CellData)) → AreBlocks xs → AreBlocks ys → file_bytes xs ≡ file_bytes ys → xs ≡ ys }
{}
