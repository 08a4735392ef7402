// The laws of blocks, over every list of cells and every bytes.
ghost use Rattle.std.specs.Prelude.{◌≡◌, ℕ, List, Result, Ok};
ghost use Rattle.px_cells.specs.CellData.{CellData};
ghost use Rattle.px_cellbytes.specs.declared.fault.CellFault.{CellFault};
ghost use Rattle.px_block.specs.Block.{IsBlock, block_bytes};
ghost use Rattle.px_block.specs.Reading.{IsFront, IsFrontFault, IsReading};

/// Bytes have one reading at most: they are a block, or have one first fault, and not both; and so have bytes that begin
/// with a block, behind any cells. What was written is read back.
pub fn one_reading()
    ensures one { (bytes : List ℕ) (a b : Result (List CellData) CellFault) → IsReading bytes a → IsReading bytes b → a ≡ b }
    ensures written { (cells : List CellData) → IsBlock cells → IsReading (block_bytes cells) (Ok cells) }
    ensures front { (before : List CellData) (bytes : List ℕ) (xs ys : List CellData) (r s : List ℕ) → IsFront before bytes xs r → IsFront before bytes ys s → (xs ≡ ys) × (r ≡ s) }
    ensures fault { (before : List CellData) (bytes : List ℕ) (f g : CellFault) → IsFrontFault before bytes f → IsFrontFault before bytes g → f ≡ g }
    ensures either { (before : List CellData) (bytes : List ℕ) (cells : List CellData) (rest : List ℕ) (fault : CellFault) → IsFront before bytes cells rest → IsFrontFault before bytes fault → ⊥ }
{}
