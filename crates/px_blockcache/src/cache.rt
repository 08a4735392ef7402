// The cache.
ghost use Rattle.std.specs.Prelude.{◌≡◌, ◌≢◌, ◌<◌, ◌≤◌, ◌⊎◌, ◌++◌, ◌∷◌, [], ℕ, List, length, get_or, slice_set, All, Contains, IsTrue, IsOk, IfOk, IfSome, None, Err};
ghost use Rattle.px_outside.specs.OnDisk.{Passes, Rose, Stays};
ghost use Rattle.px_cells.specs.CellData.{CellData};
ghost use Rattle.px_cells.specs.Order.{IsCellList};
ghost use Rattle.px_file.specs.Files.{HasBlocks};
ghost use Rattle.px_blockcache.specs.Cached.{AreRightBlocks, BlockData, HasBlock, IsBlockOf};

use px_cells::Cells;
use px_file::{FileFault, RegionFile};
use px_outside::Disk;
use std::alloc::{AllocError, Global};
use std::marker::Model;
use std::mem;

/// So many blocks it has at most.
const MOST: usize = 256;

/// A block of a file, by its number among the blocks of the file.
#[derive(Drop)]
pub struct CachedBlock {
    pub(crate) file: u64,
    pub(crate) number: u64,
    pub(crate) cells: Cells,
    ghost listed: { ∥ IsCellList cells ∥₁ },
}

impl Model for CachedBlock {
    ghost use Rattle.px_blockcache.specs.Cached.{BlockData};

    ghost Value = { BlockData };

    ghost view = { λ b. record { file = b.file; number = b.number; cells = b.cells } };
}

/// Blocks that were read lately.
#[derive(Drop)]
pub struct BlockCache {
    blocks: Vec<CachedBlock>,
    /// The place of the one that goes next.
    next: usize,
}

/// The blocks.
impl Model for BlockCache {
    ghost use Rattle.std.specs.Prelude.{◌≤◌, List, vec_capacity};
    ghost use Rattle.px_blockcache.specs.Cached.{BlockData};

    ghost Value = { List BlockData };

    ghost view = { λ cache. cache.blocks.items };

    ghost invariant = { λ cache. 256 ≤ vec_capacity cache.blocks };
}

impl BlockCache {
    /// A cache without a block, and with room for all that it may have.
    pub fn new(alloc: Global) -> Result<BlockCache, AllocError>
        ensures { IfOk result (λ cache. cache ≡ []) }
    {
        Ok(BlockCache {
            blocks: Vec::with_capacity(alloc, MOST)?,
            next: 0,
        })
    }

    /// Lets all blocks go.
    pub fn clear(&mut self)
        ensures { self.new ≡ [] }
    {
        self.blocks.clear();
    }

    /// A block of a file: one of the cache, which goes out of it, or else it is read, by one read.
    pub fn take<D: Disk>(
        &mut self,
        alloc: Global,
        disk: &mut D,
        file: &RegionFile,
        number: usize,
    ) -> Result<Cells, FileFault>
        requires { number < length file.now.index.entries.items }
        ensures cells { (blocks : List (List CellData)) → HasBlocks ⟦<D as Disk>⟧ file.now disk.old blocks → IsTrue D.tells → AreRightBlocks ⟦<D as Disk>⟧ disk.old self.old → IfOk result (λ cells. cells ≡ get_or blocks number []) }
        ensures listed { IfOk result IsCellList }
        ensures right { AreRightBlocks ⟦<D as Disk>⟧ disk.old self.old → AreRightBlocks ⟦<D as Disk>⟧ disk.new self.new }
        ensures fewer { All (Contains self.old) self.new }
        ensures others { (b : BlockData) → Contains self.old b → (IsBlockOf b file.now.file number → ⊥) → Contains self.new b }
        ensures cached { HasBlock self.old file.now.file number → disk.new ≡ disk.old }
        ensures found { HasBlock self.old file.now.file number → IsOk result }
        ensures damaged { (blocks : List (List CellData)) (at place : ℕ) → HasBlocks ⟦<D as Disk>⟧ file.now disk.old blocks → IsTrue D.tells → result ≢ Err (FileFault.Damaged at place) }
        ensures file { (at place : ℕ) → result ≡ Err (FileFault.Damaged at place) → at ≡ file.now.file }
        ensures seen { D.seen disk.new ≡ D.seen disk.old }
        ensures quiet { Stays ⟦<D as Disk>⟧ disk.old disk.new }
        ensures failed { result ≡ Err FileFault.ReadFault → Rose ⟦<D as Disk>⟧ disk.old disk.new }
        ensures counts { Passes ⟦<D as Disk>⟧ disk.old disk.new 1 }
    {
        match self.place_of(file.number(), number as u64) {
            Some(place) => {
                let CachedBlock {
                    file: _,
                    number: _,
                    cells,
                } = self.blocks.swap_remove(place);
                Ok(cells)
            }
            None => file.block(alloc, disk, number),
        }
    }

    /// Puts a block of a file into the cache. Where it is full one of the others goes. It takes no memory.
    pub fn keep(&mut self, file: u64, number: usize, cells: Cells)
        requires { IsCellList cells }
        ensures room { length self.old < 256 → self.new ≡ self.old ++ (record { file = file; number = number; cells = cells }) ∷ [] }
        ensures full { 256 ≤ length self.old → (place : ℕ) × (place < length self.old) × (self.new ≡ slice_set self.old place (record { file = file; number = number; cells = cells })) }
        ensures there { Contains self.new (record { file = file; number = number; cells = cells }) }
        ensures others { All (λ b. Contains self.old b ⊎ (b ≡ record { file = file; number = number; cells = cells })) self.new }
    {
        let block = CachedBlock {
            file,
            number: number as u64,
            cells,
        };
        if self.blocks.len() < MOST {
            let _ = self.blocks.push(block);
            return;
        }
        let place = self.next % self.blocks.len();
        let oldest = mem::replace(&mut self.blocks[place], block);
        drop(oldest);
        self.next = place + 1;
    }

    /// The place of a block.
    fn place_of(&self, file: u64, number: u64) -> Option<usize>
        ensures found { IfSome result (λ place. (place < length self.now) × ((d : BlockData) → IsBlockOf (get_or self.now place d) file number)) }
        ensures none { HasBlock self.now file number → result ≢ None }
    {
        for place in 0..self.blocks.len() {
            let block = &self.blocks[place];
            if block.file == file && block.number == number {
                return Some(place);
            }
        }
        None
    }
}
