// A sorted source of cells.
ghost use Rattle.std.specs.Prelude.{◌≡◌, ◌≢◌, ◌≤◌, ◌∷◌, ℕ, List, OnOk, Err};
ghost use Rattle.px_outside.specs.OnDisk.{Passes, Rose, Stays};
ghost use Rattle.px_cells.specs.CellData.{CellData};
ghost use Rattle.px_merge.specs.Taking.{IsHead};

use px_cells::Cell;
use px_cursor::Cursor;
use px_file::FileFault;
use px_outside::Disk;
use std::alloc::Global;

/// Where sorted cells come from.
#[derive(Drop)]
pub enum Source<'a> {
    Slice(&'a [Cell]),
    File(Cursor<'a>),
}

/// Passes the first of some cells.
fn pass_first<'a>(cells: &mut &'a [Cell])
    ensures { (c : CellData) (rest : List CellData) → c ∷ rest ≡ cells.old.now → rest ≡ cells.new.now }
{
    if let Some((_, rest)) = cells.split_first() {
        *cells = rest;
    }
}

impl<'a> Source<'a> {
    ghost use Rattle.px_sources.specs.Sources.{Gives, shown_of};

    /// The next cell.
    pub(crate) fn head(&self) -> Option<&Cell>
        ensures { IsHead result (shown_of self.now) }
    {
        match self {
            Source::Slice(cells) => cells.first(),
            Source::File(cursor) => cursor.head(),
        }
    }

    /// Passes the next cell.
    pub(crate) fn step<D: Disk>(&mut self, alloc: Global, disk: &mut D) -> Result<(), FileFault>
        ensures stepped { (c : CellData) (left : List CellData) → Gives ⟦<D as Disk>⟧ self.old disk.old (c ∷ left) → OnOk result (Gives ⟦<D as Disk>⟧ self.new disk.new left) }
        ensures sound { (left : List CellData) (at place : ℕ) → Gives ⟦<D as Disk>⟧ self.old disk.old left → result ≢ Err (FileFault.Damaged at place) }
        ensures seen { D.seen disk.new ≡ D.seen disk.old }
        ensures quiet { Stays ⟦<D as Disk>⟧ disk.old disk.new }
        ensures failed { result ≡ Err FileFault.ReadFault → Rose ⟦<D as Disk>⟧ disk.old disk.new }
        ensures faults { D.faults disk.old ≤ D.faults disk.new }
    {
        match self {
            Source::Slice(cells) => {
                pass_first(cells);
                Ok(())
            }
            Source::File(cursor) => cursor.step(alloc, disk),
        }
    }
}
