// What is shown at the keys of cells.
ghost use Rattle.std.specs.Prelude.{◌≡◌, ◌+◌, ◌<◌, ◌≤◌, ℕ, List, Some, true, length, IfOk, OnOk, MatchOption};
ghost use Rattle.px_cells.specs.declared.kind.CellKind.{CellKind as CellKinds};
ghost use Rattle.px_cells.specs.Contents.{value_at};
ghost use Rattle.px_cells.specs.Order.{IsCellList};
ghost use Rattle.px_region.specs.Giving.{begins_row, key_at, rows_before};
ghost use Rattle.px_rows.specs.inner.Found.{AreOf};
ghost use Rattle.px_calls.specs.Looks.{key_found};
ghost use Rattle.px_calls.specs.declared.query.FoundKey.{FoundKey as Finding};
ghost use Rattle.px_looks.specs.Found.{RowContents, at_key};
ghost use Rattle.px_looks.specs.inner.Among.{FoundAmong};
ghost use Rattle.px_looks.specs.inner.Lent.{IsRowEnd};

use crate::lent::row_end;
use px_calls::FoundKey;
use px_cells::Cell;
use std::alloc::{AllocError, Global};

/// Reads what a path shows at a key.
pub(crate) trait Reader {
    /// What is shown at a key where this stands.
    ghost shows: { Self → List ℕ → RowContents → Finding → Type 0 };

    /// What may stand at a key.
    ghost admits: { Self → List ℕ → RowContents → Type 0 };

    /// What is shown at the key of these cells, which are all of its row, if anything is.
    fn read(
        &self,
        alloc: Global,
        key: &[u8],
        cells: &[Cell],
    ) -> Result<Option<FoundKey>, AllocError>
        requires list { IsCellList cells.now }
        requires own { AreOf key.now cells.now }
        requires admits { admits self.now key.now (at_key (value_at cells.now) key.now) }
        ensures shown { IfOk result (λ found. MatchOption found ((f : Finding) → shows self.now key.now (at_key (value_at cells.now) key.now) f → ⊥) (λ f. shows self.now key.now (at_key (value_at cells.now) key.now) f)) };

    /// What is shown at a key has that key, is one thing, and stands in some cell.
    fn law(&self)
        ensures keyed { (k : List ℕ) (h : RowContents) (f : Finding) → shows self.now k h f → key_found f ≡ k }
        ensures once { (k : List ℕ) (h : RowContents) (f g : Finding) → shows self.now k h f → shows self.now k h g → f ≡ g }
        ensures some { (k : List ℕ) (h : RowContents) (f : Finding) → shows self.now k h f → (q s : ℕ) × (d : CellKinds) × (v : List ℕ) × (h q s d ≡ Some v) };
}

/// Adds what is shown of the row from a cell on, up to before another.
fn add_found<R: Reader>(
    alloc: Global,
    reader: &R,
    cells: &[Cell],
    i: usize,
    end: usize,
    found: &mut Vec<FoundKey>,
) -> Result<(), AllocError>
    requires row { IsRowEnd cells.now i end (key_at cells.now i) }
    requires begins { begins_row cells.now i ≡ true }
    requires list { IsCellList cells.now }
    requires admits { (j : ℕ) → j < length cells.now → R.admits reader.now (key_at cells.now j) (at_key (value_at cells.now) (key_at cells.now j)) }
    ensures found { FoundAmong (R.shows reader.now) cells.now i found.old.items → OnOk result (FoundAmong (R.shows reader.now) cells.now (i + 1) found.new.items) }
    ensures few { length found.old.items ≤ rows_before cells.now i → OnOk result (length found.new.items ≤ rows_before cells.now (i + 1)) }
{
    let key = cells[i].key();
    let rest = &cells[i..];
    let row = &rest[..end - i];
    reader.law();
    match reader.read(alloc, key, row) {
        Err(fault) => Err(fault),
        Ok(None) => Ok(()),
        Ok(Some(shown)) => {
            found.push(shown)?;
            Ok(())
        }
    }
}

/// All that is shown of the rows of a sorted list.
pub(crate) fn find_all<R: Reader>(
    alloc: Global,
    reader: &R,
    cells: &[Cell],
) -> Result<Vec<FoundKey>, AllocError>
    requires list { IsCellList cells.now }
    requires admits { (j : ℕ) → j < length cells.now → R.admits reader.now (key_at cells.now j) (at_key (value_at cells.now) (key_at cells.now j)) }
    ensures found { IfOk result (λ found. FoundAmong (R.shows reader.now) cells.now (length cells.now) found.items) }
    ensures few { IfOk result (λ found. length found.items ≤ rows_before cells.now (length cells.now)) }
{
    let mut found = Vec::new(alloc);
    let mut i = 0usize;
    while i < cells.len() {
        let end = row_end(cells, i);
        add_found(alloc, reader, cells, i, end, &mut found)?;
        i = end;
    }
    Ok(found)
}
