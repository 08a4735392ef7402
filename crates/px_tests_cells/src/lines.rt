// Cells that are written as words, so that a test holds no list of them over many calls.
use px_cells::{Cell, CellKind, Cells};
use std::alloc::{AllocError, Global};

fn kind_of(letter: u8) -> CellKind {
    match letter {
        b'D' => CellKind::Delete,
        b'V' => CellKind::DeleteFamilyVersion,
        b'C' => CellKind::DeleteColumn,
        b'F' => CellKind::DeleteFamily,
        _ => CellKind::Put,
    }
}

/// The cell of a word, which has a key and then one byte each for the qualifier, the stamp and the kind, with this value.
pub(crate) fn cell(alloc: Global, word: &[u8], value: u8) -> Result<Cell, AllocError> {
    let (key, qualifier, stamp, letter) = match word {
        [key @ .., qualifier, stamp, letter] => (key, *qualifier, *stamp, *letter),
        _ => (b"".as_slice(), b'1', b'0', b'P'),
    };
    let qualifier = qualifier.saturating_sub(b'0');
    let stamp = u64::from(stamp.saturating_sub(b'0'));
    Cell::new(alloc, key, qualifier, stamp, kind_of(letter), &[value])
}

/// Puts the cell of a word behind others; its value is the word's last byte.
pub(crate) fn push_word(alloc: Global, cells: &mut Cells, word: &[u8]) -> Result<(), AllocError> {
    match word {
        [front @ .., value] => cells.push(cell(alloc, front, *value)?),
        [] => Ok(()),
    }
}

/// The cells, where all of them were put.
pub(crate) fn pushed(done: Result<(), AllocError>, cells: Cells) -> Result<Cells, AllocError> {
    match done {
        Ok(()) => Ok(cells),
        Err(fault) => {
            drop(cells);
            Err(fault)
        }
    }
}

fn push_words(alloc: Global, cells: &mut Cells, line: &str) -> Result<(), AllocError> {
    for word in line.split(' ') {
        push_word(alloc, cells, word.as_bytes())?;
    }
    Ok(())
}

/// The cells of the words of a line, each with its value.
pub(crate) fn listed(alloc: Global, line: &str) -> Result<Cells, AllocError> {
    let mut cells = Cells::new(alloc);
    let done = push_words(alloc, &mut cells, line);
    pushed(done, cells)
}

/// Whether the cells have these values, of one byte each.
pub(crate) fn have(cells: &[Cell], values: &[u8]) -> bool {
    if cells.len() != values.len() {
        return false;
    }
    for (cell, value) in cells.iter().zip(values) {
        if cell.value() != [*value].as_slice() {
            return false;
        }
    }
    true
}
