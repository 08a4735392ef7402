// What a horizon keeps.
use px_cells::{Cell, CellKind, Cells, cell_order, is_cell_list};
use px_forgetting::forget;
use px_merge::keep_at;
use std::alloc::{AllocError, Global};
use std::cmp::Ordering;
use std::test::Fail;

fn kind_of(letter: u8) -> CellKind {
    match letter {
        b'D' => CellKind::Delete,
        b'V' => CellKind::DeleteFamilyVersion,
        b'C' => CellKind::DeleteColumn,
        b'F' => CellKind::DeleteFamily,
        _ => CellKind::Put,
    }
}

/// The cell of a word: one byte each for the key, the qualifier, the stamp, the kind and the value.
fn cell(alloc: Global, word: &[u8]) -> Result<Cell, AllocError> {
    let [key, qualifier, stamp, letter, value] = word else {
        return Err(AllocError);
    };
    Cell::new(
        alloc,
        &[*key],
        qualifier.saturating_sub(b'0'),
        u64::from(stamp.saturating_sub(b'0')),
        kind_of(*letter),
        &[*value],
    )
}

/// The cells of the words of a line.
fn listed(alloc: Global, line: &str) -> Result<Cells, AllocError> {
    let mut cells = Cells::new(alloc);
    for word in line.split(' ') {
        cells.push(cell(alloc, word.as_bytes())?)?;
    }
    Ok(cells)
}

/// Whether the cells have these values, of one byte each.
fn have(cells: &[Cell], values: &[u8]) -> bool {
    if cells.len() != values.len() {
        return false;
    }
    for (cell, value) in cells.iter().zip(values) {
        if cell.value() != [*value].as_slice() {
            return false;
        }
    }
    true
}

/// Whether a horizon keeps these values of the cells of a line.
fn keeps(alloc: Global, line: &str, horizon: u64, expected: &[u8]) -> Result<bool, AllocError> {
    let cells = listed(alloc, line)?;
    if !is_cell_list(cells.as_slice()) {
        drop(cells);
        return Ok(false);
    }
    let kept = forget(alloc, cells, horizon)?;
    let same = have(kept.as_slice(), expected);
    drop(kept);
    Ok(same)
}

// A row with markers of itself and of a column; a row of one put; a row of which nothing is seen at 5.
const ROWS: &str = "a09F0 a02F1 a17P2 a15P3 a14P4 a25C5 a24P6 a32P7 b11P8 c03F9 c12Pa";

#[test]
fn markers_go_with_what_they_hide(rt: HostRuntime) -> Result<(), Fail> {
    let alloc = rt.alloc();
    for (horizon, expected) in [
        (0, b"0123456789a".as_slice()),
        (1, b"0123456789a".as_slice()),
        (2, b"02345689a".as_slice()),
        (5, b"0238".as_slice()),
        (8, b"028".as_slice()),
        (9, b"8".as_slice()),
    ] {
        assert!(rt; keeps(alloc, ROWS, horizon, expected)?, "{horizon}");
    }
    Ok(())
}

/// Whether two lists have the same cells.
fn are_same(a: &[Cell], b: &[Cell]) -> bool {
    if a.len() != b.len() {
        return false;
    }
    for (a, b) in a.iter().zip(b) {
        if a.value() != b.value() {
            return false;
        }
        match cell_order(a, b) {
            Ordering::Equal => {}
            Ordering::Less | Ordering::Greater => return false,
        }
    }
    true
}

/// The next number of a sequence that looks random.
fn next(seed: u64) -> u64 {
    seed.wrapping_mul(6_364_136_223_846_793_005)
        .wrapping_add(1_442_695_040_888_963_407)
}

const LETTERS: &[u8] = b"PPPCVFD";

/// A list of cells of four rows, one for each place that is drawn.
fn drawn(alloc: Global, seed: u64) -> Result<Cells, AllocError> {
    let mut seed = seed;
    let mut cells = Cells::new(alloc);
    for key in b"abcd" {
        for qualifier in 0..3u8 {
            for back in 0..8u8 {
                seed = next(seed);
                let letter = LETTERS[(seed >> 40) as usize % LETTERS.len()];
                let marks = letter == b'V' || letter == b'F';
                if (seed >> 50) % 3 == 0 && marks == (qualifier == 0) {
                    let word = [*key, b'0' + qualifier, b'9' - back, letter, b'0' + back];
                    cells.push(cell(alloc, &word)?)?;
                }
            }
        }
    }
    Ok(cells)
}

/// Whether forgetting in place keeps what a copy keeps.
fn is_alike(alloc: Global, seed: u64, horizon: u64) -> Result<bool, AllocError> {
    let cells = drawn(alloc, seed)?;
    if !is_cell_list(cells.as_slice()) {
        drop(cells);
        return Ok(false);
    }
    let copied = keep_at(alloc, &cells, horizon)?;
    let kept = forget(alloc, cells, horizon)?;
    let same = are_same(kept.as_slice(), copied.as_slice());
    drop(kept);
    drop(copied);
    Ok(same)
}

#[test]
fn rows_are_forgotten_in_place_as_they_are_copied(rt: HostRuntime) -> Result<(), Fail> {
    let alloc = rt.alloc();
    for seed in 0..40 {
        for horizon in 0..10 {
            assert!(rt; is_alike(alloc, seed, horizon)?, "{seed} {horizon}");
        }
    }
    Ok(())
}
