// One change at all phases, byte by byte: a row moves from one index key to another.
use crate::{built, closed, made, marked, removed, written};
use px_cells::{Cell, CellKind, Cells};
use std::test::Fail;

/// The row's key: ID 1.
const ROW: [u8; 8] = [0x80, 0, 0, 0, 0, 0, 0, 1];

/// The old index key: A 5, descending, behind its presence byte, and the row's key.
const OLD: [u8; 13] = [0xfe, 0x7f, 0xff, 0xff, 0xfa, 0x80, 0, 0, 0, 0, 0, 0, 1];

/// The new index key: A NULL, descending, and the row's key.
const NEW: [u8; 9] = [0xff, 0x80, 0, 0, 0, 0, 0, 0, 1];

/// A cell that is expected: its key, qualifier, kind and value.
#[derive(Drop)]
struct Expected {
    key: &'static [u8],
    qualifier: u8,
    kind: CellKind,
    value: &'static [u8],
}

fn put(key: &'static [u8], qualifier: u8, value: &'static [u8]) -> Expected {
    Expected {
        key,
        qualifier,
        kind: CellKind::Put,
        value,
    }
}

fn marker(key: &'static [u8], qualifier: u8, kind: CellKind) -> Expected {
    Expected {
        key,
        qualifier,
        kind,
        value: &[],
    }
}

fn is_cell(cell: &Cell, stamp: u64, expected: &Expected) -> bool {
    cell.key() == expected.key
        && cell.qualifier() == expected.qualifier
        && cell.stamp() == stamp
        && cell.kind() == expected.kind
        && cell.value() == expected.value
}

/// Whether the cells are these, all of the stamp.
fn are_cells(cells: Option<Cells>, stamp: u64, expected: &[Expected]) -> bool {
    let same = match &cells {
        Some(cells) => {
            cells.len() == expected.len()
                && cells
                    .as_slice()
                    .iter()
                    .zip(expected)
                    .all(|(cell, one)| is_cell(cell, stamp, one))
        }
        None => false,
    };
    drop(cells);
    same
}

#[test]
fn a_row_moves_to_another_key(rt: HostRuntime) -> Result<(), Fail> {
    let alloc = rt.alloc();
    let case = made(alloc)?;
    let marks = marked(alloc, &case).ok();
    let puts = written(alloc, &case).ok();
    let closes = closed(alloc, &case).ok();
    let versions = built(alloc, &case).ok();
    let left = removed(alloc, &case).ok();
    drop(case);
    assert!(rt;
        are_cells(
            marks,
            7,
            &[
                put(&NEW, 1, &[2]),
                put(&NEW, 5, b"x"),
                put(&NEW, 3, b"al"),
                put(&OLD, 1, &[2])
            ]
        )
    );
    assert!(rt;
        are_cells(
            puts,
            7,
            &[
                put(&ROW, 1, &[]),
                put(&ROW, 3, b"al"),
                marker(&ROW, 4, CellKind::DeleteColumn),
                put(&ROW, 5, b"x")
            ]
        )
    );
    assert!(rt;
        are_cells(
            closes,
            7,
            &[put(&NEW, 1, &[1]), marker(&OLD, 0, CellKind::DeleteFamily)]
        )
    );
    assert!(rt;
        are_cells(
            versions,
            3,
            &[
                put(&OLD, 1, &[1]),
                marker(&OLD, 5, CellKind::DeleteColumn),
                put(&OLD, 3, b"bo")
            ]
        )
    );
    assert!(rt; are_cells(left, 7, &[put(&OLD, 1, &[2])]));
    Ok(())
}
