// Base versions, byte by byte.
use crate::{based, made};
use px_cells::{Cell, CellKind};
use px_values::{Row, Value};
use std::test::Fail;

/// The key of the row whose A is NULL, behind its presence byte, and the row's key: ID 2.
const NULL_KEY: [u8; 9] = [0, 0x80, 0, 0, 0, 0, 0, 0, 2];

/// The key of the row whose A is 5: ID 1.
const FIVE_KEY: [u8; 13] = [1, 0x80, 0, 0, 5, 0x80, 0, 0, 0, 0, 0, 0, 1];

/// Whether the cell is this one, of stamp 3.
fn is_cell(cell: &Cell, key: &[u8], qualifier: u8, kind: CellKind, value: &[u8]) -> bool {
    cell.key() == key
        && cell.qualifier() == qualifier
        && cell.stamp() == 3
        && cell.kind() == kind
        && cell.value() == value
}

/// Whether the cells are those of both rows.
fn are_both(cells: &[Cell]) -> bool {
    match cells {
        [a, b, c, d] => {
            is_cell(a, &NULL_KEY, 1, CellKind::Put, &[1])
                && is_cell(b, &NULL_KEY, 4, CellKind::DeleteColumn, &[])
                && is_cell(c, &FIVE_KEY, 1, CellKind::Put, &[1])
                && is_cell(d, &FIVE_KEY, 4, CellKind::Put, &[0x80, 0, 0, 7])
        }
        _ => false,
    }
}

/// Whether the primary key is this number.
fn is_number(row: &Row, number: i128) -> bool {
    match row.as_slice() {
        [Value::Number(found)] => *found == number,
        _ => false,
    }
}

/// Whether the primary keys are 1 and 2.
fn are_owners(rows: &[Row]) -> bool {
    match rows {
        [a, b] => is_number(a, 1) && is_number(b, 2),
        _ => false,
    }
}

#[test]
fn two_rows_get_their_base_versions(rt: HostRuntime) -> Result<(), Fail> {
    let alloc = rt.alloc();
    let case = made(alloc)?;
    let answer = based(alloc, &case);
    drop(case);
    let answer = answer?;
    let cells = are_both(answer.cells.as_slice());
    let owners = are_owners(answer.owners.as_slice());
    drop(answer);
    assert!(rt; cells);
    assert!(rt; owners);
    Ok(())
}
