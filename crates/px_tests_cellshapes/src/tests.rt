// Right and wrong cells and definitions, worked out by hand.
ghost use Rattle.std.specs.Prelude.{◌≡◌, IfOk};

use px_cells::{Cell, CellKind, Cells, is_cell_list};
use px_cellshapes::{are_right_keys, are_right_rows, is_right_index, is_right_table};
use px_tables::{Index, IndexState, KeyPlace, Table, TableColumn};
use px_tests_layouts as layouts;
use px_tests_layouts::column;
use px_values::{ColType, Direction, Items};
use std::alloc::{AllocError, Global};
use std::process::Abort;
use std::test::Fail;

/// The key of the row with the number 5, and that of its index row where C is 'b'.
static ROW: [u8; 1] = [0x85];

static INDEX_ROW: [u8; 3] = [0x62, 0, 0x85];

fn columns(alloc: Global) -> Result<Items<TableColumn>, AllocError> {
    let mut columns = Vec::new(alloc);
    columns.push(column(alloc, "ID", ColType::TinyInt, false)?)?;
    columns.push(column(alloc, "C", ColType::Varchar, false)?)?;
    columns.push(column(alloc, "A", ColType::UnsignedInt, false)?)?;
    Ok(Items::of(columns))
}

fn places(alloc: Global, columns: &[u8]) -> Result<Items<KeyPlace>, AllocError> {
    let mut places = Vec::new(alloc);
    for column in columns {
        places.push(KeyPlace {
            column: *column,
            direction: Direction::Ascending,
        })?;
    }
    Ok(Items::of(places))
}

/// A table of ID, C and A with this primary key.
fn table(alloc: Global, key: &[u8]) -> Result<Table, AllocError> {
    let columns = columns(alloc)?;
    match places(alloc, key) {
        Ok(key) => layouts::table(alloc, 4, columns, key),
        Err(fault) => {
            drop(columns);
            Err(fault)
        }
    }
}

fn index(alloc: Global, parts: &[u8], included: &[u8]) -> Result<Index, AllocError> {
    let parts = places(alloc, parts)?;
    layouts::index(alloc, IndexState::Active, 0, parts, included)
}

/// A cell at the stamp 9.
#[derive(Clone, Copy)]
struct Tried {
    key: &'static [u8],
    qualifier: u8,
    kind: CellKind,
    value: &'static [u8],
}

fn case(key: &'static [u8], qualifier: u8, kind: CellKind, value: &'static [u8]) -> Tried {
    Tried {
        key,
        qualifier,
        kind,
        value,
    }
}

fn cell(
    alloc: Global,
    key: &[u8],
    qualifier: u8,
    kind: CellKind,
    value: &[u8],
) -> Result<Cell, AllocError> {
    Cell::new(alloc, key, qualifier, 9, kind, value)
}

fn list_of(alloc: Global, cell: Cell) -> Result<Cells, AllocError> {
    let mut cells = Cells::new(alloc);
    cells.push(cell)?;
    Ok(cells)
}

/// Whether the cells are a list, and right ones of the table's rows.
fn are_rows(alloc: Global, table: &Table, cells: &Cells) -> Result<bool, AllocError> {
    if !is_cell_list(cells.as_slice()) {
        return Ok(false);
    }
    are_right_rows(alloc, table, cells.as_slice())
}

/// Whether one cell is right in the table with the primary key ID.
fn is_row_cell(
    alloc: Global,
    key: &[u8],
    qualifier: u8,
    kind: CellKind,
    value: &[u8],
) -> Result<bool, AllocError> {
    let cells = list_of(alloc, cell(alloc, key, qualifier, kind, value)?)?;
    match table(alloc, &[0]) {
        Ok(table) => {
            let right = are_rows(alloc, &table, &cells);
            drop(table);
            drop(cells);
            right
        }
        Err(fault) => {
            drop(cells);
            Err(fault)
        }
    }
}

/// Whether a key of this many letters is right in the table with the primary key C.
fn is_text_key(alloc: Global, letters: usize) -> Result<bool, AllocError> {
    let mut key = vec![in alloc; b'a'; letters]?;
    key.push(0)?;
    let empty = Cell::new(alloc, &key, 1, 9, CellKind::Put, &[])?;
    let cells = list_of(alloc, empty)?;
    match table(alloc, &[1]) {
        Ok(table) => {
            let right = are_rows(alloc, &table, &cells);
            drop(table);
            drop(cells);
            right
        }
        Err(fault) => {
            drop(cells);
            Err(fault)
        }
    }
}

/// Whether the cells are a list, and right ones of the index's keys.
fn are_keys(
    alloc: Global,
    table: &Table,
    index: &Index,
    cells: &Cells,
) -> Result<bool, AllocError> {
    if !is_right_index(table, index) || !is_cell_list(cells.as_slice()) {
        return Ok(false);
    }
    are_right_keys(alloc, table, index, cells.as_slice())
}

/// Whether one cell is right in the index of C that includes A.
fn is_key_cell(
    alloc: Global,
    key: &[u8],
    qualifier: u8,
    kind: CellKind,
    value: &[u8],
) -> Result<bool, AllocError> {
    let cells = list_of(alloc, cell(alloc, key, qualifier, kind, value)?)?;
    let index = match index(alloc, &[1], &[2]) {
        Ok(index) => index,
        Err(fault) => {
            drop(cells);
            return Err(fault);
        }
    };
    match table(alloc, &[0]) {
        Ok(table) => {
            let right = are_keys(alloc, &table, &index, &cells);
            drop(table);
            drop(index);
            drop(cells);
            right
        }
        Err(fault) => {
            drop(index);
            drop(cells);
            Err(fault)
        }
    }
}

/// Whether each of these cells is right in the table with the primary key ID, or each isn't.
fn row_cells_are(alloc: Global, cases: &[Tried], right: bool) -> Result<bool, AllocError> {
    for case in cases {
        if is_row_cell(alloc, case.key, case.qualifier, case.kind, case.value)? != right {
            return Ok(false);
        }
    }
    Ok(true)
}

/// Whether each of these cells is right in the index of C that includes A, or each isn't.
fn key_cells_are(alloc: Global, cases: &[Tried], right: bool) -> Result<bool, AllocError> {
    for case in cases {
        if is_key_cell(alloc, case.key, case.qualifier, case.kind, case.value)? != right {
            return Ok(false);
        }
    }
    Ok(true)
}

#[test]
fn cells_of_rows(rt: HostRuntime) -> Result<(), Fail> {
    let right = [
        case(&ROW, 0, CellKind::DeleteFamily, &[]),
        case(&ROW, 1, CellKind::Put, &[]),
        case(&ROW, 3, CellKind::Put, b"bo"),
        case(&ROW, 3, CellKind::DeleteColumn, &[]),
        case(&ROW, 4, CellKind::Put, &[0x7f, 0xff, 0xff, 0xff]),
    ];
    assert!(rt; row_cells_are(rt.alloc(), &right, true)?);
    Ok(())
}

/// No key, Delete, a marker of one version, an empty column with a value, a column of the key and one that isn't there, bytes that
/// are no text of a column, and a number past its type.
#[test]
fn wrong_cells_of_rows(rt: HostRuntime) -> Result<(), Fail> {
    let wrong = [
        case(&[0x85, 0], 1, CellKind::Put, &[]),
        case(&[], 1, CellKind::Put, &[]),
        case(&ROW, 3, CellKind::Delete, &[]),
        case(&ROW, 0, CellKind::DeleteFamilyVersion, &[]),
        case(&ROW, 1, CellKind::Put, &[1]),
        case(&ROW, 2, CellKind::Put, &[0x85]),
        case(&ROW, 5, CellKind::Put, &[1]),
        case(&ROW, 3, CellKind::Put, &[0xff]),
        case(&ROW, 3, CellKind::Put, &[]),
        case(&ROW, 3, CellKind::Put, &[0x62, 0]),
        case(&ROW, 4, CellKind::Put, &[0x80, 0, 0, 0]),
    ];
    assert!(rt; row_cells_are(rt.alloc(), &wrong, false)?);
    Ok(())
}

#[test]
fn keys_of_1024_bytes(rt: HostRuntime) -> Result<(), Fail> {
    assert!(rt; is_text_key(rt.alloc(), 1_023)?);
    assert!(rt; !is_text_key(rt.alloc(), 1_024)?);
    Ok(())
}

/// Three cells of one row, of which the last puts these bytes.
fn three_cells(alloc: Global, last: &[u8]) -> Result<Cells, AllocError> {
    let mut cells = Cells::new(alloc);
    cells.push(cell(alloc, &ROW, 1, CellKind::Put, &[])?)?;
    cells.push(cell(alloc, &ROW, 3, CellKind::Put, b"bo")?)?;
    cells.push(cell(alloc, &ROW, 4, CellKind::Put, last)?)?;
    Ok(cells)
}

fn are_right_with(alloc: Global, last: &[u8]) -> Result<bool, AllocError> {
    let cells = three_cells(alloc, last)?;
    match table(alloc, &[0]) {
        Ok(table) => {
            let right = are_rows(alloc, &table, &cells);
            drop(table);
            drop(cells);
            right
        }
        Err(fault) => {
            drop(cells);
            Err(fault)
        }
    }
}

#[test]
fn the_last_cell_counts(rt: HostRuntime) -> Result<(), Fail> {
    assert!(rt; are_right_with(rt.alloc(), &[0; 4])?);
    assert!(rt; !are_right_with(rt.alloc(), &[0xff; 4])?);
    Ok(())
}

#[test]
fn cells_of_an_index(rt: HostRuntime) -> Result<(), Fail> {
    let right = [
        case(&INDEX_ROW, 0, CellKind::DeleteFamilyVersion, &[]),
        case(&INDEX_ROW, 1, CellKind::Put, &[1]),
        case(&INDEX_ROW, 1, CellKind::Put, &[2]),
        case(&INDEX_ROW, 4, CellKind::Put, &[0, 0, 0, 7]),
    ];
    assert!(rt; key_cells_are(rt.alloc(), &right, true)?);
    Ok(())
}

/// No key, another status and none, Delete, a column that isn't included, and a number past its type.
#[test]
fn wrong_cells_of_an_index(rt: HostRuntime) -> Result<(), Fail> {
    let wrong = [
        case(&[0x62, 0], 1, CellKind::Put, &[1]),
        case(&INDEX_ROW, 1, CellKind::Put, &[3]),
        case(&INDEX_ROW, 1, CellKind::DeleteColumn, &[]),
        case(&INDEX_ROW, 4, CellKind::Delete, &[]),
        case(&INDEX_ROW, 3, CellKind::Put, b"b"),
        case(&INDEX_ROW, 4, CellKind::Put, &[0xff; 4]),
    ];
    assert!(rt; key_cells_are(rt.alloc(), &wrong, false)?);
    Ok(())
}

fn is_table(alloc: Global, key: &[u8]) -> Result<bool, AllocError> {
    let table = table(alloc, key)?;
    let right = is_right_table(&table);
    drop(table);
    Ok(right)
}

fn is_index(alloc: Global, parts: &[u8], included: &[u8]) -> Result<bool, AllocError> {
    let table = table(alloc, &[0])?;
    match index(alloc, parts, included) {
        Ok(index) => {
            let right = is_right_index(&table, &index);
            drop(index);
            drop(table);
            Ok(right)
        }
        Err(fault) => {
            drop(table);
            Err(fault)
        }
    }
}

#[test]
fn tables(rt: HostRuntime) -> Result<(), Fail> {
    assert!(rt; is_table(rt.alloc(), &[2, 1])?);
    assert!(rt; !is_table(rt.alloc(), &[3])?);
    assert!(rt; !is_table(rt.alloc(), &[0, 0])?);
    Ok(())
}

#[test]
fn indexes(rt: HostRuntime) -> Result<(), Fail> {
    assert!(rt; is_index(rt.alloc(), &[1], &[2, 0])?);
    assert!(rt; !is_index(rt.alloc(), &[3], &[2])?);
    assert!(rt; !is_index(rt.alloc(), &[1], &[3])?);
    assert!(rt; !is_index(rt.alloc(), &[1], &[2, 2])?);
    Ok(())
}
