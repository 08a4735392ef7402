// What the cells of an opened folder tell, read one by one, beside rows with their dates. The first three columns of each table are a key, a letter
// and a number.
use crate::model::{Fields, Version, View, newest, row_of};
use px_cells::{Cell, CellKind};
use px_group::{Group, IndexRegion};
use px_opening::Opened;
use px_region::Region;
use px_tables::{IndexState, KeyPlace};
use px_values::Direction;
use std::alloc::{AllocError, Global};

/// The qualifier of the empty column, which has the status of an index row.
const EMPTY: u8 = 1;

/// The qualifier of the first column.
const COLUMNS: u8 = 2;

/// The keys of rows are below it.
const KEYS: u32 = 7;

/// The cells of one key, from a place to another.
#[derive(Clone, Copy)]
struct Span {
    from: usize,
    to: usize,
}

/// The cells of the key that stands at a place.
fn span_at(cells: &[Cell], from: usize) -> Span {
    for to in from..cells.len() {
        if cells[to].key() != cells[from].key() {
            return Span { from, to };
        }
    }
    Span {
        from,
        to: cells.len(),
    }
}

/// All of the cells.
fn whole(cells: &[Cell]) -> Span {
    Span {
        from: 0,
        to: cells.len(),
    }
}

/// Whether a marker hides what stands at a stamp of its key.
fn hides(marker: &Cell, stamp: u64, point: u64) -> bool {
    match marker.kind() {
        CellKind::DeleteFamily => marker.stamp() >= stamp && marker.stamp() <= point,
        CellKind::DeleteFamilyVersion => marker.stamp() == stamp,
        _ => false,
    }
}

fn is_hidden(cells: &[Cell], span: Span, stamp: u64, point: u64) -> bool {
    for place in span.from..span.to.min(cells.len()) {
        if hides(&cells[place], stamp, point) {
            return true;
        }
    }
    false
}

/// The newest cell of a column at a point that isn't hidden: cells of one column stand the greatest stamp first.
fn newest_cell(cells: &[Cell], span: Span, qualifier: u8, point: u64) -> Option<&Cell> {
    for place in span.from..span.to.min(cells.len()) {
        let cell = &cells[place];
        if cell.qualifier() == qualifier
            && cell.stamp() <= point
            && !is_hidden(cells, span, cell.stamp(), point)
        {
            return Some(cell);
        }
    }
    None
}

/// The value of a column at a point.
fn value_at(cells: &[Cell], span: Span, qualifier: u8, point: u64) -> Option<&[u8]> {
    match newest_cell(cells, span, qualifier, point) {
        Some(cell) => if cell.kind() == CellKind::Put {
            Some(cell.value())
        } else {
            None
        },
        None => None,
    }
}

/// A letter as a byte: 'a' is 1.
fn letter(a: u32) -> u8 {
    b'`'.wrapping_add((a % 100) as u8)
}

/// Whether a column has this letter or number; 0 is NULL.
fn has_value(value: Option<&[u8]>, column: u8, row: Fields) -> bool {
    match (column, value) {
        (1, None) => row.a == 0,
        (1, Some(bytes)) => row.a != 0 && bytes == [letter(row.a)].as_slice(),
        (2, None) => row.b == 0,
        (2, Some(bytes)) => { row.b != 0 && bytes == [0x80, 0, 0, (row.b % 256) as u8].as_slice() }
        _ => false,
    }
}

/// Adds the bytes of a column of a key.
fn add_column(key: &mut Vec<u8>, column: u8, row: Fields) -> Result<(), AllocError> {
    match (column, row.a, row.b) {
        (0, _, _) => key.extend_from_slice(&[0x80, 0, 0, 0, 0, 0, 0, (row.id % 256) as u8])?,
        (1, 0, _) => key.push(0)?,
        (1, _, _) => key.extend_from_slice(&[letter(row.a), 0])?,
        (_, _, 0) => key.push(0)?,
        _ => key.extend_from_slice(&[1, 0x80, 0, 0, (row.b % 256) as u8])?,
    }
    Ok(())
}

/// Adds the bytes of a part of a key: those of a descending one are inverted.
fn add_part(key: &mut Vec<u8>, place: KeyPlace, row: Fields) -> Result<(), AllocError> {
    let before = key.len();
    add_column(key, place.column, row)?;
    if place.direction == Direction::Descending {
        for at in before..key.len() {
            if let Some(byte) = key.get_mut(at) {
                *byte = !*byte;
            }
        }
    }
    Ok(())
}

fn row_key(alloc: Global, row: Fields) -> Result<Vec<u8>, AllocError> {
    let mut key = Vec::new(alloc);
    add_column(&mut key, 0, row)?;
    Ok(key)
}

/// The key of a row in an index: its indexed columns, and then the row's own key.
fn index_key(alloc: Global, parts: &[KeyPlace], row: Fields) -> Result<Vec<u8>, AllocError> {
    let mut key = Vec::new(alloc);
    for part in parts {
        add_part(&mut key, *part, row)?;
    }
    add_column(&mut key, 0, row)?;
    Ok(key)
}

/// Whether the cells of a table give a key its row in view, or none.
fn tells_row(
    alloc: Global,
    region: &Region,
    row: Option<Fields>,
    id: u32,
    point: u64,
) -> Result<bool, AllocError> {
    let key = row_key(alloc, Fields { id, a: 0, b: 0 })?;
    let cells = region.row(&key);
    let span = whole(cells);
    let is_there = value_at(cells, span, EMPTY, point).is_some();
    let Some(row) = row else {
        return Ok(!is_there);
    };
    Ok(
        is_there
            && has_value(value_at(cells, span, 3, point), 1, row)
            && has_value(value_at(cells, span, 4, point), 2, row),
    )
}

/// Whether an index has a version for a row, verified or not.
fn has_row(
    alloc: Global,
    index: &IndexRegion,
    row: Fields,
    point: u64,
) -> Result<bool, AllocError> {
    let key = index_key(alloc, index.index.parts.as_slice(), row)?;
    let cells = index.region.row(&key);
    Ok(value_at(cells, whole(cells), EMPTY, point).is_some())
}

/// Whether the key at these places is that of a row, with the values that the index holds beside it.
fn is_row(
    alloc: Global,
    index: &IndexRegion,
    cells: &[Cell],
    span: Span,
    row: Fields,
    point: u64,
) -> Result<bool, AllocError> {
    let key = index_key(alloc, index.index.parts.as_slice(), row)?;
    if span.from >= cells.len() || cells[span.from].key() != key.as_slice() {
        return Ok(false);
    }
    for column in index.index.included.as_slice() {
        let value = value_at(cells, span, COLUMNS.wrapping_add(*column), point);
        if !has_value(value, *column, row) {
            return Ok(false);
        }
    }
    Ok(true)
}

/// Whether the key at these places is that of one of the newest rows.
fn is_some_row(
    alloc: Global,
    index: &IndexRegion,
    cells: &[Cell],
    span: Span,
    rows: &[Option<Version>],
    point: u64,
) -> Result<bool, AllocError> {
    for id in 0..KEYS {
        if let Some(row) = row_of(rows, id) {
            if is_row(alloc, index, cells, span, row, point)? {
                return Ok(true);
            }
        }
    }
    Ok(false)
}

/// Whether each key of an index whose newest version is verified is that of one of the newest rows. Of the others nothing is told.
fn are_verified_right(
    alloc: Global,
    index: &IndexRegion,
    rows: &[Option<Version>],
    point: u64,
) -> Result<bool, AllocError> {
    for at in 0..index.region.piece_count() {
        if !are_right_in(alloc, index, index.region.piece(at), rows, point)? {
            return Ok(false);
        }
    }
    Ok(true)
}

/// The same of those among these cells.
fn are_right_in(
    alloc: Global,
    index: &IndexRegion,
    cells: &[Cell],
    rows: &[Option<Version>],
    point: u64,
) -> Result<bool, AllocError> {
    let mut behind = 0;
    for from in 0..cells.len() {
        if from < behind {
            continue;
        }
        let span = span_at(cells, from);
        behind = span.to;
        let status = value_at(cells, span, EMPTY, point);
        let is_verified = status.is_some_and(|bytes| bytes == [1u8].as_slice());
        if is_verified && !is_some_row(alloc, index, cells, span, rows, point)? {
            return Ok(false);
        }
    }
    Ok(true)
}

/// Whether the newest rows of a table are told by its cells, and each by each of its indexes.
fn are_rows_told(
    alloc: Global,
    group: &Group,
    rows: &[Option<Version>],
    point: u64,
) -> Result<bool, AllocError> {
    for id in 0..KEYS {
        let row = row_of(rows, id);
        if !tells_row(alloc, &group.rows, row, id, point)? {
            return Ok(false);
        }
        let Some(row) = row else {
            continue;
        };
        for index in group.indexes.as_slice() {
            if index.index.birth <= point && !has_row(alloc, index, row, point)? {
                return Ok(false);
            }
        }
    }
    Ok(true)
}

/// Whether the cells of a table and of its active indexes tell its rows in view at a point, and no others. An index is asked from its birth on.
pub fn is_told(
    alloc: Global,
    group: &Group,
    versions: &[Version],
    view: View,
    point: u64,
) -> Result<bool, AllocError> {
    let rows = newest(alloc, versions, view)?;
    if !are_rows_told(alloc, group, &rows, point)? {
        return Ok(false);
    }
    for index in group.indexes.as_slice() {
        if index.index.state != IndexState::Active {
            return Ok(false);
        }
        let is_asked = index.index.birth <= point;
        if is_asked && !are_verified_right(alloc, index, &rows, point)? {
            return Ok(false);
        }
    }
    Ok(true)
}

/// Whether all tables of a folder tell what was written within so many entries, as of a point.
pub fn are_told(
    alloc: Global,
    opened: &Opened,
    versions: &[Version],
    within: u64,
    point: u64,
) -> Result<bool, AllocError> {
    for group in opened.groups.as_slice() {
        let view = View {
            table: group.table.id.0,
            below: point.saturating_add(1),
            within,
        };
        if !is_told(alloc, group, versions, view, point)? {
            return Ok(false);
        }
    }
    Ok(true)
}

/// Whether a row of a table has a cell of a stamp.
pub fn has_stamp(
    alloc: Global,
    opened: &Opened,
    table: u32,
    id: u32,
    stamp: u64,
) -> Result<bool, AllocError> {
    let key = row_key(alloc, Fields { id, a: 0, b: 0 })?;
    for group in opened.groups.as_slice() {
        let cells = group.rows.row(&key);
        if group.table.id.0 == table && cells.iter().any(|cell| cell.stamp() == stamp) {
            return Ok(true);
        }
    }
    Ok(false)
}
