// Whether the definitions of tables and indexes are right.
ghost use Rattle.std.specs.Prelude.{◌≡◌, ◌≢◌, ◌<◌, ◌↔◌, ℕ, IsTrue, length, get_or};
ghost use Rattle.std.specs.List.{All, list_any};
ghost use Rattle.std.specs.Prelude.{nat_eq};
ghost use Rattle.px_indexrow.specs.Form.{IsRightIndex, included_at};
ghost use Rattle.px_rows.specs.Keys.{IsRightTable, are_distinct as distinct_test, is_part as part_test};

use px_tables::{Index, KeyPlace, Table};

/// The most columns of a table for which each has a qualifier.
const MOST_COLUMNS: usize = 254;

/// Whether a table's primary key names columns of its own, each once, and a qualifier is left for each column.
pub fn is_right_table(table: &Table) -> bool
    ensures { IsTrue result ↔ IsRightTable table.now }
{
    let count = table.columns.as_slice().len();
    let key = table.key.as_slice();
    count <= MOST_COLUMNS && are_within(key, count) && are_distinct(key)
}

/// Whether these are places of a table with so many columns.
fn are_within(places: &[KeyPlace], count: usize) -> bool
    ensures { IsTrue result ↔ All (λ p. p.column < count) places.now }
{
    places.iter().all(|place| (place.column as usize) < count)
}

/// Whether one of the places is this column.
pub(crate) fn is_part(places: &[KeyPlace], column: u8) -> bool
    ensures { result ≡ part_test places.now column }
{
    places.iter().any(|place| place.column == column)
}

/// Whether no column stands twice.
fn are_distinct(places: &[KeyPlace]) -> bool
    ensures { result ≡ distinct_test places.now }
{
    match places {
        [] => true,
        [first, others @ ..] => !is_part(others, first.column) && are_distinct(others),
    }
}

/// Whether an index names columns of the table, and includes each once.
pub fn is_right_index(table: &Table, index: &Index) -> bool
    ensures { IsTrue result ↔ IsRightIndex table.now index.now }
{
    let count = table.columns.as_slice().len();
    let included = index.included.as_slice();
    are_within(index.parts.as_slice(), count) && are_columns(included, count) && are_once(included)
}

/// Whether these are columns of a table with so many.
fn are_columns(columns: &[u8], count: usize) -> bool
    ensures { IsTrue result ↔ ((c : ℕ) → c < length columns.now → get_or columns.now c 0 < count) }
{
    columns.iter().all(|column| (*column as usize) < count)
}

/// Whether one of the columns is this one.
pub(crate) fn is_among(columns: &[u8], column: u8) -> bool
    ensures { result ≡ list_any (λ c. nat_eq c column) columns.now }
{
    columns.iter().any(|other| *other == column)
}

/// Whether no column stands twice.
fn are_once(columns: &[u8]) -> bool
    ensures { IsTrue result ↔ ((c d : ℕ) → c < length columns.now → d < length columns.now → get_or columns.now c 0 ≡ get_or columns.now d 0 → c ≡ d) }
{
    match columns {
        [] => true,
        [first, others @ ..] => !is_among(others, *first) && are_once(others),
    }
}
