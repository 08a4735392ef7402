// Whether definitions are the same.
ghost use Rattle.std.specs.Prelude.{◌≡◌, ◌↔◌, IsTrue};

use px_tables::{Index, KeyPlace, Table, TableColumn, TableRegion};
use px_values::Name;

fn is_same_name(a: &Name, b: &Name) -> bool
    ensures { IsTrue result ↔ (a.now ≡ b.now) }
{
    a.as_str() == b.as_str()
}

fn is_same_column(a: &TableColumn, b: &TableColumn) -> bool
    ensures { IsTrue result ↔ (a.now ≡ b.now) }
{
    is_same_name(&a.name, &b.name) && a.column_type == b.column_type && a.not_null == b.not_null
}

fn are_same_columns(a: &[TableColumn], b: &[TableColumn]) -> bool
    ensures { IsTrue result ↔ (a.now ≡ b.now) }
{
    match (a, b) {
        ([], []) => true,
        ([x, xs @ ..], [y, ys @ ..]) => is_same_column(x, y) && are_same_columns(xs, ys),
        (_, _) => false,
    }
}

fn are_same_places(a: &[KeyPlace], b: &[KeyPlace]) -> bool
    ensures { IsTrue result ↔ (a.now ≡ b.now) }
{
    match (a, b) {
        ([], []) => true,
        ([x, xs @ ..], [y, ys @ ..]) => x == y && are_same_places(xs, ys),
        (_, _) => false,
    }
}

fn is_same_region(a: &TableRegion, b: &TableRegion) -> bool
    ensures { IsTrue result ↔ (a.now ≡ b.now) }
{
    a.number == b.number && a.least_key.as_slice() == b.least_key.as_slice()
}

fn are_same_regions(a: &[TableRegion], b: &[TableRegion]) -> bool
    ensures { IsTrue result ↔ (a.now ≡ b.now) }
{
    match (a, b) {
        ([], []) => true,
        ([x, xs @ ..], [y, ys @ ..]) => is_same_region(x, y) && are_same_regions(xs, ys),
        (_, _) => false,
    }
}

/// Whether two tables are the same, with their numbers.
pub fn is_same_table(a: &Table, b: &Table) -> bool
    ensures { IsTrue result ↔ (a.now ≡ b.now) }
{
    a.id == b.id
        && is_same_name(&a.name, &b.name)
        && are_same_columns(a.columns.as_slice(), b.columns.as_slice())
        && are_same_places(a.key.as_slice(), b.key.as_slice())
        && are_same_regions(a.regions.as_slice(), b.regions.as_slice())
}

/// Whether two indexes are the same, with their numbers and states.
pub fn is_same_index(a: &Index, b: &Index) -> bool
    ensures { IsTrue result ↔ (a.now ≡ b.now) }
{
    a.id == b.id
        && a.table == b.table
        && is_same_name(&a.name, &b.name)
        && a.state == b.state
        && a.birth == b.birth
        && a.region == b.region
        && are_same_places(a.parts.as_slice(), b.parts.as_slice())
        && a.included.as_slice() == b.included.as_slice()
}
