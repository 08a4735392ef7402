// Which names are taken.
ghost use Rattle.std.specs.Prelude.{◌≡◌, ◌≢◌, ◌<◌, ◌↔◌, ℕ, List, length, get_or, IsTrue, IfSome, IfNone};
ghost use Rattle.std.specs.List.{AllByRecursion};
ghost use Rattle.px_standing.specs.Agrees.{IsUnused};

use px_schema::Standing;
use px_tables::{Index, Table};
use px_values::{Name, TableId};

/// The place of the table of a name among those that stand.
pub fn table_place(standing: &Standing, name: &Name) -> Option<usize>
    ensures found { IfSome result (λ p. p < length standing.now.tables) }
    ensures named { IfSome result (λ p. (none : Table) → (get_or standing.now.tables p none).name ≡ name.now) }
    ensures none { IfNone result (AllByRecursion (λ (t : Table). t.name ≢ name.now) standing.now.tables) }
{
    let tables = standing.tables.as_slice();
    for place in 0..tables.len() {
        if tables[place].name.as_str() == name.as_str() {
            return Some(place);
        }
    }
    None
}

/// The place of the table of a number among those that stand.
pub fn numbered_place(standing: &Standing, table: TableId) -> Option<usize>
    ensures found { IfSome result (λ p. p < length standing.now.tables) }
    ensures numbered { IfSome result (λ p. (none : Table) → (get_or standing.now.tables p none).id ≡ table) }
    ensures none { IfNone result (AllByRecursion (λ (t : Table). t.id.0 ≢ table.0) standing.now.tables) }
{
    let tables = standing.tables.as_slice();
    for place in 0..tables.len() {
        if tables[place].id == table {
            return Some(place);
        }
    }
    None
}

/// Whether no index has the name.
fn is_free_of_indexes(indexes: &[Index], name: &Name) -> bool
    ensures { IsTrue result ↔ AllByRecursion (λ (i : Index). i.name ≢ name.now) indexes.now }
{
    for index in indexes {
        if index.name.as_str() == name.as_str() {
            return false;
        }
    }
    true
}

/// Whether no table and no index has the name.
pub fn is_free(standing: &Standing, name: &Name) -> bool
    ensures { IsTrue result ↔ IsUnused standing.now name.now }
{
    table_place(standing, name).is_none() && is_free_of_indexes(standing.indexes.as_slice(), name)
}
