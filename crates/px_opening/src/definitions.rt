// Whether definitions are right.
ghost use Rattle.std.specs.Prelude.{◌≡◌, ◌<◌, ◌↔◌, IsTrue};
ghost use Rattle.std.specs.List.{AllByRecursion};
ghost use Rattle.std.specs.Option.{option_copied};
ghost use Rattle.px_tables.specs.declared.index.Index.{Index as DefinedIndex};
ghost use Rattle.px_tables.specs.declared.table.Table.{Table as DefinedTable};
ghost use Rattle.px_recovery.specs.Tables.{number_of_index, table_in};
ghost use Rattle.px_standing.specs.Agrees.{AreRisingBy, number_of_table};
ghost use Rattle.px_opening.specs.Definitions.{AreRight, IsOneRegion, IsRightDefinition, IsRightOf};

use px_cellshapes::{is_right_index, is_right_table};
use px_schema::Standing;
use px_tables::{Index, Table, TableRegion};

/// Whether there is one region, whose least key is the empty one.
fn is_one_region(regions: &[TableRegion]) -> bool
    ensures { IsTrue result ↔ IsOneRegion regions.now }
{
    match regions {
        [region] => region.least_key.as_slice().is_empty(),
        _ => false,
    }
}

fn is_right_definition(table: &Table) -> bool
    ensures { IsTrue result ↔ IsRightDefinition table.now }
{
    is_right_table(table) && is_one_region(table.regions.as_slice())
}

/// The table of a number.
#[tactic(auto, unfolding(px_recovery::specs::Tables::table_in))]
fn find_table(tables: &[Table], number: u32) -> Option<&Table>
    ensures { option_copied result ≡ table_in tables.now number }
{
    match tables {
        [] => None,
        [first, others @ ..] => {
            if first.id.0 == number {
                return Some(first);
            }
            find_table(others, number)
        }
    }
}

/// Whether the index is of a table that stands, and right for it.
fn is_right_of(tables: &[Table], index: &Index) -> bool
    ensures { IsTrue result ↔ IsRightOf tables.now index.now }
{
    match find_table(tables, index.table.0) {
        Some(table) => is_right_index(table, index),
        None => false,
    }
}

/// Whether the tables stand in the order of their numbers, which are greater than this one.
fn are_tables_above(number: u32, tables: &[Table]) -> bool
    ensures { IsTrue result ↔ (AllByRecursion (λ (t : DefinedTable). number < t.id.0) tables.now × AreRisingBy number_of_table tables.now) }
{
    match tables {
        [] => true,
        [first, others @ ..] => number < first.id.0 && are_tables_above(first.id.0, others),
    }
}

/// Whether the tables stand in the order of their numbers.
fn are_tables_rising(tables: &[Table]) -> bool
    ensures { IsTrue result ↔ AreRisingBy number_of_table tables.now }
{
    match tables {
        [] => true,
        [first, others @ ..] => are_tables_above(first.id.0, others),
    }
}

/// Whether the indexes stand in the order of their numbers, which are greater than this one.
fn are_indexes_above(number: u32, indexes: &[Index]) -> bool
    ensures { IsTrue result ↔ (AllByRecursion (λ (i : DefinedIndex). number < i.id.0) indexes.now × AreRisingBy number_of_index indexes.now) }
{
    match indexes {
        [] => true,
        [first, others @ ..] => number < first.id.0 && are_indexes_above(first.id.0, others),
    }
}

/// Whether the indexes stand in the order of their numbers.
fn are_indexes_rising(indexes: &[Index]) -> bool
    ensures { IsTrue result ↔ AreRisingBy number_of_index indexes.now }
{
    match indexes {
        [] => true,
        [first, others @ ..] => are_indexes_above(first.id.0, others),
    }
}

/// Whether each definition is right, and tables and indexes stand in the order of their numbers.
pub(crate) fn are_right(standing: &Standing) -> bool
    ensures { IsTrue result ↔ AreRight standing.now }
{
    let tables = standing.tables.as_slice();
    let indexes = standing.indexes.as_slice();
    tables.iter().all(|table| is_right_definition(table))
        && indexes.iter().all(|index| is_right_of(tables, index))
        && are_tables_rising(tables)
        && are_indexes_rising(indexes)
}
