// The numbers of what stands.
ghost use Rattle.std.specs.Prelude.{◌≡◌, ◌↔◌, ◌++◌, IfOk, OnOk, IsTrue, map};
ghost use Rattle.std.specs.List.{flat_map};
ghost use Rattle.px_outside.specs.Parts.{AreDistinct, HasNone};
ghost use Rattle.px_recovery.specs.Folder.{region_numbers, regions_of};
ghost use Rattle.px_folder.specs.Drawn.{AreDrawn, IsDrawnIndex, IsDrawnTable, IsRegionDrawn, same_number};

use px_schema::Standing;
use px_tables::{Index, Table, TableRegion};
use std::alloc::{AllocError, Global};

/// Adds the numbers of regions.
fn push_regions(numbers: &mut Vec<u32>, regions: &[TableRegion]) -> Result<(), AllocError>
    ensures { OnOk result (numbers.new.items ≡ numbers.old.items ++ map (λ r. r.number) regions.now) }
{
    for region in regions {
        numbers.push(region.number)?;
    }
    Ok(())
}

/// Adds the numbers of the regions of tables.
fn push_tables(numbers: &mut Vec<u32>, tables: &[Table]) -> Result<(), AllocError>
    ensures { OnOk result (numbers.new.items ≡ numbers.old.items ++ flat_map regions_of tables.now) }
{
    for table in tables {
        push_regions(numbers, table.regions.as_slice())?;
    }
    Ok(())
}

/// Adds the numbers of the regions of indexes.
fn push_indexes(numbers: &mut Vec<u32>, indexes: &[Index]) -> Result<(), AllocError>
    ensures { OnOk result (numbers.new.items ≡ numbers.old.items ++ map (λ i. i.region) indexes.now) }
{
    for index in indexes {
        numbers.push(index.region)?;
    }
    Ok(())
}

/// The numbers of the regions that stand.
pub(crate) fn numbers_of(alloc: Global, standing: &Standing) -> Result<Vec<u32>, AllocError>
    ensures { IfOk result (λ numbers. numbers.items ≡ region_numbers standing.now) }
{
    let mut numbers = Vec::new(alloc);
    push_tables(&mut numbers, standing.tables.as_slice())?;
    push_indexes(&mut numbers, standing.indexes.as_slice())?;
    Ok(numbers)
}

/// Whether a number of a region was drawn.
fn is_drawn(number: u32, next: u32) -> bool
    ensures { IsTrue result ↔ IsRegionDrawn next number }
{
    1 <= number && number < next
}

fn is_drawn_table(table: &Table, next: u32) -> bool
    ensures { IsTrue result ↔ IsDrawnTable next table.now }
{
    table.id.0 < next
        && table
            .regions
            .as_slice()
            .iter()
            .all(|region| is_drawn(region.number, next))
}

fn is_drawn_index(index: &Index, next: u32) -> bool
    ensures { IsTrue result ↔ IsDrawnIndex next index.now }
{
    index.id.0 < next && is_drawn(index.region, next)
}

/// Whether the number isn't among others.
fn is_new(number: u32, others: &[u32]) -> bool
    ensures { IsTrue result ↔ HasNone same_number number others.now }
{
    match others {
        [] => true,
        [other, rest @ ..] => *other != number && is_new(number, rest),
    }
}

/// Whether no number stands twice.
fn are_distinct(numbers: &[u32]) -> bool
    ensures { IsTrue result ↔ AreDistinct same_number numbers.now }
{
    match numbers {
        [] => true,
        [first, others @ ..] => is_new(*first, others) && are_distinct(others),
    }
}

/// Whether all numbers of what stands were drawn, and no region is named twice.
pub(crate) fn are_drawn(standing: &Standing, numbers: &[u32]) -> bool
    requires { numbers.now ≡ region_numbers standing.now }
    ensures { IsTrue result ↔ AreDrawn standing.now }
{
    let next = standing.next;
    1 <= next
        && standing
            .tables
            .as_slice()
            .iter()
            .all(|table| is_drawn_table(table, next))
        && standing
            .indexes
            .as_slice()
            .iter()
            .all(|index| is_drawn_index(index, next))
        && are_distinct(numbers)
}
