// The regions of tables and indexes, taken out of all that were read.
ghost use Rattle.std.specs.Prelude.{◌≡◌, ◌≢◌, ◌<◌, ◌++◌, Some, length, slice_get, ◌∷◌, ℕ, All, IfOk, IfSome, IsPermutation, Err, Ok, filter, map};
ghost use Rattle.px_cellshapes.specs.Keys.{AreRightKeys};
ghost use Rattle.px_cellshapes.specs.Rows.{AreRightRows};
ghost use Rattle.px_indexrow.specs.Form.{IsRightIndex};
ghost use Rattle.px_region.specs.Region.{RegionData, read_of};
ghost use Rattle.px_region.specs.declared.region.Region.{Region as Regions};
ghost use Rattle.px_recovery.specs.Tables.{indexes_of};
ghost use Rattle.px_opening.specs.Definitions.{IsRightDefinition, first_number};
ghost use Rattle.px_opening.specs.Opened.{IsDataOf, IsGroupOf, IsPartRead, index_of_region, is_standing, region_in, regions_of_group};

use crate::OpenFault;
use crate::heights::heights_of;
use px_cellshapes::{are_right_keys, are_right_rows};
use px_group::{Group, IndexRegion};
use px_region::Region;
use px_tables::{Index, IndexState, Table};
use px_wal::local_file;
use std::alloc::Global;

/// The definitions aren't of the format.
const WRONG_DEFINITIONS: OpenFault = OpenFault::Damaged { file: 0, place: 0 };

/// The place of the region of a number.
fn place_of(regions: &[Region], number: u32) -> Option<usize>
    ensures { IfSome result (λ m. (m < length regions.now) × ((x : Regions) → slice_get regions.now m ≡ Some x → x.number ≡ number)) }
{
    regions.iter().position(|region| region.number() == number)
}

/// Takes the region of a number out of these.
fn take_region(regions: &mut Vec<Region>, number: u32) -> Option<Region>
    ensures { IfSome result (λ r. (r.number ≡ number) × IsPermutation regions.old.items (r ∷ regions.new.items)) }
{
    let place = place_of(regions, number)?;
    Some(regions.swap_remove(place))
}

/// What is read of a region hasn't the shape of its table's cells.
fn misshapen(region: &Region) -> OpenFault
    ensures { (file : ℕ) × (result ≡ OpenFault.Damaged file 0) }
{
    OpenFault::Damaged {
        file: local_file(region.number(), 0),
        place: 0,
    }
}

/// Tests what is read of the region of a table's rows.
fn test_rows(alloc: Global, table: &Table, region: &Region) -> Result<(), OpenFault>
    ensures right { result ≡ Ok tt → AreRightRows table.now (read_of region.now) }
    ensures damaged { (file place : ℕ) → result ≡ Err (OpenFault.Damaged file place) → place ≡ 0 }
    ensures read { result ≢ Err OpenFault.ReadFault }
    ensures write { result ≢ Err OpenFault.WriteFault }
{
    for at in 0..region.piece_count() {
        if !are_right_rows(alloc, table, region.piece(at))? {
            return Err(misshapen(region));
        }
    }
    Ok(())
}

/// Tests what is read of the region of an index.
fn test_keys(alloc: Global, table: &Table, index: &Index, region: &Region) -> Result<(), OpenFault>
    requires { IsRightIndex table.now index.now }
    ensures right { result ≡ Ok tt → AreRightKeys table.now index.now (read_of region.now) }
    ensures damaged { (file place : ℕ) → result ≡ Err (OpenFault.Damaged file place) → place ≡ 0 }
    ensures read { result ≢ Err OpenFault.ReadFault }
    ensures write { result ≢ Err OpenFault.WriteFault }
{
    for at in 0..region.piece_count() {
        if !are_right_keys(alloc, table, index, region.piece(at))? {
            return Err(misshapen(region));
        }
    }
    Ok(())
}

/// Takes the region of a table's rows out of these.
fn take_rows(
    alloc: Global,
    table: &Table,
    number: u32,
    regions: &mut Vec<Region>,
) -> Result<Region, OpenFault>
    ensures number { IfOk result (λ r. r.number ≡ number) }
    ensures moved { IfOk result (λ r. IsPermutation regions.old.items (r ∷ regions.new.items)) }
    ensures rows { IfOk result (λ r. AreRightRows table.now (read_of r)) }
    ensures damaged { (file place : ℕ) → result ≡ Err (OpenFault.Damaged file place) → place ≡ 0 }
    ensures read { result ≢ Err OpenFault.ReadFault }
    ensures write { result ≢ Err OpenFault.WriteFault }
{
    let Some(region) = take_region(regions, number) else {
        return Err(WRONG_DEFINITIONS);
    };
    match test_rows(alloc, table, &region) {
        Ok(()) => Ok(region),
        Err(fault) => {
            drop(region);
            Err(fault)
        }
    }
}

/// Takes the region of an index out of these.
fn take_index(
    alloc: Global,
    table: &Table,
    index: &Index,
    regions: &mut Vec<Region>,
) -> Result<IndexRegion, OpenFault>
    requires { IsRightIndex table.now index.now }
    ensures index { IfOk result (λ p. p.index ≡ index.now) }
    ensures moved { IfOk result (λ p. IsPermutation regions.old.items (p.region ∷ regions.new.items)) }
    ensures read_right { IfOk result (IsPartRead table.now) }
    ensures damaged { (file place : ℕ) → result ≡ Err (OpenFault.Damaged file place) → place ≡ 0 }
    ensures read { result ≢ Err OpenFault.ReadFault }
    ensures write { result ≢ Err OpenFault.WriteFault }
{
    let Some(region) = take_region(regions, index.region) else {
        return Err(WRONG_DEFINITIONS);
    };
    if let Err(fault) = test_keys(alloc, table, index, &region) {
        drop(region);
        return Err(fault);
    }
    match index.copied(alloc) {
        Ok(index) => Ok(IndexRegion { index, region }),
        Err(_) => {
            drop(region);
            Err(OpenFault::Memory)
        }
    }
}

/// Whether queries may read the index.
fn is_active(index: &Index) -> bool
    ensures { result ≡ is_standing index.now }
{
    match index.state {
        IndexState::Building => false,
        IndexState::Active => true,
        IndexState::Disabled => false,
    }
}

/// Takes the regions of the active indexes of a table out of these, in the order of definition.
fn take_indexes(
    alloc: Global,
    table: &Table,
    indexes: &[Index],
    regions: &mut Vec<Region>,
) -> Result<Vec<IndexRegion>, OpenFault>
    requires { All (λ i. i.table.0 ≡ table.now.id.0 → IsRightIndex table.now i) indexes.now }
    ensures indexes { IfOk result (λ ps. map index_of_region ps.items ≡ filter is_standing (indexes_of table.now.id.0 indexes.now)) }
    ensures moved { IfOk result (λ ps. IsPermutation regions.old.items (map region_in ps.items ++ regions.new.items)) }
    ensures parts { IfOk result (λ ps. All (IsPartRead table.now) ps.items) }
    ensures damaged { (file place : ℕ) → result ≡ Err (OpenFault.Damaged file place) → place ≡ 0 }
    ensures read { result ≢ Err OpenFault.ReadFault }
    ensures write { result ≢ Err OpenFault.WriteFault }
{
    let mut parts = Vec::new(alloc);
    for index in indexes {
        if index.table.0 != table.id.0 || !is_active(index) {
            continue;
        }
        match take_index(alloc, table, index, regions) {
            Ok(part) => {
                if parts.push(part).is_err() {
                    drop(parts);
                    return Err(OpenFault::Memory);
                }
            }
            Err(fault) => {
                drop(parts);
                return Err(fault);
            }
        }
    }
    Ok(parts)
}

/// The number of the region of a table's rows.
fn rows_number(table: &Table) -> u32
    ensures { result ≡ first_number table.now.regions }
{
    match table.regions.as_slice() {
        [] => 0,
        [first, ..] => first.number,
    }
}

/// The group of a table, with its regions out of these.
pub(crate) fn make_group(
    alloc: Global,
    table: &Table,
    indexes: &[Index],
    regions: &mut Vec<Region>,
) -> Result<Group, OpenFault>
    requires definition { IsRightDefinition table.now }
    requires right { All (λ i. i.table.0 ≡ table.now.id.0 → IsRightIndex table.now i) indexes.now }
    ensures table { IfOk result (λ g. g.table ≡ table.now) }
    ensures moved { IfOk result (λ g. IsPermutation regions.old.items (regions_of_group g ++ regions.new.items)) }
    ensures group { (f : ℕ → RegionData) → All (IsDataOf f) regions.old.items → IfOk result (IsGroupOf f indexes.now) }
    ensures damaged { (file place : ℕ) → result ≡ Err (OpenFault.Damaged file place) → place ≡ 0 }
    ensures read { result ≢ Err OpenFault.ReadFault }
    ensures write { result ≢ Err OpenFault.WriteFault }
{
    let number = rows_number(table);
    let Some(heights) = heights_of(table, number, indexes, regions) else {
        return Err(WRONG_DEFINITIONS);
    };
    let rows = take_rows(alloc, table, number, regions)?;
    let parts = match take_indexes(alloc, table, indexes, regions) {
        Ok(parts) => parts,
        Err(fault) => {
            drop(rows);
            return Err(fault);
        }
    };
    match table.copied(alloc) {
        Ok(table) => Ok(Group {
            table,
            rows,
            indexes: parts,
            batches: Vec::new(alloc),
            points: Vec::new(alloc),
            last: heights.last,
            horizon: heights.horizon,
        }),
        Err(_) => {
            drop(rows);
            drop(parts);
            Err(OpenFault::Memory)
        }
    }
}
