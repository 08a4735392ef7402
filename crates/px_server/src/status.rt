// What a table's status counts.
ghost use Rattle.std.specs.Prelude.{◌≡◌, ◌<◌, ◌≤◌, IfErr, IfOk, filter, length, map, min};
ghost use Rattle.std.specs.List.{All};
ghost use Rattle.px_cells.specs.Sight.{IsPlainRegion};
ghost use Rattle.px_cells.specs.Visible.{IsView};
ghost use Rattle.px_calls.specs.Calls.{DidCount};
ghost use Rattle.px_calls.specs.Causes.{Refuses, status_cause};
ghost use Rattle.px_group.specs.Group.{IsRightGroup};
ghost use Rattle.px_recovery.specs.Tables.{indexes_of};
ghost use Rattle.px_region.specs.Region.{read_of};
ghost use Rattle.px_server.specs.Counts.{AreUnverified, CountKeys, CountsKeys, bare, count_as, is_unverified};
ghost use Rattle.px_server.specs.DeviceCalls.{Blames, MakesNoCall};
ghost use Rattle.px_server.specs.Shown.{HasLogged, known_by, logged_by};

use crate::{Founded, Server};
use px_calls::{IndexCount, IndexCounts, Status, StepFault};
use px_cells::{Cell, visible_in};
use px_defined::index_place;
use px_group::Group;
use px_outside::{Clock, CountsCalls};
use px_region::Region;
use px_seat::Based;
use px_standing::numbered_place;
use px_tables::Index;
use px_values::{Items, Name, TableId};
use std::alloc::{AllocError, Global};

/// The qualifier of the column that has the status of an index row.
const STATUS: u8 = 1;

/// What stands there in a verified one.
const VERIFIED: u8 = 1;

/// Whether the cell is the status of an index row that isn't verified.
fn is_unverified(cell: &Cell) -> bool
    ensures { result ≡ is_unverified cell.now }
{
    cell.qualifier() == STATUS && cell.value() != [VERIFIED].as_slice()
}

/// How many of the cells are.
fn unverified_among(cells: &[Cell]) -> u64
    ensures { result ≡ length (filter is_unverified cells.now) }
{
    cells.iter().filter(|cell| is_unverified(cell)).count() as u64
}

/// What a point above all stamps sees of a region.
fn seen_of(alloc: Global, region: &Region) -> Result<Vec<Cell>, AllocError>
    requires { IsPlainRegion (read_of region.now) }
    ensures { IfOk result (λ seen. IsView (read_of region.now) 18446744073709551615 seen.items) }
{
    let mut seen = Vec::new(alloc);
    for at in 0..region.piece_count() {
        let mut part = visible_in(alloc, region.piece(at), u64::MAX)?.into_vec();
        seen.append(&mut part)?;
    }
    Ok(seen)
}

/// How many keys of an index with this region have a newest version that isn't verified.
fn unverified_in(alloc: Global, region: &Region) -> Result<u64, AllocError>
    requires { IsPlainRegion (read_of region.now) }
    ensures { IfOk result (AreUnverified (read_of region.now)) }
{
    let seen = seen_of(alloc, region)?;
    Ok(unverified_among(seen.as_slice()))
}

/// The count of an index; one that is disabled has no keys.
fn count_of(alloc: Global, group: &Group, index: &Index) -> Result<IndexCount, AllocError>
    requires { IsRightGroup group.now }
    ensures index { IfOk result (λ c. bare c ≡ count_as index.now) }
    ensures keys { IfOk result (CountsKeys group.now) }
{
    let unverified = match index_place(group, index.id) {
        Some(place) => unverified_in(alloc, &group.indexes[place].region)?,
        None => 0,
    };
    let name = Name::from_str(alloc, index.name.as_str())?;
    Ok(IndexCount {
        index: index.id,
        name,
        state: index.state,
        unverified,
    })
}

/// The counts of a table's indexes, in order of number.
fn counts_of(
    alloc: Global,
    group: &Group,
    indexes: &[Index],
    table: TableId,
) -> Result<IndexCounts, AllocError>
    requires { IsRightGroup group.now }
    ensures indexes { IfOk result (λ cs. map bare cs ≡ map count_as (indexes_of table.0 indexes.now)) }
    ensures keys { IfOk result (λ cs. All (CountsKeys group.now) cs) }
{
    let mut counts = Vec::new(alloc);
    for index in indexes {
        if index.table == table {
            let count = count_of(alloc, group, index)?;
            counts.push(count)?;
        }
    }
    Ok(Items::of(counts))
}

/// How many cells stand in the logs of a table and of its indexes. What is read of them may be less: a cell that is written again at its
/// place, as the status of an index row, counts each time.
fn cells_in(group: &Group) -> u64
    ensures { result ≡ min (logged_by group.now) 18446744073709551615 }
{
    let mut cells = group.rows.logged_cells();
    for part in group.indexes.as_slice() {
        cells = cells.saturating_add(part.region.logged_cells());
    }
    cells
}

/// How many files the manifests of a table and of its indexes name.
fn files_in(group: &Group) -> u64 {
    let mut files = group.rows.file_count();
    for part in group.indexes.as_slice() {
        files = files.saturating_add(part.region.file_count());
    }
    files
}

impl<D: CountsCalls, C: Clock, B: Based + Founded> Server<D, C, B> {
    /// The table's last stamp and horizon, and counts of the cells in its logs, its files and its index rows.
    pub fn status(&mut self, table: TableId) -> Result<Status, StepFault>
        ensures ok { IfOk result (DidCount (known_by B.base B.damaged self.old) (known_by B.base B.damaged self.new) table) }
        ensures counted { IfOk result (λ s. HasLogged self.old.logged table.0 s.cells) }
        ensures keys { IfOk result (λ s. CountKeys self.old.groups table s.indexes) }
        ensures refused { IfErr result (Refuses (status_cause B.sound table.0) (known_by B.base B.damaged self.old) (known_by B.base B.damaged self.new)) }
        ensures counts { MakesNoCall self.old self.new }
        ensures blames { IfErr result (Blames self.old self.new) }
    {
        if let Some(call) = self.closed {
            return Err(StepFault::Closed { call });
        }
        let Some(place) = numbered_place(&self.standing, table) else {
            return Err(StepFault::NoTable);
        };
        let group = &self.groups[place];
        match counts_of(self.alloc, group, self.standing.indexes.as_slice(), table) {
            Ok(indexes) => Ok(Status {
                last: group.last,
                horizon: group.horizon,
                cells: cells_in(group),
                files: files_in(group),
                indexes,
            }),
            Err(_) => Err(StepFault::Memory),
        }
    }
}
