// Opening a folder.
ghost use Rattle.std.specs.Prelude.{◌≡◌, ◌≢◌, ◌≤◌, ◌+◌, ◌⊎◌, ℕ, length, sum_by, All, IsTrue, IfOk, IsPermutation, Err, map};
ghost use Rattle.px_outside.specs.OnDisk.{LeavesOnly, Passes, Rose, TouchesOnly};
ghost use Rattle.px_outside.specs.Parts.{AreDistinct};
ghost use Rattle.px_region.specs.Region.{RegionData};
ghost use Rattle.px_catalog.specs.Catalogue.{HasCatalogue, catalogue_files, is_catalogue_open, standing_of};
ghost use Rattle.px_recovery.specs.Base.{IsSound, IsSoundFolder};
ghost use Rattle.px_recovery.specs.Folder.{AreFresh, FolderData, StandsFor, StandsOn, region_numbers};
ghost use Rattle.px_folder.specs.Calls.{AreOpenedBy};
ghost use Rattle.px_folder.specs.Damage.{IsFirstDamaged};
ghost use Rattle.px_folder.specs.Drawn.{AreDrawn};
ghost use Rattle.px_folder.specs.Read.{IsReadOn, PartsStandFor, folder_by, number_of_open_region};
ghost use Rattle.px_opening.specs.Definitions.{AreRight};
ghost use Rattle.px_opening.specs.Opened.{IsDataOf, IsGroupOf, IsOpenedRight, all_regions, folder_in, regions_in, table_in_group};

use crate::OpenFault;
use crate::definitions::are_right;
use crate::parts::make_group;
use px_catalog::Catalog;
use px_folder::Folder;
use px_group::Group;
use px_outside::Disk;
use px_region::Region;
use px_schema::Standing;
use std::alloc::Global;

/// A folder that was opened: its catalogue, a group for each table that stands, in the order of definition, and the regions of the
/// indexes that are disabled or were building.
#[derive(Drop)]
pub struct Opened {
    pub catalog: Catalog,
    pub groups: Vec<Group>,
    pub others: Vec<Region>,
}

/// A group for each table that stands, with its regions out of these.
fn make_groups(
    alloc: Global,
    standing: &Standing,
    regions: &mut Vec<Region>,
) -> Result<Vec<Group>, OpenFault>
    requires { AreRight standing.now }
    ensures tables { IfOk result (λ gs. map table_in_group gs.items ≡ standing.now.tables) }
    ensures moved { IfOk result (λ gs. IsPermutation regions.old.items (regions_in gs.items regions.new.items)) }
    ensures groups { (f : ℕ → RegionData) → All (IsDataOf f) regions.old.items → IfOk result (λ gs. All (IsGroupOf f standing.now.indexes) gs.items) }
    ensures damaged { (file place : ℕ) → result ≡ Err (OpenFault.Damaged file place) → place ≡ 0 }
    ensures read { result ≢ Err OpenFault.ReadFault }
    ensures write { result ≢ Err OpenFault.WriteFault }
{
    let mut groups = Vec::new(alloc);
    for table in standing.tables.as_slice() {
        match make_group(alloc, table, standing.indexes.as_slice(), regions) {
            Ok(group) => {
                if groups.push(group).is_err() {
                    drop(groups);
                    return Err(OpenFault::Memory);
                }
            }
            Err(fault) => {
                drop(groups);
                return Err(fault);
            }
        }
    }
    Ok(groups)
}

/// The groups of what was read.
fn assembled(alloc: Global, catalog: Catalog, regions: Vec<Region>) -> Result<Opened, OpenFault>
    requires drawn { AreDrawn (standing_of catalog) }
    requires numbers { IsPermutation (region_numbers (standing_of catalog)) (map number_of_open_region regions.items) }
    requires once { AreDistinct number_of_open_region regions.items }
    ensures opened { IfOk result IsOpenedRight }
    ensures catalogue { IfOk result (λ o. o.catalog ≡ catalog) }
    ensures folder { IfOk result (λ o. folder_in o ≡ folder_by (standing_of catalog) regions.items) }
    ensures moved { IfOk result (λ o. IsPermutation regions.items (all_regions o)) }
    ensures damaged { (file place : ℕ) → result ≡ Err (OpenFault.Damaged file place) → place ≡ 0 }
    ensures read { result ≢ Err OpenFault.ReadFault }
    ensures write { result ≢ Err OpenFault.WriteFault }
{
    let mut regions = regions;
    if !are_right(catalog.standing()) {
        drop(catalog);
        drop(regions);
        return Err(OpenFault::Damaged { file: 0, place: 0 });
    }
    match make_groups(alloc, catalog.standing(), &mut regions) {
        Ok(groups) => Ok(Opened {
            catalog,
            groups,
            others: regions,
        }),
        Err(fault) => {
            drop(catalog);
            drop(regions);
            Err(fault)
        }
    }
}

/// Opens a folder: reads the catalogue, which is made where the folder is empty, and the regions in the order of their numbers, and tests
/// definitions and cells.
///
/// It is Damaged at the first place that isn't of the format, or at place 0 of a file whose definitions or cells haven't their shape; and a
/// ReadFault or WriteFault where a call of the disk failed.
pub fn open<D: Disk>(alloc: Global, disk: &mut D) -> Result<Opened, OpenFault>
    ensures opened { IfOk result IsOpenedRight }
    ensures open { IfOk result (λ o. is_catalogue_open o.catalog) }

    // The files stood for all that was opened, be the folder sound or not; and this was sound where they were.
    ensures stood { IsTrue D.tells → IfOk result (λ o. PartsStandFor (D.seen disk.old) (folder_in o)) }
    ensures sound { IsTrue D.tells → IsSound (D.seen disk.old) → IfOk result (λ o. StandsFor (D.seen disk.old) (folder_in o) × IsSoundFolder (folder_in o)) }
    ensures stands { IsTrue D.tells → IfOk result (λ o. AreFresh ⟦<D as Disk>⟧ disk.old (standing_of o.catalog).next → StandsOn ⟦<D as Disk>⟧ disk.new (folder_in o)) }
    ensures catalogue { IsTrue D.tells → IfOk result (λ o. HasCatalogue ⟦<D as Disk>⟧ o.catalog disk.new) }
    ensures read { IsTrue D.tells → IfOk result (λ o. All (IsReadOn ⟦<D as Disk>⟧ disk.old disk.new) (all_regions o)) }

    // What the folder stands for stays at each moment of the call.
    ensures any_moment { IsTrue D.tells → (f : FolderData) → StandsFor (D.seen disk.old) f → StandsOn ⟦<D as Disk>⟧ disk.old f → 1 ≤ f.standing.next → LeavesOnly ⟦<D as Disk>⟧ disk.old disk.new (λ moment image. StandsFor image f) }
    ensures touches { IsTrue D.tells → TouchesOnly ⟦<D as Disk>⟧ disk.old disk.new catalogue_files }
    ensures damaged { (file place : ℕ) → result ≡ Err (OpenFault.Damaged file place) → IsTrue D.tells → IsFirstDamaged (D.seen disk.old) file place ⊎ (place ≡ 0) }
    ensures read_failed { result ≡ Err OpenFault.ReadFault → Rose ⟦<D as Disk>⟧ disk.old disk.new }
    ensures write_failed { result ≡ Err OpenFault.WriteFault → Rose ⟦<D as Disk>⟧ disk.old disk.new }

    // It takes 17 calls at most, and those of each region.
    ensures opened_by { (calls : ℕ → ℕ) → IsTrue D.tells
        → IfOk result (λ o. AreOpenedBy (D.seen disk.old) (region_numbers (standing_of o.catalog)) calls → Passes ⟦<D as Disk>⟧ disk.old disk.new (17 + sum_by calls (region_numbers (standing_of o.catalog)))) }
{
    let Folder { catalog, regions } = Folder::read(alloc, disk)?;
    assembled(alloc, catalog, regions)
}
