// Reading a folder.
ghost use Rattle.std.specs.Prelude.{◌≡◌, ◌≢◌, ◌≤◌, ◌+◌, ℕ, List, map, sum_by, All, IsTrue, IfOk, Err, IsPermutation, IsSorted};
ghost use Rattle.std.specs.Ordering.{nat_cmp};
ghost use Rattle.px_outside.specs.OnDisk.{LeavesOnly, Passes, Rose, Stays, TouchesOnly};
ghost use Rattle.px_outside.specs.Parts.{AreDistinct};
ghost use Rattle.px_catalog.specs.Catalogue.{CatalogueStands, HasCatalogue, catalogue_files, is_catalogue_open, standing_of};
ghost use Rattle.px_recovery.specs.Base.{IsSound, IsSoundFolder};
ghost use Rattle.px_recovery.specs.Folder.{AreFresh, FolderData, StandsFor, StandsOn, region_numbers};
ghost use Rattle.px_folder.specs.Read.{IsReadOn, PartsStandFor, folder_of, number_of_open_region};
ghost use Rattle.px_folder.specs.Calls.{AreOpenedBy};
ghost use Rattle.px_folder.specs.Drawn.{AreDrawn};
ghost use Rattle.px_folder.specs.Damage.{IsDamagedBelow, IsDamagedIn, IsFirstDamaged};

use crate::numbers::{are_drawn, numbers_of};
use px_catalog::Catalog;
use px_gatelog::StartFault;
use px_outside::Disk;
use px_region::Region;
use px_schema::Standing;
use std::alloc::Global;

/// A folder that was read: its catalogue, and the regions that it names, in the order of their numbers.
#[derive(Drop)]
pub struct Folder {
    pub catalog: Catalog,
    pub regions: Vec<Region>,
}

/// Opens the regions of these numbers. Nothing is written, and a stop in the call leaves nothing new.
fn open_regions<D: Disk>(
    alloc: Global,
    disk: &mut D,
    numbers: &[u32],
) -> Result<Vec<Region>, StartFault>
    ensures numbers { IfOk result (λ rs. map number_of_open_region rs.items ≡ numbers.now) }
    ensures read { IsTrue D.tells → IfOk result (λ rs. All (IsReadOn ⟦<D as Disk>⟧ disk.old disk.new) rs.items) }
    ensures damaged { (file place : ℕ) → result ≡ Err (StartFault.Damaged file place) → IsTrue D.tells → IsDamagedIn numbers.now (D.seen disk.old) file place }
    ensures seen { D.seen disk.new ≡ D.seen disk.old }
    ensures quiet { Stays ⟦<D as Disk>⟧ disk.old disk.new }
    ensures read_failed { result ≡ Err StartFault.ReadFault → Rose ⟦<D as Disk>⟧ disk.old disk.new }
    ensures write_failed { result ≡ Err StartFault.WriteFault → Rose ⟦<D as Disk>⟧ disk.old disk.new }
    ensures opened_by { (calls : ℕ → ℕ) → IsTrue D.tells → AreOpenedBy (D.seen disk.old) numbers.now calls → IfOk result (λ rs. Passes ⟦<D as Disk>⟧ disk.old disk.new (sum_by calls numbers.now)) }
{
    let mut regions = Vec::new(alloc);
    for number in numbers {
        match Region::reopen(alloc, disk, *number) {
            Ok(region) => {
                if regions.push(region).is_err() {
                    drop(regions);
                    return Err(StartFault::Memory);
                }
            }
            Err(fault) => {
                drop(regions);
                return Err(fault);
            }
        }
    }
    Ok(regions)
}

/// Opens the regions that stand, in the order of their numbers.
fn read_regions<D: Disk>(
    alloc: Global,
    disk: &mut D,
    standing: &Standing,
) -> Result<Vec<Region>, StartFault>
    ensures drawn { IfOk result (λ rs. AreDrawn standing.now) }
    ensures once { IfOk result (λ rs. AreDistinct number_of_open_region rs.items) }
    ensures numbers { IfOk result (λ rs. IsPermutation (region_numbers standing.now) (map number_of_open_region rs.items)) }
    ensures sorted { IfOk result (λ rs. IsSorted nat_cmp (map number_of_open_region rs.items)) }
    ensures read { IsTrue D.tells → IfOk result (λ rs. All (IsReadOn ⟦<D as Disk>⟧ disk.old disk.new) rs.items) }
    ensures damaged { (file place : ℕ) → result ≡ Err (StartFault.Damaged file place) → IsTrue D.tells → IsDamagedBelow standing.now (D.seen disk.old) file place }
    ensures seen { D.seen disk.new ≡ D.seen disk.old }
    ensures quiet { Stays ⟦<D as Disk>⟧ disk.old disk.new }
    ensures read_failed { result ≡ Err StartFault.ReadFault → Rose ⟦<D as Disk>⟧ disk.old disk.new }
    ensures write_failed { result ≡ Err StartFault.WriteFault → Rose ⟦<D as Disk>⟧ disk.old disk.new }
    ensures opened_by { (calls : ℕ → ℕ) → IsTrue D.tells → AreOpenedBy (D.seen disk.old) (region_numbers standing.now) calls → IfOk result (λ rs. Passes ⟦<D as Disk>⟧ disk.old disk.new (sum_by calls (region_numbers standing.now))) }
{
    let mut numbers = numbers_of(alloc, standing)?;
    if !are_drawn(standing, &numbers) {
        drop(numbers);
        return Err(StartFault::Damaged { file: 0, place: 0 });
    }
    numbers.sort()?;
    open_regions(alloc, disk, &numbers)
}

impl Folder {
    /// Reads a folder: the catalogue, which is made where the folder is empty, and then its regions in the order of their numbers.
    ///
    /// It is Damaged at the first place that isn't of the format, and a ReadFault or WriteFault where a call of the disk failed.
    pub fn read<D: Disk>(alloc: Global, disk: &mut D) -> Result<Folder, StartFault>
        ensures drawn { IfOk result (λ w. AreDrawn (standing_of w.catalog)) }
        ensures once { IfOk result (λ w. AreDistinct number_of_open_region w.regions.items) }
        ensures numbers { IfOk result (λ w. IsPermutation (region_numbers (standing_of w.catalog)) (map number_of_open_region w.regions.items)) }
        ensures sorted { IfOk result (λ w. IsSorted nat_cmp (map number_of_open_region w.regions.items)) }
        ensures open { IfOk result (λ w. is_catalogue_open w.catalog) }

        ensures definitions { IsTrue D.tells → IfOk result (λ w. CatalogueStands (D.seen disk.old) (standing_of w.catalog)) }

        // The files stood for all that was read, be the folder sound or not.
        ensures stood { IsTrue D.tells → IfOk result (λ w. PartsStandFor (D.seen disk.old) (folder_of w)) }
        ensures sound { IsTrue D.tells → IsSound (D.seen disk.old) → IfOk result (λ w. StandsFor (D.seen disk.old) (folder_of w) × IsSoundFolder (folder_of w)) }
        ensures stands { IsTrue D.tells → IfOk result (λ w. AreFresh ⟦<D as Disk>⟧ disk.old (standing_of w.catalog).next → StandsOn ⟦<D as Disk>⟧ disk.new (folder_of w)) }
        ensures catalogue { IsTrue D.tells → IfOk result (λ w. HasCatalogue ⟦<D as Disk>⟧ w.catalog disk.new) }
        ensures read { IsTrue D.tells → IfOk result (λ w. All (IsReadOn ⟦<D as Disk>⟧ disk.old disk.new) w.regions.items) }

        // What the folder stands for stays at each moment of the call.
        ensures any_moment { IsTrue D.tells → (f : FolderData) → StandsFor (D.seen disk.old) f → StandsOn ⟦<D as Disk>⟧ disk.old f → 1 ≤ f.standing.next → LeavesOnly ⟦<D as Disk>⟧ disk.old disk.new (λ moment image. StandsFor image f) }
        ensures touches { IsTrue D.tells → TouchesOnly ⟦<D as Disk>⟧ disk.old disk.new catalogue_files }
        ensures damaged { (file place : ℕ) → result ≡ Err (StartFault.Damaged file place) → IsTrue D.tells → IsFirstDamaged (D.seen disk.old) file place }
        ensures read_failed { result ≡ Err StartFault.ReadFault → Rose ⟦<D as Disk>⟧ disk.old disk.new }
        ensures write_failed { result ≡ Err StartFault.WriteFault → Rose ⟦<D as Disk>⟧ disk.old disk.new }

        // It takes 17 calls at most, and those of each region.
        ensures opened_by { (calls : ℕ → ℕ) → IsTrue D.tells
            → IfOk result (λ w. AreOpenedBy (D.seen disk.old) (region_numbers (standing_of w.catalog)) calls → Passes ⟦<D as Disk>⟧ disk.old disk.new (17 + sum_by calls (region_numbers (standing_of w.catalog)))) }
    {
        let catalog = Catalog::start(alloc, disk)?;
        match read_regions(alloc, disk, catalog.standing()) {
            Ok(regions) => Ok(Folder { catalog, regions }),
            Err(fault) => {
                drop(catalog);
                Err(fault)
            }
        }
    }
}
