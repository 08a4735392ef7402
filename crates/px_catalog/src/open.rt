// Opening the catalogue of a folder.
ghost use Rattle.std.specs.Prelude.{◌≡◌, ◌≢◌, ◌≤◌, ◌<◌, ◌+◌, ◌⊎◌, ◌↔◌, ℕ, length, IsTrue, IfOk, IfSome, IsErr, OnOk, Ok, Err};
ghost use Rattle.px_outside.specs.OnDisk.{LeavesOnly, Passes, Rose, Stays, TouchesOnly};
ghost use Rattle.px_schema.specs.Format.{standing_piece};
ghost use Rattle.px_catalog.specs.Reading.{or_fresh};
ghost use Rattle.px_catalog.specs.inner.Lengths.{most_of_empty};

use crate::reader::CatalogReader;
use crate::{Catalog, CatalogFault};
use px_gatelog::{GateLog, Rolled, StartFault};
use px_outside::Disk;
use px_schema::{Standing, fresh};
use std::alloc::{AllocError, Global};

/// A folder without an open segment of the catalogue has no longer file of it.
const MOST_OF_EMPTY: u64 = 4_096;

/// Tests that a file isn't too long for an empty folder.
fn is_short<D: Disk>(disk: &mut D, file: u64) -> Result<(), StartFault>
    ensures short { OnOk result (IsTrue D.tells → length (D.seen disk.old file) ≤ most_of_empty) }
    ensures damaged { (f place : ℕ) → IsTrue D.tells → result ≡ Err (StartFault.Damaged f place) → (f ≡ file) × (place ≡ 0) × (most_of_empty < length (D.seen disk.old file)) }
    ensures quiet { Stays ⟦<D as Disk>⟧ disk.old disk.new }
    ensures seen { D.seen disk.new ≡ D.seen disk.old }
    ensures read_failed { result ≡ Err StartFault.ReadFault → Rose ⟦<D as Disk>⟧ disk.old disk.new }
    ensures unfailed { result ≢ Err StartFault.ReadFault → D.faults disk.new ≡ D.faults disk.old }
    ensures others { (result ≢ Err StartFault.WriteFault) × (result ≢ Err StartFault.Memory) }
    ensures counts { Passes ⟦<D as Disk>⟧ disk.old disk.new 1 }
{
    match disk.len(file) {
        Ok(len) => {
            if len > MOST_OF_EMPTY {
                return Err(StartFault::Damaged { file, place: 0 });
            }
            Ok(())
        }
        Err(_) => Err(StartFault::ReadFault),
    }
}

/// The catalogue of a log by which this stands, or else the fresh one.
fn with_standing(alloc: Global, log: GateLog, read: Option<Standing>) -> Result<Catalog, AllocError>
    requires right { IfSome read (λ s. standing_piece.right s) }
    ensures log { IfOk result (λ c. c.log ≡ log) }
    ensures standing { IfOk result (λ c. c.standing ≡ or_fresh read) }
{
    match read {
        Some(standing) => Ok(Catalog {
            alloc,
            log,
            standing,
        }),
        None => Ok(Catalog {
            alloc,
            log,
            standing: fresh(alloc)?,
        }),
    }
}

impl Catalog {
    ghost use Rattle.px_schema.specs.Fresh.{fresh_standing};
    ghost use Rattle.px_schema.specs.declared.standing.Standing.{Standing as SchemaStanding};
    ghost use Rattle.px_outside.specs.Standing.{StandsIn};
    ghost use Rattle.px_catalog.specs.Catalogue.{CatalogueStands, HasCatalogue, catalogue_files, catalogue_steps_left, is_catalogue_open, standing_of};
    ghost use Rattle.px_catalog.specs.Damage.{IsFirstDamagedInCatalogue};

    /// Opens the catalogue that is in files 0 and 1. In a folder without one the fresh catalogue stands. Nothing is
    /// written, and a stop in the call leaves nothing new.
    ///
    /// It is Damaged at exactly the first place that isn't of the format, and a ReadFault or WriteFault where a call of the
    /// disk failed.
    pub fn reopen<D: Disk>(alloc: Global, disk: &mut D) -> Result<Catalog, StartFault>
        ensures opened { IsTrue D.tells → IfOk result (λ c. CatalogueStands (D.seen disk.old) (standing_of c) × HasCatalogue ⟦<D as Disk>⟧ c disk.new) }
        ensures damaged { (file place : ℕ) → result ≡ Err (StartFault.Damaged file place) → IsTrue D.tells → IsFirstDamagedInCatalogue (D.seen disk.old) file place }
        ensures fresh { IfOk result (λ c. (is_catalogue_open c → ⊥) → standing_of c ≡ fresh_standing) }
        ensures unlaid { IfOk result (λ c. 1 < catalogue_steps_left c) }
        ensures quiet { Stays ⟦<D as Disk>⟧ disk.old disk.new }
        ensures seen { D.seen disk.new ≡ D.seen disk.old }
        ensures read_failed { result ≡ Err StartFault.ReadFault → Rose ⟦<D as Disk>⟧ disk.old disk.new }
        ensures write_failed { result ≡ Err StartFault.WriteFault → Rose ⟦<D as Disk>⟧ disk.old disk.new }
        ensures unfailed { result ≢ Err StartFault.ReadFault → result ≢ Err StartFault.WriteFault → D.faults disk.new ≡ D.faults disk.old }
        ensures counts { Passes ⟦<D as Disk>⟧ disk.old disk.new 8 }
    {
        let mut reader = CatalogReader::new(alloc);
        let log = GateLog::start(alloc, disk, 0, 1, &mut reader)?;
        let read = reader.into_standing();
        if log.is_open() {
            return Ok(with_standing(alloc, log, read)?);
        }
        drop(read);
        is_short(disk, 0)?;
        is_short(disk, 1)?;
        Ok(with_standing(alloc, log, None)?)
    }

    /// Makes the first segment, in three steps at most.
    fn make_first<D: Disk>(&mut self, disk: &mut D) -> Result<(), StartFault>
        requires fresh { standing_of self.old ≡ fresh_standing }
        requires closed { is_catalogue_open self.old → ⊥ }
        ensures done { HasCatalogue ⟦<D as Disk>⟧ self.old disk.old → OnOk result (HasCatalogue ⟦<D as Disk>⟧ self.new disk.new) }
        ensures same { standing_of self.new ≡ standing_of self.old }
        ensures any_moment { HasCatalogue ⟦<D as Disk>⟧ self.old disk.old → LeavesOnly ⟦<D as Disk>⟧ disk.old disk.new (λ moment image. CatalogueStands image (standing_of self.old)) }
        ensures open { OnOk result (is_catalogue_open self.new) }
        ensures undamaged { (file place : ℕ) → result ≢ Err (StartFault.Damaged file place) }
        ensures failed { result ≡ Err StartFault.WriteFault → Rose ⟦<D as Disk>⟧ disk.old disk.new }
        ensures unread { result ≢ Err StartFault.ReadFault }
        ensures unfailed { result ≢ Err StartFault.WriteFault → D.faults disk.new ≡ D.faults disk.old }
        ensures touches { HasCatalogue ⟦<D as Disk>⟧ self.old disk.old → TouchesOnly ⟦<D as Disk>⟧ disk.old disk.new catalogue_files }
        ensures counts { Passes ⟦<D as Disk>⟧ disk.old disk.new 9 }
    {
        loop {
            match self.roll_step(disk) {
                Ok(Rolled::Rolled) => return Ok(()),
                Ok(Rolled::More) => {}
                Err(CatalogFault::Full) => unreachable!(),
                Err(CatalogFault::WriteFault) => return Err(StartFault::WriteFault),
                Err(CatalogFault::Memory) => return Err(StartFault::Memory),
            }
        }
    }

    /// Opens the catalogue as `reopen` does, and makes the fresh one where no segment is open. What stands stays at each
    /// moment. Over a damaged one nothing is written.
    pub fn start<D: Disk>(alloc: Global, disk: &mut D) -> Result<Catalog, StartFault>
        ensures started { IsTrue D.tells → IfOk result (λ c. CatalogueStands (D.seen disk.old) (standing_of c) × HasCatalogue ⟦<D as Disk>⟧ c disk.new) }
        ensures open { IfOk result (λ c. is_catalogue_open c) }
        ensures damaged { (file place : ℕ) → result ≡ Err (StartFault.Damaged file place) → IsTrue D.tells → IsFirstDamagedInCatalogue (D.seen disk.old) file place }
        ensures untouched { (file place : ℕ) → result ≡ Err (StartFault.Damaged file place) → Stays ⟦<D as Disk>⟧ disk.old disk.new × (D.seen disk.new ≡ D.seen disk.old) }

        // Where a stop at first leaves what stands, it does at each moment of the call.
        ensures any_moment { (s : SchemaStanding) → IsTrue D.tells → CatalogueStands (D.seen disk.old) s → StandsIn ⟦<D as Disk>⟧ disk.old catalogue_files (λ image. CatalogueStands image s)
            → LeavesOnly ⟦<D as Disk>⟧ disk.old disk.new (λ moment image. CatalogueStands image s) }
        ensures read_failed { result ≡ Err StartFault.ReadFault → Rose ⟦<D as Disk>⟧ disk.old disk.new }
        ensures write_failed { result ≡ Err StartFault.WriteFault → Rose ⟦<D as Disk>⟧ disk.old disk.new }
        ensures unfailed { result ≢ Err StartFault.ReadFault → result ≢ Err StartFault.WriteFault → D.faults disk.new ≡ D.faults disk.old }
        ensures touches { IsTrue D.tells → TouchesOnly ⟦<D as Disk>⟧ disk.old disk.new catalogue_files }
        ensures counts { Passes ⟦<D as Disk>⟧ disk.old disk.new 17 }
    {
        let mut catalog = Catalog::reopen(alloc, disk)?;
        if catalog.is_open() {
            return Ok(catalog);
        }
        match catalog.make_first(disk) {
            Ok(()) => Ok(catalog),
            Err(fault) => {
                drop(catalog);
                Err(fault)
            }
        }
    }
}
