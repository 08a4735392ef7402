// The catalogue of a folder.
ghost use Rattle.std.specs.Prelude.{◌≡◌, ◌≢◌, ◌≤◌, ◌<◌, ◌+◌, ◌-◌, ◌⊎◌, ◌↔◌, ℕ, length, IsTrue, IfOk, IsErr, OnOk, Ok, Err};
ghost use Rattle.px_outside.specs.OnDisk.{LeavesOnly, Passes, Rose, TouchesOnly};
ghost use Rattle.px_schema.specs.Format.{standing_piece};

use crate::CatalogFault;
use crate::frames::{item_frame, snapshot_frame};
use px_gatelog::{GateLog, Rolled};
use px_outside::Disk;
use px_schema::{CatalogItem, Standing};
use std::alloc::{AllocError, Global};

/// So many bytes any definition may take. A segment that has fewer left is full.
const FULL_BELOW: u64 = 32_768;

/// The catalogue: the tables and indexes that stand, the next number, and the log that keeps them.
#[derive(Drop)]
pub struct Catalog {
    pub(crate) alloc: Global,
    pub(crate) log: GateLog,
    pub(crate) standing: Standing,
    ghost right: { ∥ standing_piece.right standing ∥₁ },
}

impl Catalog {
    ghost use Rattle.px_schema.specs.Records.{IsRightCatalogItem};
    ghost use Rattle.px_schema.specs.Spelled.{body_of, standing_bytes};
    ghost use Rattle.px_schema.specs.Stands.{stands_after};
    ghost use Rattle.px_catalog.specs.Catalogue.{CatalogueStands, HasCatalogue, HasSameSegment, IsCatalogueFull, catalogue_files, catalogue_steps_left, generation_of, is_catalogue_open, room_of_catalogue, standing_of};

    /// The tables and indexes that stand, and the next number.
    pub fn standing(&self) -> &Standing
        ensures { result.now ≡ standing_of self.now }
    {
        &self.standing
    }

    /// Whether it has an open segment.
    pub fn is_open(&self) -> bool
        ensures { IsTrue result ↔ is_catalogue_open self.now }
    {
        self.log.is_open()
    }

    /// Whether no definition is added before the next segment is made: the newest one has fewer than 32,768 bytes left, or
    /// the next one is laid out.
    pub fn is_full(&self) -> bool
        ensures { IsTrue result ↔ IsCatalogueFull self.now }
    {
        !self.log.has_room(FULL_BELOW - 7) || self.log.is_laid()
    }

    /// What stands after a definition.
    fn after(&self, item: CatalogItem) -> Result<Standing, AllocError>
        requires right { IsRightCatalogItem (standing_of self.now) item }
        ensures { IfOk result (λ s. s ≡ stands_after (standing_of self.now) item) }
    {
        match self.standing.copied(self.alloc) {
            Ok(standing) => standing.after(item),
            Err(fault) => {
                drop(item);
                Err(fault)
            }
        }
    }

    /// Adds a definition, or the end of one. After `Ok` it is there. A stop in the call leaves it whole or not at all.
    /// Where the disk fails, no call may follow.
    pub fn append<D: Disk>(&mut self, disk: &mut D, item: CatalogItem) -> Result<(), CatalogFault>
        requires right { IsRightCatalogItem (standing_of self.old) item }
        ensures done { HasCatalogue ⟦<D as Disk>⟧ self.old disk.old → OnOk result (HasCatalogue ⟦<D as Disk>⟧ self.new disk.new) }
        ensures defined { OnOk result (standing_of self.new ≡ stands_after (standing_of self.old) item) }

        // At each moment of the call a stop leaves what stood, or what stands after the definition.
        ensures any_moment { HasCatalogue ⟦<D as Disk>⟧ self.old disk.old
            → LeavesOnly ⟦<D as Disk>⟧ disk.old disk.new (λ moment image. CatalogueStands image (standing_of self.old) ⊎ CatalogueStands image (stands_after (standing_of self.old) item)) }

        // It is full where `is_full` says so, and where the segment has no room for the record.
        ensures full { result ≡ Err CatalogFault.Full → IsCatalogueFull self.old ⊎ (room_of_catalogue self.old < 7 + length (body_of item)) }
        ensures full_told { IsCatalogueFull self.old → result ≡ Err CatalogFault.Full }
        ensures room { OnOk result (room_of_catalogue self.new + (6 + length (body_of item)) ≡ room_of_catalogue self.old) }
        ensures untouched { result ≡ Err CatalogFault.Full ⊎ (result ≡ Err CatalogFault.Memory) → (disk.new ≡ disk.old) × (self.new ≡ self.old) }
        ensures failed { result ≡ Err CatalogFault.WriteFault → Rose ⟦<D as Disk>⟧ disk.old disk.new }
        ensures unfailed { result ≢ Err CatalogFault.WriteFault → D.faults disk.new ≡ D.faults disk.old }
        ensures touches { HasCatalogue ⟦<D as Disk>⟧ self.old disk.old → TouchesOnly ⟦<D as Disk>⟧ disk.old disk.new catalogue_files }
        ensures counts { Passes ⟦<D as Disk>⟧ disk.old disk.new 4 }
        ensures open { is_catalogue_open self.old → is_catalogue_open self.new }
        ensures steps { catalogue_steps_left self.new ≡ catalogue_steps_left self.old }
    {
        if self.is_full() {
            drop(item);
            return Err(CatalogFault::Full);
        }
        let frame = match item_frame(self.alloc, &item) {
            Ok(frame) => frame,
            Err(fault) => {
                drop(item);
                return Err(fault);
            }
        };
        let next = self.after(item)?;
        match self.log.append(disk, &frame) {
            Ok(()) => {
                self.standing = next;
                Ok(())
            }
            Err(fault) => {
                drop(next);
                Err(fault.into())
            }
        }
    }

    /// Makes one step of the next segment, which begins with a snapshot of what stands: closes the gate of its file where it
    /// may be open, or writes the segment behind the gate, or opens the gate. What stands stays at each moment. It is full
    /// where no generation is left, or no segment has room for the snapshot. Where the disk fails, no call may follow.
    pub fn roll_step<D: Disk>(&mut self, disk: &mut D) -> Result<Rolled, CatalogFault>
        ensures done { HasCatalogue ⟦<D as Disk>⟧ self.old disk.old → OnOk result (HasCatalogue ⟦<D as Disk>⟧ self.new disk.new) }
        ensures same { standing_of self.new ≡ standing_of self.old }

        // At each moment of the call a stop leaves what stands.
        ensures any_moment { HasCatalogue ⟦<D as Disk>⟧ self.old disk.old → LeavesOnly ⟦<D as Disk>⟧ disk.old disk.new (λ moment image. CatalogueStands image (standing_of self.old)) }
        ensures opened { result ≡ Ok Rolled.Rolled → is_catalogue_open self.new × (1 < catalogue_steps_left self.new) }

        // Behind the last step it has the snapshot alone.
        ensures room { HasCatalogue ⟦<D as Disk>⟧ self.old disk.old → result ≡ Ok Rolled.Rolled → room_of_catalogue self.new ≡ 67108864 - (22 + length (standing_bytes (standing_of self.old))) }
        ensures more { result ≡ Ok Rolled.More → catalogue_steps_left self.new + 1 ≡ catalogue_steps_left self.old }
        ensures kept { result ≡ Ok Rolled.More → HasSameSegment self.old self.new }
        ensures open { OnOk result (is_catalogue_open self.old → is_catalogue_open self.new) }
        ensures full { result ≡ Err CatalogFault.Full → (generation_of self.old ≡ 18446744073709551615) ⊎ (67108841 < length (standing_bytes (standing_of self.old))) }
        ensures untouched { result ≡ Err CatalogFault.Full ⊎ (result ≡ Err CatalogFault.Memory) → (disk.new ≡ disk.old) × (self.new ≡ self.old) }
        ensures failed { result ≡ Err CatalogFault.WriteFault → Rose ⟦<D as Disk>⟧ disk.old disk.new }
        ensures unfailed { result ≢ Err CatalogFault.WriteFault → D.faults disk.new ≡ D.faults disk.old }
        ensures touches { HasCatalogue ⟦<D as Disk>⟧ self.old disk.old → TouchesOnly ⟦<D as Disk>⟧ disk.old disk.new catalogue_files }
        ensures counts { Passes ⟦<D as Disk>⟧ disk.old disk.new 3 }
    {
        let frame = snapshot_frame(self.alloc, &self.standing)?;
        Ok(self.log.roll_step(disk, Some(&frame))?)
    }
}
