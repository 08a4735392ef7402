// Making the files of a region.
ghost use Rattle.std.specs.Prelude.{◌≡◌, ◌⊎◌, ◌<◌, ◌+◌, length, IsTrue, IsErr, OnOk, OnErr, Ok, Err};
ghost use Rattle.px_outside.specs.OnDisk.{LeavesOnly, Passes, Rose, TouchesOnly};
ghost use Rattle.px_wal.specs.Files.{HasFile};

use crate::{JobFault, Region};
use px_gatelog::{Frame, Rolled};
use px_outside::Disk;

/// What a step of a job answers.
#[derive(Clone, Copy, Debug, PartialEq, Eq)]
pub enum JobStep {
    /// There are more steps.
    More,
    Done,
}

impl Region {
    ghost use Rattle.px_region.specs.Region.{RegionData, RegionHolds, RegionStands, data_of, read_of};
    ghost use Rattle.px_region.specs.Forgetting.{StaysWanted};
    ghost use Rattle.px_region.specs.Ordered.{IsSameOrder};
    ghost use Rattle.px_region.specs.Promise.{IsPrepared, IsSamePromise};
    ghost use Rattle.px_region.specs.declared.fault.JobFault.TheVariants.{Memory, WriteFault};

    /// Makes one step of the first segment of its log, where none is open, or else of its manifest. What the region stands
    /// for stays at each moment. After `Done` both are open; where both were, no call is made. Where no memory is found, nothing
    /// was done.
    pub fn prepare_step<D: Disk>(&mut self, disk: &mut D) -> Result<JobStep, JobFault>
        ensures done { (s : RegionData) → RegionHolds ⟦<D as Disk>⟧ self.old disk.old s → OnOk result (RegionHolds ⟦<D as Disk>⟧ self.new disk.new s) }

        // At each moment of the call a stop leaves the region as it is.
        ensures any_moment { (s : RegionData) → RegionHolds ⟦<D as Disk>⟧ self.old disk.old s → LeavesOnly ⟦<D as Disk>⟧ disk.old disk.new (λ moment image. RegionStands self.old.number image s) }
        ensures prepared { result ≡ Ok JobStep.Done → IsPrepared self.new }
        ensures failed { result ≡ Err WriteFault → Rose ⟦<D as Disk>⟧ disk.old disk.new }
        ensures refused { result ≡ Err Memory → (self.new ≡ self.old) × (disk.new ≡ disk.old) }
        ensures touches { (s : RegionData) → RegionHolds ⟦<D as Disk>⟧ self.old disk.old s → TouchesOnly ⟦<D as Disk>⟧ disk.old disk.new (HasFile self.old.number) }
        ensures counts { Passes ⟦<D as Disk>⟧ disk.old disk.new 4 }
        ensures promised { IsSamePromise self.old self.new }
        ensures read { read_of self.new ≡ read_of self.old }
        ensures number { self.new.number ≡ self.old.number }
        ensures horizon { (data_of self.new).horizon ≡ (data_of self.old).horizon }
        ensures looked { self.new.looked ≡ self.old.looked }
        ensures ordered { OnOk result (IsSameOrder self.old self.new) }
        ensures wanted { OnOk result (StaysWanted self.old self.new) }
    {
        if !self.wal.is_open() {
            return match self.wal.roll_step(disk) {
                Ok(_) => Ok(JobStep::More),
                Err(_) => Err(JobFault::WriteFault),
            };
        }
        if self.manifest.is_open() {
            return Ok(JobStep::Done);
        }
        let mut frame = match Frame::with_room(self.alloc, self.manifest.snapshot().body_len()) {
            Ok(frame) => frame,
            Err(_) => return Err(JobFault::Memory),
        };
        match self.manifest.roll_step(disk, &mut frame) {
            Ok(Rolled::More) => Ok(JobStep::More),
            Ok(Rolled::Rolled) => Ok(JobStep::Done),
            Err(_) => Err(JobFault::WriteFault),
        }
    }
}
