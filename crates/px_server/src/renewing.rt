// The catalogue is renewed where it is full.
ghost use Rattle.std.specs.Prelude.{◌≡◌, ◌≢◌, IfErr, IfOk, None, OnOk, false, Err, Ok};
ghost use Rattle.px_calls.specs.Calls.{DidWork};
ghost use Rattle.px_calls.specs.Causes.{Refuses, upkeep_cause};
ghost use Rattle.px_calls.specs.declared.status.Work.TheVariants.{Did as DidStep};
ghost use Rattle.px_catalog.specs.Catalogue.{HasCatalogue};
ghost use Rattle.px_outside.specs.OnDisk.{Rose};
ghost use Rattle.px_region.specs.declared.fault.JobFault.TheVariants.{Memory, WriteFault};
ghost use Rattle.px_server.specs.DeviceCalls.{Blames, MakesAtMost};
ghost use Rattle.px_server.specs.Shown.{known_by};
ghost use Rattle.px_server.specs.inner.Renewing.{HasRenewed, IsFilled, Renews};

use crate::shutting::shut;
use crate::{Founded, Server};
use px_calls::StepFault;
use px_catalog::{Catalog, CatalogFault};
use px_gatelog::Rolled;
use px_outside::{Clock, CountsCalls, Disk};
use px_region::JobFault;
use px_seat::Based;

/// What a step of the catalogue's renewal came to.
#[derive(Clone, Copy)]
pub(crate) enum Renewal {
    /// It was made.
    Made,
    /// It was the last one, and the catalogue is still full of what stands.
    InVain,
    /// None can be made: no generation is left, or no segment has room for what stands.
    Unmade,
}

/// Makes a step of the catalogue's renewal. What stands stays.
fn renew_step<D: Disk>(catalog: &mut Catalog, disk: &mut D) -> Result<Renewal, JobFault>
    ensures renews { Renews ⟦<D as Disk>⟧ catalog.old catalog.new disk.old disk.new }
    ensures ok { OnOk result (HasRenewed ⟦<D as Disk>⟧ catalog.old catalog.new disk.old disk.new) }
    ensures undone { IfOk result (λ did. did ≢ Renewal.Made → HasCatalogue ⟦<D as Disk>⟧ catalog.old disk.old → IsFilled catalog.new) }
    ensures unmade { result ≡ Ok Renewal.Unmade → disk.new ≡ disk.old }
    ensures failed { result ≡ Err WriteFault → Rose ⟦<D as Disk>⟧ disk.old disk.new }
    ensures refused { result ≡ Err Memory → HasRenewed ⟦<D as Disk>⟧ catalog.old catalog.new disk.old disk.new }
{
    match catalog.roll_step(disk) {
        Ok(Rolled::More) => Ok(Renewal::Made),
        Ok(Rolled::Rolled) => {
            if catalog.is_full() {
                Ok(Renewal::InVain)
            } else {
                Ok(Renewal::Made)
            }
        }
        Err(CatalogFault::Full) => Ok(Renewal::Unmade),
        Err(CatalogFault::WriteFault) => Err(JobFault::WriteFault),
        Err(CatalogFault::Memory) => Err(JobFault::Memory),
    }
}

impl<D: CountsCalls, C: Clock, B: Based + Founded> Server<D, C, B> {
    /// Makes a step of the catalogue's renewal where it is full, and whether it did. Behind a renewal that gave no room none is made once, so that the
    /// regions have their turn.
    pub(crate) fn renew_catalog(&mut self) -> Result<bool, StepFault>
        ensures ok { IfOk result (λ _. DidWork (known_by B.base B.damaged self.old) (known_by B.base B.damaged self.new) DidStep) }
        ensures groups { self.new.groups ≡ self.old.groups }
        ensures same { IfOk result (λ _. (self.new ≡ record self.old { calls = self.new.calls; faults = self.new.faults }) × (self.old.closed ≡ None)) }
        ensures unmade { IfOk result (λ did. did ≡ false → self.new ≡ self.old) }
        ensures refused { IfErr result (Refuses (upkeep_cause B.sound) (known_by B.base B.damaged self.old) (known_by B.base B.damaged self.new)) }
        ensures counts { MakesAtMost 4 self.old self.new }
        ensures blames { IfErr result (Blames self.old self.new) }
    {
        if let Some(call) = self.closed {
            return Err(StepFault::Closed { call });
        }
        if self.in_vain || !self.catalog.is_full() {
            self.in_vain = false;
            return Ok(false);
        }
        match renew_step(&mut self.catalog, &mut self.disk) {
            Ok(Renewal::Made) => Ok(true),
            Ok(Renewal::InVain) => {
                self.in_vain = true;
                Ok(true)
            }
            Ok(Renewal::Unmade) => Ok(false),
            Err(JobFault::Memory) => Err(StepFault::Memory),
            Err(JobFault::WriteFault) => {
                let calls = self.disk.call_count();
                self.closed = Some(calls);
                shut(&mut self.trail, self.seat, calls);
                Err(StepFault::WriteFault)
            }
        }
    }
}
