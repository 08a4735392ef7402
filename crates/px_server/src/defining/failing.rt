// The entry of a definition, or what is left of one that wasn't written.
ghost use Rattle.std.specs.Prelude.{◌≡◌, ◌≢◌, ◌<◌, ◌≤◌, ◌+◌, ◌++◌, ◌∷◌, [], ℕ, length, vec_len, vec_capacity, IfErr, OnOk, Err, Ok, Some};
ghost use Rattle.px_calls.specs.declared.fault.StepFault.TheVariants.{Memory as MemoryFault, NotReady as NotReadyFault, WriteFault as Failed};
ghost use Rattle.px_catalog.specs.declared.fault.CatalogFault.TheVariants.{Full as FullCatalog, Memory as NoMemory, WriteFault as WriteFailed};
ghost use Rattle.px_catalog.specs.declared.fault.CatalogFault.{CatalogFault as CatalogFaults};
ghost use Rattle.px_trail.specs.declared.entry.Act.TheVariants.{Shut as ShutAct};
ghost use Rattle.px_trail.specs.Count.{counted_act};
ghost use Rattle.px_server.specs.inner.Entering.{HasEntered, IsUnwritten};

use crate::shutting::shut;
use px_calls::StepFault;
use px_catalog::CatalogFault;
use px_group::Group;
use px_outside::CountsCalls;
use px_trail::{Act, Entry, Trail};
use std::alloc::AllocError;

/// Takes room for one entry more, of a definition.
pub(crate) fn take_entry(trail: &mut Trail) -> Result<(), AllocError>
    ensures same { trail.new.entries ≡ trail.old.entries }
    ensures ok { OnOk result (trail.new.room ≡ trail.old.room + 1) }
    ensures least { trail.old.room ≤ trail.new.room }
{
    match trail.reserve(1, 0) {
        Ok(()) => Ok(()),
        Err(_) => Err(AllocError),
    }
}

/// Takes room for one table more and for one entry more.
pub(crate) fn take_room(groups: &mut Vec<Group>, trail: &mut Trail) -> Result<(), AllocError>
    ensures groups { groups.new.items ≡ groups.old.items }
    ensures same { trail.new.entries ≡ trail.old.entries }
    ensures ok { OnOk result ((vec_len groups.new < vec_capacity groups.new) × (trail.new.room ≡ trail.old.room + 1)) }
    ensures least { trail.old.room ≤ trail.new.room }
{
    groups.reserve(1)?;
    take_entry(trail)
}

/// What is left of a definition whose record wasn't written, for whose entry there is room. A failed write closes the server, and the
/// entry is late.
fn unwritten<D: CountsCalls>(
    fault: CatalogFault,
    disk: &D,
    seat: u32,
    act: Act,
    trail: &mut Trail,
    late: &mut Option<Entry>,
    closed: &mut Option<u64>,
) -> StepFault
    requires room { 0 < trail.old.room }
    ensures full { fault ≡ FullCatalog → result ≡ NotReadyFault 0 }
    ensures memory { fault ≡ NoMemory → result ≡ MemoryFault }
    ensures failed { fault ≡ WriteFailed → result ≡ Failed }
    ensures kept { fault ≢ WriteFailed → (trail.new.entries ≡ trail.old.entries) × (late.new ≡ late.old) × (closed.new ≡ closed.old) }
    ensures shut { fault ≡ WriteFailed → (trail.new.entries ≡ trail.old.entries ++ record { seat = seat; calls = D.calls disk.now; act = ShutAct (D.calls disk.now) } ∷ []) × (late.new ≡ Some (record { seat = seat; calls = D.calls disk.now; act = act })) × (closed.new ≡ Some (D.calls disk.now)) }
    ensures room { trail.new.room + 1 ≡ trail.old.room }
{
    match fault {
        CatalogFault::WriteFault => {
            let calls = disk.call_count();
            shut(trail, seat, calls);
            *late = Some(Entry { seat, calls, act });
            *closed = Some(calls);
            StepFault::WriteFault
        }
        CatalogFault::Full => {
            drop(act);
            trail.give_back(1, 0);
            StepFault::NotReady { region: 0 }
        }
        CatalogFault::Memory => {
            drop(act);
            trail.give_back(1, 0);
            StepFault::Memory
        }
    }
}

/// What a definition is told by once the catalogue answered, for whose entry, which begins no batch, there is room: it is added, or the definition is
/// unwritten.
pub(crate) fn entered<D: CountsCalls>(
    outcome: Result<(), CatalogFault>,
    disk: &D,
    seat: u32,
    act: Act,
    trail: &mut Trail,
    late: &mut Option<Entry>,
    closed: &mut Option<u64>,
) -> Result<(), StepFault>
    requires bytes { counted_act act ≡ 0 }
    requires room { 0 < trail.old.room }
    ensures ok { OnOk result ((outcome ≡ Ok tt) × HasEntered (record { seat = seat; calls = D.calls disk.now; act = act }) trail.old.entries trail.new.entries late.old late.new closed.old closed.new) }
    ensures refused { IfErr result (λ f. (fault : CatalogFaults) × (outcome ≡ Err fault) × IsUnwritten fault (record { seat = seat; calls = D.calls disk.now; act = act }) trail.old.entries trail.new.entries late.old late.new closed.old closed.new f) }
    ensures room { trail.new.room + 1 ≡ trail.old.room }
{
    match outcome {
        Ok(()) => {
            let calls = disk.call_count();
            trail.push(Entry { seat, calls, act });
            Ok(())
        }
        Err(fault) => Err(unwritten(fault, disk, seat, act, trail, late, closed)),
    }
}
