// A read that failed is told.
ghost use Rattle.std.specs.Prelude.{◌≡◌, ◌<◌, ◌+◌};
ghost use Rattle.px_trail.specs.Trail.{missed_call, missed_step};
ghost use Rattle.px_server.specs.inner.Missing.{Misses, TellsFault, unread_fault};

use px_calls::StepFault;
use px_region::LookFault;
use px_trail::{Act, Entry, Trail};

/// The call that an act tells as a failed read, or else the one before.
fn missed_after(missed: u64, act: &Act) -> u64
    ensures { result ≡ missed_step missed act.now }
{
    match act {
        Act::Missed { call } => *call,
        Act::Made { .. }
        | Act::IndexMade { .. }
        | Act::IndexState { .. }
        | Act::Dropped { .. }
        | Act::Begun { .. }
        | Act::Phase { .. }
        | Act::Wrote { .. }
        | Act::Ended { .. }
        | Act::Opened { .. }
        | Act::Released { .. }
        | Act::Raised { .. }
        | Act::Fixed { .. }
        | Act::Based { .. }
        | Act::Shut { .. } => missed,
    }
}

/// The call that the last entry of a failed read tells, 0 where there is none. The whole trail is gone through, which only a failed read costs.
fn last_missed(trail: &Trail) -> u64
    ensures { result ≡ missed_call trail.now.entries }
{
    let mut missed = 0u64;
    for i in 0..trail.len() {
        missed = missed_after(missed, &trail.entry(i).act);
    }
    missed
}

/// Tells that the call of this number failed in a read, for which there is room. Where one of no smaller number was told before, it isn't told, and is
/// refused with `Memory`: a disk that counts its calls has none such.
pub(crate) fn miss(trail: &mut Trail, seat: u32, calls: u64) -> StepFault
    requires { 0 < trail.old.room }
    ensures told { Misses seat calls trail.old.entries trail.new.entries result }
    ensures room { trail.new.room + 1 ≡ trail.old.room }
{
    let missed = last_missed(trail);
    if missed >= calls && (missed != u64::MAX || calls != u64::MAX) {
        trail.give_back(1, 0);
        return StepFault::Memory;
    }
    trail.push(Entry {
        seat,
        calls,
        act: Act::Missed { call: calls },
    });
    StepFault::ReadFault
}

/// What is told of a step that only read, for which there is room: where a read failed, its entry is added. Else the room is given back.
pub(crate) fn told(trail: &mut Trail, seat: u32, calls: u64, fault: StepFault) -> StepFault
    requires { 0 < trail.old.room }
    ensures told { TellsFault seat calls trail.old.entries trail.new.entries fault result }
    ensures room { trail.new.room + 1 ≡ trail.old.room }
{
    match fault {
        StepFault::ReadFault => miss(trail, seat, calls),
        _ => {
            trail.give_back(1, 0);
            fault
        }
    }
}

/// Why nothing was read.
pub(crate) fn unread(fault: LookFault) -> StepFault
    ensures { result ≡ unread_fault fault }
{
    match fault {
        LookFault::ReadFault => StepFault::ReadFault,
        LookFault::Damaged { file, place } => StepFault::Damaged { file, place },
        LookFault::Memory => StepFault::Memory,
    }
}
