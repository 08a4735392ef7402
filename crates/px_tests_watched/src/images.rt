// What the disk holds after each step.
use px_opening::{Opened, open};
use px_outside::{CallMade, MemDisk};
use px_tests_runs::copies::{copied, followed};
use px_tests_runs::dice::Dice;
use px_tests_runs::model::Version;
use px_tests_runs::plain::are_told;
use px_trail::Trail;
use std::alloc::Global;

/// A point behind all stamps of a run.
pub const NEWEST: u64 = 1_000_000;

/// Whether an opened folder tells the rows of this moment, and those as of an earlier stamp.
fn is_right(
    alloc: Global,
    opened: &Opened,
    versions: &[Version],
    within: u64,
    earlier: u64,
) -> bool {
    are_told(alloc, opened, versions, within, NEWEST) == Ok(true)
        && are_told(alloc, opened, versions, within, earlier) == Ok(true)
}

/// The same of what a disk holds. A copy is opened, since the log of a region may be half made, and opening would go on with it.
fn holds(
    alloc: Global,
    disk: &mut MemDisk,
    files: &[u64],
    versions: &[Version],
    within: u64,
    earlier: u64,
) -> bool {
    let Some(mut copy) = copied(alloc, disk, files) else {
        return false;
    };
    let holds = match open(alloc, &mut copy) {
        Ok(opened) => {
            let is_right = is_right(alloc, &opened, versions, within, earlier);
            drop(opened);
            is_right
        }
        Err(_) => false,
    };
    drop(copy);
    holds
}

/// Whether a call failed.
pub fn has_failed(made: &[CallMade]) -> bool {
    made.iter().any(|call| call.failed)
}

/// How many calls were made before the first that failed.
fn calls_before_fault(made: &[CallMade]) -> u64 {
    let mut count: u64 = 0;
    for call in made {
        if call.failed {
            return count;
        }
        count = call.number;
    }
    count
}

/// After how many steps that changed it a disk held the rows written so far; none where it didn't after one. It follows the calls of the
/// disk that the run was made on, from what that one was before, up to the step in which a call failed: what is there behind that one is told
/// by no entry. The sync behind the last byte of a record may be what failed, and then its rows are there.
pub fn images_held(
    alloc: Global,
    disk: &mut MemDisk,
    files: &[u64],
    made: &[CallMade],
    trail: &Trail,
    versions: &[Version],
    dice: &mut Dice,
) -> Option<u64> {
    let (mut count, mut behind): (u64, u64) = (0, 0);
    let most = calls_before_fault(made);
    for place in 0..trail.len() {
        let calls = trail.entry(place).calls;
        if calls > most {
            return Some(count);
        }
        let is_changed = followed(disk, made, behind, calls)?;
        behind = calls;
        let earlier = u64::from(dice.below(20)).saturating_add(1);
        if is_changed {
            if !holds(alloc, disk, files, versions, place + 1, earlier) {
                return None;
            }
            count = count.saturating_add(1);
        }
    }
    Some(count)
}
