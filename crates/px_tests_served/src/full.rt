// A batch that is to begin when its region has no room for it.
use crate::making::full_batch;
use crate::served::{Case, Wrong, run};
use crate::stepping::{make, refusal, settle};
use px_calls::{StepFault, Steps};
use px_values::Name;
use std::alloc::Global;
use std::sync::Wait;

/// How many batches of 1,000 rows a region has room for.
const FITTING: u64 = 8;

/// Makes as many full batches as the region has room for, each in its five calls: none makes upkeep.
fn fill<R: Wait, S: Steps>(rt: &R, alloc: Global, s: &mut S, name: &Name) -> Result<(), Wrong> {
    for place in 0..FITTING {
        let Some(batch) = full_batch(alloc, place) else {
            return Err(Wrong::NoBatch);
        };
        let Some(made) = make(rt, s, name, batch) else {
            return Err(Wrong::NotMade);
        };
        let is_right = made.calls == 5
            && made.receipt.rows == 1_000
            && made.receipt.stamp == place.wrapping_add(1);
        drop(made);
        if !is_right {
            return Err(Wrong::MadeOtherwise);
        }
    }
    Ok(())
}

/// Whether one batch more is refused, since the region has what those before it wrote: two cells a row, of 43 bytes.
fn refuse<S: Steps>(alloc: Global, s: &mut S, name: &Name) -> Result<(), Wrong> {
    let Some(batch) = full_batch(alloc, FITTING) else {
        return Err(Wrong::NoBatch);
    };
    match refusal(s, name, batch) {
        Some(
            StepFault::Busy {
                region: 1,
                cells: 16_000,
                bytes: 344_000,
            },
        ) => Ok(()),
        _ => Err(Wrong::NotBusy),
    }
}

/// Whether it begins behind upkeep, at the next stamp: the refused one drew none.
fn begin<R: Wait, S: Steps>(rt: &R, alloc: Global, s: &mut S, name: &Name) -> Result<(), Wrong> {
    if !settle(s) {
        return Err(Wrong::NotSettled);
    }
    let Some(batch) = full_batch(alloc, FITTING) else {
        return Err(Wrong::NoBatch);
    };
    let Some(made) = make(rt, s, name, batch) else {
        return Err(Wrong::NotMade);
    };
    let is_right = made.calls == 5 && made.receipt.rows == 1_000 && made.receipt.stamp == 9;
    drop(made);
    if is_right {
        Ok(())
    } else {
        Err(Wrong::MadeOtherwise)
    }
}

/// Fills a region of a new folder, whose log is made before.
pub fn filled<R: Wait, S: Steps>(rt: &R, alloc: Global, s: &mut S) -> Result<(), Wrong> {
    if !settle(s) {
        return Err(Wrong::NotSettled);
    }
    let Ok(name) = Name::from_str(alloc, "KV") else {
        return Err(Wrong::NoMemory);
    };
    fill(rt, alloc, s, &name)?;
    refuse(alloc, s, &name)?;
    begin(rt, alloc, s, &name)
}

#[test]
fn a_full_region_refuses_a_batch_until_it_is_flushed(rt: HostRuntime) {
    if let Err(wrong) = run(&rt, rt.alloc(), 259_200_000, Case::Full) {
        panic!(rt; "{wrong:?}")
    }
}
