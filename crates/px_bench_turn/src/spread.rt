//! How even the turns were.

use px_tally::Mark;
use std::alloc::{AllocError, Global};

// How many turns went by until each seat had had one.
fn until_all(alloc: Global, marks: &[Mark], seats: u32) -> Result<usize, AllocError> {
    let mut seen = vec![in alloc; false; seats as usize]?;
    let mut missing = seats;
    for (place, mark) in marks.iter().enumerate() {
        if missing == 0 {
            return Ok(place);
        }
        if let Some(had_one) = seen.get_mut(mark.seat as usize) {
            if !*had_one {
                *had_one = true;
                missing = missing.saturating_sub(1);
            }
        }
    }
    Ok(marks.len())
}

/// The least and the most turns of a seat while all took turns: from when each had had one until one was through.
pub(crate) fn spread(
    alloc: Global,
    marks: &[Mark],
    seats: u32,
    turns: u32,
) -> Result<(u32, u32), AllocError> {
    let passed = until_all(alloc, marks, seats)?;
    let mut counts = vec![in alloc; 0u32; seats as usize]?;
    for mark in marks.get(passed..).unwrap_or(&[]) {
        if let Some(count) = counts.get_mut(mark.seat as usize) {
            *count = count.saturating_add(1);
        }
        if turns <= mark.turn.saturating_add(1) {
            break;
        }
    }
    let least = counts.iter().copied().min().unwrap_or(0);
    let most = counts.iter().copied().max().unwrap_or(0);
    Ok((least, most))
}
