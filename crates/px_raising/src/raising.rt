// The horizon of a table.
ghost use Rattle.std.specs.Prelude.{◌≡◌, ◌-◌};
ghost use Rattle.px_turns.specs.Turns.{IsRaise};
ghost use Rattle.px_raising.specs.Turning.{below_batches, to_points, turning_of_group};

use px_group::{Begun, Group, OpenPoint};

/// The greatest number up to this one that is below the stamp of each of these batches, or 0.
fn below(batches: &[Begun], most: u64) -> u64
    ensures { result ≡ below_batches batches.now most }
{
    let mut least = most;
    for begun in batches {
        least = least.min(begun.batch.stamp().saturating_sub(1));
    }
    least
}

/// The greatest number up to this one that is at most at each of these points.
fn to(points: &[OpenPoint], most: u64) -> u64
    ensures { result ≡ to_points points.now most }
{
    let mut least = most;
    for point in points {
        least = least.min(point.stamp);
    }
    least
}

/// The greatest horizon that is allowed where so many stamps are looked back on, and no less than the horizon.
pub fn raise_to(group: &Group, lookback: u64) -> u64
    ensures { IsRaise (turning_of_group group.now) lookback result }
{
    let back = group.last.saturating_sub(lookback);
    let unclosed = below(group.batches.as_slice(), back);
    to(group.points.as_slice(), unclosed).max(group.horizon)
}

/// The horizon rises.
pub fn raise(group: &mut Group, horizon: u64)
    ensures { group.new ≡ record group.old { horizon = horizon } }
{
    group.horizon = horizon;
}
