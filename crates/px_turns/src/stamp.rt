//! Which stamp is drawn, and which was the last before.
ghost use Rattle.std.specs.Prelude.{◌≡◌, max};
ghost use Rattle.px_turns.specs.Turns.{drawn_stamp, greatest};

/// The greatest stamp.
const MOST: u64 = 9_223_372_036_854_775_807;

/// A clock above this counts as this.
const LATEST: u64 = 4_611_686_018_427_387_904;

/// The stamp that is drawn behind the last one while the clock shows this; None where no stamp is left.
pub fn next_stamp(last: u64, clock: u64) -> Option<u64>
    ensures { result ≡ drawn_stamp last clock }
{
    let shown = clock.min(LATEST);
    if shown > last {
        Some(shown)
    } else if last < MOST {
        Some(last + 1)
    } else {
        None
    }
}

/// The greatest of the stamps, or 0: the last stamp of a table whose regions and births have these.
pub fn greatest_of(stamps: &[u64]) -> u64
    ensures { result ≡ greatest stamps.now }
{
    let mut most = 0;
    for stamp in stamps {
        most = greater(most, *stamp);
    }
    most
}

pub(crate) fn greater(a: u64, b: u64) -> u64
    ensures { result ≡ max a b }
{
    if a < b { b } else { a }
}
