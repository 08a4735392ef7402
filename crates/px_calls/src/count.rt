// A count of calls.
ghost use Rattle.std.specs.Prelude.{◌≡◌};
ghost use Rattle.px_calls.specs.Counts.{count_after as after_one};

/// The count after one call more. It stands still at the greatest number of 64 bits.
pub fn count_after(calls: u64) -> u64
    ensures { result ≡ after_one calls }
{
    calls.saturating_add(1)
}
