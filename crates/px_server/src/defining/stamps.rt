// The next stamp of a table.
ghost use Rattle.std.specs.Prelude.{◌≡◌, ◌<◌, ◌≤◌, ◌+◌, ℕ, IsTrue, Some};
ghost use Rattle.px_turns.specs.Turns.{drawn_stamp};
ghost use Rattle.px_values.specs.Limits.{most_of};
ghost use Rattle.px_values.specs.declared.limit.Limit.TheVariants.{Stamps};

use px_outside::Clock;

/// The stamp that is drawn behind the last one, by the number that the clock tells. One is left, so that there is one.
pub(crate) fn next_stamp<C: Clock>(clock: &mut C, last: u64) -> u64
    requires { last < most_of Stamps }
    ensures drawn { IsTrue C.tells → drawn_stamp last (C.times clock.old 0) ≡ Some result }
    ensures rest { IsTrue C.tells → (n : ℕ) → C.times clock.new n ≡ C.times clock.old (n + 1) }
    ensures above { last < result }
    ensures most { result ≤ most_of Stamps }
{
    match px_turns::next_stamp(last, clock.now()) {
        Some(stamp) => stamp,
        None => unreachable!(),
    }
}
