// How many sessions a script has.
ghost use Rattle.std.specs.Prelude.{◌≡◌, ◌≤◌};
ghost use Rattle.std.specs.List.{All};
ghost use Rattle.px_rounds.specs.Rounds.{AreWithin};

use px_script::{Round, SessionText};

fn greater(a: u32, b: u32) -> u32
    ensures { (a ≤ result) × (b ≤ result) }
{
    if a < b { b } else { a }
}

/// The greatest number of a session in this round, or `least` where that is greater.
fn most_in(round: &[SessionText], least: u32) -> u32
    ensures least { least ≤ result }
    ensures within { All (λ x. x.session ≤ result) round.now }
{
    let mut most = least;
    for text in round {
        most = greater(most, text.session);
    }
    most
}

/// The greatest number of a session in these rounds.
pub(crate) fn sessions_in(rounds: &[Round]) -> u32
    ensures { AreWithin result rounds.now }
{
    let mut most = 0;
    for round in rounds {
        most = most_in(round.as_slice(), most);
    }
    most
}
