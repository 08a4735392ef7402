// The runs of a round's sessions, from their texts and states, and what they came to.
ghost use Rattle.std.specs.Prelude.{◌≡◌, ◌≢◌, ◌≤◌, ◌<◌, ◌^◌, ℕ, [], List, length, vec_capacity, slice_get, Some, IfOk, true, false, ◌||◌};
ghost use Rattle.px_calls.specs.Known.{Known};
ghost use Rattle.px_session.specs.Live.{ArePlaced};
ghost use Rattle.px_session.specs.declared.state.Ending.TheVariants.{Memory as Lacking};
ghost use Rattle.px_session.specs.declared.state.SessionState.{SessionState as States};
ghost use Rattle.px_rounds.specs.Rounds as spec;
ghost use Rattle.px_rounds.specs.Turns.{AreLive, AreOver};
ghost use Rattle.px_rounds.specs.inner.Desks.{AreCut, AreFirst, AreSessionsTold};

use px_lex::script::Piece;
use px_reply::Transcript;
use px_script::{SessionText, pieces};
use px_seat::Single;
use px_session::{Ending, SessionRun, SessionState};
use std::alloc::{AllocError, Global};

/// What the sessions of a round came to: their transcripts, their states then, and whether one of them lacked memory to keep an answer.
#[derive(Drop)]
pub struct Told {
    pub transcripts: Vec<Transcript>,
    pub states: Vec<SessionState>,
    pub lacked: bool,
}

/// The text of a session in a round; where it has none there, an empty one.
fn text_in<'a>(round: &'a [SessionText], session: u32) -> &'a str
    ensures { result.now ≡ spec.text_in round.now session }
{
    for text in round {
        if text.session == session {
            return text.text.as_str();
        }
    }
    ""
}

/// The pieces of each of the first sessions of a round.
pub(crate) fn cut_all<'a>(
    alloc: Global,
    round: &'a [SessionText],
    count: usize,
) -> Result<Vec<Vec<Piece<'a>>>, AllocError>
    requires { count < 2 ^ 32 }
    ensures { IfOk result (λ all. AreCut round.now count all.items) }
{
    let mut all = Vec::with_capacity(alloc, count)?;
    for place in 0..count {
        all.push_reserved(pieces(alloc, text_in(round, place as u32 + 1))?);
    }
    Ok(all)
}

/// A run for each session, when `from` entries are there.
pub(crate) fn opened<'a>(
    alloc: Global,
    number: u64,
    mut all: Vec<Vec<Piece<'a>>>,
    mut states: Vec<SessionState>,
    from: u64,
    mut runs: Vec<SessionRun<'a>>,
) -> Vec<SessionRun<'a>>
    requires count { (length all.items ≡ length states.items) × (length states.items < 2 ^ 32) }
    requires placed { (i : ℕ) (pieces : _) → slice_get all.items i ≡ Some pieces → ArePlaced pieces.items }
    requires room { (runs.items ≡ []) × (length states.items ≤ vec_capacity runs) }
    ensures first { AreFirst number from states.items all.entry.items result.items }
{
    let mut session = 0;
    'opening: while !states.is_empty() {
        session += 1;
        let pieces = all.remove(0);
        let state = states.remove(0);
        runs.push_reserved(SessionRun::of(alloc, session, number, pieces, state, from));
    }
    runs
}

pub(crate) fn is_memory(ending: Ending) -> bool
    ensures { result ≡ false → ending ≢ Lacking }
{
    matches!(ending, Ending::Memory)
}

pub(crate) fn either(a: bool, b: bool) -> bool
    ensures { result ≡ (a || b) }
{
    a || b
}

/// What the sessions came to.
pub(crate) fn taken_back<S: Single>(
    mut runs: Vec<SessionRun<'_>>,
    mut transcripts: Vec<Transcript>,
    mut states: Vec<SessionState>,
) -> Told
    requires over { AreOver runs.items }
    requires live { (k : Known) × (began : List States) × AreLive S.sound k began runs.items }
    requires room { (transcripts.items ≡ []) × (states.items ≡ []) × (length runs.items ≤ vec_capacity transcripts) × (length runs.items ≤ vec_capacity states) }
    ensures told { (k : Known) → (began : List States) → AreLive S.sound k began runs.entry.items → AreSessionsTold S.sound k began runs.entry.items result.transcripts.items result.states.items result.lacked }
{
    let mut lacked = false;
    while !runs.is_empty() {
        let (transcript, state, ending) = runs.remove(0).transcript::<S>();
        transcripts.push_reserved(transcript);
        states.push_reserved(state);
        lacked = either(lacked, is_memory(ending));
    }
    runs.destroy_empty();
    Told {
        transcripts,
        states,
        lacked,
    }
}
