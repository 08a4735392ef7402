// A round on one thread.
ghost use Rattle.std.specs.Prelude.{◌≡◌, ◌<◌, ◌≤◌, ◌^◌, ℕ, [], length, slice_get, Some, IfOk, IfErr, vec_capacity};
ghost use Rattle.px_rounds.specs.Rounds.{HasRound};
ghost use Rattle.px_rounds.specs.Turns.{IsSingle, TrailGoesOn};
ghost use Rattle.px_rounds.specs.inner.Desks.{AreCut};

use crate::desks::{Told, cut_all, opened, taken_back};
use crate::turns::run_turns;
use px_calls::Steps;
use px_lex::script::Piece;
use px_reply::Transcript;
use px_script::Round;
use px_seat::Single;
use px_session::{SessionRun, SessionState};
use std::alloc::{AllocError, Global};
use std::sync::Wait;
use std::thread::Threads;

/// The lists of a round, before its sessions begin: the pieces of each, and room for the others.
#[derive(Drop)]
pub(crate) struct Lists<'a> {
    pub(crate) pieces: Vec<Vec<Piece<'a>>>,
    pub(crate) transcripts: Vec<Transcript>,
    pub(crate) states: Vec<SessionState>,
}

pub(crate) fn lists_for<'a>(
    alloc: Global,
    round: &'a Round,
    count: usize,
) -> Result<Lists<'a>, AllocError>
    requires { count < 2 ^ 32 }
    ensures cut { IfOk result (λ l. AreCut round.now count l.pieces.items) }
    ensures empty { IfOk result (λ l. (l.transcripts.items ≡ []) × (l.states.items ≡ [])) }
    ensures room { IfOk result (λ l. (count ≤ vec_capacity l.transcripts) × (count ≤ vec_capacity l.states)) }
{
    let transcripts = Vec::with_capacity(alloc, count)?;
    let states = Vec::with_capacity(alloc, count)?;
    let pieces = cut_all(alloc, round.as_slice(), count)?;
    Ok(Lists {
        pieces,
        transcripts,
        states,
    })
}

/// Runs a round on one thread. Where no memory is found for its lists it runs nothing, and hands the states back.
pub fn in_turns<R: Threads + Wait + Sync, S: Single>(
    rt: &R,
    alloc: Global,
    s: &mut S,
    number: u64,
    round: &Round,
    states: Vec<SessionState>,
    schedule: &[u32],
) -> Result<Told, Vec<SessionState>>
    requires single { IsSingle (S.known s.old) }
    requires count { length states.items < 2 ^ 32 }
    ensures goes { TrailGoesOn (S.known s.old) (S.known s.new) }
    ensures round { IfOk result (λ told. HasRound S.sound (S.known s.new) (length (S.known s.old).seen) (length (S.known s.new).seen) number states.items round.now told.transcripts.items told.states.items told.lacked) }
    ensures none { IfErr result (λ back. (back.items ≡ states.items) × (S.known s.new ≡ S.known s.old)) }
{
    let Ok(lists) = lists_for(alloc, round, states.len()) else {
        return Err(states);
    };
    let Ok(runs) = Vec::with_capacity(alloc, states.len()) else {
        return Err(states);
    };
    let Lists {
        pieces,
        transcripts,
        states: after,
    } = lists;
    let mut runs = opened(alloc, number, pieces, states, s.seen(), runs);
    run_turns(rt, alloc, s, runs.as_mut_slice(), schedule);
    Ok(taken_back::<S>(runs, transcripts, after))
}
