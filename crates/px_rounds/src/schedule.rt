// A round by a schedule, or in threads.
ghost use Rattle.std.specs.Prelude.{◌≡◌, ◌<◌, ◌^◌, length, IfOk, IfErr};
ghost use Rattle.px_rounds.specs.Rounds.{HasRound};
ghost use Rattle.px_rounds.specs.Turns.{IsSingle, TrailGoesOn};

use crate::desks::Told;
use crate::gate::Gate;
use crate::one::in_turns;
use crate::threads::in_threads;
use px_calls::Steps;
use px_script::Round;
use px_seat::Single;
use px_session::SessionState;
use std::alloc::Global;
use std::sync::Wait;
use std::thread::Threads;

/// The greatest number of sessions that have a seat each.
const MOST_SEATED: usize = 4_294_967_294;

/// Runs a round: with a schedule on one thread, and so where one session alone has a text in it; else in threads. Where no memory is found
/// for its lists it runs nothing, and hands the states back.
pub(crate) fn run_round<R: Threads + Wait + Sync, S: Single + Send, G: Gate + Sync>(
    rt: &R,
    alloc: Global,
    gate: &G,
    mut server: S,
    number: u64,
    round: &Round,
    states: Vec<SessionState>,
    schedule: Option<&[u32]>,
) -> (S, Result<Told, Vec<SessionState>>)
    requires single { IsSingle (S.known server) }
    requires count { length states.items < 2 ^ 32 }
    ensures goes { TrailGoesOn (S.known server) (S.known result.0) }
    ensures round { IfOk result.1 (λ told. HasRound S.sound (S.known result.0) (length (S.known server).seen) (length (S.known result.0).seen) number states.items round.now told.transcripts.items told.states.items told.lacked) }
    ensures none { IfErr result.1 (λ back. (back.items ≡ states.items) × ((S.known result.0).seen ≡ (S.known server).seen)) }
{
    let list: &[u32] = match schedule {
        Some(list) => list,
        None if round.as_slice().len() > 1 && states.len() <= MOST_SEATED => {
            return in_threads(rt, alloc, gate, server, number, round, states);
        }
        None => &[],
    };
    let told = in_turns(rt, alloc, &mut server, number, round, states, list);
    (server, told)
}
