// What a thread carries out: a session, seen by its facts alone.
ghost use Rattle.std.specs.Prelude.{◌≢◌, None};
ghost use Rattle.px_session.specs.Live.{IsSessionLive};
ghost use Rattle.px_rounds.specs.inner.Jobs.{told_of};

use crate::gate::Gate;
use px_calls::Steps;
use px_session::{SessionRun, SessionTurn};
use std::alloc::Global;
use std::thread::Threads;

/// What goes on a step at a time over any steps.
pub(crate) trait Course {
    ghost use Rattle.std.specs.Prelude.{◌≡◌, true, false};
    ghost use Rattle.std.specs.Thread.{IsSync};
    ghost use Rattle.px_calls.specs.Known.{Known};
    ghost use Rattle.px_session.specs.Live.{makes_call};
    ghost use Rattle.px_session.specs.declared.run.SessionTurn.TheVariants.{Finished};
    ghost use Rattle.px_session.specs.declared.state.SessionState.{SessionState as States};
    ghost use Rattle.px_rounds.specs.inner.Jobs.{CameOn, Unchanged};

    /// It is on its way, as a seat knows the trail.
    ghost on_way: { Type 0 → States → Known → Self → Type 0 };

    /// What stays of it.
    ghost stays: { Self → Unchanged };

    /// It has come to its end.
    ghost over: { Self → Type 0 };

    /// Makes one call at most. An `impl` isn't told of the bound `Sync` at a method: so a clause tells it.
    fn advance<R: Threads + Sync, S: Steps>(
        &mut self,
        rt: &R,
        alloc: Global,
        s: &mut S,
    ) -> SessionTurn
        requires sync { IsSync R.row }
        requires live { (began : States) × on_way S.sound began (S.known s.old) self.old }
        ensures steps { (began : States) → on_way S.sound began (S.known s.old) self.old → CameOn (on_way S.sound began) stays (S.known s.old) self.old (S.known s.new) self.new }
        ensures over { result ≡ Finished → over self.new }
        ensures one_call { makes_call result ≡ true → S.one_call s.old s.new }
        ensures no_call { makes_call result ≡ false → s.new ≡ s.old };

    /// Goes through the gate.
    fn pass<G: Gate>(&self, gate: &G);
}

impl<'a> Course for SessionRun<'a> {
    ghost on_way = { λ sound began k run. IsSessionLive sound k began run };

    ghost stays = { λ run. told_of run };

    ghost over = { λ run. run.ending ≢ None };

    fn advance<R: Threads + Sync, S: Steps>(
        &mut self,
        rt: &R,
        alloc: Global,
        s: &mut S,
    ) -> SessionTurn {
        self.step(rt, alloc, s)
    }

    fn pass<G: Gate>(&self, gate: &G) {
        gate.pass(self);
    }
}
