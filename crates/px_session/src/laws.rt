// What stays true of a session.
ghost use Rattle.std.specs.Prelude.{◌≡◌, length};
ghost use Rattle.px_calls.specs.Known.{Known, TimePasses};
ghost use Rattle.px_session.specs.declared.run.SessionRun.{SessionRun as Runs};
ghost use Rattle.px_session.specs.declared.state.SessionState.{SessionState as States};
ghost use Rattle.px_session.specs.Live.{IsSessionLive, StartsFrom};
ghost use Rattle.std.specs.Prelude.{ℕ};
ghost use Rattle.std.specs.Prelude.{List, ◌++◌, []};
ghost use Rattle.px_lex.specs.Script.{SeenPiece};
ghost use Rattle.px_trail.specs.declared.entry.Entry.{Entry as Entries};
ghost use Rattle.px_trail.specs.Trail.{acts_by};
ghost use Rattle.px_calls.specs.Known.{outline};
ghost use Rattle.px_reply.specs.declared.transcript.Transcript.{Transcript as Transcripts};
ghost use Rattle.px_session.specs.declared.state.Ending.{Ending as Endings};
ghost use Rattle.px_session.specs.Replies.{IsSessionAnswered};

use px_calls::Steps;

/// A session that begins is on its way, and so it stays under others' entries between two of its steps.
pub fn law_sessions<S: Steps>()
    ensures begins { (began : States) → (from : ℕ) → (run : Runs) → (k : Known) → from ≡ length k.seen → StartsFrom began from run → IsSessionLive S.sound k began run }
    ensures others { (began : States) → (run : Runs) → (k : Known) → (k' : Known) → TimePasses k k' → IsSessionLive S.sound k began run → IsSessionLive S.sound k' began run }
{}

/// What a session came to in a round stays so in each longer trail, and to the end of the round, where others act alone.
pub fn law_answers<S: Steps>()
    ensures stays { (k : Known) → (k' : Known) → (more : List Entries) → (from : ℕ) → (to : ℕ) → (st : States) → (ps : List SeenPiece) → (t : Transcripts) → (st' : States) → (e : Endings)
        → k'.seat ≡ k.seat → k'.base ≡ k.base → k'.damaged ≡ k.damaged → k'.seen ≡ k.seen ++ more → IsSessionAnswered S.sound k from to st ps t st' e → IsSessionAnswered S.sound k' from to st ps t st' e }
    ensures grows { (k : Known) → (k' : Known) → (more : List Entries) → (from : ℕ) → (st : States) → (ps : List SeenPiece) → (t : Transcripts) → (st' : States) → (e : Endings)
        → k'.seat ≡ k.seat → k'.base ≡ k.base → k'.damaged ≡ k.damaged → k'.seen ≡ k.seen ++ more → outline (acts_by k.seat more) ≡ [] → IsSessionAnswered S.sound k from (length k.seen) st ps t st' e → IsSessionAnswered S.sound k' from (length k'.seen) st ps t st' e }
{}
