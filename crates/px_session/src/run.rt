// A session's run.
ghost use Rattle.std.specs.Prelude.{◌≡◌, ◌≢◌, ◌<◌, ◌+◌, ◌^◌, ◌++◌, ◌∷◌, [], length, map, drop, vec_capacity, None, Some, true, false};
ghost use Rattle.std.specs.List.{All, slice_get};
ghost use Rattle.px_lex.specs.Script.{seen_piece};
ghost use Rattle.px_script.specs.Pieces.{span_of};
ghost use Rattle.px_calls.specs.Known.{Known};
ghost use Rattle.px_scan.specs.Fixes.{KeepsDoubts};
ghost use Rattle.px_scan.specs.Looking.{IsByIndex, Looks};
ghost use Rattle.px_item.specs.Selects.{IfSelect, ScansTo};
ghost use Rattle.px_session.specs.declared.state.SessionState.{SessionState as States};
ghost use Rattle.px_session.specs.Replies as replies;
ghost use Rattle.px_session.specs.Selects.{IfSelecting, IsSelectingThen};
ghost use Rattle.px_session.specs.Live.{ArePlaced, IsOverAt, IsPushed, IsSameSession, IsSessionLive, StartsFrom, StepsOn, UnderWay, makes_call, with_doing};

use crate::state::{Ending, SessionState, is_fatal, state_after};
use px_calls::Steps;
use px_item::{After, Answered, Begun, ItemRun, ItemTurn, Settings, begin};
use px_lex::script::Piece;
use px_reply::{Evidence, Item, Transcript};
use px_script::{Span, place_of};
use px_values::Items;
use std::alloc::Global;
use std::sync::Wait;
use std::thread::Threads;
use std::{mem, thread};

/// What a session does now.
pub enum Doing<'a> {
    /// Nothing since its last item.
    Idle(Settings),
    /// The item of its next piece, which stands there.
    Under(ItemRun<'a>, Span),
    /// It was taken out, to be put back before the step ends.
    Taken,
}

/// What one step of a session came to.
#[derive(Clone, Copy, Debug, PartialEq, Eq)]
pub enum SessionTurn {
    /// It made one call.
    Stepped,
    /// It made one call, which is to be tried again.
    Waiting,
    /// It made no call.
    Passed,
    Finished,
}

/// A session of a round on its way. Other seats may act between two of its steps.
pub struct SessionRun<'a> {
    pub session: u32,
    pub round: u64,
    pub pieces: Vec<Piece<'a>>,
    pub next: usize,
    pub from: u64,
    pub stopped: bool,
    pub before: u64,
    pub doing: Doing<'a>,
    pub items: Vec<Item>,
    pub ending: Option<Ending>,
}

/// From which of its pieces on a session runs.
fn place_from(count: usize, stopped: bool) -> usize
    ensures { result ≡ replies.place_from count stopped }
{
    if stopped { count } else { 0 }
}

/// The piece of this place, where there is one.
fn piece_at<'a>(pieces: &[Piece<'a>], place: usize) -> Option<Piece<'a>>
    ensures { result ≡ slice_get pieces.now place }
{
    match pieces.get(place) {
        Some(piece) => Some(*piece),
        None => None,
    }
}

fn let_go(doing: Doing<'_>)
    requires { doing ≡ Doing.Taken }
{
    match doing {
        Doing::Taken => {}
        _ => unreachable!(),
    }
}

/// The settings after an item, and whether the next piece is asked.
fn settled(after: After) -> (Settings, bool)
    ensures { (result.0 ≡ replies.settled after) × (result.1 ≡ replies.goes_on after) }
{
    match after {
        After::Next(settings) => (settings, true),
        After::Again(settings) => (settings, false),
    }
}

impl<'a> SessionRun<'a> {
    /// A session of these pieces at the beginning of a round, when it has seen `from` entries.
    pub fn of(
        alloc: Global,
        session: u32,
        round: u64,
        pieces: Vec<Piece<'a>>,
        state: SessionState,
        from: u64,
    ) -> SessionRun<'a>
        requires placed { ArePlaced pieces.items }
        ensures pieces { result.pieces ≡ pieces.entry }
        ensures named { (result.session ≡ session) × (result.round ≡ round) }
        ensures starts { StartsFrom state from result }
    {
        let SessionState { settings, stopped } = state;
        let next = place_from(pieces.len(), stopped);
        SessionRun {
            session,
            round,
            pieces,
            next,
            from,
            stopped,
            before: from,
            doing: Doing::Idle(settings),
            items: Vec::new(alloc),
            ending: None,
        }
    }

    fn set_doing(&mut self, doing: Doing<'a>)
        requires { self.old.doing ≡ Doing.Taken }
        ensures { self.new ≡ with_doing self.old doing.entry }
    {
        let_go(mem::replace(&mut self.doing, doing));
    }

    /// Keeps an item.
    fn push(&mut self, span: Span, answered: Answered, last: u64)
        requires taken { self.old.doing ≡ Doing.Taken }
        requires going { self.old.ending ≡ None }
        requires room { length self.old.items.items < vec_capacity self.old.items }
        requires here { slice_get self.old.pieces.items self.old.next ≢ None }
        ensures { IsPushed self.old span answered last self.new }
    {
        let Answered {
            reply,
            receipts,
            places,
            first,
            after,
        } = answered;
        if is_fatal(&reply) {
            self.ending = Some(Ending::Fatal);
        }
        self.items.push_reserved(Item {
            statement: span,
            reply,
            evidence: Evidence {
                receipts,
                places,
                first,
                last,
            },
        });
        let (settings, goes_on) = settled(after);
        self.set_doing(Doing::Idle(settings));
        self.before = last;
        if goes_on {
            self.next += 1;
        }
    }

    /// Ends the round.
    fn finish(&mut self, settings: Settings, ending: Ending) -> SessionTurn
        requires { self.old.doing ≡ Doing.Taken }
        ensures same { self.new ≡ record (with_doing self.old (Doing.Idle settings)) { ending = Some ending } }
        ensures finished { result ≡ SessionTurn.Finished }
    {
        self.set_doing(Doing::Idle(settings));
        self.ending = Some(ending);
        SessionTurn::Finished
    }

    /// Begins the next piece, when the session has seen `first` entries. It makes no call.
    fn start_piece(&mut self, alloc: Global, settings: Settings, piece: Piece<'a>, first: u64)
        requires taken { self.old.doing ≡ Doing.Taken }
        requires going { self.old.ending ≡ None }
        requires room { length self.old.items.items < vec_capacity self.old.items }
        requires here { slice_get self.old.pieces.items self.old.next ≡ Some piece }
        requires placed { piece.place + length piece.text.now < 2 ^ 64 }
        ensures { UnderWay self.old settings piece.entry first self.new }
    {
        let span = place_of(&piece);
        match begin(alloc, piece, settings, first) {
            Begun::Told(answered) => self.push(span, answered, first),
            Begun::Under(run) => self.set_doing(Doing::Under(run, span)),
        }
    }

    /// Goes on to the next piece, where there is one. It makes no call.
    fn start<S: Steps>(&mut self, alloc: Global, s: &S, settings: Settings) -> SessionTurn
        requires taken { self.old.doing ≡ Doing.Taken }
        requires live { (began : States) × IsSessionLive S.sound (S.known s.now) began (with_doing self.old (Doing.Idle settings)) }
        requires going { self.old.ending ≡ None }
        ensures steps { (began : States) → IsSessionLive S.sound (S.known s.now) began (with_doing self.old (Doing.Idle settings)) → StepsOn S.sound began (S.known s.now) (with_doing self.old (Doing.Idle settings)) (S.known s.now) self.new }
        ensures over { IsOverAt result self.new.ending }
        ensures no_call { makes_call result ≡ false }
    {
        let Some(piece) = piece_at(self.pieces.as_slice(), self.next) else {
            return self.finish(settings, Ending::Whole);
        };
        if self.items.reserve(1).is_err() {
            return self.finish(settings, Ending::Memory);
        }
        self.start_piece(alloc, settings, piece, s.seen());
        SessionTurn::Passed
    }

    /// Goes on with the item that is under way.
    fn go_on<R: Threads + Sync, S: Steps>(
        &mut self,
        rt: &R,
        alloc: Global,
        s: &mut S,
        run: ItemRun<'a>,
        span: Span,
    ) -> SessionTurn
        requires taken { self.old.doing ≡ Doing.Taken }
        requires live { (began : States) × IsSessionLive S.sound (S.known s.old) began (with_doing self.old (Doing.Under run span)) }
        requires going { self.old.ending ≡ None }
        ensures steps { (began : States) → IsSessionLive S.sound (S.known s.old) began (with_doing self.old (Doing.Under run.entry span)) → StepsOn S.sound began (S.known s.old) (with_doing self.old (Doing.Under run.entry span)) (S.known s.new) self.new }
        ensures over { IsOverAt result self.new.ending }
        ensures calls { makes_call result ≡ true }
        ensures scans { IfSelect run.entry.state (λ x. IsSelectingThen x self.new.doing (λ q. ScansTo S.sound x (S.known s.old) (S.known s.new) q)) }
        ensures looks { (S.known s.old).alone ≡ true → IfSelect run.entry.state (λ x. IsByIndex x.scan.state → IsSelectingThen x self.new.doing (λ q. Looks S.sound x.scan.state (S.known s.old) (S.looked s.old) q (S.known s.new) (S.looked s.new) (S.doubtful s.new))) }
        ensures doubts { (S.known s.old).alone ≡ true → S.sound → IfSelect run.entry.state (λ x. IsSelectingThen x self.new.doing (λ q. KeepsDoubts x.scan.state (S.known s.old) (S.doubtful s.old) q (S.known s.new) (S.doubtful s.new))) }
        ensures one_call { S.one_call s.old s.new }
    {
        match run.step(rt, alloc, s) {
            ItemTurn::Stepped(run) => {
                self.set_doing(Doing::Under(run, span));
                SessionTurn::Stepped
            }
            ItemTurn::Waiting(run) => {
                self.set_doing(Doing::Under(run, span));
                SessionTurn::Waiting
            }
            ItemTurn::Over(answered) => {
                self.push(span, answered, s.seen());
                SessionTurn::Stepped
            }
        }
    }

    /// Makes at most one call.
    pub fn step<R: Threads + Sync, S: Steps>(
        &mut self,
        rt: &R,
        alloc: Global,
        s: &mut S,
    ) -> SessionTurn
        requires live { (began : States) × IsSessionLive S.sound (S.known s.old) began self.old }
        ensures steps { (began : States) → IsSessionLive S.sound (S.known s.old) began self.old → StepsOn S.sound began (S.known s.old) self.old (S.known s.new) self.new }
        ensures over { IsOverAt result self.new.ending }
        ensures scans { IfSelecting self.old.doing (λ run. IsSelectingThen run self.new.doing (λ q. ScansTo S.sound run (S.known s.old) (S.known s.new) q)) }
        ensures looks { (S.known s.old).alone ≡ true → IfSelecting self.old.doing (λ run. IsByIndex run.scan.state → IsSelectingThen run self.new.doing (λ q. Looks S.sound run.scan.state (S.known s.old) (S.looked s.old) q (S.known s.new) (S.looked s.new) (S.doubtful s.new))) }
        ensures doubts { (S.known s.old).alone ≡ true → S.sound → IfSelecting self.old.doing (λ run. IsSelectingThen run self.new.doing (λ q. KeepsDoubts run.scan.state (S.known s.old) (S.doubtful s.old) q (S.known s.new) (S.doubtful s.new))) }
        ensures one_call { makes_call result ≡ true → S.one_call s.old s.new }
        ensures no_call { makes_call result ≡ false → s.new ≡ s.old }
    {
        if self.ending.is_some() {
            return SessionTurn::Finished;
        }
        match mem::replace(&mut self.doing, Doing::Taken) {
            Doing::Idle(settings) => self.start(alloc, s, settings),
            Doing::Under(run, span) => self.go_on(rt, alloc, s, run, span),
            Doing::Taken => unreachable!(),
        }
    }

    /// Whether it has come to its end.
    pub fn is_over(&self) -> bool
        ensures { (result ≡ true → self.now.ending ≢ None) × (result ≡ false → self.now.ending ≡ None) }
    {
        self.ending.is_some()
    }

    /// What the session came to, once it is over, and how it ended.
    pub fn transcript<S: Steps>(self) -> (Transcript, SessionState, Ending)
        requires over { self.ending ≢ None }
        requires live { (k : Known) × (began : States) × IsSessionLive S.sound k began self }
        ensures answered { (k : Known) → (began : States) → IsSessionLive S.sound k began self.entry → replies.IsSessionAnswered S.sound k self.entry.from (length k.seen) began (map seen_piece self.entry.pieces.items) result.0 result.1 result.2 }
        ensures session { (result.0.session ≡ self.entry.session) × (result.0.round ≡ self.entry.round) }
    {
        let SessionRun {
            session,
            round,
            pieces,
            next: _next,
            from: _from,
            stopped,
            before: _before,
            doing,
            items,
            ending,
        } = self;
        drop(pieces);
        let Some(ending) = ending else { unreachable!() };
        let Doing::Idle(settings) = doing else {
            unreachable!()
        };
        let transcript = Transcript {
            session,
            round,
            items: Items::of(items),
        };
        (transcript, state_after(stopped, ending, settings), ending)
    }
}

/// Runs a session to its end.
pub fn run_to_end<R: Threads + Wait + Sync, S: Steps>(
    rt: &R,
    alloc: Global,
    s: &mut S,
    run: &mut SessionRun<'_>,
)
    requires live { (began : States) × IsSessionLive S.sound (S.known s.old) began run.old }
    ensures steps { (began : States) → IsSessionLive S.sound (S.known s.old) began run.old → StepsOn S.sound began (S.known s.old) run.old (S.known s.new) run.new }
    ensures over { run.new.ending ≢ None }
{
    'steps: for _ in rt.forever() {
        match run.step(rt, alloc, s) {
            SessionTurn::Finished => return,
            SessionTurn::Waiting => thread::yield_now(),
            SessionTurn::Stepped | SessionTurn::Passed => {}
        }
    }
    unreachable!()
}
