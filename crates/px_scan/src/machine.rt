// A query as a machine: each step makes one call.
ghost use Rattle.std.specs.Prelude.{◌≡◌, ◌≤◌, ◌++◌, ◌∷◌, ◌*◌, [], ℕ, Bool, true, Option, List};
ghost use Rattle.px_calls.specs.Calls.{AreRising};
ghost use Rattle.px_calls.specs.Doubtful.{IndexVersion};
ghost use Rattle.px_calls.specs.Known.{Known};
ghost use Rattle.px_calls.specs.declared.query.Point.{Point as Points};
ghost use Rattle.px_scan.specs.Bounds.{Spends, left_of, through};
ghost use Rattle.px_scan.specs.Looking.{IsByIndex, Looks, doubts_in, to_look};
ghost use Rattle.px_scan.specs.Fixes.{AreRisingDoubts, HasDoubts, KeepsDoubts};
ghost use Rattle.px_scan.specs.Faults.{IsScanFault, fault_of as fault_is, is_busy as is_busy_of};
ghost use Rattle.px_scan.specs.Turns.{FitsScan, GoesOn, IsNext, IsQueryGoing, IsReadingAt, IsScanning, QueryTurns};

use crate::answer::{Answer, Placed, QueryFault, QueryTurn};
use crate::asks::{Asks, PathFault};
use crate::keys::{Stop, is_full, keep_held, keep_sure};
use px_calls::{Chunk, Doubt, FoundKey, Path, Point, StepFault, Steps, Work};
use px_values::Key;
use std::alloc::Global;
use std::collections::VecDeque;

/// A scan on its way: its point, the path that it follows, and the rows found so far.
pub struct Scan {
    pub point: Point,
    pub path: Path,
    pub rows: Vec<Placed>,
}

/// What is left of a chunk: the keys that are still to be gone through, the last key of all where there are more, and its place.
#[derive(Drop)]
pub struct Rest {
    pub keys: VecDeque<FoundKey>,
    pub next: Option<Key>,
    pub at: u64,
}

/// What the next step of a query is.
pub enum QueryState {
    Opening(Vec<Placed>),
    /// Past which key.
    Looking(Scan, Option<Key>),
    Consulting(Scan, Rest, Doubt),
    /// The doubt as it was left by its consultation.
    Fixing(Scan, Rest, Doubt),
    /// Upkeep, since the doubt's region was busy.
    Settling(Scan, Rest, Doubt),
    Closing(Point, Result<Vec<Placed>, QueryFault>),
    Over,
}

fn fault_of(f: StepFault) -> QueryFault
    requires { IsScanFault f }
    ensures { result ≡ fault_is f }
{
    match f {
        StepFault::ReadFault => QueryFault::ReadFault,
        StepFault::WriteFault => QueryFault::WriteFault,
        StepFault::Damaged { file, place } => QueryFault::Damaged { file, place },
        StepFault::Closed { call } => QueryFault::Closed { call },
        StepFault::Memory => QueryFault::Memory,
        _ => unreachable!(),
    }
}

fn is_busy(f: StepFault) -> bool
    ensures { result ≡ is_busy_of f }
{
    matches!(f, StepFault::Busy { .. } | StepFault::NotReady { .. })
}

/// The scan ends with a fault: its rows go, and its point is to be closed.
fn failed(x: Scan, f: QueryFault) -> QueryState
    ensures { result ≡ QueryState.Closing x.point (Err f) }
{
    let Scan {
        point,
        path: _path,
        rows: _rows,
    } = x;
    QueryState::Closing(point, Err(f))
}

/// The scan came to its end.
fn ended(x: Scan) -> QueryState
    ensures { result ≡ QueryState.Closing x.point (Ok x.rows) }
{
    let Scan {
        point,
        path: _path,
        rows,
    } = x;
    QueryState::Closing(point, Ok(rows))
}

/// What comes next, where the keys before the rest are gone through. It makes no call; `S` names what was opened.
fn go_on<Q: Asks, S: Steps>(query: &Q, mut x: Scan, rest: Rest) -> QueryState
    ensures goes { (scn : Option ℕ) → (k : Known) → IsScanning S.sound k (Q.asked query.now) scn x rest.keys.items rest.next rest.at → GoesOn S.sound k (Q.asked query.now) scn x.point result }
    ensures next { IsNext result }
    ensures left { left_of result ≤ through rest.keys.items rest.next }
    ensures to_look { to_look result ≤ 2 * doubts_in rest.keys.items }
    ensures doubts { (f : Points → IndexVersion → Bool) → (k : Known) → (low : Option (List ℕ)) → AreRisingDoubts f x.point low rest.keys.items → HasDoubts f k result }
{
    let Rest { mut keys, next, at } = rest;
    match keep_sure(query, &mut keys, at, &mut x.rows) {
        Stop::Doubt(doubt) => QueryState::Consulting(x, Rest { keys, next, at }, doubt),
        Stop::End => match next {
            None => ended(x),
            Some(last) => {
                if is_full(query, x.rows.as_slice()) {
                    return ended(x);
                }
                QueryState::Looking(x, Some(last))
            }
        },
        Stop::Full => ended(x),
        Stop::NoMemory => failed(x, QueryFault::Memory),
    }
}

/// Chooses the path at a point that was just opened. It makes no call; `S` names what was opened.
fn follow<Q: Asks, S: Steps>(
    alloc: Global,
    query: &Q,
    point: Point,
    rows: Vec<Placed>,
) -> QueryState
    requires bound { point.found.table ≡ (Q.asked query.now).bound }
    requires rising { AreRising point.found.indexes }
    requires rows { rows.items ≡ [] }
    ensures goes { (scn : Option ℕ) → (k : Known) → IsReadingAt k (Q.asked query.now) scn point → GoesOn S.sound k (Q.asked query.now) scn point result }
    ensures left { left_of result ≤ 2 }
    ensures to_look { to_look result ≡ 0 }
    ensures doubts { (f : Points → IndexVersion → Bool) → (k : Known) → HasDoubts f k result }
{
    match query.path(alloc, &point) {
        Ok(path) => QueryState::Looking(Scan { point, path, rows }, None),
        Err(PathFault::IndexJoin) => QueryState::Closing(point, Err(QueryFault::IndexJoin)),
        Err(PathFault::Memory) => QueryState::Closing(point, Err(QueryFault::Memory)),
    }
}

/// Opens the point. While a batch at or below it is undecided, the same step is tried again.
fn open<Q: Asks, S: Steps>(
    s: &mut S,
    alloc: Global,
    query: &Q,
    scn: Option<u64>,
    rows: Vec<Placed>,
) -> (QueryState, QueryTurn)
    requires { FitsScan S.sound (Q.asked query.now) scn (QueryState.Opening rows) (S.known s.old) }
    ensures turns { QueryTurns S.sound (Q.asked query.now) scn (QueryState.Opening rows) (S.known s.old) result.0 (S.known s.new) result.1 }
    ensures spends { Spends S.sound (QueryState.Opening rows) (S.known s.old) result.0 (S.known s.new) result.1 }
    ensures looks { (S.known s.old).alone ≡ true → Looks S.sound (QueryState.Opening rows) (S.known s.old) (S.looked s.old) result.0 (S.known s.new) (S.looked s.new) (S.doubtful s.new) }
    ensures doubts { (S.known s.old).alone ≡ true → S.sound → KeepsDoubts (QueryState.Opening rows) (S.known s.old) (S.doubtful s.old) result.0 (S.known s.new) (S.doubtful s.new) }
    ensures one_call { S.one_call s.old s.new }
{
    match s.open_point(query.table(), scn) {
        Ok(point) => (
            follow::<Q, S>(alloc, query, point, rows),
            QueryTurn::Stepped,
        ),
        Err(StepFault::NotYet { stamp }) => {
            (QueryState::Opening(rows), QueryTurn::Waiting { stamp })
        }
        Err(StepFault::NoTable) => (QueryState::Over, QueryTurn::Over(Err(QueryFault::NoTable))),
        Err(StepFault::BelowHorizon { horizon }) => (
            QueryState::Over,
            QueryTurn::Over(Err(QueryFault::BelowHorizon { horizon })),
        ),
        Err(StepFault::Closed { call }) => (
            QueryState::Over,
            QueryTurn::Over(Err(QueryFault::Closed { call })),
        ),
        Err(StepFault::Memory) => (QueryState::Over, QueryTurn::Over(Err(QueryFault::Memory))),
        Err(_) => unreachable!(),
    }
}

/// The keys of a chunk, none of them gone through.
fn rest_of(chunk: Chunk) -> Rest
    ensures keys { result.keys.items ≡ chunk.found }
    ensures next { result.next ≡ chunk.next }
    ensures at { result.at ≡ chunk.at }
{
    let Chunk { found, next, at } = chunk;
    Rest {
        keys: VecDeque::from(found.into_vec()),
        next,
        at,
    }
}

/// Looks at the next keys of the path.
fn look<Q: Asks, S: Steps>(
    s: &mut S,
    query: &Q,
    scn: Option<u64>,
    x: Scan,
    after: Option<Key>,
) -> (QueryState, QueryTurn)
    requires { FitsScan S.sound (Q.asked query.now) scn (QueryState.Looking x after) (S.known s.old) }
    ensures turns { QueryTurns S.sound (Q.asked query.now) scn (QueryState.Looking x after) (S.known s.old) result.0 (S.known s.new) result.1 }
    ensures spends { Spends S.sound (QueryState.Looking x after) (S.known s.old) result.0 (S.known s.new) result.1 }
    ensures looks { (S.known s.old).alone ≡ true → IsByIndex (QueryState.Looking x after) → Looks S.sound (QueryState.Looking x after) (S.known s.old) (S.looked s.old) result.0 (S.known s.new) (S.looked s.new) (S.doubtful s.new) }
    ensures doubts { (S.known s.old).alone ≡ true → S.sound → KeepsDoubts (QueryState.Looking x after) (S.known s.old) (S.doubtful s.old) result.0 (S.known s.new) (S.doubtful s.new) }
    ensures one_call { S.one_call s.old s.new }
{
    match s.look(&x.point, &x.path, &after) {
        Ok(chunk) => (go_on::<Q, S>(query, x, rest_of(chunk)), QueryTurn::Stepped),
        Err(f) => (failed(x, fault_of(f)), QueryTurn::Stepped),
    }
}

/// Asks the data row of a doubt.
fn consult<Q: Asks, S: Steps>(
    s: &mut S,
    query: &Q,
    scn: Option<u64>,
    mut x: Scan,
    rest: Rest,
    mut doubt: Doubt,
) -> (QueryState, QueryTurn)
    requires { FitsScan S.sound (Q.asked query.now) scn (QueryState.Consulting x rest doubt) (S.known s.old) }
    ensures turns { QueryTurns S.sound (Q.asked query.now) scn (QueryState.Consulting x rest doubt) (S.known s.old) result.0 (S.known s.new) result.1 }
    ensures spends { Spends S.sound (QueryState.Consulting x rest doubt) (S.known s.old) result.0 (S.known s.new) result.1 }
    ensures looks { (S.known s.old).alone ≡ true → Looks S.sound (QueryState.Consulting x rest doubt) (S.known s.old) (S.looked s.old) result.0 (S.known s.new) (S.looked s.new) (S.doubtful s.new) }
    ensures doubts { (S.known s.old).alone ≡ true → S.sound → KeepsDoubts (QueryState.Consulting x rest doubt) (S.known s.old) (S.doubtful s.old) result.0 (S.known s.new) (S.doubtful s.new) }
    ensures one_call { S.one_call s.old s.new }
{
    match s.consult(&x.point, &mut doubt) {
        Ok(held) => match keep_held(query, held, &mut x.rows) {
            Ok(()) => (QueryState::Fixing(x, rest, doubt), QueryTurn::Stepped),
            Err(f) => (failed(x, f), QueryTurn::Stepped),
        },
        Err(f) => (failed(x, fault_of(f)), QueryTurn::Stepped),
    }
}

/// Repairs the index row of a doubt, or leaves it.
fn fix<Q: Asks, S: Steps>(
    s: &mut S,
    query: &Q,
    scn: Option<u64>,
    x: Scan,
    rest: Rest,
    doubt: Doubt,
) -> (QueryState, QueryTurn)
    requires { FitsScan S.sound (Q.asked query.now) scn (QueryState.Fixing x rest doubt) (S.known s.old) }
    ensures turns { QueryTurns S.sound (Q.asked query.now) scn (QueryState.Fixing x rest doubt) (S.known s.old) result.0 (S.known s.new) result.1 }
    ensures spends { Spends S.sound (QueryState.Fixing x rest doubt) (S.known s.old) result.0 (S.known s.new) result.1 }
    ensures looks { (S.known s.old).alone ≡ true → Looks S.sound (QueryState.Fixing x rest doubt) (S.known s.old) (S.looked s.old) result.0 (S.known s.new) (S.looked s.new) (S.doubtful s.new) }
    ensures doubts { (S.known s.old).alone ≡ true → S.sound → KeepsDoubts (QueryState.Fixing x rest doubt) (S.known s.old) (S.doubtful s.old) result.0 (S.known s.new) (S.doubtful s.new) }
    ensures one_call { S.one_call s.old s.new }
{
    match s.fix(&doubt) {
        Ok(_) => (go_on::<Q, S>(query, x, rest), QueryTurn::Stepped),
        Err(f) => {
            if is_busy(f) {
                return (QueryState::Settling(x, rest, doubt), QueryTurn::Stepped);
            }
            (failed(x, fault_of(f)), QueryTurn::Stepped)
        }
    }
}

/// Upkeep, until there is none left. Then the doubt is fixed.
fn settle<Q: Asks, S: Steps>(
    s: &mut S,
    query: &Q,
    scn: Option<u64>,
    x: Scan,
    rest: Rest,
    doubt: Doubt,
) -> (QueryState, QueryTurn)
    requires { FitsScan S.sound (Q.asked query.now) scn (QueryState.Settling x rest doubt) (S.known s.old) }
    ensures turns { QueryTurns S.sound (Q.asked query.now) scn (QueryState.Settling x rest doubt) (S.known s.old) result.0 (S.known s.new) result.1 }
    ensures spends { Spends S.sound (QueryState.Settling x rest doubt) (S.known s.old) result.0 (S.known s.new) result.1 }
    ensures looks { (S.known s.old).alone ≡ true → Looks S.sound (QueryState.Settling x rest doubt) (S.known s.old) (S.looked s.old) result.0 (S.known s.new) (S.looked s.new) (S.doubtful s.new) }
    ensures doubts { (S.known s.old).alone ≡ true → S.sound → KeepsDoubts (QueryState.Settling x rest doubt) (S.known s.old) (S.doubtful s.old) result.0 (S.known s.new) (S.doubtful s.new) }
    ensures one_call { S.one_call s.old s.new }
{
    match s.upkeep() {
        Ok(Work::Did) => (QueryState::Settling(x, rest, doubt), QueryTurn::Stepped),
        Ok(Work::Idle) => (QueryState::Fixing(x, rest, doubt), QueryTurn::Stepped),
        Err(f) => (failed(x, fault_of(f)), QueryTurn::Stepped),
    }
}

/// Closes the point.
fn close<Q: Asks, S: Steps>(
    s: &mut S,
    query: &Q,
    scn: Option<u64>,
    point: Point,
    end: Result<Vec<Placed>, QueryFault>,
) -> (QueryState, QueryTurn)
    requires { FitsScan S.sound (Q.asked query.now) scn (QueryState.Closing point end) (S.known s.old) }
    ensures turns { QueryTurns S.sound (Q.asked query.now) scn (QueryState.Closing point end) (S.known s.old) result.0 (S.known s.new) result.1 }
    ensures spends { Spends S.sound (QueryState.Closing point end) (S.known s.old) result.0 (S.known s.new) result.1 }
    ensures looks { (S.known s.old).alone ≡ true → Looks S.sound (QueryState.Closing point end) (S.known s.old) (S.looked s.old) result.0 (S.known s.new) (S.looked s.new) (S.doubtful s.new) }
    ensures doubts { (S.known s.old).alone ≡ true → S.sound → KeepsDoubts (QueryState.Closing point end) (S.known s.old) (S.doubtful s.old) result.0 (S.known s.new) (S.doubtful s.new) }
    ensures one_call { S.one_call s.old s.new }
{
    let first = point.found.at;
    s.close_point(point);
    let last = s.seen();
    match end {
        Ok(rows) => (
            QueryState::Over,
            QueryTurn::Over(Ok(Answer { rows, first, last })),
        ),
        Err(f) => (QueryState::Over, QueryTurn::Over(Err(f))),
    }
}

/// The next step of a query: one call.
pub(crate) fn advance<Q: Asks, S: Steps>(
    s: &mut S,
    alloc: Global,
    query: &Q,
    scn: Option<u64>,
    state: QueryState,
) -> (QueryState, QueryTurn)
    requires fits { FitsScan S.sound (Q.asked query.now) scn state (S.known s.old) }
    requires going { IsQueryGoing state }
    ensures turns { QueryTurns S.sound (Q.asked query.now) scn state (S.known s.old) result.0 (S.known s.new) result.1 }
    ensures spends { Spends S.sound state (S.known s.old) result.0 (S.known s.new) result.1 }
    ensures looks { (S.known s.old).alone ≡ true → IsByIndex state → Looks S.sound state (S.known s.old) (S.looked s.old) result.0 (S.known s.new) (S.looked s.new) (S.doubtful s.new) }
    ensures doubts { (S.known s.old).alone ≡ true → S.sound → KeepsDoubts state (S.known s.old) (S.doubtful s.old) result.0 (S.known s.new) (S.doubtful s.new) }
    ensures one_call { S.one_call s.old s.new }
{
    match state {
        QueryState::Opening(rows) => open(s, alloc, query, scn, rows),
        QueryState::Looking(x, after) => look(s, query, scn, x, after),
        QueryState::Consulting(x, rest, doubt) => consult(s, query, scn, x, rest, doubt),
        QueryState::Fixing(x, rest, doubt) => fix(s, query, scn, x, rest, doubt),
        QueryState::Settling(x, rest, doubt) => settle(s, query, scn, x, rest, doubt),
        QueryState::Closing(point, end) => close(s, query, scn, point, end),
        QueryState::Over => unreachable!(),
    }
}

/// Lets a state go that holds no point.
pub(crate) fn let_go(state: QueryState)
    requires { state ≡ QueryState.Over }
{
    match state {
        QueryState::Over => {}
        _ => unreachable!(),
    }
}
