// A report as a machine: each step makes one call.
ghost use Rattle.std.specs.Prelude.{◌≡◌, ◌↔◌, ◌⊎◌, ℕ, List, Option, None, Some, IfOk, IfErr, IsTrue};
ghost use Rattle.px_calls.specs.declared.query.By.{By as Bys};
ghost use Rattle.px_calls.specs.Known.{Known};
ghost use Rattle.px_calls.specs.Requires.{IsReadable, index_of_found};
ghost use Rattle.px_values.specs.declared.name.TableId.{TableId as TableIds};
ghost use Rattle.px_verify.specs.Faults.{IsLookFault, fault_of as fault_is};
ghost use Rattle.px_verify.specs.Looking.{HasFoundChunk, whole};
ghost use Rattle.px_verify.specs.Points.{IsOpenPoint};
ghost use Rattle.px_verify.specs.Reports.{report_of};
ghost use Rattle.px_verify.specs.Rising.{AreApart, AreRisingVersions};
ghost use Rattle.px_verify.specs.Turns.{FitsReport, GoesOn, IsReportGoing, ReportTurns};

use crate::answer::{ReportFault, ReportTurn, Reported};
use crate::entries::{keep_rows, keep_versions};
use crate::merging::{compare, sort};
use crate::report::{IndexEntry, Report, Version};
use px_calls::{By, Chunk, Path, Point, StepFault, Steps};
use px_entries::index_of;
use px_paths::{PathColumn, index_path};
use px_tables::{Index, IndexState};
use px_values::{IndexId, Items, Key, TableId};
use std::alloc::Global;

/// The greatest SCN: a point under it stands at its table's last stamp.
const NEWEST_SCN: u64 = 9_223_372_036_854_775_808;

/// A report on its way: its point, the index as it is there, the columns of its keys, and what looks found so far.
pub struct Reading {
    pub point: Point,
    pub index: Index,
    pub path: Items<PathColumn>,
    pub rows: Vec<IndexEntry>,
    pub versions: Vec<Version>,
}

/// The entries that the table's rows ask for, and the versions of the index.
#[derive(Drop)]
pub struct Lists {
    pub rows: Vec<IndexEntry>,
    pub versions: Vec<Version>,
}

/// What the next step of a report is.
pub enum ReportState {
    Opening,
    /// A look on the table's path, past which key.
    Rows(Reading, Option<Key>),
    /// A look on the index's path, past which key.
    Versions(Reading, Option<Key>),
    Closing(Point, Result<Lists, ReportFault>),
    Over,
}

fn fault_of(f: StepFault) -> ReportFault
    requires { IsLookFault f }
    ensures { result ≡ fault_is f }
{
    match f {
        StepFault::ReadFault => ReportFault::ReadFault,
        StepFault::Damaged { file, place } => ReportFault::Damaged { file, place },
        StepFault::Closed { call } => ReportFault::Closed { call },
        StepFault::Memory => ReportFault::Memory,
        _ => unreachable!(),
    }
}

/// The reading ends with a fault: what it kept goes, and its point is to be closed.
fn failed(x: Reading, f: ReportFault) -> ReportState
    ensures { result ≡ ReportState.Closing x.point (Err f) }
{
    let Reading {
        point,
        index: _index,
        path: _path,
        rows: _rows,
        versions: _versions,
    } = x;
    ReportState::Closing(point, Err(f))
}

/// The reading came to its end.
fn ended(x: Reading) -> ReportState
    ensures { result ≡ ReportState.Closing x.point (Ok (record { rows = x.rows; versions = x.versions })) }
{
    let Reading {
        point,
        index: _index,
        path: _path,
        rows,
        versions,
    } = x;
    ReportState::Closing(point, Ok(Lists { rows, versions }))
}

/// The index as it is in the point.
fn index_at(alloc: Global, point: &Point, index: IndexId) -> Result<Index, ReportFault>
    ensures ok { IfOk result (λ x. index_of_found point.now.found index.0 ≡ Some x) }
    ensures err { IfErr result (λ f. ((f ≡ ReportFault.NoIndex) × (index_of_found point.now.found index.0 ≡ None)) ⊎ (f ≡ ReportFault.Memory)) }
{
    match index_of(point.found.indexes.as_slice(), index) {
        None => Err(ReportFault::NoIndex),
        Some(found) => match found.copied(alloc) {
            Ok(copy) => Ok(copy),
            Err(_) => Err(ReportFault::Memory),
        },
    }
}

/// Whether the index may be read at the point.
fn is_readable(point: &Point, index: &Index) -> bool
    ensures { IsTrue result ↔ IsReadable point.now (Some index.now) }
{
    index.state == IndexState::Active && index.birth <= point.stamp
}

/// The path with every key.
fn whole_path(alloc: Global, by: By) -> Path
    ensures { result ≡ whole by }
{
    Path {
        by,
        low: Key::of(Vec::new(alloc)),
        high: None,
    }
}

/// Begins to read at a point that was just opened. It makes no call; `S` names what was opened.
fn begin<S: Steps>(alloc: Global, point: Point, index: IndexId) -> ReportState
    ensures { (k : Known) → IsOpenPoint k point → GoesOn S.sound k point.table index point ReportState.Opening result }
{
    match index_at(alloc, &point, index) {
        Err(f) => ReportState::Closing(point, Err(f)),
        Ok(index) => match index_path(alloc, &point.found.table, &index) {
            Err(_) => ReportState::Closing(point, Err(ReportFault::Memory)),
            Ok(path) => ReportState::Rows(
                Reading {
                    point,
                    index,
                    path,
                    rows: Vec::new(alloc),
                    versions: Vec::new(alloc),
                },
                None,
            ),
        },
    }
}

/// Keeps what a look on the table's path found, and says what comes next. It makes no call; `S` names what was opened.
fn with_rows<S: Steps>(alloc: Global, index: IndexId, mut x: Reading, chunk: Chunk) -> ReportState
    ensures { (t : TableIds) → (k : Known) → (after : Option (List ℕ)) → FitsReport S.sound t index (ReportState.Rows x after) k → HasFoundChunk S.sound k x.point Bys.Table after chunk → GoesOn S.sound k t index x.point (ReportState.Rows x after) result }
{
    let Chunk {
        found,
        next,
        at: _at,
    } = chunk;
    let included = x.index.included.as_slice();
    match keep_rows(alloc, x.path.as_slice(), included, found, &mut x.rows) {
        Err(_) => failed(x, ReportFault::Memory),
        Ok(()) => match next {
            Some(last) => ReportState::Rows(x, Some(last)),
            None => {
                if is_readable(&x.point, &x.index) {
                    return ReportState::Versions(x, None);
                }
                ended(x)
            }
        },
    }
}

/// Keeps what a look on the index's path found, and says what comes next. It makes no call; `S` names what was opened.
fn with_versions<S: Steps>(
    alloc: Global,
    index: IndexId,
    mut x: Reading,
    chunk: Chunk,
) -> ReportState
    ensures { (t : TableIds) → (k : Known) → (after : Option (List ℕ)) → FitsReport S.sound t index (ReportState.Versions x after) k → HasFoundChunk S.sound k x.point (Bys.Index index) after chunk → GoesOn S.sound k t index x.point (ReportState.Versions x after) result }
{
    let Chunk {
        found,
        next,
        at: _at,
    } = chunk;
    let included = x.index.included.as_slice();
    match keep_versions(alloc, included, found, &mut x.versions) {
        Err(_) => failed(x, ReportFault::Memory),
        Ok(()) => match next {
            Some(last) => ReportState::Versions(x, Some(last)),
            None => ended(x),
        },
    }
}

/// Opens the point. While a batch at or below it is undecided, the same step is tried again.
fn open<S: Steps>(
    s: &mut S,
    alloc: Global,
    table: TableId,
    index: IndexId,
) -> (ReportState, ReportTurn)
    ensures turns { ReportTurns S.sound table index ReportState.Opening (S.known s.old) result.0 (S.known s.new) result.1 }
    ensures one_call { S.one_call s.old s.new }
{
    match s.open_point(table, Some(NEWEST_SCN)) {
        Ok(point) => (begin::<S>(alloc, point, index), ReportTurn::Stepped),
        Err(StepFault::NotYet { stamp }) => (ReportState::Opening, ReportTurn::Waiting { stamp }),
        Err(StepFault::NoTable) => (
            ReportState::Over,
            ReportTurn::Over(Err(ReportFault::NoTable)),
        ),
        Err(StepFault::BelowHorizon { horizon }) => (
            ReportState::Over,
            ReportTurn::Over(Err(ReportFault::BelowHorizon { horizon })),
        ),
        Err(StepFault::Closed { call }) => (
            ReportState::Over,
            ReportTurn::Over(Err(ReportFault::Closed { call })),
        ),
        Err(StepFault::Memory) => (
            ReportState::Over,
            ReportTurn::Over(Err(ReportFault::Memory)),
        ),
        Err(_) => unreachable!(),
    }
}

/// Looks at the next keys of the table's path.
fn look_at_rows<S: Steps>(
    s: &mut S,
    alloc: Global,
    table: TableId,
    index: IndexId,
    x: Reading,
    after: Option<Key>,
) -> (ReportState, ReportTurn)
    requires { FitsReport S.sound table index (ReportState.Rows x after) (S.known s.old) }
    ensures turns { ReportTurns S.sound table index (ReportState.Rows x after) (S.known s.old) result.0 (S.known s.new) result.1 }
    ensures one_call { S.one_call s.old s.new }
{
    let path = whole_path(alloc, By::Table);
    match s.look(&x.point, &path, &after) {
        Ok(chunk) => (with_rows::<S>(alloc, index, x, chunk), ReportTurn::Stepped),
        Err(f) => (failed(x, fault_of(f)), ReportTurn::Stepped),
    }
}

/// Looks at the next keys of the index's path.
fn look_at_versions<S: Steps>(
    s: &mut S,
    alloc: Global,
    table: TableId,
    index: IndexId,
    x: Reading,
    after: Option<Key>,
) -> (ReportState, ReportTurn)
    requires { FitsReport S.sound table index (ReportState.Versions x after) (S.known s.old) }
    ensures turns { ReportTurns S.sound table index (ReportState.Versions x after) (S.known s.old) result.0 (S.known s.new) result.1 }
    ensures one_call { S.one_call s.old s.new }
{
    let path = whole_path(alloc, By::Index(index));
    match s.look(&x.point, &path, &after) {
        Ok(chunk) => (
            with_versions::<S>(alloc, index, x, chunk),
            ReportTurn::Stepped,
        ),
        Err(f) => (failed(x, fault_of(f)), ReportTurn::Stepped),
    }
}

/// Compares both lists.
fn report_on(lists: Lists) -> Result<Report, ReportFault>
    ensures ok { IfOk result (λ r. AreApart lists.rows.items → AreRisingVersions lists.versions.items → r ≡ report_of lists.rows.items lists.versions.items) }
    ensures err { IfErr result (λ f. f ≡ ReportFault.Memory) }
{
    let Lists { mut rows, versions } = lists;
    match sort(&mut rows) {
        Ok(()) => Ok(compare(rows.as_slice(), versions.as_slice())),
        Err(_) => Err(ReportFault::Memory),
    }
}

/// Closes the point, and compares what was found.
fn close<S: Steps>(
    s: &mut S,
    table: TableId,
    index: IndexId,
    point: Point,
    end: Result<Lists, ReportFault>,
) -> (ReportState, ReportTurn)
    requires { FitsReport S.sound table index (ReportState.Closing point end) (S.known s.old) }
    ensures turns { ReportTurns S.sound table index (ReportState.Closing point end) (S.known s.old) result.0 (S.known s.new) result.1 }
    ensures one_call { S.one_call s.old s.new }
{
    let first = point.found.at;
    s.close_point(point);
    let last = s.seen();
    match end {
        Err(f) => (ReportState::Over, ReportTurn::Over(Err(f))),
        Ok(lists) => match report_on(lists) {
            Err(f) => (ReportState::Over, ReportTurn::Over(Err(f))),
            Ok(report) => (
                ReportState::Over,
                ReportTurn::Over(Ok(Reported {
                    report,
                    first,
                    last,
                })),
            ),
        },
    }
}

/// The next step of a report: one call.
pub(crate) fn advance<S: Steps>(
    s: &mut S,
    alloc: Global,
    table: TableId,
    index: IndexId,
    state: ReportState,
) -> (ReportState, ReportTurn)
    requires fits { FitsReport S.sound table index state (S.known s.old) }
    requires going { IsReportGoing state }
    ensures turns { ReportTurns S.sound table index state (S.known s.old) result.0 (S.known s.new) result.1 }
    ensures one_call { S.one_call s.old s.new }
{
    match state {
        ReportState::Opening => open(s, alloc, table, index),
        ReportState::Rows(x, after) => look_at_rows(s, alloc, table, index, x, after),
        ReportState::Versions(x, after) => look_at_versions(s, alloc, table, index, x, after),
        ReportState::Closing(point, end) => close(s, table, index, point, end),
        ReportState::Over => unreachable!(),
    }
}

/// Lets a state go that holds no point.
pub(crate) fn let_go(state: ReportState)
    requires { state ≡ ReportState.Over }
{
    match state {
        ReportState::Over => {}
        _ => unreachable!(),
    }
}
