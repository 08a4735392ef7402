// The build of an index as a machine: each step makes one call.
ghost use Rattle.std.specs.Prelude.{◌≡◌, ◌≤◌, ℕ, List, IfOk};
ghost use Rattle.px_paths.specs.Paths.{index_path as index_path_of, table_path as table_path_of};
ghost use Rattle.px_trail.specs.declared.entry.Act.{Act as Acts};
ghost use Rattle.px_upkeep.specs.Turns.{AfterLook, AfterMaking, BasesOn, Begins, BuildTurns, FitsBuild, FitsState, IsDisabling, IsUnopened, IsWhole, Leads, ReadsOn, fault_of_definition, first_or, next_of as next_is, rows_fault, step_fault};
ghost use Rattle.px_values.specs.declared.name.IndexId.{IndexId as IndexNumber};
ghost use Rattle.px_values.specs.declared.name.TableId.{TableId as TableNumber};

use crate::gathered::Gathered;
use crate::rows::{RowsFault, base_pieces};
use px_calls::{
    BaseRows, By, Chunk, Definition, FoundKey, Made, Path, Point, StepFault, Steps, Work,
};
use px_defining::{DefineFault, DefineRun, DefineTurn};
use px_entries::index_of;
use px_paths::{PathColumn, index_path, table_path};
use px_tables::{Index, IndexState, Table};
use px_values::{IndexId, Items, Key, Limit, MOST_KEY, TableId};
use std::alloc::{AllocError, Global};
use std::thread::Threads;

/// The greatest stamp.
const GREATEST_STAMP: u64 = 9_223_372_036_854_775_807;

/// Why an index doesn't stand active.
#[derive(Clone, Copy)]
pub enum BuildFault {
    NoTable,
    NoIndex,
    /// The counted quantity would pass this number. Of Key: a row's key in the index would be longer.
    Limit { which: Limit, count: u64 },
    BelowHorizon { horizon: u64 },
    ReadFault,
    WriteFault,
    Damaged { file: u64, place: u64 },
    Closed { call: u64 },
    Memory,
}

/// A build at its point: the columns of the table's keys and of the index's, and the path that reads the whole table.
pub struct Build {
    pub point: Point,
    pub keys: Items<PathColumn>,
    pub columns: Items<PathColumn>,
    pub path: Path,
}

/// What comes once the point is closed.
#[derive(Clone, Copy)]
pub enum Next {
    /// The build begins again, at this birth.
    Again(u64),
    /// The index is disabled, and is to be built again.
    Renew,
    /// The index stood active.
    Active(Made),
    /// The build is over.
    Failed(BuildFault),
    /// The index is to be disabled.
    Refused(BuildFault),
}

/// What the next step of a build is.
pub enum BuildState {
    /// A point is to be opened at this birth.
    Opening(u64),
    /// The index is to be built again, from a new birth on.
    Renewing(DefineRun),
    /// Past which key, and the chunks that were found since base versions were made.
    Reading(Build, Option<Key>, Gathered),
    /// Rows that are to be given their base versions, those that are to be given them later, and the last key that was read where there are more.
    Basing(Build, BaseRows, Items<BaseRows>, Option<Key>),
    /// Upkeep, since the index's region was busy.
    Settling(Build, BaseRows, Items<BaseRows>, Option<Key>),
    /// The index is to become active.
    Activating(Point, DefineRun),
    Closing(Point, Next),
    /// The index is to be disabled, since the build was refused.
    Disabling(DefineRun, BuildFault),
}

/// The build of an index on its way. Other seats may act between two steps.
pub struct BuildRun {
    alloc: Global,
    table: TableId,
    index: IndexId,
    state: BuildState,
}

/// What one step of a build came to.
pub enum BuildTurn {
    Stepped(BuildRun),
    /// The same step is to be tried again after steps of others.
    Waiting(BuildRun),
    Over(Result<Made, BuildFault>),
}

/// What a step led to.
pub(crate) enum Came {
    On(BuildState),
    Waits(BuildState),
    Over(Result<Made, BuildFault>),
}

fn fault_of(f: StepFault) -> BuildFault
    ensures { result ≡ step_fault f }
{
    match f {
        StepFault::NoTable => BuildFault::NoTable,
        StepFault::BelowHorizon { horizon } => BuildFault::BelowHorizon { horizon },
        StepFault::ReadFault => BuildFault::ReadFault,
        StepFault::WriteFault => BuildFault::WriteFault,
        StepFault::Damaged { file, place } => BuildFault::Damaged { file, place },
        StepFault::Closed { call } => BuildFault::Closed { call },
        _ => BuildFault::Memory,
    }
}

fn fault_after(f: DefineFault) -> BuildFault
    ensures { result ≡ fault_of_definition f }
{
    match f {
        DefineFault::NoTable => BuildFault::NoTable,
        DefineFault::NoIndex => BuildFault::NoIndex,
        DefineFault::Limit { which, count } => BuildFault::Limit { which, count },
        DefineFault::ReadFault => BuildFault::ReadFault,
        DefineFault::WriteFault => BuildFault::WriteFault,
        DefineFault::Damaged { file, place } => BuildFault::Damaged { file, place },
        DefineFault::Closed { call } => BuildFault::Closed { call },
        _ => BuildFault::Memory,
    }
}

/// What a fault leads to: where the server is closed, or nothing is left to be disabled, the build is over.
fn next_of(f: BuildFault) -> Next
    ensures { result ≡ next_is f }
{
    match f {
        BuildFault::NoTable
        | BuildFault::NoIndex
        | BuildFault::WriteFault
        | BuildFault::Closed { .. } => Next::Failed(f),
        _ => Next::Refused(f),
    }
}

/// The build ends with a fault: its point is to be closed.
fn failed(build: Build, f: BuildFault) -> BuildState
    ensures { result ≡ BuildState.Closing build.point (next_is f) }
{
    let Build {
        point,
        keys: _keys,
        columns: _columns,
        path: _path,
    } = build;
    BuildState::Closing(point, next_of(f))
}

/// The SCN of a point at this stamp. The greatest SCN is one above the greatest stamp.
fn scn_of(birth: u64) -> u64
    ensures low { 1 ≤ result }
    ensures high { result ≤ 9223372036854775808 }
{
    birth.min(GREATEST_STAMP) + 1
}

/// The paths of a build at its point.
fn paths(
    alloc: Global,
    table: &Table,
    index: &Index,
) -> Result<(Items<PathColumn>, Items<PathColumn>), AllocError>
    ensures { IfOk result (λ paths. (paths.0 ≡ table_path_of table.now) × (paths.1 ≡ index_path_of table.now index.now)) }
{
    let keys = table_path(alloc, table)?;
    match index_path(alloc, table, index) {
        Ok(columns) => Ok((keys, columns)),
        Err(fault) => {
            drop(keys);
            Err(fault)
        }
    }
}

/// The path of the whole table.
fn whole(alloc: Global) -> Path
    ensures { IsWhole result }
{
    Path {
        by: By::Table,
        low: Key::of(Vec::new(alloc)),
        high: None,
    }
}

/// What comes at a point that was just opened, by the definitions there. It makes no call.
fn begin(alloc: Global, point: Point, index: IndexId) -> BuildState
    ensures { Begins point index result }
{
    let found = match index_of(point.found.indexes.as_slice(), index) {
        None => return BuildState::Closing(point, Next::Failed(BuildFault::NoIndex)),
        Some(found) => found,
    };
    if found.state == IndexState::Disabled {
        return BuildState::Closing(point, Next::Renew);
    }
    if found.birth != point.stamp {
        let birth = found.birth;
        return BuildState::Closing(point, Next::Again(birth));
    }
    match paths(alloc, &point.found.table, found) {
        Err(_) => BuildState::Closing(point, Next::Refused(BuildFault::Memory)),
        Ok((keys, columns)) => BuildState::Reading(
            Build {
                point,
                keys,
                columns,
                path: whole(alloc),
            },
            None,
            Gathered::new(alloc),
        ),
    }
}

/// Opens a point at the birth. While a batch at or below it is undecided, the same step is tried again.
fn open<S: Steps>(s: &mut S, alloc: Global, table: TableId, index: IndexId, birth: u64) -> Came
    ensures turns { (n : ℕ) → (own : List Acts) → FitsState S.sound n table index own (BuildState.Opening birth) (S.known s.old) → Leads S.sound n table index own (S.known s.old) (S.known s.new) result }
    ensures one_call { S.one_call s.old s.new }
{
    match s.open_point(table, Some(scn_of(birth))) {
        Ok(point) => Came::On(begin(alloc, point, index)),
        Err(StepFault::NotYet { .. }) => Came::Waits(BuildState::Opening(birth)),
        Err(f) => unopened(table, index, fault_of(f)),
    }
}

/// What comes where no point was opened.
fn unopened(table: TableId, index: IndexId, f: BuildFault) -> Came
    ensures { IsUnopened table index f result }
{
    match next_of(f) {
        Next::Refused(f) => Came::On(disabling(table, index, f)),
        _ => Came::Over(Err(f)),
    }
}

/// The index is to be disabled.
fn disabling(table: TableId, index: IndexId, f: BuildFault) -> BuildState
    ensures { IsDisabling table index f result }
{
    BuildState::Disabling(DefineRun::new(Definition::Disabled { table, index }), f)
}

/// What comes once all rows that were read have their base versions. It makes no call.
fn read_on(
    alloc: Global,
    build: Build,
    table: TableId,
    index: IndexId,
    next: Option<Key>,
) -> BuildState
    ensures { ReadsOn build table index next result }
{
    match next {
        Some(last) => BuildState::Reading(build, Some(last), Gathered::new(alloc)),
        None => {
            let Build {
                point,
                keys: _keys,
                columns: _columns,
                path: _path,
            } = build;
            BuildState::Activating(point, DefineRun::new(Definition::Active { table, index }))
        }
    }
}

/// What comes where these rows are still to be given their base versions, piece by piece. It makes no call.
fn base_on(
    alloc: Global,
    build: Build,
    table: TableId,
    index: IndexId,
    pieces: Items<BaseRows>,
    next: Option<Key>,
) -> BuildState
    ensures { BasesOn build table index pieces next result }
{
    let mut pieces = pieces.into_vec();
    match pieces.pop() {
        Some(rows) => BuildState::Basing(build, rows, Items::of(pieces), next),
        None => {
            drop(pieces);
            read_on(alloc, build, table, index, next)
        }
    }
}

/// What comes of the chunks that were gathered: all their base versions are made. It makes no call.
fn make<R: Threads + Sync>(
    rt: &R,
    alloc: Global,
    build: Build,
    table: TableId,
    index: IndexId,
    chunks: Items<Items<FoundKey>>,
    next: Option<Key>,
) -> BuildState
    ensures { AfterMaking build table index chunks next result }
{
    match base_pieces(
        rt,
        alloc,
        build.point.found.table.columns.as_slice(),
        build.keys.as_slice(),
        build.columns.as_slice(),
        chunks,
    ) {
        Ok(pieces) => base_on(alloc, build, table, index, pieces, next),
        Err(f) => {
            drop(next);
            failed(build, long_or_memory(f))
        }
    }
}

/// What comes of a chunk: it is gathered, and the base versions are made where there are enough chunks or no more. It makes no call.
fn take<R: Threads + Sync>(
    rt: &R,
    alloc: Global,
    build: Build,
    table: TableId,
    index: IndexId,
    gathered: Gathered,
    chunk: Chunk,
) -> BuildState
    ensures { AfterLook build table index gathered.chunks chunk result }
{
    let Chunk {
        found,
        next,
        at: _at,
    } = chunk;
    let gathered = match gathered.with(found) {
        Ok(gathered) => gathered,
        Err(_) => {
            drop(next);
            return failed(build, BuildFault::Memory);
        }
    };
    if next.is_some() && !gathered.is_full() {
        return BuildState::Reading(build, next, gathered);
    }
    let Gathered {
        chunks,
        bytes: _bytes,
    } = gathered;
    make(rt, alloc, build, table, index, chunks, next)
}

fn long_or_memory(f: RowsFault) -> BuildFault
    ensures { result ≡ rows_fault f }
{
    match f {
        RowsFault::TooLong => BuildFault::Limit {
            which: Limit::Key,
            count: MOST_KEY as u64,
        },
        RowsFault::Memory => BuildFault::Memory,
    }
}

/// Looks at the next rows.
fn look<R: Threads + Sync, S: Steps>(
    rt: &R,
    s: &mut S,
    alloc: Global,
    table: TableId,
    index: IndexId,
    build: Build,
    after: Option<Key>,
    gathered: Gathered,
) -> Came
    requires { (n : ℕ) × (own : List Acts) × FitsState S.sound n table index own (BuildState.Reading build after gathered) (S.known s.old) }
    ensures turns { (n : ℕ) → (own : List Acts) → FitsState S.sound n table index own (BuildState.Reading build after gathered) (S.known s.old) → Leads S.sound n table index own (S.known s.old) (S.known s.new) result }
    ensures one_call { S.one_call s.old s.new }
{
    match s.look(&build.point, &build.path, &after) {
        Ok(chunk) => Came::On(take(rt, alloc, build, table, index, gathered, chunk)),
        Err(f) => {
            drop(gathered);
            Came::On(failed(build, fault_of(f)))
        }
    }
}

/// Gives rows their base versions.
fn base<S: Steps>(
    s: &mut S,
    alloc: Global,
    table: TableId,
    index: IndexId,
    build: Build,
    rows: BaseRows,
    more: Items<BaseRows>,
    next: Option<Key>,
) -> Came
    requires { (n : ℕ) × (own : List Acts) × FitsState S.sound n table index own (BuildState.Basing build rows more next) (S.known s.old) }
    ensures turns { (n : ℕ) → (own : List Acts) → FitsState S.sound n table index own (BuildState.Basing build rows more next) (S.known s.old) → Leads S.sound n table index own (S.known s.old) (S.known s.new) result }
    ensures one_call { S.one_call s.old s.new }
{
    match s.base(&build.point, index, &rows) {
        Ok(_) => {
            drop(rows);
            Came::On(base_on(alloc, build, table, index, more, next))
        }
        Err(StepFault::Busy { .. }) => Came::On(BuildState::Settling(build, rows, more, next)),
        Err(StepFault::NotReady { .. }) => Came::On(BuildState::Settling(build, rows, more, next)),
        Err(f) => {
            drop(rows);
            drop(more);
            drop(next);
            Came::On(failed(build, fault_of(f)))
        }
    }
}

/// Upkeep, until there is none left. Then the rows are given their base versions.
fn settle<S: Steps>(
    s: &mut S,
    table: TableId,
    index: IndexId,
    build: Build,
    rows: BaseRows,
    more: Items<BaseRows>,
    next: Option<Key>,
) -> Came
    ensures turns { (n : ℕ) → (own : List Acts) → FitsState S.sound n table index own (BuildState.Settling build rows more next) (S.known s.old) → Leads S.sound n table index own (S.known s.old) (S.known s.new) result }
    ensures one_call { S.one_call s.old s.new }
{
    match s.upkeep() {
        Ok(Work::Did) => Came::On(BuildState::Settling(build, rows, more, next)),
        Ok(Work::Idle) => Came::On(BuildState::Basing(build, rows, more, next)),
        Err(f) => {
            drop(rows);
            drop(more);
            drop(next);
            Came::On(failed(build, fault_of(f)))
        }
    }
}

/// Makes the index active.
fn activate<S: Steps>(
    s: &mut S,
    table: TableId,
    index: IndexId,
    point: Point,
    mut run: DefineRun,
) -> Came
    requires { (n : ℕ) × (own : List Acts) × FitsState S.sound n table index own (BuildState.Activating point run) (S.known s.old) }
    ensures turns { (n : ℕ) → (own : List Acts) → FitsState S.sound n table index own (BuildState.Activating point run) (S.known s.old) → Leads S.sound n table index own (S.known s.old) (S.known s.new) result }
    ensures one_call { S.one_call s.old s.new }
{
    match run.step(s) {
        DefineTurn::Stepped => Came::On(BuildState::Activating(point, run)),
        DefineTurn::Waiting { .. } => Came::Waits(BuildState::Activating(point, run)),
        DefineTurn::Over(Ok(made)) => {
            drop(run);
            Came::On(BuildState::Closing(point, Next::Active(made)))
        }
        DefineTurn::Over(Err(f)) => {
            drop(run);
            Came::On(BuildState::Closing(point, next_of(fault_after(f))))
        }
    }
}

/// Closes the point.
fn close<S: Steps>(s: &mut S, table: TableId, index: IndexId, point: Point, next: Next) -> Came
    requires { (n : ℕ) × (own : List Acts) × FitsState S.sound n table index own (BuildState.Closing point next) (S.known s.old) }
    ensures turns { (n : ℕ) → (own : List Acts) → FitsState S.sound n table index own (BuildState.Closing point next) (S.known s.old) → Leads S.sound n table index own (S.known s.old) (S.known s.new) result }
    ensures one_call { S.one_call s.old s.new }
{
    s.close_point(point);
    match next {
        Next::Again(birth) => Came::On(BuildState::Opening(birth)),
        Next::Renew => Came::On(BuildState::Renewing(DefineRun::new(Definition::Rebuilding {
            table,
            index,
        }))),
        Next::Active(made) => Came::Over(Ok(made)),
        Next::Failed(f) => Came::Over(Err(f)),
        Next::Refused(f) => Came::On(disabling(table, index, f)),
    }
}

/// Has the index built again, from a new birth on.
fn renew<S: Steps>(s: &mut S, table: TableId, index: IndexId, mut run: DefineRun) -> Came
    requires { (n : ℕ) × (own : List Acts) × FitsState S.sound n table index own (BuildState.Renewing run) (S.known s.old) }
    ensures turns { (n : ℕ) → (own : List Acts) → FitsState S.sound n table index own (BuildState.Renewing run) (S.known s.old) → Leads S.sound n table index own (S.known s.old) (S.known s.new) result }
    ensures one_call { S.one_call s.old s.new }
{
    match run.step(s) {
        DefineTurn::Stepped => Came::On(BuildState::Renewing(run)),
        DefineTurn::Waiting { .. } => Came::Waits(BuildState::Renewing(run)),
        DefineTurn::Over(Ok(made)) => {
            drop(run);
            Came::On(BuildState::Opening(made.stamp))
        }
        DefineTurn::Over(Err(f)) => {
            drop(run);
            Came::Over(Err(fault_after(f)))
        }
    }
}

/// The fault of a build whose index couldn't be disabled: one of a device or of a closed server, or the first.
fn fault_told(first: BuildFault, then: BuildFault) -> BuildFault
    ensures { result ≡ first_or first then }
{
    match then {
        BuildFault::ReadFault | BuildFault::WriteFault | BuildFault::Closed { .. } => then,
        _ => first,
    }
}

/// Disables the index, since the build was refused.
fn disable<S: Steps>(
    s: &mut S,
    table: TableId,
    index: IndexId,
    mut run: DefineRun,
    first: BuildFault,
) -> Came
    requires { (n : ℕ) × (own : List Acts) × FitsState S.sound n table index own (BuildState.Disabling run first) (S.known s.old) }
    ensures turns { (n : ℕ) → (own : List Acts) → FitsState S.sound n table index own (BuildState.Disabling run first) (S.known s.old) → Leads S.sound n table index own (S.known s.old) (S.known s.new) result }
    ensures one_call { S.one_call s.old s.new }
{
    match run.step(s) {
        DefineTurn::Stepped => Came::On(BuildState::Disabling(run, first)),
        DefineTurn::Waiting { .. } => Came::Waits(BuildState::Disabling(run, first)),
        DefineTurn::Over(Ok(_)) => {
            drop(run);
            Came::Over(Err(first))
        }
        DefineTurn::Over(Err(f)) => {
            drop(run);
            Came::Over(Err(fault_told(first, fault_after(f))))
        }
    }
}

/// One step: one call.
fn advance<R: Threads + Sync, S: Steps>(
    rt: &R,
    s: &mut S,
    alloc: Global,
    table: TableId,
    index: IndexId,
    state: BuildState,
) -> Came
    requires { (n : ℕ) × (own : List Acts) × FitsState S.sound n table index own state (S.known s.old) }
    ensures turns { (n : ℕ) → (own : List Acts) → FitsState S.sound n table index own state (S.known s.old) → Leads S.sound n table index own (S.known s.old) (S.known s.new) result }
    ensures one_call { S.one_call s.old s.new }
{
    match state {
        BuildState::Opening(birth) => open(s, alloc, table, index, birth),
        BuildState::Renewing(run) => renew(s, table, index, run),
        BuildState::Reading(build, after, gathered) => {
            look(rt, s, alloc, table, index, build, after, gathered)
        }
        BuildState::Basing(build, rows, more, next) => {
            base(s, alloc, table, index, build, rows, more, next)
        }
        BuildState::Settling(build, rows, more, next) => {
            settle(s, table, index, build, rows, more, next)
        }
        BuildState::Activating(point, run) => activate(s, table, index, point, run),
        BuildState::Closing(point, next) => close(s, table, index, point, next),
        BuildState::Disabling(run, first) => disable(s, table, index, run, first),
    }
}

impl BuildRun {
    /// A run that has made no step, of an index that was born at this stamp.
    pub fn new(alloc: Global, table: TableId, index: IndexId, birth: u64) -> BuildRun
        ensures table { result.table ≡ table }
        ensures index { result.index ≡ index }
        ensures state { result.state ≡ BuildState.Opening birth }
    {
        BuildRun {
            alloc,
            table,
            index,
            state: BuildState::Opening(birth),
        }
    }

    /// Makes one call. The base versions of rows that were gathered are made outside of it.
    pub fn step<R: Threads + Sync, S: Steps>(self, rt: &R, s: &mut S) -> BuildTurn
        requires { (n : ℕ) × (own : List Acts) × FitsBuild S.sound n self.table self.index own self (S.known s.old) }
        ensures turns { (n : ℕ) → (t : TableNumber) → (i : IndexNumber) → (own : List Acts) → FitsBuild S.sound n t i own self (S.known s.old) → BuildTurns S.sound n t i own (S.known s.old) (S.known s.new) result }
        ensures one_call { S.one_call s.old s.new }
    {
        let BuildRun {
            alloc,
            table,
            index,
            state,
        } = self;
        match advance(rt, s, alloc, table, index, state) {
            Came::On(state) => BuildTurn::Stepped(BuildRun {
                alloc,
                table,
                index,
                state,
            }),
            Came::Waits(state) => BuildTurn::Waiting(BuildRun {
                alloc,
                table,
                index,
                state,
            }),
            Came::Over(result) => BuildTurn::Over(result),
        }
    }
}
