// One item on its way: each step makes one call.
ghost use Rattle.std.specs.Prelude.{◌≡◌, ℕ, true, false, List, Ok};
ghost use Rattle.px_lex.specs.Script.{seen_piece};
ghost use Rattle.px_trail.specs.declared.entry.Act.{Act};
ghost use Rattle.px_calls.specs.declared.status.Ordered.{Ordered as Orders};
ghost use Rattle.px_scan.specs.Fixes.{KeepsDoubts};
ghost use Rattle.px_scan.specs.Looking.{IsByIndex, Looks};
ghost use Rattle.px_commanding.specs.Commits.{HasRoomForOne};
ghost use Rattle.px_item.specs.Right as spec;
ghost use Rattle.px_item.specs.Selects.{IfSelect, IsSelectThen, ScansTo};
ghost use Rattle.px_item.specs.Turns.{Begins, FitsItem, ItemTurns, TellsDone};

use crate::answered::{After, Answered, Asked, Settings, told};
use crate::binding::{self, Next};
use crate::commanding::{commit, count, order};
use crate::holding::{hold, holds};
use crate::reading::{Read, read_piece};
use crate::refusing::{table_named, unbuilt, unchanged, undefined, unfound, unselected};
use crate::seeking::{gather, holds_rows, seek};
use px_ast::{IndexAction, Statement};
use px_batch::{BatchFault, BatchRun, BatchTurn};
use px_calls::{Definition, Made, Receipt, Steps};
use px_commanding::{CommitRun, CountRun, OrderRun};
use px_defining::{DefineFault, DefineRun, DefineTurn};
use px_deleting::{DeleteFault, DeleteRun, DeleteTurn, Deleted};
use px_lex::script::Piece;
use px_reply::{Defined, Reply};
use px_scan::QueryFault;
use px_select::{SelectRun, SelectTurn, Selected};
use px_sorted::Shown;
use px_tables::Found;
use px_upkeep::{BuildFault, BuildRun, BuildTurn};
use px_values::{CountWord, IndexId, Items, Name};
use std::alloc::Global;
use std::thread::Threads;

/// What the next step of an item is.
pub enum ItemState {
    /// The table that the statement names is to be found.
    Finding(Statement),
    /// Its batch is under way. There is room for the receipt.
    Changing(Statement, BatchRun, Vec<Receipt>),
    /// What it makes, alters or drops is being defined.
    Defining(Statement, DefineRun),
    /// Its index, which was defined, is being built.
    Building(Statement, BuildRun),
    /// It is being selected.
    Selecting(Statement, SelectRun),
    /// Its rows are being deleted.
    Deleting(Statement, DeleteRun),
    /// The rows that it removes are being found, and their removals are held then.
    Seeking(Statement, SelectRun),
    /// What is held is being committed; then the piece is asked once more, or is answered by it.
    Committing(bool, CommitRun),
    /// The table of this name is being counted.
    Counting(Name, CountRun),
    /// This is ordered of upkeep, and being done.
    Ordering(OrderRun),
}

/// An item on its way. Other seats may act between two of its steps.
pub struct ItemRun<'a> {
    pub asked: Asked<'a>,
    pub state: ItemState,
}

/// What a piece came to without a call.
pub enum Begun<'a> {
    Told(Answered),
    Under(ItemRun<'a>),
}

/// What one step came to.
pub enum ItemTurn<'a> {
    Stepped(ItemRun<'a>),
    /// The same step is to be tried again.
    Waiting(ItemRun<'a>),
    Over(Answered),
}

/// Begins a piece, when the session has seen `first` entries. It makes no call.
pub fn begin<'a>(alloc: Global, piece: Piece<'a>, settings: Settings, first: u64) -> Begun<'a>
    ensures { Begins settings (seen_piece piece.entry) first result }
{
    match read_piece(alloc, piece, settings, first) {
        Read::Told(answered) => Begun::Told(answered),
        Read::Asks(asked, statement) => start(alloc, asked, statement),
        Read::Commits(asked, again) => Begun::Under(ItemRun {
            asked,
            state: ItemState::Committing(again, CommitRun::new()),
        }),
        Read::Counts(asked, name) => Begun::Under(ItemRun {
            asked,
            state: ItemState::Counting(name, CountRun::new()),
        }),
        Read::Orders(asked, job) => Begun::Under(ItemRun {
            asked,
            state: ItemState::Ordering(OrderRun::new(job)),
        }),
    }
}

/// Begins a statement that is built. A CREATE TABLE is bound, and the table of any other is to be found. It makes no call.
fn start<'a>(alloc: Global, asked: Asked<'a>, statement: Statement) -> Begun<'a>
    requires read { spec.IsReadItem (seen_piece asked.piece) (Ok statement) }
    requires free { spec.MayRun asked.settings statement }
    requires built { spec.is_answer_built statement ≡ true }
    ensures { Begins asked.entry.settings (seen_piece asked.entry.piece) asked.entry.first result }
{
    match binding::creation_of(alloc, &statement) {
        None => Begun::Under(ItemRun {
            asked,
            state: ItemState::Finding(statement),
        }),
        Some(Ok(run)) => Begun::Under(ItemRun {
            asked,
            state: ItemState::Defining(statement, run),
        }),
        Some(Err(refusal)) => {
            drop(statement);
            Begun::Told(over(alloc, asked, Reply::Refused(refusal)))
        }
    }
}

/// What is told without a receipt.
pub(crate) fn over(alloc: Global, asked: Asked<'_>, reply: Reply) -> Answered
    ensures says { spec.SaysOnly result reply asked.entry.settings }
    ensures first { result.first ≡ asked.entry.first }
{
    let Asked {
        piece: _piece,
        settings,
        first,
    } = asked;
    told(alloc, reply, first, settings)
}

/// Goes on with a statement whose table was found. It makes no call.
fn follow<'a>(alloc: Global, asked: Asked<'a>, statement: Statement, found: Found) -> ItemTurn<'a>
    ensures { spec.FollowsFound asked.entry statement found result }
{
    let next = binding::next_of(alloc, &statement, &found, asked.settings.scn);
    drop(found);
    match next {
        Next::Change(run, receipts) => ItemTurn::Stepped(ItemRun {
            asked,
            state: ItemState::Changing(statement, run, receipts),
        }),
        Next::Define(run) => ItemTurn::Stepped(ItemRun {
            asked,
            state: ItemState::Defining(statement, run),
        }),
        Next::Select(run) => ItemTurn::Stepped(ItemRun {
            asked,
            state: ItemState::Selecting(statement, run),
        }),
        Next::Delete(run) => ItemTurn::Stepped(ItemRun {
            asked,
            state: ItemState::Deleting(statement, run),
        }),
        Next::Tell(reply) => {
            drop(statement);
            ItemTurn::Over(over(alloc, asked, reply))
        }
    }
}

/// Finds the statement's table.
fn find<'a, S: Steps>(
    alloc: Global,
    s: &mut S,
    asked: Asked<'a>,
    statement: Statement,
) -> ItemTurn<'a>
    ensures turns { (before : ℕ) → (own : List Act) → FitsItem S.sound before asked.entry own (ItemState.Finding statement) (S.known s.old) → ItemTurns S.sound before asked.entry own (S.known s.old) (S.known s.new) result }
    ensures one_call { S.one_call s.old s.new }
{
    match s.find(table_named(&statement)) {
        Ok(found) => {
            if holds(&asked.settings, &statement) {
                hold(alloc, asked, statement, found)
            } else if holds_rows(&asked.settings, &statement) {
                seek(alloc, asked, statement, found)
            } else {
                follow(alloc, asked, statement, found)
            }
        }
        Err(fault) => {
            let reply = unfound(alloc, &statement, fault);
            drop(statement);
            ItemTurn::Over(over(alloc, asked, reply))
        }
    }
}

/// One row, by its receipt.
fn one_row(
    asked: Asked<'_>,
    receipt: Receipt,
    mut receipts: Vec<Receipt>,
    alloc: Global,
) -> Answered
    requires room { HasRoomForOne receipts }
    ensures { spec.IsOneRow asked.entry receipt result }
{
    let Asked {
        piece: _piece,
        settings,
        first,
    } = asked;
    receipts.push_reserved(receipt);
    Answered {
        reply: Reply::Count {
            rows: 1,
            word: CountWord::Affected,
        },
        receipts: Items::of(receipts),
        places: Items::of(Vec::new(alloc)),
        first,
        after: After::Next(settings),
    }
}

/// What a batch came to.
fn changed(
    alloc: Global,
    asked: Asked<'_>,
    statement: Statement,
    receipts: Vec<Receipt>,
    came: Result<Receipt, BatchFault>,
) -> Answered
    requires room { HasRoomForOne receipts }
    ensures { spec.IsChanged asked.entry statement came result }
{
    match came {
        Ok(receipt) => {
            drop(statement);
            one_row(asked, receipt, receipts, alloc)
        }
        Err(fault) => {
            let reply = unchanged(alloc, &statement, fault);
            drop(statement);
            drop(receipts);
            over(alloc, asked, reply)
        }
    }
}

/// Goes on with a batch.
fn change<'a, S: Steps>(
    alloc: Global,
    s: &mut S,
    asked: Asked<'a>,
    statement: Statement,
    mut run: BatchRun,
    receipts: Vec<Receipt>,
) -> ItemTurn<'a>
    requires { (before : ℕ) × (own : List Act) × FitsItem S.sound before asked own (ItemState.Changing statement run receipts) (S.known s.old) }
    ensures turns { (before : ℕ) → (own : List Act) → FitsItem S.sound before asked.entry own (ItemState.Changing statement run receipts) (S.known s.old) → ItemTurns S.sound before asked.entry own (S.known s.old) (S.known s.new) result }
    ensures one_call { S.one_call s.old s.new }
{
    match run.step(s) {
        BatchTurn::Stepped => ItemTurn::Stepped(ItemRun {
            asked,
            state: ItemState::Changing(statement, run, receipts),
        }),
        BatchTurn::Waiting { .. } => ItemTurn::Waiting(ItemRun {
            asked,
            state: ItemState::Changing(statement, run, receipts),
        }),
        BatchTurn::Over(result) => {
            run.finish();
            ItemTurn::Over(changed(alloc, asked, statement, receipts, result))
        }
    }
}

/// The word of what an ALTER INDEX did.
fn altered_word(action: IndexAction) -> Defined
    ensures { result ≡ spec.altered_word action }
{
    match action {
        IndexAction::Disable => Defined::IndexDisabled,
        IndexAction::Rebuild => Defined::IndexRebuilt,
    }
}

/// The word of what was made, altered or dropped.
fn word_of(statement: &Statement) -> Defined
    ensures { result ≡ spec.definition_word statement.now }
{
    match statement {
        Statement::CreateTable(_) => Defined::TableCreated,
        Statement::CreateIndex(_) => Defined::IndexCreated,
        Statement::DropIndex(_) => Defined::IndexDropped,
        Statement::AlterIndex(alter) => altered_word(alter.action),
        _ => Defined::TableDropped,
    }
}

/// What a definition came to.
fn defined(
    alloc: Global,
    asked: Asked<'_>,
    statement: Statement,
    came: Result<Made, DefineFault>,
) -> Answered
    ensures { spec.IsDefined asked.entry statement came result }
{
    let reply = match came {
        Ok(_made) => Reply::Defined(word_of(&statement)),
        Err(fault) => undefined(alloc, &statement, fault),
    };
    drop(statement);
    over(alloc, asked, reply)
}

/// The build that follows a definition, of an index that was made or is to be built again.
fn build_of(alloc: Global, definition: &Definition, made: &Made) -> Option<BuildRun>
    ensures { spec.IsBuildOf definition.now made.now result }
{
    match definition {
        Definition::Index(what) => Some(BuildRun::new(
            alloc,
            what.table,
            IndexId(made.number),
            made.stamp,
        )),
        Definition::Rebuilding {
            table,
            index: _index,
        } => Some(BuildRun::new(alloc, *table, IndexId(made.number), made.stamp)),
        _ => None,
    }
}

/// Goes on with a definition that was made: its index is built, or it is over. It makes no call.
fn made_so<'a>(
    alloc: Global,
    asked: Asked<'a>,
    statement: Statement,
    run: DefineRun,
    made: Made,
) -> ItemTurn<'a>
    ensures { spec.GoesOnBehind asked.entry statement run.definition made result }
{
    let definition = run.finish();
    let build = build_of(alloc, &definition, &made);
    drop(definition);
    match build {
        Some(run) => ItemTurn::Stepped(ItemRun {
            asked,
            state: ItemState::Building(statement, run),
        }),
        None => ItemTurn::Over(defined(alloc, asked, statement, Ok(made))),
    }
}

/// Goes on with a definition.
fn define<'a, S: Steps>(
    alloc: Global,
    s: &mut S,
    asked: Asked<'a>,
    statement: Statement,
    mut run: DefineRun,
) -> ItemTurn<'a>
    requires { (before : ℕ) × (own : List Act) × FitsItem S.sound before asked own (ItemState.Defining statement run) (S.known s.old) }
    ensures turns { (before : ℕ) → (own : List Act) → FitsItem S.sound before asked.entry own (ItemState.Defining statement run) (S.known s.old) → ItemTurns S.sound before asked.entry own (S.known s.old) (S.known s.new) result }
    ensures one_call { S.one_call s.old s.new }
{
    match run.step(s) {
        DefineTurn::Stepped => ItemTurn::Stepped(ItemRun {
            asked,
            state: ItemState::Defining(statement, run),
        }),
        DefineTurn::Waiting { .. } => ItemTurn::Waiting(ItemRun {
            asked,
            state: ItemState::Defining(statement, run),
        }),
        DefineTurn::Over(Ok(made)) => made_so(alloc, asked, statement, run, made),
        DefineTurn::Over(Err(fault)) => {
            drop(run);
            ItemTurn::Over(defined(alloc, asked, statement, Err(fault)))
        }
    }
}

/// What a build came to.
fn built(
    alloc: Global,
    asked: Asked<'_>,
    statement: Statement,
    came: Result<Made, BuildFault>,
) -> Answered
    ensures { spec.IsBuilt asked.entry statement came result }
{
    let reply = match came {
        Ok(_made) => Reply::Defined(word_of(&statement)),
        Err(fault) => unbuilt(alloc, &statement, fault),
    };
    drop(statement);
    over(alloc, asked, reply)
}

/// Goes on with a build.
fn build<'a, R: Threads + Sync, S: Steps>(
    rt: &R,
    alloc: Global,
    s: &mut S,
    asked: Asked<'a>,
    statement: Statement,
    run: BuildRun,
) -> ItemTurn<'a>
    requires { (before : ℕ) × (own : List Act) × FitsItem S.sound before asked own (ItemState.Building statement run) (S.known s.old) }
    ensures turns { (before : ℕ) → (own : List Act) → FitsItem S.sound before asked.entry own (ItemState.Building statement run) (S.known s.old) → ItemTurns S.sound before asked.entry own (S.known s.old) (S.known s.new) result }
    ensures one_call { S.one_call s.old s.new }
{
    match run.step(rt, s) {
        BuildTurn::Stepped(run) => ItemTurn::Stepped(ItemRun {
            asked,
            state: ItemState::Building(statement, run),
        }),
        BuildTurn::Waiting(run) => ItemTurn::Waiting(ItemRun {
            asked,
            state: ItemState::Building(statement, run),
        }),
        BuildTurn::Over(came) => ItemTurn::Over(built(alloc, asked, statement, came)),
    }
}

/// The rows of a SELECT.
fn rows_of(alloc: Global, asked: Asked<'_>, selected: Selected) -> Answered
    ensures { spec.SaysRows result selected asked.entry.settings }
{
    let Asked {
        piece: _piece,
        settings,
        first: _first,
    } = asked;
    let Selected {
        shown,
        first,
        last: _last,
    } = selected;
    let Shown { rows, places } = shown;
    Answered {
        reply: Reply::Rows(rows),
        receipts: Items::of(Vec::new(alloc)),
        places,
        first,
        after: After::Next(settings),
    }
}

/// What a SELECT came to.
fn selected(
    alloc: Global,
    asked: Asked<'_>,
    statement: Statement,
    came: Result<Selected, QueryFault>,
) -> Answered
    ensures { spec.IsSelection asked.entry statement came result }
{
    match came {
        Ok(selected) => {
            drop(statement);
            rows_of(alloc, asked, selected)
        }
        Err(fault) => {
            let reply = unselected(alloc, &statement, fault);
            drop(statement);
            over(alloc, asked, reply)
        }
    }
}

/// Goes on with a SELECT.
fn select<'a, S: Steps>(
    alloc: Global,
    s: &mut S,
    asked: Asked<'a>,
    statement: Statement,
    mut run: SelectRun,
) -> ItemTurn<'a>
    requires { (before : ℕ) × (own : List Act) × FitsItem S.sound before asked own (ItemState.Selecting statement run) (S.known s.old) }
    ensures turns { (before : ℕ) → (own : List Act) → FitsItem S.sound before asked.entry own (ItemState.Selecting statement run) (S.known s.old) → ItemTurns S.sound before asked.entry own (S.known s.old) (S.known s.new) result }
    ensures scans { IsSelectThen run result (λ q. ScansTo S.sound run (S.known s.old) (S.known s.new) q) }
    ensures looks { (S.known s.old).alone ≡ true → IsByIndex run.scan.state → IsSelectThen run result (λ q. Looks S.sound run.scan.state (S.known s.old) (S.looked s.old) q (S.known s.new) (S.looked s.new) (S.doubtful s.new)) }
    ensures doubts { (S.known s.old).alone ≡ true → S.sound → IsSelectThen run result (λ q. KeepsDoubts run.scan.state (S.known s.old) (S.doubtful s.old) q (S.known s.new) (S.doubtful s.new)) }
    ensures one_call { S.one_call s.old s.new }
{
    match run.step(s) {
        SelectTurn::Stepped => ItemTurn::Stepped(ItemRun {
            asked,
            state: ItemState::Selecting(statement, run),
        }),
        SelectTurn::Waiting { .. } => ItemTurn::Waiting(ItemRun {
            asked,
            state: ItemState::Selecting(statement, run),
        }),
        SelectTurn::Over(came) => {
            run.finish();
            ItemTurn::Over(selected(alloc, asked, statement, came))
        }
    }
}

/// What a DELETE came to.
fn deleted(alloc: Global, asked: Asked<'_>, statement: Statement, came: Deleted) -> Answered
    ensures { spec.IsDeletion asked.entry statement came result }
{
    let Deleted { receipts, end } = came;
    let reply = match end {
        Ok(removed) => Reply::Count {
            rows: removed.rows,
            word: CountWord::Affected,
        },
        Err(DeleteFault::Unread(fault)) => unselected(alloc, &statement, fault),
        Err(DeleteFault::Unmade(fault)) => unchanged(alloc, &statement, fault),
    };
    drop(statement);
    let Asked {
        piece: _piece,
        settings,
        first,
    } = asked;
    Answered {
        reply,
        receipts: Items::of(receipts),
        places: Items::of(Vec::new(alloc)),
        first,
        after: After::Next(settings),
    }
}

/// Goes on with a DELETE.
fn delete<'a, S: Steps>(
    alloc: Global,
    s: &mut S,
    asked: Asked<'a>,
    statement: Statement,
    mut run: DeleteRun,
) -> ItemTurn<'a>
    requires { (before : ℕ) × (own : List Act) × FitsItem S.sound before asked own (ItemState.Deleting statement run) (S.known s.old) }
    ensures turns { (before : ℕ) → (own : List Act) → FitsItem S.sound before asked.entry own (ItemState.Deleting statement run) (S.known s.old) → ItemTurns S.sound before asked.entry own (S.known s.old) (S.known s.new) result }
    ensures one_call { S.one_call s.old s.new }
{
    match run.step(s) {
        DeleteTurn::Stepped => ItemTurn::Stepped(ItemRun {
            asked,
            state: ItemState::Deleting(statement, run),
        }),
        DeleteTurn::Waiting { .. } => ItemTurn::Waiting(ItemRun {
            asked,
            state: ItemState::Deleting(statement, run),
        }),
        DeleteTurn::Over(came) => {
            run.finish();
            ItemTurn::Over(deleted(alloc, asked, statement, came))
        }
    }
}

impl<'a> ItemRun<'a> {
    /// Makes one call.
    pub fn step<R: Threads + Sync, S: Steps>(self, rt: &R, alloc: Global, s: &mut S) -> ItemTurn<'a>
        requires { (before : ℕ) × (own : List Act) × FitsItem S.sound before self.asked own self.state (S.known s.old) }
        ensures turns { (before : ℕ) → (own : List Act) → FitsItem S.sound before self.entry.asked own self.entry.state (S.known s.old) → ItemTurns S.sound before self.entry.asked own (S.known s.old) (S.known s.new) result }

        // That an order is done is told only where it is.
        ensures done { (before : ℕ) → (own : List Act) → FitsItem S.sound before self.entry.asked own self.entry.state (S.known s.old) → (job : Orders) → TellsDone job result → S.done s.new job }

        // A step of a SELECT is one of its query. What that looks at and repairs is told where nobody else acts.
        ensures scans { IfSelect self.entry.state (λ run. IsSelectThen run result (λ q. ScansTo S.sound run (S.known s.old) (S.known s.new) q)) }
        ensures looks { (S.known s.old).alone ≡ true → IfSelect self.entry.state (λ run. IsByIndex run.scan.state → IsSelectThen run result (λ q. Looks S.sound run.scan.state (S.known s.old) (S.looked s.old) q (S.known s.new) (S.looked s.new) (S.doubtful s.new))) }
        ensures doubts { (S.known s.old).alone ≡ true → S.sound → IfSelect self.entry.state (λ run. IsSelectThen run result (λ q. KeepsDoubts run.scan.state (S.known s.old) (S.doubtful s.old) q (S.known s.new) (S.doubtful s.new))) }
        ensures one_call { S.one_call s.old s.new }
    {
        let ItemRun { asked, state } = self;
        match state {
            ItemState::Finding(statement) => find(alloc, s, asked, statement),
            ItemState::Changing(statement, run, receipts) => {
                change(alloc, s, asked, statement, run, receipts)
            }
            ItemState::Defining(statement, run) => define(alloc, s, asked, statement, run),
            ItemState::Building(statement, run) => build(rt, alloc, s, asked, statement, run),
            ItemState::Selecting(statement, run) => select(alloc, s, asked, statement, run),
            ItemState::Deleting(statement, run) => delete(alloc, s, asked, statement, run),
            ItemState::Seeking(statement, run) => gather(alloc, s, asked, statement, run),
            ItemState::Committing(again, run) => commit(alloc, s, asked, again, run),
            ItemState::Counting(name, run) => count(alloc, s, asked, name, run),
            ItemState::Ordering(run) => order(alloc, s, asked, run),
        }
    }
}
