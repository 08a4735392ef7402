// Session commands that make calls.
ghost use Rattle.std.specs.Prelude.{◌≡◌, ◌≢◌, ℕ, List, None};
ghost use Rattle.px_trail.specs.declared.entry.Act.{Act};
ghost use Rattle.px_item.specs.Right as spec;
ghost use Rattle.px_calls.specs.declared.status.Ordered.{Ordered as Orders};
ghost use Rattle.px_item.specs.Turns.{FitsItem, ItemTurns, TellsDone};

use crate::answered::{After, Answered, Asked, Settings, told};
use crate::item::{ItemRun, ItemState, ItemTurn, over};
use crate::refusing::{uncommitted, uncounted, undone};
use px_batch::BatchFault;
use px_calls::{Ordered, Receipt, Status, Steps};
use px_commanding::{
    CommitRun, CommitTurn, CountFault, CountRun, CountTurn, OrderFault, OrderRun, OrderTurn,
};
use px_reply::Reply;
use px_values::{CountWord, Items, Name};
use std::alloc::Global;

/// What is asked for after a commit.
fn onward(again: bool, settings: Settings) -> After
    ensures { result ≡ spec.after_commit again settings }
{
    if again {
        After::Again(settings)
    } else {
        After::Next(settings)
    }
}

/// What a commit came to. What was held is held no more, whatever came.
fn committed(
    alloc: Global,
    asked: Asked<'_>,
    again: bool,
    came: Result<Vec<Receipt>, BatchFault>,
) -> Answered
    requires { asked.settings.held ≢ None }
    ensures { spec.IsCommitted asked.entry again came result }
{
    let Asked {
        piece: _piece,
        settings,
        first,
    } = asked;
    let Settings {
        scn,
        autocommit,
        held,
    } = settings;
    let Some(held) = held else { unreachable!() };
    let emptied = Settings {
        scn,
        autocommit,
        held: None,
    };
    match came {
        Ok(receipts) => {
            let rows = held.rows();
            drop(held);
            Answered {
                reply: Reply::Count {
                    rows,
                    word: CountWord::Affected,
                },
                receipts: Items::of(receipts),
                places: Items::of(Vec::new(alloc)),
                first,
                after: onward(again, emptied),
            }
        }
        Err(fault) => {
            let reply = uncommitted(alloc, held.name(), fault);
            drop(held);
            told(alloc, reply, first, emptied)
        }
    }
}

/// Goes on with a commit.
pub(crate) fn commit<'a, S: Steps>(
    alloc: Global,
    s: &mut S,
    asked: Asked<'a>,
    again: bool,
    run: CommitRun,
) -> ItemTurn<'a>
    requires { (before : ℕ) × (own : List Act) × FitsItem S.sound before asked own (ItemState.Committing again run) (S.known s.old) }
    ensures turns { (before : ℕ) → (own : List Act) → FitsItem S.sound before asked.entry own (ItemState.Committing again run) (S.known s.old) → ItemTurns S.sound before asked.entry own (S.known s.old) (S.known s.new) result }
    ensures one_call { S.one_call s.old s.new }
{
    let turn = match &asked.settings.held {
        Some(held) => run.step(alloc, s, held),
        None => unreachable!(),
    };
    match turn {
        CommitTurn::Stepped(run) => ItemTurn::Stepped(ItemRun {
            asked,
            state: ItemState::Committing(again, run),
        }),
        CommitTurn::Waiting(run) => ItemTurn::Waiting(ItemRun {
            asked,
            state: ItemState::Committing(again, run),
        }),
        CommitTurn::Over(came) => ItemTurn::Over(committed(alloc, asked, again, came)),
    }
}

/// What a status came to.
fn counted(
    alloc: Global,
    asked: Asked<'_>,
    name: Name,
    came: Result<Status, CountFault>,
) -> Answered
    ensures { spec.IsCounted asked.entry name came result }
{
    let reply = match came {
        Ok(status) => Reply::Status(status),
        Err(fault) => uncounted(alloc, &name, fault),
    };
    drop(name);
    over(alloc, asked, reply)
}

/// Goes on with a status.
pub(crate) fn count<'a, S: Steps>(
    alloc: Global,
    s: &mut S,
    asked: Asked<'a>,
    name: Name,
    run: CountRun,
) -> ItemTurn<'a>
    ensures turns { (before : ℕ) → (own : List Act) → FitsItem S.sound before asked.entry own (ItemState.Counting name run) (S.known s.old) → ItemTurns S.sound before asked.entry own (S.known s.old) (S.known s.new) result }
    ensures one_call { S.one_call s.old s.new }
{
    match run.step(s, &name) {
        CountTurn::Stepped(run) => ItemTurn::Stepped(ItemRun {
            asked,
            state: ItemState::Counting(name, run),
        }),
        CountTurn::Over(came) => ItemTurn::Over(counted(alloc, asked, name, came)),
    }
}

/// What is told of an order that is done.
fn done(job: Ordered) -> Reply
    ensures { result ≡ spec.order_reply job }
{
    match job {
        Ordered::FlushAll => Reply::Flushed,
        Ordered::CompactAll => Reply::Compacted,
    }
}

/// What an order came to.
fn ordered(alloc: Global, asked: Asked<'_>, job: Ordered, came: Result<(), OrderFault>) -> Answered
    ensures { spec.IsOrdered asked.entry job came result }
{
    let reply = match came {
        Ok(()) => done(job),
        Err(fault) => Reply::Refused(undone(fault)),
    };
    over(alloc, asked, reply)
}

/// Goes on with an order.
pub(crate) fn order<'a, S: Steps>(
    alloc: Global,
    s: &mut S,
    asked: Asked<'a>,
    run: OrderRun,
) -> ItemTurn<'a>
    ensures turns { (before : ℕ) → (own : List Act) → FitsItem S.sound before asked.entry own (ItemState.Ordering run) (S.known s.old) → ItemTurns S.sound before asked.entry own (S.known s.old) (S.known s.new) result }
    ensures done { (job : Orders) → TellsDone job result → S.done s.new job }
    ensures one_call { S.one_call s.old s.new }
{
    let job = run.job();
    match run.step(s) {
        OrderTurn::Stepped(run) => ItemTurn::Stepped(ItemRun {
            asked,
            state: ItemState::Ordering(run),
        }),
        OrderTurn::Over(came) => ItemTurn::Over(ordered(alloc, asked, job, came)),
    }
}
