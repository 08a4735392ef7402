// A repair that comes when its version was forgotten.
ghost use Rattle.std.specs.Prelude.{◌≡◌, [], IfOk, IfSome, true};
ghost use Rattle.px_trail.specs.Answers.{IsAmong};
ghost use Rattle.px_calls.specs.Requires.{CanReadBy, HasOpen};
ghost use Rattle.px_calls.specs.declared.query.By.TheVariants.{Index as ByIndex};
ghost use Rattle.px_calls.specs.declared.query.FoundKey.TheVariants.{InDoubt};

use crate::making::removal;
use crate::scripts::{is_told_behind, told_first};
use crate::served::{Case, Wrong, run};
use crate::stepping::{make, settle};
use px_calls::{By, Chunk, Doubt, Fixing, FoundKey, Held, Ordered, Path, Point, Steps, Verdict};
use px_seat::Single;
use px_tables::IndexState;
use px_values::{IndexId, Items, Name, TableId, Value};
use std::alloc::{AllocError, Global};
use std::collections::VecDeque;
use std::sync::Wait;
use std::thread::Threads;

/// A table with an index that is born at stamp 1, the logs of both, and then two batches on row 1.
const MEETING: &str =
    "CREATE TABLE ORDERS (ID BIGINT NOT NULL PRIMARY KEY, CUST VARCHAR, AMT INTEGER, NOTE VARCHAR);
CREATE INDEX BY_CUST ON ORDERS (CUST) INCLUDE (AMT);
!flush
---
UPSERT INTO ORDERS (ID, CUST, AMT) VALUES (1,'bo',5);
@2 UPSERT INTO ORDERS (ID, CUST, AMT) VALUES (1,'al',7);
";

const MET: &str = "table created
index created
flushed
1 row affected
@2
1 row affected
";

// The list is that of each round. In the second, session 1 finds and begins at stamp 2. Session 2 finds, begins at stamp 3 and marks; its next step waits for
// session 1, which marks and writes then.
const MEETS: [u32; 13] = [1, 1, 2, 2, 2, 2, 1, 1, 2, 1, 1, 2, 2];

const ASKING: &str = "SELECT ID, CUST, AMT FROM ORDERS WHERE CUST = 'al';\n";

const ASKED: &str = "0 rows selected\n";

/// The two batches, on a server with which nothing was done.
pub fn met<R: Threads + Wait + Sync, S: Single + Send>(
    rt: &R,
    alloc: Global,
    server: S,
) -> (S, bool)
    requires alone { (S.known server).alone ≡ true }
    requires nothing { (S.known server).seen ≡ [] }
{
    told_first(rt, alloc, server, MEETING, &MEETS, MET)
}

/// The first index of a point's table, where it may be read.
fn readable(point: &Point) -> Option<IndexId>
    ensures { IfSome result (λ i. CanReadBy point.now (ByIndex i)) }
{
    match point.found.indexes.as_slice() {
        [index, _others @ ..] => match index.state {
            IndexState::Active => {
                if index.birth > point.stamp {
                    return None;
                }
                Some(index.id)
            }
            _ => None,
        },
        [] => None,
    }
}

/// The keys of an index that begin with 'al': a text ends with a zero.
fn path_of(alloc: Global, index: IndexId) -> Result<Path, AllocError>
    ensures { IfOk result (λ path. path.by ≡ ByIndex index) }
{
    let low = Vec::from_slice(alloc, [b'a', b'l', 0].as_slice())?;
    let high = Vec::from_slice(alloc, [b'a', b'l', 1].as_slice())?;
    Ok(Path {
        by: By::Index(index),
        low: Items::of(low),
        high: Some(Items::of(high)),
    })
}

/// The doubt among keys, where it is the only one.
fn only_doubt(found: Items<FoundKey>) -> Option<Doubt>
    ensures { IfSome result (λ d. IsAmong (InDoubt d) found) }
{
    let mut keys = VecDeque::from(found.into_vec());
    let first = keys.pop_front();
    let is_only = keys.is_empty();
    drop(keys);
    match first {
        Some(FoundKey::InDoubt(doubt)) => {
            if is_only {
                return Some(doubt);
            }
            drop(doubt);
            None
        }
        _ => None,
    }
}

/// Whether the row is 1, 'al', 7 and NULL.
fn is_al(held: &Option<Held>) -> bool {
    let Some(held) = held else {
        return false;
    };
    match held.row.as_slice() {
        [
            Value::Number(number),
            Value::Text(name),
            Value::Number(amount),
            Value::Null,
        ] => { *number == 1 && name.as_str() == "al" && *amount == 7 }
        _ => false,
    }
}

/// The doubt, where it is of stamp 3, its row is the one that both batches wrote, and it is to be verified.
fn judged(doubt: Doubt, held: Option<Held>) -> Result<Doubt, Wrong> {
    let is_right = is_al(&held)
        && doubt.stamp == 3
        && matches!(doubt.verdict, Some(Verdict::Verify));
    drop(held);
    if is_right {
        return Ok(doubt);
    }
    drop(doubt);
    Err(Wrong::ConsultedOtherwise)
}

/// The one doubt of 'al' at a point, as its row has it.
fn doubt_at<S: Steps>(alloc: Global, s: &mut S, point: &Point) -> Result<Doubt, Wrong>
    requires open { HasOpen (S.known s.old) point.now }
    ensures open { HasOpen (S.known s.new) point.now }
{
    let Some(index) = readable(point) else {
        return Err(Wrong::NoIndex);
    };
    let Ok(path) = path_of(alloc, index) else {
        return Err(Wrong::NoMemory);
    };
    let looked = s.look(point, &path, &None);
    drop(path);
    let found = match looked {
        Ok(
            Chunk {
                found,
                next: _next,
                at: _,
            },
        ) => found,
        Err(_) => return Err(Wrong::NotLooked),
    };
    let Some(mut doubt) = only_doubt(found) else {
        return Err(Wrong::NoDoubt);
    };
    match s.consult(point, &mut doubt) {
        Ok(held) => judged(doubt, held),
        Err(_) => {
            drop(doubt);
            Err(Wrong::NotConsulted)
        }
    }
}

/// The same at a current point that is closed then.
fn doubt_of<S: Steps>(alloc: Global, s: &mut S, table: TableId) -> Result<Doubt, Wrong> {
    let Ok(point) = s.open_point(table, None) else {
        return Err(Wrong::NotOpened);
    };
    let doubt = doubt_at(alloc, s, &point);
    s.close_point(point);
    doubt
}

/// Removes row 1 at stamp 4.
fn remove<R: Wait, S: Steps>(rt: &R, alloc: Global, s: &mut S, name: &Name) -> Result<(), Wrong> {
    let Some(batch) = removal(alloc, 1) else {
        return Err(Wrong::NoBatch);
    };
    let Some(made) = make(rt, s, name, batch) else {
        return Err(Wrong::NotMade);
    };
    let stamp = made.receipt.stamp;
    drop(made);
    if stamp == 4 {
        Ok(())
    } else {
        Err(Wrong::MadeOtherwise)
    }
}

/// Forgets all that isn't current any more.
fn compact<S: Steps>(s: &mut S, table: TableId) -> Result<(), Wrong> {
    if s.order(Ordered::CompactAll).is_err() || !settle(s) {
        return Err(Wrong::NotSettled);
    }
    let Ok(status) = s.status(table) else {
        return Err(Wrong::NotRaised);
    };
    let (last, horizon) = (status.last, status.horizon);
    drop(status);
    if last == 4 && horizon == 4 {
        Ok(())
    } else {
        Err(Wrong::NotRaised)
    }
}

/// Repairs the version of a doubt, which is gone.
fn repair<S: Steps>(s: &mut S, doubt: &Doubt) -> Result<(), Wrong> {
    if doubt.verdict.is_none() {
        return Err(Wrong::ConsultedOtherwise);
    }
    match s.fix(doubt) {
        Ok(Fixing::Gone) => Ok(()),
        _ => Err(Wrong::NotGone),
    }
}

/// Removes the row of a doubt by another seat, compacts, and repairs.
fn repair_late<R: Wait, S: Single>(
    rt: &R,
    alloc: Global,
    s: &mut S,
    name: &Name,
    table: TableId,
    doubt: &Doubt,
) -> Result<(), Wrong> {
    s.act_as(2);
    remove(rt, alloc, s, name)?;
    compact(s, table)?;
    s.act_as(1);
    repair(s, doubt)
}

/// Behind the two batches: a query that asks the row of its doubt and closes its point, and that repairs its version only when the row was removed and the
/// table compacted.
pub fn late<R: Wait, S: Single>(rt: &R, alloc: Global, s: &mut S) -> Result<(), Wrong> {
    let Ok(name) = Name::from_str(alloc, "ORDERS") else {
        return Err(Wrong::NoMemory);
    };
    s.act_as(1);
    let Ok(found) = s.find(&name) else {
        return Err(Wrong::NoTable);
    };
    let table = found.table.id;
    drop(found);
    let doubt = doubt_of(alloc, s, table)?;
    let end = repair_late(rt, alloc, s, &name, table, &doubt);
    drop(doubt);
    end
}

/// Whether a query finds none of the row's index keys.
pub fn is_absent<R: Threads + Wait + Sync, S: Single + Send + Drop>(
    rt: &R,
    alloc: Global,
    server: S,
) -> bool
    requires alone { (S.known server).alone ≡ true }
{
    is_told_behind(rt, alloc, server, ASKING, ASKED)
}

// What the repair answers is `Gone`: the version no longer stands unverified.
#[test]
fn a_repair_behind_a_compaction_finds_its_version_gone(rt: HostRuntime) {
    if let Err(wrong) = run(&rt, rt.alloc(), 0, Case::Late) {
        panic!(rt; "{wrong:?}")
    }
}
