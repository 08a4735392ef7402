// An index that is to be dropped while its table is in use.
ghost use Rattle.std.specs.Prelude.{◌≡◌, ℕ, [], true, IfErr, OnOk};
ghost use Rattle.px_trail.specs.Batches.{Closing, Marking, Verifying, Writing};
ghost use Rattle.px_calls.specs.Known.{Sees};
ghost use Rattle.px_calls.specs.Requires.{TicketIn};
ghost use Rattle.px_calls.specs.declared.fault.StepFault.TheVariants.{InUse};

use crate::scripts::told_first;
use crate::served::{Case, Wrong, run};
use crate::stepping::{begun, settle};
use px_calls::{Definition, Made, Marks, Point, StepFault, Steps, Ticket, Verifies, Writes};
use px_seat::Single;
use px_values::{IndexId, TableId};
use std::alloc::Global;
use std::sync::Wait;
use std::thread::Threads;

/// What uses the table.
#[derive(Clone, Copy)]
pub enum Use {
    /// Another seat's point.
    Point,
    /// A batch of the same seat.
    Batch,
}

/// A table with an index, which is born at stamp 1.
const MAKING: &str =
    "CREATE TABLE ORDERS (ID BIGINT NOT NULL PRIMARY KEY, CUST VARCHAR, AMT INTEGER, NOTE VARCHAR);
CREATE INDEX BY_CUST ON ORDERS (CUST) INCLUDE (AMT);
";

const MADE: &str = "table created\nindex created\n";

// KV has the first number for its region and the second for itself, and the table and the index draw so as well.
const TABLE: TableId = TableId(4);

const INDEX: IndexId = IndexId(6);

pub const AGAIN: &str = "DROP INDEX BY_CUST ON ORDERS;
SELECT ID, CUST, AMT FROM ORDERS;
";

/// What the script prints then.
pub fn again_printed(used: Use) -> &'static str {
    match used {
        Use::Point => "E09 no such index: BY_CUST\n0 rows selected\n",
        Use::Batch => "E09 no such index: BY_CUST\n1, 'bo', 5\n1 row selected\n",
    }
}

/// The table and the index, on a server with which nothing was done.
pub fn made<R: Threads + Wait + Sync, S: Single + Send>(
    rt: &R,
    alloc: Global,
    server: S,
) -> (S, bool)
    requires alone { (S.known server).alone ≡ true }
    requires nothing { (S.known server).seen ≡ [] }
{
    told_first(rt, alloc, server, MAKING, &[], MADE)
}

/// Drops the index.
fn drop_index<S: Steps>(s: &mut S) -> Result<Made, StepFault>
    ensures { IfErr result (λ f. (count : ℕ) → f ≡ InUse count → Sees (S.known s.old) (S.known s.new)) }
{
    let definition = Definition::DropIndex {
        table: TABLE,
        index: INDEX,
    };
    let answer = s.define(&definition);
    drop(definition);
    answer
}

/// The index isn't dropped, since so many points and batches are open.
fn in_use<S: Steps>(s: &mut S, count: u64) -> Result<(), Wrong>
    ensures { OnOk result (Sees (S.known s.old) (S.known s.new)) }
{
    match drop_index(s) {
        Err(StepFault::InUse { count: told }) => {
            if told == count {
                Ok(())
            } else {
                Err(Wrong::NotInUse)
            }
        }
        _ => Err(Wrong::NotInUse),
    }
}

/// The index is dropped by an entry of this number, and then there is none.
fn dropped<S: Steps>(s: &mut S, entry: u64) -> Result<(), Wrong> {
    match drop_index(s) {
        Ok(
            Made {
                number: 6,
                stamp: 0,
                at,
            },
        ) => {
            if at != entry {
                return Err(Wrong::NotDropped);
            }
        }
        _ => return Err(Wrong::NotDropped),
    }
    match drop_index(s) {
        Err(StepFault::NoIndex) => Ok(()),
        _ => Err(Wrong::NotGone),
    }
}

/// Lets a point go, with which nothing more is done.
fn let_go(point: Point) {
    let Point {
        table: _,
        stamp: _,
        scn: _,
        found,
    } = point;
    drop(found);
}

/// A point of the first seat, under which the second doesn't drop the index.
fn under_a_point<S: Single>(s: &mut S) -> Result<(), Wrong>
    requires alone { (S.known s.old).alone ≡ true }
{
    s.act_as(1);
    let Ok(point) = s.open_point(TABLE, None) else {
        return Err(Wrong::NotOpened);
    };
    s.act_as(2);
    if let Err(wrong) = in_use(s, 1) {
        let_go(point);
        return Err(wrong);
    }
    s.act_as(1);
    s.close_point(point);
    Ok(())
}

/// A point is opened, the index isn't dropped, the point is closed, and the next step drops it: three entries.
fn dropped_behind_a_point<S: Single>(s: &mut S) -> Result<(), Wrong>
    requires alone { (S.known s.old).alone ≡ true }
{
    let entries = s.seen();
    under_a_point(s)?;
    s.act_as(2);
    dropped(s, entries.saturating_add(3))
}

/// While a point is open beside the batch, both are counted.
fn with_a_point<S: Steps>(s: &mut S, t: &Ticket) -> Result<(), Wrong>
    requires { TicketIn (S.known s.old) t.now Marking }
    ensures { OnOk result (TicketIn (S.known s.new) t.now Marking) }
{
    let Ok(point) = s.open_point(TABLE, None) else {
        return Err(Wrong::NotOpened);
    };
    if let Err(wrong) = in_use(s, 2) {
        let_go(point);
        return Err(wrong);
    }
    s.close_point(point);
    Ok(())
}

/// Phase 1 of the batch.
fn marked<S: Steps>(s: &mut S, t: &mut Ticket) -> Result<(), Wrong>
    requires { TicketIn (S.known s.old) t.old Marking }
    ensures same { t.new ≡ t.old }
    ensures ticket { OnOk result (TicketIn (S.known s.new) t.new Writing) }
{
    in_use(s, 1)?;
    match s.mark(t) {
        Ok(Marks::AllMarked) => Ok(()),
        _ => Err(Wrong::NotMade),
    }
}

/// Phase 2.
fn written<S: Steps>(s: &mut S, t: &mut Ticket) -> Result<(), Wrong>
    requires { TicketIn (S.known s.old) t.old Writing }
    ensures same { t.new ≡ t.old }
    ensures ticket { OnOk result (TicketIn (S.known s.new) t.new Verifying) }
{
    in_use(s, 1)?;
    match s.write(t) {
        Ok(Writes::AllWritten) => Ok(()),
        _ => Err(Wrong::NotMade),
    }
}

/// Phase 3.
fn verified<S: Steps>(s: &mut S, t: &mut Ticket) -> Result<(), Wrong>
    requires { TicketIn (S.known s.old) t.old Verifying }
    ensures same { t.new ≡ t.old }
    ensures ticket { OnOk result (TicketIn (S.known s.new) t.new Closing) }
{
    in_use(s, 1)?;
    match s.verify_marks(t) {
        Ok(Verifies::Done) => in_use(s, 1),
        _ => Err(Wrong::NotMade),
    }
}

/// Makes the batch up to its end, and before each step the index isn't dropped.
fn under_a_batch<S: Steps>(s: &mut S, t: &mut Ticket) -> Result<(), Wrong>
    requires { TicketIn (S.known s.old) t.old Marking }
    ensures same { t.new ≡ t.old }
    ensures ticket { OnOk result (TicketIn (S.known s.new) t.new Closing) }
{
    with_a_point(s, t)?;
    marked(s, t)?;
    written(s, t)?;
    verified(s, t)
}

/// A batch is made, and once it is ended the next step drops the index. The batch has five entries and the point beside it two.
fn dropped_behind_a_batch<S: Steps>(alloc: Global, s: &mut S) -> Result<(), Wrong> {
    if !settle(s) {
        return Err(Wrong::NotSettled);
    }
    let entries = s.seen();
    let mut ticket = begun(alloc, s, "bo", 5)?;
    if let Err(wrong) = under_a_batch(s, &mut ticket) {
        let Ticket { table: _, stamp: _ } = ticket;
        return Err(wrong);
    }
    let receipt = s.end(ticket);
    let is_right = receipt.stamp == 2 && receipt.rows == 1;
    drop(receipt);
    if !is_right {
        return Err(Wrong::MadeOtherwise);
    }
    dropped(s, entries.saturating_add(8))
}

/// Drops the index, which the table's use holds off.
pub fn dropped_behind<S: Single>(alloc: Global, s: &mut S, used: Use) -> Result<(), Wrong>
    requires alone { (S.known s.old).alone ≡ true }
{
    match used {
        Use::Point => dropped_behind_a_point(s),
        Use::Batch => dropped_behind_a_batch(alloc, s),
    }
}

#[test]
fn an_index_is_in_use_until_a_point_is_closed(rt: HostRuntime) {
    if let Err(wrong) = run(&rt, rt.alloc(), 259_200_000, Case::InUse(Use::Point)) {
        panic!(rt; "{wrong:?}")
    }
}

#[test]
fn an_index_is_in_use_until_a_batch_has_ended(rt: HostRuntime) {
    if let Err(wrong) = run(&rt, rt.alloc(), 259_200_000, Case::InUse(Use::Batch)) {
        panic!(rt; "{wrong:?}")
    }
}
