// A batch that is to write a row which an earlier one is still to write.
ghost use Rattle.std.specs.Prelude.{◌≡◌, ◌≢◌, OnOk};
ghost use Rattle.px_trail.specs.Batches.{Closing, Marking, Verifying, Writing};
ghost use Rattle.px_calls.specs.Requires.{TicketIn};
ghost use Rattle.px_tests_served.specs.Beside.{LeavesAll, LeavesOthers};

use crate::served::{Case, Wrong, run};
use crate::stepping::{begun, settle};
use px_calls::{Marks, StepFault, Steps, Ticket, Verifies, Writes};
use px_values::{Rows, Value};
use std::alloc::Global;

/// The customer of the earlier batch, and that of the later one.
pub const ASKING: &str = "SELECT ID, CUST, AMT FROM ORDERS WHERE CUST = 'bo';
SELECT ID, CUST, AMT FROM ORDERS WHERE CUST = 'al';
";

pub const ASKED: &str = "0 rows selected\n1, 'al', 7\n1 row selected\n";

/// Phase 1 of one of the batches.
fn marked<S: Steps>(s: &mut S, t: &mut Ticket) -> Result<(), Wrong>
    requires { TicketIn (S.known s.old) t.old Marking }
    ensures same { t.new ≡ t.old }
    ensures ticket { OnOk result (TicketIn (S.known s.new) t.new Writing) }
    ensures others { OnOk result (LeavesOthers (S.known s.old) (S.known s.new) t.new.stamp) }
{
    match s.mark(t) {
        Ok(Marks::AllMarked) => Ok(()),
        _ => Err(Wrong::NotMade),
    }
}

/// The batch isn't written, since the one of this stamp isn't yet. No entry comes of it, so it can be tried again.
fn waits<S: Steps>(s: &mut S, t: &mut Ticket, earlier: u64) -> Result<(), Wrong>
    requires { TicketIn (S.known s.old) t.old Writing }
    ensures same { t.new ≡ t.old }
    ensures all { OnOk result (LeavesAll (S.known s.old) (S.known s.new)) }
{
    let entries = s.seen();
    match s.write(t) {
        Err(StepFault::NotYet { stamp }) => {
            if stamp == earlier && s.seen() == entries {
                Ok(())
            } else {
                Err(Wrong::NotWaiting)
            }
        }
        _ => Err(Wrong::NotWaiting),
    }
}

/// Phase 2.
fn written<S: Steps>(s: &mut S, t: &mut Ticket) -> Result<(), Wrong>
    requires { TicketIn (S.known s.old) t.old Writing }
    ensures same { t.new ≡ t.old }
    ensures ticket { OnOk result (TicketIn (S.known s.new) t.new Verifying) }
    ensures others { OnOk result (LeavesOthers (S.known s.old) (S.known s.new) t.new.stamp) }
{
    match s.write(t) {
        Ok(Writes::AllWritten) => Ok(()),
        _ => Err(Wrong::NotMade),
    }
}

/// Phase 3.
fn verified<S: Steps>(s: &mut S, t: &mut Ticket) -> Result<(), Wrong>
    requires { TicketIn (S.known s.old) t.old Verifying }
    ensures same { t.new ≡ t.old }
    ensures ticket { OnOk result (TicketIn (S.known s.new) t.new Closing) }
    ensures others { OnOk result (LeavesOthers (S.known s.old) (S.known s.new) t.new.stamp) }
{
    match s.verify_marks(t) {
        Ok(Verifies::Done) => Ok(()),
        _ => Err(Wrong::NotMade),
    }
}

/// The later batch is marked and waits; then the earlier one is marked.
fn both_marked<S: Steps>(s: &mut S, first: &mut Ticket, second: &mut Ticket) -> Result<(), Wrong>
    requires apart { first.old.stamp ≢ second.old.stamp }
    requires first { TicketIn (S.known s.old) first.old Marking }
    requires second { TicketIn (S.known s.old) second.old Marking }
    ensures same_first { first.new ≡ first.old }
    ensures same_second { second.new ≡ second.old }
    ensures first { OnOk result (TicketIn (S.known s.new) first.new Writing) }
    ensures second { OnOk result (TicketIn (S.known s.new) second.new Writing) }
{
    marked(s, second)?;
    waits(s, second, first.stamp)?;
    marked(s, first)
}

/// It waits as often as it is tried, and is written as soon as the earlier one is.
fn both_written<S: Steps>(s: &mut S, first: &mut Ticket, second: &mut Ticket) -> Result<(), Wrong>
    requires apart { first.old.stamp ≢ second.old.stamp }
    requires first { TicketIn (S.known s.old) first.old Writing }
    requires second { TicketIn (S.known s.old) second.old Writing }
    ensures same_first { first.new ≡ first.old }
    ensures same_second { second.new ≡ second.old }
    ensures first { OnOk result (TicketIn (S.known s.new) first.new Verifying) }
    ensures second { OnOk result (TicketIn (S.known s.new) second.new Verifying) }
{
    waits(s, second, first.stamp)?;
    waits(s, second, first.stamp)?;
    written(s, first)?;
    written(s, second)
}

/// Both are verified.
fn both_verified<S: Steps>(s: &mut S, first: &mut Ticket, second: &mut Ticket) -> Result<(), Wrong>
    requires apart { first.old.stamp ≢ second.old.stamp }
    requires first { TicketIn (S.known s.old) first.old Verifying }
    requires second { TicketIn (S.known s.old) second.old Verifying }
    ensures same_first { first.new ≡ first.old }
    ensures same_second { second.new ≡ second.old }
    ensures first { OnOk result (TicketIn (S.known s.new) first.new Closing) }
    ensures second { OnOk result (TicketIn (S.known s.new) second.new Closing) }
{
    verified(s, first)?;
    verified(s, second)
}

/// Makes both up to their ends.
fn both_made<S: Steps>(s: &mut S, first: &mut Ticket, second: &mut Ticket) -> Result<(), Wrong>
    requires apart { first.old.stamp ≢ second.old.stamp }
    requires first { TicketIn (S.known s.old) first.old Marking }
    requires second { TicketIn (S.known s.old) second.old Marking }
    ensures same_first { first.new ≡ first.old }
    ensures same_second { second.new ≡ second.old }
    ensures first { OnOk result (TicketIn (S.known s.new) first.new Closing) }
    ensures second { OnOk result (TicketIn (S.known s.new) second.new Closing) }
{
    both_marked(s, first, second)?;
    both_written(s, first, second)?;
    both_verified(s, first, second)
}

/// Whether these are row 1 alone.
fn is_row_one(rows: &Rows) -> bool {
    match rows.as_slice() {
        [row] => match row.as_slice() {
            [Value::Number(number)] => *number == 1,
            _ => false,
        },
        _ => false,
    }
}

/// Ends a batch of this stamp. Its receipt names the row, on which the other one was pending meanwhile.
fn ended<S: Steps>(s: &mut S, t: Ticket, stamp: u64) -> Result<(), Wrong>
    requires { TicketIn (S.known s.old) t Closing }
    ensures others { LeavesOthers (S.known s.old) (S.known s.new) t.stamp }
{
    let receipt = s.end(t);
    let is_right = receipt.stamp == stamp
        && receipt.rows == 1
        && receipt.unfinished.is_none()
        && is_row_one(&receipt.concurrent);
    drop(receipt);
    if is_right {
        Ok(())
    } else {
        Err(Wrong::MadeOtherwise)
    }
}

/// Ends both, the earlier one first.
fn both_ended<S: Steps>(s: &mut S, first: Ticket, second: Ticket) -> Result<(), Wrong>
    requires apart { first.stamp ≢ second.stamp }
    requires first { TicketIn (S.known s.old) first Closing }
    requires second { TicketIn (S.known s.old) second Closing }
{
    let earlier = ended(s, first, 2);
    let later = ended(s, second, 3);
    earlier?;
    later
}

/// Lets a ticket go, with which nothing more is done.
fn let_go(t: Ticket) {
    let Ticket { table: _, stamp: _ } = t;
}

/// Makes both batches, where they have the stamps behind the index's.
fn made_in_turn<S: Steps>(s: &mut S, mut first: Ticket, mut second: Ticket) -> Result<(), Wrong>
    requires first { TicketIn (S.known s.old) first Marking }
    requires second { TicketIn (S.known s.old) second Marking }
{
    if first.stamp != 2 || second.stamp != 3 {
        let_go(first);
        let_go(second);
        return Err(Wrong::MadeOtherwise);
    }
    if let Err(wrong) = both_made(s, &mut first, &mut second) {
        let_go(first);
        let_go(second);
        return Err(wrong);
    }
    both_ended(s, first, second)
}

/// Begins two batches of one row, and makes them. They have ten entries: each begins, is marked, written and verified, and ends.
pub fn met_in_turn<S: Steps>(alloc: Global, s: &mut S) -> Result<(), Wrong> {
    if !settle(s) {
        return Err(Wrong::NotSettled);
    }
    let entries = s.seen();
    let first = begun(alloc, s, "bo", 5)?;
    let second = match begun(alloc, s, "al", 7) {
        Ok(second) => second,
        Err(wrong) => {
            let_go(first);
            return Err(wrong);
        }
    };
    made_in_turn(s, first, second)?;
    if s.seen() == entries.saturating_add(10) {
        Ok(())
    } else {
        Err(Wrong::MadeOtherwise)
    }
}

#[test]
fn a_later_write_waits_for_the_earlier_one(rt: HostRuntime) {
    if let Err(wrong) = run(&rt, rt.alloc(), 259_200_000, Case::Waiting) {
        panic!(rt; "{wrong:?}")
    }
}
