// Going through the keys of a chunk.
ghost use Rattle.std.specs.Prelude.{◌≡◌, ◌++◌, ℕ, Bool, Option, List, IfErr, OnOk, length};
ghost use Rattle.px_tables.specs.declared.found.Found.{Found as FoundTable};
ghost use Rattle.px_trail.specs.declared.entry.Entry.{Entry};
ghost use Rattle.px_calls.specs.declared.query.By.{By as Bys};
ghost use Rattle.px_calls.specs.declared.query.Point.{Point as Points};
ghost use Rattle.px_calls.specs.Doubtful.{IndexVersion};
ghost use Rattle.px_calls.specs.Looks.{AreDoubtsOf};
ghost use Rattle.px_gather.specs.Gathered.{Frame, Pending, is_full as is_full_of, kept, kept_held};
ghost use Rattle.px_gather.specs.Query.{IsPathFor};
ghost use Rattle.px_scan.specs.Bounds.{AreFewer};
ghost use Rattle.px_scan.specs.Fixes.{AreRisingDoubts, StopsDoubtful};
ghost use Rattle.px_scan.specs.Looking.{HasFewerDoubts};
ghost use Rattle.px_scan.specs.Turns.{AreStillDoubts, StopsAt, given_of};

use crate::answer::{Placed, QueryFault};
use crate::asks::Asks;
use px_calls::{Doubt, FoundKey, Held};
use px_values::Row;
use std::collections::VecDeque;

/// Where the sure keys of a chunk end: at a doubt, at its end, or since LIMIT rows are found.
pub(crate) enum Stop {
    Doubt(Doubt),
    End,
    Full,
    NoMemory,
}

/// Keeps a row where it meets the condition.
pub(crate) fn keep<Q: Asks>(
    query: &Q,
    row: Row,
    at: u64,
    rows: &mut Vec<Placed>,
) -> Result<(), QueryFault>
    ensures ok { OnOk result (given_of rows.new.items ≡ given_of rows.old.items ++ kept (Q.asked query.now) row at) }
    ensures err { IfErr result (λ f. f ≡ QueryFault.Memory) }
{
    if query.meets(&row) {
        match rows.push(Placed { row, at }) {
            Ok(()) => {}
            Err(_) => return Err(QueryFault::Memory),
        }
    }
    Ok(())
}

/// Keeps the row of a doubt, where it is there.
pub(crate) fn keep_held<Q: Asks>(
    query: &Q,
    held: Option<Held>,
    rows: &mut Vec<Placed>,
) -> Result<(), QueryFault>
    ensures ok { OnOk result (given_of rows.new.items ≡ given_of rows.old.items ++ kept_held (Q.asked query.now) held) }
    ensures err { IfErr result (λ f. f ≡ QueryFault.Memory) }
{
    match held {
        None => Ok(()),
        Some(held) => {
            let Held { row, at } = held;
            keep(query, row, at, rows)
        }
    }
}

/// Whether LIMIT rows are found.
pub(crate) fn is_full<Q: Asks>(query: &Q, rows: &[Placed]) -> bool
    ensures { result ≡ is_full_of (Q.asked query.now).limit (length (given_of rows.now)) }
{
    match query.limit() {
        None => false,
        Some(limit) => rows.len() as u64 >= limit,
    }
}

/// Keeps the sure keys up to a doubt or the end. It makes no call.
pub(crate) fn keep_sure<Q: Asks>(
    query: &Q,
    keys: &mut VecDeque<FoundKey>,
    at: u64,
    rows: &mut Vec<Placed>,
) -> Stop
    ensures gathers { (f : Frame) → (es : List Entry) → (next : Option (List ℕ)) → f.query ≡ Q.asked query.now → IsPathFor f.query f.point f.path → Pending f es at keys.old.items next (given_of rows.old.items) → StopsAt f es at keys.new.items next result (given_of rows.new.items) }
    ensures doubts { (f : FoundTable) → (w : Bys) → AreDoubtsOf f w keys.old.items → AreStillDoubts f w keys.new.items result }
    ensures fewer { AreFewer keys.old.items keys.new.items result }
    ensures fewer_doubts { HasFewerDoubts keys.old.items keys.new.items result }
    ensures doubtful { (f : Points → IndexVersion → Bool) → (p : Points) → (low : Option (List ℕ)) → AreRisingDoubts f p low keys.old.items → StopsDoubtful f p keys.new.items result }
{
    'keys: while let Some(key) = keys.pop_front() {
        if is_full(query, rows.as_slice()) {
            return Stop::Full;
        }
        match key {
            FoundKey::Sure(found) => match keep(query, found.row, at, rows) {
                Ok(()) => {}
                Err(_) => return Stop::NoMemory,
            },
            FoundKey::InDoubt(doubt) => return Stop::Doubt(doubt),
        }
    }
    Stop::End
}
