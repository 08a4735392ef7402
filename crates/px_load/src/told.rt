// What is told of a load.
ghost use Rattle.std.specs.Prelude.{◌≡◌, ◌++◌, IfOk, OnOk};
ghost use Rattle.px_load.specs.Told as spec;

use crate::Load;
use crate::rows::AMOUNTS;
use px_reply::{
    Item, Reply, Transcript, Transcripts, print_numbered, print_refusal_line, print_with_number,
};
use px_values::{Line, Row, Value};
use std::alloc::AllocError;

/// What came of the two queries so far: nothing, the rows by the table, or those by the index too, with the sum of their amounts.
#[derive(Clone, Copy, Debug, PartialEq, Eq)]
pub enum Came {
    Nothing,
    ByTable {
        rows: u64,
    },
    ByBoth {
        rows: u64,
        indexed: u64,
        amount: u64,
    },
}

/// Adds the lines of a load, of whose queries this came.
fn add_lines(load: Load, came: Came, to: &mut Line) -> Result<(), AllocError>
    ensures { OnOk result (to.new ≡ to.old ++ spec.lines load came) }
{
    let Came::ByBoth {
        rows,
        indexed,
        amount,
    } = came
    else {
        return Ok(());
    };
    print_with_number("load ", load.number, to)?;
    print_numbered(" rows ", load.rows, to)?;
    print_numbered("table rows ", rows, to)?;
    print_numbered("index rows ", indexed, to)?;
    print_numbered("amount ", amount, to)
}

/// Adds the line of the first refusal. Answers whether there is one.
fn add_first_refusal(items: &[Item], to: &mut Line) -> Result<bool, AllocError>
    ensures { IfOk result (λ found. spec.HasTold (spec.first_refusal items.now) found to.old to.new) }
{
    let mut left = items;
    'items: while let Some((item, rest)) = left.split_first() {
        if let Reply::Refused(refusal) = &item.reply {
            print_refusal_line(refusal, to)?;
            return Ok(true);
        }
        left = rest;
    }
    Ok(false)
}

/// The amount of a row as the queries give it.
fn amount_in(row: &Row) -> u64
    ensures { result ≡ spec.amount_in row.now }
{
    match row.as_slice() {
        [_, _, Value::Number(number)] => if *number >= 0 && *number < i128::from(AMOUNTS) {
            *number as u64
        } else {
            0
        },
        _ => 0,
    }
}

/// The sum of the amounts of rows. It stands still at its last value.
fn amount_of(rows: &[Row]) -> u64
    ensures { result ≡ spec.amount_of rows.now }
{
    let mut amount: u64 = 0;
    for row in rows {
        amount = amount.saturating_add(amount_in(row));
    }
    amount
}

/// What has come after the rows of one more query.
fn more(came: Came, answer: &[Row]) -> Came
    ensures { result ≡ spec.more came answer.now }
{
    match came {
        Came::Nothing => Came::ByTable {
            rows: answer.len() as u64,
        },
        Came::ByTable { rows } => Came::ByBoth {
            rows,
            indexed: answer.len() as u64,
            amount: amount_of(answer),
        },
        Came::ByBoth { .. } => came,
    }
}

/// What came of the queries among some items.
fn came_in(items: &[Item]) -> Came
    ensures { result ≡ spec.came_of (spec.answers_in items.now) }
{
    let mut came = Came::Nothing;
    for item in items {
        if let Reply::Rows(rows) = &item.reply {
            came = more(came, rows.as_slice());
        }
    }
    came
}

/// The items of a load's only session.
fn items_of(transcripts: &[Transcript]) -> &[Item]
    ensures { result.now ≡ spec.items_of transcripts.now }
{
    match transcripts {
        [] => &[],
        [only, ..] => only.items.as_slice(),
    }
}

/// Adds what is told of a load: the first refusal, or else how many rows there are by the table and by the index, and what their amounts come
/// to. Where no memory is found the line has a part of it.
pub fn print_load(load: Load, transcripts: &Transcripts, to: &mut Line) -> Result<(), AllocError>
    ensures { OnOk result (to.new ≡ to.old ++ spec.told_of_load load transcripts.now) }
{
    let items = items_of(transcripts.as_slice());
    if add_first_refusal(items, to)? {
        return Ok(());
    }
    add_lines(load, came_in(items), to)
}
