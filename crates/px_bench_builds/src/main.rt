//! Times the making of an index's base versions, which a build does outside the server's turn. `px_bench_builds ROWS` makes so many rows of a table, in
//! chunks of 64 as a look finds them, and then their base versions, 64 chunks at once, from as many threads as there are processors. It says on
//! standard error how many rows a second these are; without an argument it does so for a few rows, and prints the count alone.
#![tactic(auto)]

use px_calls::{FoundKey, FoundRow};
use px_entries::key_on;
use px_keys::KeyColumn;
use px_paths::PathColumn;
use px_tables::TableColumn;
use px_upkeep::base_pieces;
use px_values::{ColType, Direction, Items, Name, Text, Value};
use std::alloc::{AllocError, Global};
use std::rt::Runtime;
use std::thread::Threads;
use std::time::Instant;
use std::{env, io};

// Rows that a look finds, and chunks whose base versions are made at once.
const CHUNK: u64 = 64;

const CHUNKS: u64 = 64;

fn table_column(
    alloc: Global,
    name: &str,
    column_type: ColType,
) -> Result<TableColumn, AllocError> {
    Ok(TableColumn {
        name: Name::from_str(alloc, name)?,
        column_type,
        not_null: false,
    })
}

fn path_column(place: u8, ty: ColType) -> PathColumn {
    PathColumn {
        place,
        column: KeyColumn {
            ty,
            direction: Direction::Ascending,
            may_be_null: ty == ColType::Varchar,
        },
    }
}

// The row with this number: its number, a text that sorts otherwise than it, and a small number.
fn row_of(alloc: Global, number: u64) -> Result<Vec<Value>, AllocError> {
    let mut digits = itoa::Buffer::new();
    let text = Text::from_str(alloc, digits.format(number.wrapping_mul(7_919) % 1_000_000))?;
    let mut row = Vec::new(alloc);
    row.push(Value::Number(number as i128))?;
    row.push(Value::Text(text))?;
    row.push(Value::Number((number % 90) as i128))?;
    Ok(row)
}

// The rows from this one on that a look finds.
fn chunk(
    alloc: Global,
    path: &[PathColumn],
    first: u64,
    end: u64,
) -> Result<Items<FoundKey>, AllocError> {
    let mut found = Vec::new(alloc);
    for number in first..end.min(first.saturating_add(CHUNK)) {
        let row = row_of(alloc, number)?;
        match key_on(alloc, path, &row)? {
            Some(key) => found.push(FoundKey::Sure(FoundRow {
                key,
                row: Items::of(row),
            }))?,
            None => drop(row),
        }
    }
    Ok(Items::of(found))
}

// Makes the base versions of so many rows, chunk by chunk, and says of how many it made them and how many microseconds that took.
fn build<R: Runtime + Threads + Sync>(
    rt: &R,
    alloc: Global,
    rows: u64,
) -> io::Result<(usize, u128)> {
    let mut columns = Vec::new(alloc);
    columns.push(table_column(alloc, "ID", ColType::BigInt)?)?;
    columns.push(table_column(alloc, "CITY", ColType::Varchar)?)?;
    columns.push(table_column(alloc, "AGE", ColType::Integer)?)?;
    let keys = [path_column(0, ColType::BigInt)];
    let path = [
        path_column(1, ColType::Varchar),
        path_column(0, ColType::BigInt),
    ];
    let (mut made, mut took) = (0usize, 0u128);
    for batch in 0..(rows / (CHUNK * CHUNKS)).saturating_add(1) {
        let first = batch.saturating_mul(CHUNK * CHUNKS);
        let mut chunks = Vec::new(alloc);
        for place in 0..CHUNKS {
            let start = first.saturating_add(place.wrapping_mul(CHUNK));
            chunks.push(chunk(alloc, &keys, start, rows)?)?;
        }
        let start = Instant::now(rt)?;
        if let Ok(pieces) = base_pieces(rt, alloc, &columns, &keys, &path, Items::of(chunks)) {
            took = took.wrapping_add(start.elapsed(rt)?.as_micros());
            for piece in pieces.as_slice() {
                made = made.wrapping_add(piece.as_slice().len());
            }
        }
    }
    Ok((made, took))
}

fn run<R: Runtime + Threads + Sync>(
    rt: &R,
    alloc: Global,
    rows: u64,
    is_timed: bool,
) -> io::Result<()> {
    let (made, took) = build(rt, alloc, rows)?;
    if is_timed {
        let rate = (made as u128).wrapping_mul(1_000_000) / took.max(1);
        eprintln!(rt; "base versions a second: {rate}")?;
    }
    println!(rt; "{made} base versions")
}

fn main(rt: HostRuntime) -> io::Result<()> {
    let alloc = rt.alloc();
    let mut words = env::args(&rt)?;
    let _name = words.next();
    match words.next() {
        Some(rows) => run(
            &rt,
            alloc,
            rows.as_str().parse::<u64>().unwrap_or(1000),
            true,
        ),
        None => run(&rt, alloc, 130, false),
    }
}
