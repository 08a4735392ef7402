//! Times the store in memory, what is visible of cells, and merging. `px_bench_cells ROWS` puts cells of so many rows into
//! a store in two batches, takes what is visible, keeps what a horizon asks for, changes one row as often (8,192 times at
//! most), fills a store in batches, and merges the same cells from 2, 8 and 64 sources. It says on standard error how many cells a second each of
//! them passes; without an argument it does so for a few rows, and prints the counts alone.
#![tactic(auto)]

use px_cells::{Cell, CellKind, Cells, is_cell_list, visible};
use px_memstore::MemStore;
use px_merge::{Merged, are_sorted, keep_at};
use std::alloc::{AllocError, Global};
use std::time::Instant;
use std::{env, io};

const POINT: u64 = 8;

// How often one row is changed at the most: a region has room for so many changes of two cells.
const MOST: u64 = 8_192;

fn cell(
    alloc: Global,
    row: u64,
    qualifier: u8,
    stamp: u64,
    kind: CellKind,
) -> Result<Cell, AllocError> {
    let value: &[u8] = match kind {
        CellKind::Put => b"value",
        _ => &[],
    };
    Cell::new(alloc, &row.to_be_bytes(), qualifier, stamp, kind, value)
}

// Of one in so many rows six cells: a row that was gone once, two versions, a NULL over a value, and a value.
fn made(alloc: Global, rows: u64, count: u64, first: u64) -> Result<Cells, AllocError> {
    let mut cells = Cells::new(alloc);
    for row in 0..rows {
        if row % count.max(1) == first {
            cells.push(cell(alloc, row, 0, 3, CellKind::DeleteFamily)?)?;
            cells.push(cell(alloc, row, 1, 9, CellKind::Put)?)?;
            cells.push(cell(alloc, row, 1, 5, CellKind::Put)?)?;
            cells.push(cell(alloc, row, 2, 7, CellKind::DeleteColumn)?)?;
            cells.push(cell(alloc, row, 2, 5, CellKind::Put)?)?;
            cells.push(cell(alloc, row, 3, 4, CellKind::Put)?)?;
        }
    }
    Ok(cells)
}

fn put(store: &mut MemStore, batch: Cells) {
    if is_cell_list(batch.as_slice()) && batch.len() as u64 <= store.room() {
        store.put(batch);
    }
}

// Merges the same cells from so many sources, counts what is given, and says how many microseconds that took.
fn merge(rt: &HostRuntime, rows: u64, count: u64) -> io::Result<(usize, u128)> {
    let alloc = rt.alloc();
    let mut all = Vec::new(alloc);
    for first in 0..count {
        all.push(made(alloc, rows, count, first)?)?;
    }
    let mut sources = Vec::new(alloc);
    for cells in &all {
        sources.push(cells.as_slice())?;
    }
    if !are_sorted(&sources) {
        return Ok((0, 0));
    }
    let start = Instant::now(rt)?;
    let mut given = 0usize;
    for _cell in Merged::over(alloc, &sources)? {
        given = given.wrapping_add(1);
    }
    Ok((given, start.elapsed(rt)?.as_micros()))
}

// Changes one row so many times, each time by two cells, and says how many cells it has then and how many microseconds that took.
fn change(rt: &HostRuntime, changes: u64) -> io::Result<(usize, u128)> {
    let alloc = rt.alloc();
    let mut store = MemStore::new(alloc);
    let start = Instant::now(rt)?;
    for stamp in 0..changes {
        let mut batch = Cells::new(alloc);
        batch.push(cell(alloc, 0, 1, stamp, CellKind::Put)?)?;
        batch.push(cell(alloc, 0, 2, stamp, CellKind::Put)?)?;
        store.reserve(2)?;
        put(&mut store, batch);
    }
    let took = start.elapsed(rt)?.as_micros();
    let key = Vec::from_slice(alloc, &0u64.to_be_bytes())?;
    Ok((store.row(&key).len(), took))
}

// Fills a store with so many rows of three cells, in batches of 100 rows that lie all over it, at least two of them, and says how many cells it has
// then and how many microseconds that took.
fn fill(rt: &HostRuntime, rows: u64) -> io::Result<(usize, u128)> {
    let alloc = rt.alloc();
    let mut store = MemStore::new(alloc);
    let batches = (rows / 100).max(2);
    let start = Instant::now(rt)?;
    for batch in 0..batches {
        let mut cells = Cells::new(alloc);
        for place in 0..100u64 {
            let row = batch.wrapping_add(place.wrapping_mul(batches));
            cells.push(cell(alloc, row, 1, 5, CellKind::Put)?)?;
            cells.push(cell(alloc, row, 2, 5, CellKind::Put)?)?;
            cells.push(cell(alloc, row, 3, 5, CellKind::Put)?)?;
        }
        store.reserve(cells.len() as u64)?;
        put(&mut store, cells);
    }
    let took = start.elapsed(rt)?.as_micros();
    Ok((store.snapshot()?.len(), took))
}

fn rate(cells: usize, micros: u128) -> u128 {
    (cells as u128).wrapping_mul(1_000_000) / micros.max(1)
}

fn run(rt: &HostRuntime, rows: u64, is_timed: bool) -> io::Result<()> {
    let alloc = rt.alloc();
    let (even, odd) = (made(alloc, rows, 2, 0)?, made(alloc, rows, 2, 1)?);
    let mut store = MemStore::new(alloc);
    store.reserve((even.len() as u64).saturating_add(odd.len() as u64))?;
    let start = Instant::now(rt)?;
    put(&mut store, even);
    put(&mut store, odd);
    let putting = start.elapsed(rt)?.as_micros();
    let cells = store.snapshot()?;
    let n = cells.len();
    if !is_cell_list(cells.as_slice()) {
        return Ok(());
    }
    let start = Instant::now(rt)?;
    let seen = visible(alloc, &cells, POINT)?;
    let seeing = start.elapsed(rt)?.as_micros();
    let start = Instant::now(rt)?;
    let kept = keep_at(alloc, &cells, POINT)?;
    let keeping = start.elapsed(rt)?.as_micros();
    let (s, k) = (seen.len(), kept.len());
    if is_timed {
        let (p, v, h) = (rate(n, putting), rate(n, seeing), rate(n, keeping));
        eprintln!(rt; "cells a second: put {p}, visible {v}, keep_at {h}")?;
    }
    println!(rt; "{n} cells, {s} visible, {k} kept")?;
    let (c, changing) = change(rt, rows.min(MOST))?;
    if is_timed {
        let r = rate(c / 2, changing);
        eprintln!(rt; "changes of one row a second, until it has {c} cells: {r}")?;
    }
    println!(rt; "{c} cells of one row")?;
    let (f, filling) = fill(rt, rows)?;
    if is_timed {
        let r = rate(f, filling);
        eprintln!(rt; "cells a second: put in batches of 300, until it has {f}: {r}")?;
    }
    println!(rt; "{f} cells of batches")?;
    for count in [2, 8, 64] {
        let (given, merging) = merge(rt, rows, count)?;
        if is_timed {
            let m = rate(given, merging);
            eprintln!(rt; "cells a second: merged from {count} sources {m}")?;
        }
        println!(rt; "{given} cells merged from {count} sources")?;
    }
    Ok(())
}

fn main(rt: HostRuntime) -> io::Result<()> {
    let mut words = env::args(&rt)?;
    let _name = words.next();
    match words.next() {
        Some(rows) => run(&rt, rows.as_str().parse::<u64>().unwrap_or(1000), true),
        None => run(&rt, 8, false),
    }
}
