//! Times the lexer. `px_bench_lex FILE` cuts a script into pieces, reads the tokens of each, and says the megabytes a second of
//! both; without an argument it counts those of a small script, and prints the counts alone.
#![tactic(auto)]

use px_lex::script::{PieceKind, cut};
use px_lex::token::tokens;
use std::alloc::Global;
use std::time::Instant;
use std::{env, fs, io};

const SAMPLE: &str =
    "upsert into kv values ('it''s', 'x'); -- end\n!commit\nSELECT /*+ NO_INDEX */ * FROM \"kv\" WHERE a <= 5;";

/// How many statements and session commands a script has, and how many tokens and faults its statements.
#[derive(Drop)]
struct Counts {
    statements: usize,
    commands: usize,
    tokens: usize,
    faults: usize,
}

fn count(alloc: Global, text: &str) -> io::Result<Counts> {
    let mut counts = Counts {
        statements: 0,
        commands: 0,
        tokens: 0,
        faults: 0,
    };
    for piece in cut(alloc, text)?.iter() {
        if piece.kind == PieceKind::Command {
            counts.commands = counts.commands.wrapping_add(1);
            continue;
        }
        counts.statements = counts.statements.wrapping_add(1);
        match tokens(alloc, piece.text) {
            Ok(found) => counts.tokens = counts.tokens.wrapping_add(found.len()),
            Err(_) => counts.faults = counts.faults.wrapping_add(1),
        }
    }
    Ok(counts)
}

fn rate(bytes: usize, micros: u128) -> u128 {
    bytes as u128 / micros.max(1)
}

fn time(rt: HostRuntime, path: &str) -> io::Result<()> {
    let text = fs::read_to_string(&rt, path)?;
    let text = text.as_str();
    let start = Instant::now(&rt)?;
    let pieces = cut(rt.alloc(), text)?;
    let cutting = start.elapsed(&rt)?.as_micros();
    let start = Instant::now(&rt)?;
    let counts = count(rt.alloc(), text)?;
    let both = start.elapsed(&rt)?.as_micros();
    let (a, b) = (rate(text.len(), cutting), rate(text.len(), both));
    let (n, m, k) = (pieces.len(), counts.tokens, counts.faults);
    println!(rt; "{n} pieces, {m} tokens, {k} faults: cut {a} MB/s, cut and tokens {b} MB/s")
}

fn main(rt: HostRuntime) -> io::Result<()> {
    let mut words = env::args(&rt)?;
    let _name = words.next();
    match words.next() {
        Some(path) => time(rt, path.as_str()),
        None => {
            let counts = count(rt.alloc(), SAMPLE)?;
            let (n, c, m, k) = (
                counts.statements,
                counts.commands,
                counts.tokens,
                counts.faults,
            );
            println!(rt; "{n} statements, {c} commands, {m} tokens, {k} faults")
        }
    }
}
