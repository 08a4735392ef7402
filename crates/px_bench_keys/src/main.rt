//! Times keys of a text and a number. `px_bench_keys KEYS DIRECTION TEXT` says how many of them are written and read a
//! second, in the direction `asc` or `desc`; without arguments it writes and reads a few, and prints their bytes and values alone.
#![tactic(auto)]

use px_keys::{KeyColumn, KeyFault, Part, decode_key, encode_key};
use px_values::{ColType, Direction, Key, Text, Value};
use std::alloc::Global;
use std::time::Instant;
use std::{env, io};

/// How many keys are kept to be read.
const KEPT: u64 = 1_000;

/// What the keys are made of, beside a number each.
#[derive(Drop)]
struct Sample {
    columns: [KeyColumn; 2],
    text: Value,
}

fn sample_of(alloc: Global, direction: &str, text: &str) -> io::Result<Sample> {
    let direction = if direction == "desc" {
        Direction::Descending
    } else {
        Direction::Ascending
    };
    let column = |ty| KeyColumn {
        ty,
        direction,
        may_be_null: true,
    };
    Ok(Sample {
        columns: [column(ColType::Varchar), column(ColType::BigInt)],
        text: Value::Text(Text::from_str(alloc, text)?),
    })
}

fn key_of(alloc: Global, parts: &[Part<'_>]) -> Result<Key, KeyFault> {
    if !parts.iter().all(|part| part.can_stand()) {
        return Err(KeyFault::NotAKey { place: 0 });
    }
    encode_key(alloc, parts)
}

fn numbered_key(alloc: Global, sample: &Sample, number: u64) -> Result<Key, KeyFault> {
    let value = Value::Number(i128::from(number));
    let parts = [
        Part {
            column: sample.columns[0],
            value: &sample.text,
        },
        Part {
            column: sample.columns[1],
            value: &value,
        },
    ];
    key_of(alloc, &parts)
}

/// How many bytes the keys of the first numbers have.
fn write(alloc: Global, sample: &Sample, keys: u64) -> u64 {
    let mut bytes: u64 = 0;
    for number in 0..keys {
        if let Ok(key) = numbered_key(alloc, sample, number) {
            bytes = bytes.wrapping_add(key.as_slice().len() as u64);
        }
    }
    bytes
}

/// How many values these keys have, each read so often.
fn read(alloc: Global, sample: &Sample, keys: &[Key], rounds: u64) -> u64 {
    let mut values: u64 = 0;
    for _ in 0..rounds {
        for key in keys {
            if let Ok(row) = decode_key(alloc, key.as_slice(), &sample.columns) {
                values = values.wrapping_add(row.as_slice().len() as u64);
            }
        }
    }
    values
}

/// The keys of the first numbers.
fn first_keys(alloc: Global, sample: &Sample, keys: u64) -> io::Result<Vec<Key>> {
    let mut made = Vec::new(alloc);
    for number in 0..keys {
        if let Ok(key) = numbered_key(alloc, sample, number) {
            made.push(key)?;
        }
    }
    Ok(made)
}

fn rate(keys: u64, micros: u128) -> u128 {
    u128::from(keys) * 1_000_000 / micros.max(1)
}

fn time(rt: HostRuntime, sample: &Sample, keys: u64) -> io::Result<()> {
    let alloc = rt.alloc();
    let start = Instant::now(&rt)?;
    let bytes = write(alloc, sample, keys);
    let written = rate(keys, start.elapsed(&rt)?.as_micros());
    let kept = first_keys(alloc, sample, KEPT)?;
    let start = Instant::now(&rt)?;
    let values = read(alloc, sample, kept.as_slice(), keys / KEPT);
    let read = rate(values / 2, start.elapsed(&rt)?.as_micros());
    println!(rt; "{keys} keys of {bytes} bytes: {written} written and {read} read a second")
}

fn main(rt: HostRuntime) -> io::Result<()> {
    let mut words = env::args(&rt)?;
    let _name = words.next();
    let (Some(keys), Some(direction), Some(text)) = (words.next(), words.next(), words.next())
    else {
        let sample = sample_of(rt.alloc(), "asc", "customer of the north")?;
        let bytes = write(rt.alloc(), &sample, 100);
        let keys = first_keys(rt.alloc(), &sample, 100)?;
        let values = read(rt.alloc(), &sample, keys.as_slice(), 1);
        return println!(rt; "100 keys of {bytes} bytes and {values} values");
    };
    let sample = sample_of(rt.alloc(), direction.as_str(), text.as_str())?;
    time(rt, &sample, keys.as_str().parse::<u64>().unwrap_or(KEPT))
}
