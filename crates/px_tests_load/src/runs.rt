// Loads that are run.
use px_load::{Load, load_text, print_load};
use px_outside::MemDisk;
use px_tests_runs::runs::{Outcome, Ran, disk_of, run};
use px_values::Line;
use std::alloc::{AllocError, Global};
use std::fmt::Write;
use std::sync::Wait;
use std::test::Fail;
use std::thread::Threads;

/// What is told of a load that was run.
fn told(alloc: Global, load: Load, ran: &Ran<MemDisk>) -> Result<Line, AllocError> {
    let mut line = Line::new(alloc);
    print_load(load, &ran.transcripts, &mut line)?;
    Ok(line)
}

/// What a load leaves: the disk, what is told of it, and all that its sessions were answered.
#[derive(Drop)]
struct Loaded {
    disk: MemDisk,
    told: Line,
    replies: Vec<u8>,
}

/// What a run of a load leaves.
fn left(alloc: Global, load: Load, ran: Ran<MemDisk>) -> Option<Loaded> {
    let line = told(alloc, load, &ran);
    let replies = Vec::from_slice(alloc, ran.printed.held());
    let disk = disk_of(ran);
    match (line, replies) {
        (Ok(told), Ok(replies)) => Some(Loaded {
            disk,
            told,
            replies,
        }),
        (line, replies) => {
            drop(line);
            drop(replies);
            drop(disk);
            None
        }
    }
}

/// Runs a load on a disk; none where it isn't opened, or memory was lacked.
fn load_anew<R: Threads + Wait + Sync>(
    rt: &R,
    alloc: Global,
    disk: MemDisk,
    load: Load,
) -> Option<Loaded> {
    let Ok(text) = load_text(alloc, load) else {
        drop(disk);
        return None;
    };
    match run(rt, alloc, disk.image(), &text, &[]) {
        Outcome::Ran(ran) => left(alloc, load, ran),
        Outcome::Unopened(disk) => {
            drop(disk);
            None
        }
        Outcome::Lacked => None,
    }
}

/// What is told of a load of one row behind the number 0.
const TOLD: &str = "load 0 rows 1
table rows 1
index rows 1
amount 937
";

#[test]
fn a_load_of_one_row_is_told_and_refused_where_its_table_stands(
    rt: HostRuntime,
) -> Result<(), Fail> {
    let load = Load { number: 0, rows: 1 };
    let Loaded {
        disk,
        told,
        replies,
    } = load_anew(&rt, rt.alloc(), MemDisk::new(rt.alloc()), load).ok_or("the first")?;
    assert_eq!(rt; told.as_slice(), TOLD.as_bytes());
    assert!(rt;
        replies
            .as_slice()
            .ends_with("0, 'G24', 937\n1 row selected\n".as_bytes())
    );
    let again = load_anew(&rt, rt.alloc(), disk, load).ok_or("the second")?;
    assert_eq!(rt; again.told.as_slice(), "E03 name exists: LOAD\n".as_bytes());
    Ok(())
}

/// The next number of the sequence.
fn next(number: u64) -> u64 {
    number
        .wrapping_mul(6_364_136_223_846_793_005)
        .wrapping_add(1_442_695_040_888_963_407)
}

/// The amounts by key, as a map that is filled by the draws has them.
fn amounts(alloc: Global, load: Load) -> Result<Vec<Option<u64>>, AllocError> {
    let mut amounts = Vec::new(alloc);
    for _ in 0..load.rows {
        amounts.push(None)?;
    }
    let mut number = load.number;
    for _ in 0..load.rows {
        let key = next(number);
        let amount = next(next(key));
        number = amount;
        let place = (key >> 33) % load.rows.max(1);
        if let Some(slot) = amounts.get_mut(place as usize) {
            *slot = Some((amount >> 33) % 1_000);
        }
    }
    Ok(amounts)
}

/// What is to be told of a load.
fn expected(alloc: Global, load: Load) -> Result<String, AllocError> {
    let amounts = amounts(alloc, load)?;
    let (mut rows, mut sum): (u64, u64) = (0, 0);
    for amount in &amounts {
        if let Some(amount) = amount {
            rows = rows.saturating_add(1);
            sum = sum.saturating_add(*amount);
        }
    }
    let mut text = String::new(alloc);
    write!(text, "load {} rows {}\n", load.number, load.rows)?;
    write!(text, "table rows {rows}\nindex rows {rows}\namount {sum}\n")?;
    Ok(text)
}

#[test]
fn two_loads_of_2_000_rows_tell_what_a_plain_map_has(rt: HostRuntime) -> Result<(), Fail> {
    let load = Load {
        number: 7,
        rows: 2_000,
    };
    let first = load_anew(&rt, rt.alloc(), MemDisk::new(rt.alloc()), load).ok_or("the first")?;
    let second = load_anew(&rt, rt.alloc(), MemDisk::new(rt.alloc()), load).ok_or("the second")?;
    let told = expected(rt.alloc(), load)?;
    assert_eq!(rt; first.told.as_slice(), told.as_bytes());
    assert_eq!(rt; second.told.as_slice(), told.as_bytes());
    assert!(rt; first.replies.as_slice() == second.replies.as_slice());
    Ok(())
}

#[test]
fn loads_of_other_numbers_tell_what_a_plain_map_has(rt: HostRuntime) -> Result<(), Fail> {
    for (number, rows) in [(1, 2), (2, 100), (u64::MAX, 101), (12, 1_000)] {
        let load = Load { number, rows };
        let left = load_anew(&rt, rt.alloc(), MemDisk::new(rt.alloc()), load).ok_or("a load")?;
        let told = expected(rt.alloc(), load)?;
        assert_eq!(rt; left.told.as_slice(), told.as_bytes(), "{number}");
    }
    Ok(())
}
