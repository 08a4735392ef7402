// What is there after stops within a build of several chunks.
use px_outside::{Choice, MemDisk};
use px_program::Status;
use px_tests_program::runs::{Run, disk_of, run_again, run_new, run_words};
use px_tests_runs::copies::{add_files, copied};
use std::alloc::{AllocError, Global};
use std::fmt;
use std::fmt::Write;
use std::sync::Wait;
use std::thread::Threads;

/// So many rows are read in four chunks.
const ROWS: u32 = 200;

const MAKE: &str = "CREATE INDEX BY_A ON T (A) INCLUDE (B);\n";

/// What is asked behind a stop: the rows by the path that is chosen, and once the index is built again the same, and that path.
const ASKED: &str = "SELECT ID, A, B FROM T WHERE A = 'x';
!status T
ALTER INDEX BY_A ON T REBUILD;
SELECT ID, A, B FROM T WHERE A = 'x';
EXPLAIN SELECT ID, A, B FROM T WHERE A = 'x';
";

/// A table of 200 rows, put in one batch. Each third has an 'x'.
fn script_of_rows(alloc: Global) -> Result<String, fmt::Error> {
    let mut script = String::new(alloc);
    script.write_str(
        "CREATE TABLE T (ID BIGINT PRIMARY KEY, A VARCHAR, B INTEGER);\n!autocommit off\n",
    )?;
    for row in 0..ROWS {
        let letter = if row % 3 == 0 { 'x' } else { 'y' };
        write!(
            script,
            "UPSERT INTO T VALUES ({row}, '{letter}', {});",
            1000 - row
        )?;
    }
    script.write_str("\n!commit\n")?;
    Ok(script)
}

/// A disk that holds the table, and the numbers of its files.
#[derive(Drop)]
struct Table {
    disk: MemDisk,
    files: Vec<u64>,
}

fn table_in(alloc: Global, run: Run) -> Result<Table, fmt::Error> {
    let mut files = Vec::new(alloc);
    let disk = disk_of(run);
    let added = add_files(disk.calls_made(), &mut files);
    let disk = disk.image();
    if added.is_err() {
        drop(disk);
        return Err(fmt::Error);
    }
    Ok(Table { disk, files })
}

fn made_table<R: Threads + Wait + Sync>(rt: &R, alloc: Global) -> Result<Table, fmt::Error> {
    let script = script_of_rows(alloc)?;
    let Ok(run) = run_new(rt, alloc, &script) else {
        return Err(fmt::Error);
    };
    table_in(alloc, run)
}

impl Table {
    /// A disk that holds the same.
    fn copy(&mut self, alloc: Global) -> Result<MemDisk, fmt::Error> {
        copied(alloc, &mut self.disk, &self.files).ok_or(fmt::Error)
    }

    /// How many calls open its folder.
    fn opening<R: Threads + Wait + Sync>(
        &mut self,
        rt: &R,
        alloc: Global,
    ) -> Result<u64, fmt::Error> {
        let disk = self.copy(alloc)?;
        match run_again(rt, alloc, disk, "") {
            Ok(run) => Ok(run.disk.calls_made().len() as u64),
            Err(_) => Err(fmt::Error),
        }
    }
}

/// The rows that have an 'x', as a query prints them.
fn rows_with_x(alloc: Global) -> Result<String, fmt::Error> {
    let mut text = String::new(alloc);
    for row in 0..ROWS {
        if row % 3 == 0 {
            write!(text, "{row}, 'x', {}\n", 1000 - row)?;
        }
    }
    text.write_str("67 rows selected\n")?;
    Ok(text)
}

/// What a stop in the build left of its index.
#[derive(Clone, Copy, PartialEq, Eq)]
enum Left {
    Nothing,
    Disabled,
    Active,
    /// Something is wrong, before the index is built again or then.
    Wrong,
}

/// How a status and the rebuilding behind it end, and which path is chosen then.
#[derive(Clone, Copy)]
struct Shown {
    status: &'static str,
    path: &'static str,
}

const BY_TABLE: &str = "SCAN TABLE T\nKEY EQUAL 0 RANGE 0\nFILTER\n";

const BY_INDEX: &str = "SCAN INDEX BY_A OF T\nKEY EQUAL 1 RANGE 0\n";

const NOTHING: Shown = Shown {
    status: " files 0\nE09 no such index: BY_A\n",
    path: BY_TABLE,
};

const DISABLED: Shown = Shown {
    status: " files 0\nBY_A DISABLED unverified 0\nindex rebuilt\n",
    path: BY_INDEX,
};

const ACTIVE: Shown = Shown {
    status: " files 0\nBY_A ACTIVE unverified 0\nindex rebuilt\n",
    path: BY_INDEX,
};

/// A text without its end, where it ends so.
fn before<'a>(text: &'a [u8], end: &str) -> Option<&'a [u8]> {
    text.strip_suffix(end.as_bytes())
}

/// Whether a text is these rows, a status that is shown so, the rows again, and the path.
fn is_printed_so(text: &[u8], rows: &str, shown: Shown) -> bool {
    let Some(text) = text.strip_prefix(rows.as_bytes()) else {
        return false;
    };
    let Some(text) = before(text, shown.path) else {
        return false;
    };
    match before(text, rows) {
        Some(text) => text.ends_with(shown.status.as_bytes()),
        None => false,
    }
}

/// What a stop left, by what is printed behind it, where these are the rows.
fn left_of(run: &Run, rows: &str) -> Left {
    let text = run.printed.held();
    match run.status {
        Status::Refused if is_printed_so(text, rows, NOTHING) => Left::Nothing,
        Status::Done if is_printed_so(text, rows, DISABLED) => Left::Disabled,
        Status::Done if is_printed_so(text, rows, ACTIVE) => Left::Active,
        _ => Left::Wrong,
    }
}

/// What the build's stop in that call left; none where the call isn't made.
fn stopped_in<R: Threads + Wait + Sync>(
    rt: &R,
    alloc: Global,
    disk: MemDisk,
    rows: &str,
    call: u64,
    choice: Choice,
) -> Result<Option<Left>, AllocError> {
    let disk = disk.image().stop_at(call, choice);
    let run = run_words(rt, alloc, "run folder", disk, MAKE)?;
    if run.status == Status::Done {
        drop(run);
        return Ok(None);
    }
    let again = run_again(rt, alloc, disk_of(run), ASKED)?;
    Ok(Some(left_of(&again, rows)))
}

/// The last call of a build, the last of those whose stop left nothing of the index, the last that left it disabled, and the first that left it wrong.
#[derive(Clone, Copy, Debug)]
struct Stops {
    calls: u64,
    nothing: u64,
    disabled: u64,
    wrong: Option<u64>,
}

impl Stops {
    fn add(&mut self, call: u64, left: Left) {
        self.calls = call;
        match left {
            Left::Nothing => self.nothing = call,
            Left::Disabled => self.disabled = call,
            Left::Active => {}
            Left::Wrong if self.wrong.is_none() => self.wrong = Some(call),
            Left::Wrong => {}
        }
    }

    /// A build makes two calls at least for the index, for each chunk, and for the index that is active.
    fn are_right(&self) -> bool {
        self.wrong.is_none() && self.nothing > 0 && self.disabled >= self.nothing.saturating_add(10)
    }
}

/// What stops in each call of the build left, behind those that open the folder.
fn stopped<R: Threads + Wait + Sync>(
    rt: &R,
    alloc: Global,
    choice: Choice,
) -> Result<Stops, fmt::Error> {
    let mut table = made_table(rt, alloc)?;
    let mut stops = Stops {
        calls: 0,
        nothing: 0,
        disabled: 0,
        wrong: None,
    };
    let opening = table.opening(rt, alloc)?;
    let rows = rows_with_x(alloc)?;
    for more in 1..200 {
        let call = opening.saturating_add(more);
        let disk = table.copy(alloc)?;
        let Ok(left) = stopped_in(rt, alloc, disk, &rows, call, choice) else {
            return Err(fmt::Error);
        };
        let Some(left) = left else {
            break;
        };
        stops.add(call, left);
    }
    Ok(stops)
}

#[test]
fn a_build_is_mended_behind_stops_that_lose_what_was_open(rt: HostRuntime) {
    let Ok(stops) = stopped(&rt, rt.alloc(), Choice::Old) else {
        panic!(rt; "no memory")
    };
    assert!(rt; stops.are_right(), "{stops:?}");
    assert!(rt; stops.disabled == stops.calls, "{stops:?}");
}

/// The last stop leaves the entry by which the index is active.
#[test]
fn a_build_is_mended_behind_stops_that_keep_what_was_open(rt: HostRuntime) {
    let Ok(stops) = stopped(&rt, rt.alloc(), Choice::New) else {
        panic!(rt; "no memory")
    };
    assert!(rt; stops.are_right(), "{stops:?}");
    assert!(rt; stops.disabled < stops.calls, "{stops:?}");
}

#[test]
fn a_build_is_mended_behind_stops_that_spoil_what_was_open(rt: HostRuntime) {
    let Ok(stops) = stopped(&rt, rt.alloc(), Choice::Fill(255)) else {
        panic!(rt; "no memory")
    };
    assert!(rt; stops.are_right(), "{stops:?}");
    assert!(rt; stops.disabled == stops.calls, "{stops:?}");
}
