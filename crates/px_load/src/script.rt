// The script of a load.
ghost use Rattle.std.specs.Prelude.{◌≡◌, ◌<◌, ◌++◌, IfOk, OnOk};
ghost use Rattle.std.specs.String.{string_bytes};
ghost use Rattle.px_reply.specs.Printed.{with_number};
ghost use Rattle.px_load.specs.Rows.{after};
ghost use Rattle.px_load.specs.Script as spec;

use crate::{Draws, LoadRow, next_row};
use itoa::Buffer;
use std::alloc::{AllocError, Global};

/// A load has at most so many rows.
pub const MOST_ROWS: u64 = 100_000;

/// A load: the number that its rows follow from, and how many there are.
#[derive(Clone, Copy, Debug, PartialEq, Eq)]
pub struct Load {
    pub number: u64,
    pub rows: u64,
}

/// The table, its index, and that rows are held.
const BEFORE: &str = "CREATE TABLE LOAD (ID BIGINT NOT NULL PRIMARY KEY, GRP VARCHAR, AMT INTEGER);
CREATE INDEX LOAD_GRP ON LOAD (GRP) INCLUDE (AMT);
!autocommit off
";

const COMMIT: &str = "!commit\n";

/// All rows by the table, and by the index.
const BEHIND: &str = "SELECT /*+ NO_INDEX */ ID, GRP, AMT FROM LOAD;
SELECT /*+ INDEX(LOAD LOAD_GRP) */ ID, GRP, AMT FROM LOAD;
";

/// Rows are committed by so many.
const BATCH: u64 = 100;

/// Adds a text, and a number behind it.
fn add_number(text: &mut String, before: &str, number: u64) -> Result<(), AllocError>
    ensures { OnOk result (string_bytes text.new ≡ string_bytes text.old ++ with_number before.now number) }
{
    let mut buffer = Buffer::new();
    text.push_str(before)?;
    text.push_str(buffer.format(number))
}

/// Adds the UPSERT of a row.
fn add_upsert(text: &mut String, row: LoadRow) -> Result<(), AllocError>
    ensures { OnOk result (string_bytes text.new ≡ string_bytes text.old ++ spec.upsert_line row) }
{
    add_number(text, "UPSERT INTO LOAD VALUES (", row.id)?;
    add_number(text, ", 'G", row.group)?;
    add_number(text, "', ", row.amount)?;
    text.push_str(");\n")
}

/// Whether a commit stands behind the row of this place.
fn is_committed(place: u64, rows: u64) -> bool
    requires { place < rows }
    ensures { result ≡ spec.is_committed place rows }
{
    let count = place + 1;
    count % BATCH == 0 || count == rows
}

/// Adds the next row, and a commit where one stands behind it.
fn add_row(text: &mut String, draws: &mut Draws, place: u64, rows: u64) -> Result<(), AllocError>
    requires { place < rows }
    ensures goes_on { OnOk result (draws.new.number ≡ after 3 draws.old.number) }
    ensures added { OnOk result (string_bytes text.new ≡ string_bytes text.old ++ spec.put place rows draws.old.number) }
{
    let row = next_row(draws, rows);
    add_upsert(text, row)?;
    if is_committed(place, rows) {
        text.push_str(COMMIT)?;
    }
    Ok(())
}

/// Adds all rows of a load.
fn add_rows(text: &mut String, load: Load) -> Result<(), AllocError>
    ensures { OnOk result (string_bytes text.new ≡ string_bytes text.old ++ spec.puts load.rows load.rows load.number) }
{
    let mut draws = Draws::behind(load.number);
    for place in 0..load.rows {
        add_row(text, &mut draws, place, load.rows)?;
    }
    Ok(())
}

/// The script of a load.
pub fn load_text(alloc: Global, load: Load) -> Result<String, AllocError>
    ensures { IfOk result (λ text. string_bytes text ≡ spec.load_text load) }
{
    let mut text = String::from_str(alloc, BEFORE)?;
    add_rows(&mut text, load)?;
    text.push_str(BEHIND)?;
    Ok(text)
}
