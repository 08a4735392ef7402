// The rows of a load.
ghost use Rattle.std.specs.Prelude.{◌≡◌, ◌<◌};
ghost use Rattle.px_load.specs.Rows.{after, row_behind};

use crate::Draws;

/// A row: its key, the number of its group, and its amount.
#[derive(Clone, Copy, Debug, PartialEq, Eq)]
pub struct LoadRow {
    pub id: u64,
    pub group: u64,
    pub amount: u64,
}

/// There are so many groups.
const GROUPS: u64 = 50;

/// Amounts are below it.
pub const AMOUNTS: u64 = 1_000;

/// The next row of a load of so many rows, by three draws.
pub fn next_row(draws: &mut Draws, rows: u64) -> LoadRow
    requires { 0 < rows }
    ensures goes_on { draws.new.number ≡ after 3 draws.old.number }
    ensures row { result ≡ row_behind rows draws.old.number }
{
    let id = draws.draw() % rows;
    let group = draws.draw() % GROUPS;
    let amount = draws.draw() % AMOUNTS;
    LoadRow { id, group, amount }
}
