// What may still be defined.
ghost use Rattle.std.specs.Prelude.{◌≡◌, ◌↔◌, IsTrue, length};
ghost use Rattle.px_schema.specs.Counts.{HasNumbers, HasRoomForIndex, HasRoomForTable, indexes_of as of_table};

use crate::{GREATEST_NUMBER, Standing};
use px_tables::Index;
use px_values::{Limit, TableId};

/// How many of the indexes are of the table of this number.
fn count_of(indexes: &[Index], number: u32) -> u64
    ensures { result ≡ length (of_table number indexes.now) }
{
    let mut count = 0;
    for index in indexes {
        if index.table.0 == number {
            count += 1;
        }
    }
    count
}

impl Standing {
    /// Whether another table may be defined: fewer than 256 stand.
    pub fn has_room_for_table(&self) -> bool
        ensures { IsTrue result ↔ HasRoomForTable self.now }
    {
        (self.tables.as_slice().len() as u64) < Limit::Tables.most()
    }

    /// Whether another index of this table may be defined: fewer than 8 of its indexes stand.
    pub fn has_room_for_index(&self, table: TableId) -> bool
        ensures { IsTrue result ↔ HasRoomForIndex self.now table.0 }
    {
        count_of(self.indexes.as_slice(), table.0) < Limit::Indexes.most()
    }

    /// Whether so many numbers are left: none of them, from the next one on, passes 4,294,967,294.
    pub fn has_numbers(&self, count: u64) -> bool
        ensures { IsTrue result ↔ HasNumbers self.now count }
    {
        count <= GREATEST_NUMBER - u64::from(self.next)
    }
}
