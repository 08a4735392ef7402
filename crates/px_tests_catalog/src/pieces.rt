// What the tests of the catalogue have together.
ghost use Rattle.std.specs.Prelude.{◌<◌, ◌^◌, length};

use px_catalog::Catalog;
use px_outside::Disk;
use px_schema::read_definition;
use std::alloc::Global;

/// The body of a table's record: its number and that of its region, a name of one letter, and the columns K and V.
pub fn table_body(number: u8, region: u8, letter: u8) -> [u8; 25] {
    [
        0, 0, 0, number, 1, letter, 2, 1, b'K', 8, 1, 1, b'V', 8, 0, 1, 0, 0, 1, 0, 0, 0, region,
        0, 0,
    ]
}

/// Adds the definition of a body, if it is one.
pub fn add<D: Disk>(
    alloc: Global,
    disk: &mut D,
    catalog: &mut Catalog,
    kind: u8,
    body: &[u8],
) -> Option<()>
    requires short { length body.now < 2 ^ 32 }
{
    match read_definition(alloc, kind, body, catalog.standing()) {
        Ok(item) => match catalog.append(disk, item) {
            Ok(()) => Some(()),
            Err(_) => None,
        },
        Err(_) => None,
    }
}
