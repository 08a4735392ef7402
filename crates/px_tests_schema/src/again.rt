// A definition read and written again.
ghost use Rattle.std.specs.Prelude.{◌<◌, ◌^◌, length};

use px_schema::{DefFault, Standing, read_definition, write_definition};
use std::alloc::Global;

/// The body of the definition that a body is read as, or why it is none.
pub fn rewritten(
    alloc: Global,
    kind: u8,
    body: &[u8],
    standing: &Standing,
) -> Result<Vec<u8>, DefFault>
    requires short { length body.now < 2 ^ 32 }
{
    let item = read_definition(alloc, kind, body, standing)?;
    match write_definition(alloc, &item) {
        Ok(written) => Ok(written),
        Err(_) => Err(DefFault::Memory),
    }
}
