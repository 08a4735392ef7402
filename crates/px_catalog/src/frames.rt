// The records of the catalogue in frames.
ghost use Rattle.std.specs.Prelude.{◌≡◌, ◌≢◌, ◌≤◌, ◌<◌, length, IfOk, Err};
ghost use Rattle.px_gatelog.specs.Framed.{record_of};
ghost use Rattle.px_schema.specs.Spelled.{FitsCatalogItem, FitsSnapshot, body_of, standing_bytes};
ghost use Rattle.px_catalog.specs.Reading.{item_record, snapshot_record};

use crate::CatalogFault;
use px_gatelog::Frame;
use px_schema::{CatalogItem, Standing, kind_of, write_definition, write_snapshot};
use std::alloc::Global;

/// The most bytes that a segment has.
const SEGMENT_LIMIT: usize = 67_108_864;

/// The kind of a snapshot's record.
const SNAPSHOT: u8 = 1;

/// A record in a frame. It is full where no segment has room for it.
fn framed(alloc: Global, kind: u8, body: &[u8]) -> Result<Frame, CatalogFault>
    ensures framed { IfOk result (λ frame. record_of frame ≡ record { kind = kind; body = body.now }) }
    ensures short { IfOk result (λ frame. length body.now ≤ 67108864) }
    ensures full { result ≡ Err CatalogFault.Full → 67108864 < length body.now }
    ensures unwritten { result ≢ Err CatalogFault.WriteFault }
{
    if body.len() > SEGMENT_LIMIT {
        return Err(CatalogFault::Full);
    }
    let mut frame = Frame::with_room(alloc, body.len() as u64)?;
    frame.fill(kind, body);
    Ok(frame)
}

/// The record of a definition.
pub(crate) fn item_frame(alloc: Global, item: &CatalogItem) -> Result<Frame, CatalogFault>
    requires fits { FitsCatalogItem item.now }
    ensures framed { IfOk result (λ frame. record_of frame ≡ item_record item.now) }
    ensures full { result ≡ Err CatalogFault.Full → 67108864 < length (body_of item.now) }
    ensures unwritten { result ≢ Err CatalogFault.WriteFault }
{
    let body = write_definition(alloc, item)?;
    framed(alloc, kind_of(item), &body)
}

/// The record of a snapshot.
pub(crate) fn snapshot_frame(alloc: Global, standing: &Standing) -> Result<Frame, CatalogFault>
    requires fits { FitsSnapshot standing.now }
    ensures framed { IfOk result (λ frame. record_of frame ≡ snapshot_record standing.now) }
    ensures short { IfOk result (λ frame. length (standing_bytes standing.now) ≤ 67108864) }
    ensures full { result ≡ Err CatalogFault.Full → 67108864 < length (standing_bytes standing.now) }
    ensures unwritten { result ≢ Err CatalogFault.WriteFault }
{
    let body = write_snapshot(alloc, standing)?;
    framed(alloc, SNAPSHOT, &body)
}
