// What a manifest names, as it is read.
ghost use Rattle.std.specs.Prelude.{◌≡◌, []};

use crate::manifest::Manifest;
use crate::snapshot::Snapshot;
use crate::snapshot_body::{SNAPSHOT_RECORD, SnapshotFault, read_snapshot};
use px_gatelog::{GateLog, LogReader};
use std::alloc::{AllocError, Global};

/// Takes the records of a manifest, of which the last counts.
#[derive(Drop)]
pub(crate) struct SnapshotReader {
    alloc: Global,
    snapshot: Snapshot,
}

impl LogReader for SnapshotReader {
    ghost use Rattle.px_wal.specs.Snapshot.{manifest_form};
    ghost use Rattle.px_wal.specs.inner.SnapshotReader.{HoldsLast};

    ghost form = { λ _. manifest_form };

    ghost has_read = { λ reader records. HoldsLast reader records };

    fn reads_both(&self) -> bool {
        false
    }

    fn may_end(&self) -> bool {
        true
    }

    fn begin_newest(&mut self) {}

    fn take(&mut self, kind: u8, body: &[u8]) -> Result<Option<u64>, AllocError> {
        if kind != SNAPSHOT_RECORD {
            return Ok(Some(0));
        }
        match read_snapshot(self.alloc, body) {
            Err(SnapshotFault::NoMemory) => Err(AllocError),
            Err(SnapshotFault::Wrong(place)) => Ok(Some(5 + place)),
            Ok(snapshot) => {
                self.snapshot = snapshot;
                Ok(None)
            }
        }
    }
}

impl SnapshotReader {
    ghost use Rattle.px_wal.specs.inner.SnapshotReader.{HoldsLast};
    ghost use Rattle.px_gatelog.specs.GateLog.{steps_left};
    ghost use Rattle.std.specs.Prelude.{◌≢◌, false};

    /// A reader that has taken no record.
    pub(crate) fn new(alloc: Global) -> SnapshotReader
        ensures { HoldsLast result [] }
    {
        SnapshotReader {
            alloc,
            snapshot: Snapshot::nothing(alloc),
        }
    }

    /// The manifest of a log, no next segment of which is laid out.
    pub(crate) fn into_manifest(self, log: GateLog) -> Manifest
        requires { steps_left log ≢ 1 }
        ensures log { result.log ≡ log }
        ensures snapshot { result.snapshot ≡ self.snapshot }
    {
        let SnapshotReader { alloc: _, snapshot } = self;
        Manifest {
            log,
            snapshot,
            rolling: false,
        }
    }
}
