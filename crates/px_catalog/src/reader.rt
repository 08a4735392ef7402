// What stands, as the records of the catalogue's log are read.
ghost use Rattle.std.specs.Prelude.{◌≡◌, ◌<◌, ◌^◌, [], length};
ghost use Rattle.px_schema.specs.Format.{standing_piece};
ghost use Rattle.px_schema.specs.Outcomes.{AnswersRecord};
ghost use Rattle.px_catalog.specs.Reading.{catalogue_form, next_of};
ghost use Rattle.px_catalog.specs.inner.Reader.{HasTaken, read_on};

use px_gatelog::LogReader;
use px_schema::{DefFault, Standing, read_definition, read_snapshot};
use std::alloc::{AllocError, Global};

/// What stands by a definition more.
fn read_next(alloc: Global, standing: Standing, kind: u8, body: &[u8]) -> Result<Standing, DefFault>
    requires short { length body.now < 2 ^ 32 }
    ensures { AnswersRecord (next_of standing (record { kind = kind; body = body.now })) result }
{
    match read_definition(alloc, kind, body, &standing) {
        Ok(item) => Ok(standing.after(item)?),
        Err(fault) => {
            drop(standing);
            Err(fault)
        }
    }
}

/// What stands by one record more, of which the first is a snapshot.
fn read_record(
    alloc: Global,
    standing: Option<Standing>,
    kind: u8,
    body: &[u8],
) -> Result<Standing, DefFault>
    requires short { length body.now < 2 ^ 32 }
    ensures { AnswersRecord (read_on standing (record { kind = kind; body = body.now })) result }
{
    match standing {
        None => read_snapshot(alloc, kind, body),
        Some(standing) => read_next(alloc, standing, kind, body),
    }
}

/// Takes the records of the catalogue's log, of which the first is a snapshot.
#[derive(Drop)]
pub(crate) struct CatalogReader {
    alloc: Global,
    standing: Option<Standing>,
}

impl LogReader for CatalogReader {
    ghost form = { λ _. catalogue_form };

    ghost has_read = { λ reader records. HasTaken reader.standing records };

    fn reads_both(&self) -> bool {
        false
    }

    fn may_end(&self) -> bool {
        self.standing.is_some()
    }

    fn begin_newest(&mut self) {}

    fn take(&mut self, kind: u8, body: &[u8]) -> Result<Option<u64>, AllocError> {
        let before = self.standing.take();
        match read_record(self.alloc, before, kind, body) {
            Ok(standing) => {
                self.standing = Some(standing);
                Ok(None)
            }
            Err(DefFault::NotADefinition { place }) => Ok(Some(place)),
            Err(DefFault::Memory) => Err(AllocError),
        }
    }
}

impl CatalogReader {
    /// A reader that has taken no record.
    pub(crate) fn new(alloc: Global) -> CatalogReader
        ensures { HasTaken result.standing [] }
    {
        CatalogReader {
            alloc,
            standing: None,
        }
    }

    /// What stands by the records, if there were any.
    pub(crate) fn into_standing(self) -> Option<Standing>
        ensures { result ≡ self.standing }
    {
        let CatalogReader { alloc: _, standing } = self;
        standing
    }
}
