// Readers of records of kind 2.
ghost use Rattle.std.specs.Prelude.{◌≡◌, ◌==◌, if◌then◌else◌, true, false, Some, None};

use px_gatelog::LogReader;
use std::alloc::AllocError;

/// Counts the records of both segments, and those before the newest.
#[derive(Drop)]
pub struct Bodies {
    pub count: u64,
    pub older: Option<u64>,
}

impl Bodies {
    pub const NONE: Bodies = Bodies {
        count: 0,
        older: None,
    };
}

impl LogReader for Bodies {
    ghost form = { λ reader. record { both = true; empty = true; wrong = λ before r. if r.kind == 2 then None else Some 0 } };

    ghost has_read = { λ reader records. Unit {0} };

    fn reads_both(&self) -> bool {
        true
    }

    fn may_end(&self) -> bool {
        true
    }

    fn begin_newest(&mut self) {
        self.older = Some(self.count);
    }

    fn take(&mut self, kind: u8, _body: &[u8]) -> Result<Option<u64>, AllocError> {
        if kind != 2 {
            return Ok(Some(0));
        }
        self.count = self.count.saturating_add(1);
        Ok(None)
    }
}

/// Whether the newest segment has a record, as it must.
#[derive(Drop)]
pub struct Newest {
    pub some: bool,
}

impl LogReader for Newest {
    ghost use Rattle.std.specs.Prelude.{is_some, List, []};
    ghost use Rattle.px_gatelog.specs.Format.{can_end};

    ghost form = { λ reader. record { both = false; empty = false; wrong = λ before r. if r.kind == 2 then None else Some 0 } };

    ghost has_read = { λ reader records. reader.some ≡ can_end false records };

    fn reads_both(&self) -> bool {
        false
    }

    fn may_end(&self) -> bool {
        self.some
    }

    fn begin_newest(&mut self) {}

    fn take(&mut self, kind: u8, _body: &[u8]) -> Result<Option<u64>, AllocError> {
        if kind != 2 {
            return Ok(Some(0));
        }
        self.some = true;
        Ok(None)
    }
}
