// What may be under way in a region's files.
ghost use Rattle.std.specs.Prelude.{◌≡◌};
ghost use Rattle.std.specs.Option.{option_copied};
ghost use Rattle.px_flushing.specs.Flushing.{measured_of};

use crate::Stage;
use px_frozen::Frozen;
use px_loading::Gathering;

/// A flush that was begun.
#[derive(Drop)]
pub struct Flush {
    pub(crate) frozen: Frozen,
    /// The local number of its file.
    pub(crate) local: u32,
    pub(crate) stage: Stage,
}

/// A compaction of so many of the newest files, whose cells are gathered; with a horizon it is of all files, and keeps what the horizon does.
#[derive(Drop)]
pub struct Gather {
    pub(crate) count: usize,
    pub(crate) horizon: Option<u64>,
    pub(crate) gathering: Gathering,
}

/// A compaction of so many of the newest files, whose cells, or what a horizon keeps of them, go to one file.
#[derive(Drop)]
pub struct Merge {
    pub(crate) count: usize,
    pub(crate) horizon: Option<u64>,
    pub(crate) frozen: Frozen,
    /// The local number of its file.
    pub(crate) local: u32,
    pub(crate) stage: Stage,
}

impl Merge {
    /// Its cells, where it forgets and its file is measured.
    pub(crate) fn measured(&self) -> Option<&Frozen>
        ensures { option_copied result ≡ measured_of self.now.horizon self.now.stage self.now.frozen }
    {
        match (self.horizon, &self.stage) {
            (Some(_), Stage::Measured(_, _)) => Some(&self.frozen),
            _ => None,
        }
    }
}

/// A flush or a compaction.
#[derive(Drop)]
pub enum Job {
    Flush(Flush),
    Gather(Gather),
    Merge(Merge),
}
