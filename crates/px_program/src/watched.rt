// A disk that is watched from its first call on.
ghost use Rattle.std.specs.Prelude.{◌≡◌, ◌<◌};

use px_outside::{Disk, Failed};

/// A disk of which the number of the first failed call is known exactly where a call has failed.
#[derive(Drop)]
pub struct Watched<D: Disk> {
    disk: D,
    ghost known: { 0 < D.faults disk → 0 < D.first_fault disk },
    ghost failed: { 0 < D.first_fault disk → 0 < D.faults disk },
}

impl<D: Disk> Watched<D> {
    ghost use Rattle.px_program.specs.inner.Watched.{watched_disk};

    /// A disk that had no call yet.
    pub fn new(disk: D) -> Watched<D>
        requires fresh { (D.calls disk ≡ 0) × (D.faults disk ≡ 0) × (D.first_fault disk ≡ 0) }
        ensures same { watched_disk result ≡ disk }
    {
        Watched { disk }
    }

    /// The disk itself.
    pub fn into_disk(self) -> D
        ensures { result ≡ watched_disk self }
    {
        let Watched { disk } = self;
        disk
    }
}

impl<D: Disk> Disk for Watched<D> {
    ghost tells = { D.tells };

    ghost seen = { λ m. D.seen m.disk };

    ghost first = { λ m. D.first m.disk };

    ghost left = { λ m. D.left m.disk };

    ghost calls = { λ m. D.calls m.disk };

    ghost faults = { λ m. D.faults m.disk };

    ghost first_fault = { λ m. D.first_fault m.disk };

    ghost told = { λ m. D.told m.disk };

    ghost up_to_now = { λ m. D.up_to_now m.disk };

    fn len(&mut self, file: u64) -> Result<u64, Failed> {
        self.disk.len(file)
    }

    fn read(&mut self, file: u64, at: u64, into: &mut [u8]) -> Result<usize, Failed> {
        self.disk.read(file, at, into)
    }

    fn write(&mut self, file: u64, at: u64, from: &[u8]) -> Result<(), Failed> {
        self.disk.write(file, at, from)
    }

    fn cut(&mut self, file: u64, to: u64) -> Result<(), Failed> {
        self.disk.cut(file, to)
    }

    fn sync(&mut self, file: u64) -> Result<(), Failed> {
        self.disk.sync(file)
    }
}
