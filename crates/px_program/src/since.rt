// A disk of which stops are told from the opening's end on.
ghost use Rattle.std.specs.Prelude.{◌≡◌, ◌≤◌, ◌<◌, ◌⊎◌, ℕ, List};

use px_outside::{CountsCalls, Disk, Failed};
use std::marker::{Brand, Model, PhantomData};

/// When a folder was opened, and what is known of stops before that. Each call of a program picks them.
pub trait Since {
    /// How many calls were made by then.
    ghost from: { ℕ };

    /// Earlier stops are told as well.
    ghost all: { Type 0 };

    /// With which bytes a stop at an earlier moment may leave a file.
    ghost was: { ℕ → ℕ → List ℕ → Type 0 };
}

impl Since for Brand {
    ghost from = { 0 };

    ghost all = { Unit {0} };

    ghost was = { λ moment file bytes. Unit {0} };
}

/// A disk that tells of stops from then on, and of earlier ones where they are told as well. What those leave stays as it was.
#[derive(Drop)]
pub struct Later<D: Disk, B: Since> {
    disk: D,
    of: PhantomData<B>,
}

impl<D: Disk, B: Since> Model for Later<D, B> {
    ghost Value = { D };

    ghost view = { λ m. m.disk };

    ghost invariant = { λ m. (B.from ≤ D.calls m.disk) × ((moment : ℕ) → (file : ℕ) → (bytes : List ℕ) → moment < B.from → D.left m.disk moment file bytes → B.was moment file bytes) };
}

impl<D: Disk, B: Since> Later<D, B> {
    /// The disk by then.
    pub fn new(disk: D) -> Later<D, B>
        requires begun { B.from ≤ D.calls disk }
        requires past { (moment : ℕ) → (file : ℕ) → (bytes : List ℕ) → moment < B.from → D.left disk moment file bytes → B.was moment file bytes }
        ensures { result ≡ disk }
    {
        Later {
            disk,
            of: PhantomData,
        }
    }

    /// The disk itself.
    pub fn into_disk(self) -> D
        ensures same { result ≡ self }
        ensures begun { B.from ≤ D.calls result }
        ensures past { (moment : ℕ) → (file : ℕ) → (bytes : List ℕ) → moment < B.from → D.left result moment file bytes → B.was moment file bytes }
    {
        let Later { disk, of: _ } = self;
        disk
    }
}

impl<D: Disk, B: Since> Disk for Later<D, B> {
    ghost tells = { D.tells };

    ghost seen = { λ m. D.seen m };

    ghost first = { λ m. D.first m };

    ghost left = { λ m moment file bytes. (B.all ⊎ (B.from ≤ moment)) × D.left m moment file bytes };

    ghost calls = { λ m. D.calls m };

    ghost faults = { λ m. D.faults m };

    ghost first_fault = { λ m. D.first_fault m };

    ghost told = { λ m moment file bytes is. D.told m moment file bytes is.1 };

    ghost up_to_now = { λ m moment file bytes is. D.up_to_now m moment file bytes is.1 };

    fn len(&mut self, file: u64) -> Result<u64, Failed> {
        self.disk.len(file)
    }

    fn read(&mut self, file: u64, at: u64, into: &mut [u8]) -> Result<usize, Failed> {
        self.disk.read(file, at, into)
    }

    fn write(&mut self, file: u64, at: u64, from: &[u8]) -> Result<(), Failed> {
        self.disk.write(file, at, from)
    }

    fn cut(&mut self, file: u64, to: u64) -> Result<(), Failed> {
        self.disk.cut(file, to)
    }

    fn sync(&mut self, file: u64) -> Result<(), Failed> {
        self.disk.sync(file)
    }
}

impl<D: CountsCalls, B: Since> CountsCalls for Later<D, B> {
    fn call_count(&self) -> u64 {
        self.disk.call_count()
    }

    fn first_fault(&self) -> u64 {
        self.disk.first_fault()
    }
}
