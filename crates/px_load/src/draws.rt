// Numbers that follow from one.
ghost use Rattle.std.specs.Prelude.{◌≡◌};
ghost use Rattle.px_load.specs.Rows.{drawn, next};

/// By this the sequence goes on, modulo 2^64.
const FACTOR: u64 = 6_364_136_223_846_793_005;

/// And this is added.
const ADDED: u64 = 1_442_695_040_888_963_407;

/// Of each number of the sequence all but so many bits are drawn.
const HIDDEN: u32 = 33;

/// A place in the sequence.
#[derive(Clone, Copy)]
pub struct Draws {
    pub number: u64,
}

impl Draws {
    /// The sequence behind a number.
    pub fn behind(number: u64) -> Draws
        ensures { result.number ≡ number }
    {
        Draws { number }
    }

    /// The next draw, below 2^31.
    pub fn draw(&mut self) -> u64
        ensures goes_on { self.new.number ≡ next self.old.number }
        ensures given { result ≡ drawn self.new.number }
    {
        self.number = self.number.wrapping_mul(FACTOR).wrapping_add(ADDED);
        self.number >> HIDDEN
    }
}
