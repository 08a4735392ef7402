//! A list of marks.
ghost use Rattle.std.specs.Prelude.{◌≡◌, ◌++◌, ◌∷◌, [], OnOk, OnErr};

use px_turn::Trailed;
use std::alloc::{AllocError, Global};

/// What a seat leaves in a turn.
#[derive(Clone, Copy, Drop)]
pub struct Mark {
    /// The seat's number.
    pub seat: u32,
    /// How many marks the seat had left before.
    pub turn: u32,
}

/// The marks of all seats, in the order of their turns.
#[derive(Drop)]
pub struct Tally {
    pub marks: Vec<Mark>,
}

impl Trailed for Tally {
    type Entry = Mark;

    ghost trail = { λ t. t.marks.items };

    ghost seat_of = { λ m. m.seat };

    fn entries(&self) -> u64 {
        self.marks.len() as u64
    }
}

impl Tally {
    pub fn new(alloc: Global) -> Tally
        ensures { result.marks.items ≡ [] }
    {
        Tally {
            marks: Vec::new(alloc),
        }
    }

    pub fn add(&mut self, mark: Mark) -> Result<(), AllocError>
        ensures ok { OnOk result (self.new.marks.items ≡ self.old.marks.items ++ mark ∷ []) }
        ensures err { OnErr result (self.new.marks.items ≡ self.old.marks.items) }
    {
        self.marks.push(mark)?;
        Ok(())
    }
}
