// What is told of a load is written.
ghost use Rattle.std.specs.Prelude.{◌≡◌, false};
ghost use Rattle.px_load.specs.Told.{told_of_load};
ghost use Rattle.px_rounds.specs.Written.{WritesRound};

use px_load::{Load, print_load};
use px_outside::{Failed, Sink, write_all};
use px_reply::Transcripts;
use px_values::Line;
use std::alloc::Global;

/// Takes the replies of a load, which nobody reads.
#[derive(Drop)]
pub struct Unread;

impl Sink for Unread {
    ghost use Rattle.std.specs.Prelude.{[], false};

    ghost tells = { false };

    ghost held = { λ s. [] };

    ghost faults = { λ s. 0 };

    fn write(&mut self, from: &[u8]) -> Result<usize, Failed> {
        Ok(from.len())
    }
}

/// Writes what is told of a load. Answers whether the sink failed, and whether no memory was found to print it.
pub fn write_told<O: Sink>(
    alloc: Global,
    load: Load,
    transcripts: &Transcripts,
    out: &mut O,
) -> (bool, bool)
    ensures { WritesRound ⟦<O as Sink>⟧ out.old out.new (told_of_load load transcripts.now) result.0 result.1 }
{
    let mut line = Line::new(alloc);
    let Ok(()) = print_load(load, transcripts, &mut line) else {
        return (false, true);
    };
    match write_all(out, line.as_slice()) {
        Ok(()) => (false, false),
        Err(_) => (true, false),
    }
}
