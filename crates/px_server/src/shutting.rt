// A write that failed closes the server.
ghost use Rattle.std.specs.Prelude.{◌≡◌, ◌<◌, ◌+◌, ◌++◌, ◌∷◌, []};
ghost use Rattle.px_trail.specs.declared.entry.Act.TheVariants.{Shut as ShutAct};

use px_trail::{Act, Entry, Trail};

/// Tells that the call of this number closes the server. Each server keeps room for that.
pub(crate) fn shut(trail: &mut Trail, seat: u32, calls: u64)
    requires { 0 < trail.old.room }
    ensures entries { trail.new.entries ≡ trail.old.entries ++ record { seat = seat; calls = calls; act = ShutAct calls } ∷ [] }
    ensures room { trail.new.room + 1 ≡ trail.old.room }
{
    trail.push(Entry {
        seat,
        calls,
        act: Act::Shut { call: calls },
    });
}
