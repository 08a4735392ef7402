// Scripts, and how they are read.
ghost use Rattle.std.specs.Prelude.{◌≡◌, MatchResult};
ghost use Rattle.px_script.specs.Scripts.{IsReadableScript, StopsScript, script_of};

use crate::dividing::divided;
use px_values::{Items, Text};
use std::alloc::{AllocError, Global};

/// What a session has in a round: its lines, joined by line feeds.
#[derive(Drop)]
pub struct SessionText {
    /// From 1 to 32.
    pub session: u32,
    pub text: Text,
}

/// The texts of the sessions that have a line in a round, in order of session.
pub type Round = Items<SessionText>;

/// The rounds of a script, in order. There is at least one.
pub type Script = Items<Round>;

/// Why nothing of a script is run.
#[derive(Clone, Copy, Debug, PartialEq, Eq)]
pub enum ScriptFault {
    /// It has more than 67,108,864 bytes.
    TooLong,
    /// It isn't UTF-8 from this byte on, counted from the script's first.
    NotUtf8 { place: u64 },
    /// No memory was found.
    Memory,
}

impl From<AllocError> for ScriptFault {
    ghost use Rattle.std.specs.Prelude.{◌≡◌};
    ghost use Rattle.px_script.specs.declared.script.ScriptFault.TheVariants.{Memory};

    ghost from_gives = { λ _ fault. fault ≡ Memory };

    fn from(_: AllocError) -> ScriptFault {
        ScriptFault::Memory
    }
}

/// The greatest length of a script, in bytes.
const MOST: usize = 67_108_864;

/// The rounds of a script, each with the texts of its sessions; or why nothing of the script is run: it is too long, or it
/// isn't UTF-8 from a byte on, or no memory was found.
pub fn read_script(alloc: Global, script: &[u8]) -> Result<Script, ScriptFault>
    ensures { MatchResult result (λ rounds. (rounds ≡ script_of script.now) × IsReadableScript script.now) (λ fault. StopsScript script.now fault) }
{
    if script.len() > MOST {
        return Err(ScriptFault::TooLong);
    }
    match str::from_utf8(script) {
        Err(error) => Err(ScriptFault::NotUtf8 {
            place: error.valid_up_to() as u64,
        }),
        Ok(text) => {
            let rounds = divided(alloc, text)?;
            Ok(rounds)
        }
    }
}
