// Lists of sessions, whose step is next.
ghost use Rattle.std.specs.Prelude.{◌≡◌, IfOk};
ghost use Rattle.std.specs.Option.{is_some};
ghost use Rattle.px_arguments.specs.Arguments as spec;

use crate::number::session_named;
use std::alloc::{AllocError, Global};

/// So many sessions a list names at most.
const MOST_NAMED: u32 = 65_535;

/// The session that is named, where so many may still be.
fn session_among(most: u32, name: &str) -> Option<u32>
    ensures { result ≡ spec.session_among most name.now }
{
    if most == 0 { None } else { session_named(name) }
}

/// Whether a list names sessions. It takes no memory.
pub(crate) fn is_schedule(list: &str) -> bool
    ensures { result ≡ is_some (spec.sessions_named list.now) }
{
    let mut left = list;
    let mut most = MOST_NAMED;
    'names: while let Some((name, rest)) = left.split_once(',') {
        if session_among(most, name).is_none() {
            return false;
        }
        most -= 1;
        left = rest;
    }
    session_among(most, left).is_some()
}

/// The sessions that a list names; none of any other text.
pub fn sessions_listed(alloc: Global, list: &str) -> Result<Vec<u32>, AllocError>
    ensures { IfOk result (λ sessions. sessions.items ≡ spec.sessions_listed list.now) }
{
    let mut sessions = Vec::new(alloc);
    let mut left = list;
    let mut most = MOST_NAMED;
    'names: while let Some((name, rest)) = left.split_once(',') {
        match session_among(most, name) {
            Some(session) => sessions.push(session)?,
            None => return Ok(Vec::new(alloc)),
        }
        most -= 1;
        left = rest;
    }
    match session_among(most, left) {
        Some(session) => {
            sessions.push(session)?;
            Ok(sessions)
        }
        None => Ok(Vec::new(alloc)),
    }
}
