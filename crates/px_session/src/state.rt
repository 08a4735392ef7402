// What a session has between two rounds, and how a round ends for it.
ghost use Rattle.std.specs.Prelude.{◌≡◌};
ghost use Rattle.px_session.specs.Replies as spec;

use px_item::Settings;
use px_reply::{Cause, Reply};

/// A session's settings as they stand after its last item, and whether it was stopped: then it runs nothing more.
#[derive(Drop)]
pub struct SessionState {
    pub settings: Settings,
    pub stopped: bool,
}

/// How a session came to the end of a round.
#[derive(Clone, Copy, Debug, PartialEq, Eq)]
pub enum Ending {
    /// All of its pieces were answered.
    Whole,
    /// The last answered one failed with the server. Those behind it weren't run.
    Fatal,
    /// No memory was found to keep an answer. Those from there on weren't run.
    Memory,
}

/// Whether the session is stopped by it.
pub(crate) fn is_fatal(reply: &Reply) -> bool
    ensures { result ≡ spec.is_fatal reply.now }
{
    match reply.refusal() {
        Some(refusal) => refusal.cause() == Cause::Closing,
        None => false,
    }
}

/// What the session has after a round that ended so, where it was stopped before or not.
pub(crate) fn state_after(stopped: bool, ending: Ending, settings: Settings) -> SessionState
    ensures { result ≡ spec.state_after stopped ending settings }
{
    SessionState {
        settings,
        stopped: stopped || ending == Ending::Fatal,
    }
}
