// What stands between two steps of a session.
use px_session::SessionRun;

/// What is called after each step of a session that is run in a thread. The session has no turn then, so the others go on meanwhile.
pub trait Gate {
    /// Lets the session go on.
    fn pass(&self, run: &SessionRun<'_>);
}

/// Each session goes on at once.
pub struct NoGate;

impl Gate for NoGate {
    fn pass(&self, _run: &SessionRun<'_>) {}
}
