// What a test stops at.
use crate::runs::{Run, is_printed};
use px_program::Status;
use std::process::Abort;

/// Stops the test where the run of this name has another status, or printed another text.
pub fn expect_printed(rt: &impl Abort, run: &Run, status: Status, text: &str, name: &str) {
    assert!(rt; is_printed(run, status, text), "{name}");
}
