// Commands.
ghost use Rattle.std.specs.Prelude.{◌≡◌, map, option_copied, option_map};
ghost use Rattle.std.specs.String.{string_bytes};
ghost use Rattle.px_arguments.specs.Arguments as spec;

use crate::number::{lookback_named, number_named, rows_named};
use crate::said::{Said, said_by};
use crate::schedule::is_schedule;
use px_load::Load;
use px_verifying::VerifyKind;

/// How long versions are kept, in milliseconds, where nothing else is said: three days.
pub const LOOKBACK: u64 = 259_200_000;

/// A command of the program. Its folder and names are as they were written.
#[derive(Clone, Copy)]
pub enum Command<'a> {
    /// `run DIR`, with `--lookback N` or without, and with `--schedule LIST` or without. The list is as it was written.
    Run {
        folder: &'a str,
        lookback: u64,
        schedule: Option<&'a str>,
    },
    /// `verify DIR --table NAME --index NAME --kind KIND`.
    Verify {
        folder: &'a str,
        table: &'a str,
        index: &'a str,
        kind: VerifyKind,
    },
    /// `load DIR --number S --rows N`.
    Load {
        folder: &'a str,
        load: Load,
    },
}

impl<'a> Command<'a> {
    /// The folder that it is about.
    pub fn folder(self) -> &'a str
        ensures { result.now ≡ spec.command_folder (spec.seen_command self.entry) }
    {
        match self {
            Command::Run { folder, .. } => folder,
            Command::Verify { folder, .. } => folder,
            Command::Load { folder, .. } => folder,
        }
    }
}

/// The kind of a verification by its word.
fn kind_named(word: &str) -> Option<VerifyKind>
    ensures { result ≡ spec.kind_named word.now }
{
    if word == "NONE" {
        Some(VerifyKind::None)
    } else if word == "ONLY" {
        Some(VerifyKind::Only)
    } else if word == "BEFORE" {
        Some(VerifyKind::Before)
    } else if word == "AFTER" {
        Some(VerifyKind::After)
    } else if word == "BOTH" {
        Some(VerifyKind::Both)
    } else {
        None
    }
}

/// Whether an option of `verify` was given.
fn has_verified(said: Said<'_>) -> bool
    ensures { result ≡ spec.has_verified (spec.seen_said said.entry) }
{
    said.table.is_some() || said.index.is_some() || said.kind.is_some()
}

/// Whether an option of `load` was given.
fn has_loaded(said: Said<'_>) -> bool
    ensures { result ≡ spec.has_loaded (spec.seen_said said.entry) }
{
    said.number.is_some() || said.rows.is_some()
}

/// Whether an option of `run` was given.
fn has_run(said: Said<'_>) -> bool
    ensures { result ≡ spec.has_run (spec.seen_said said.entry) }
{
    said.lookback.is_some() || said.schedule.is_some()
}

/// How long versions are kept, by the option's value where it was given.
fn lookback_in(said: Option<&str>) -> Option<u64>
    ensures { result ≡ spec.lookback_in (option_copied said.entry) }
{
    match said {
        Some(number) => lookback_named(number),
        None => Some(LOOKBACK),
    }
}

/// The list of whose step is next, where it was given. It names sessions.
fn schedule_in(said: Option<&str>) -> Option<Option<&str>>
    ensures { option_map spec.listed_in result ≡ spec.schedule_in (option_copied said.entry) }
{
    match said {
        None => Some(None),
        Some(list) => {
            if is_schedule(list) {
                Some(Some(list))
            } else {
                None
            }
        }
    }
}

fn run_of(said: Said<'_>) -> Option<Command<'_>>
    ensures { option_map spec.seen_command result ≡ spec.run_of (spec.seen_said said.entry) }
{
    if has_verified(said) || has_loaded(said) {
        return None;
    }
    let folder = said.folder?;
    let lookback = lookback_in(said.lookback)?;
    let schedule = schedule_in(said.schedule)?;
    Some(Command::Run {
        folder,
        lookback,
        schedule,
    })
}

fn verify_of(said: Said<'_>) -> Option<Command<'_>>
    ensures { option_map spec.seen_command result ≡ spec.verify_of (spec.seen_said said.entry) }
{
    if has_loaded(said) || has_run(said) {
        return None;
    }
    let folder = said.folder?;
    let table = said.table?;
    let index = said.index?;
    let kind = said.kind?;
    let kind = kind_named(kind)?;
    Some(Command::Verify {
        folder,
        table,
        index,
        kind,
    })
}

fn load_of(said: Said<'_>) -> Option<Command<'_>>
    ensures { option_map spec.seen_command result ≡ spec.load_of (spec.seen_said said.entry) }
{
    if has_verified(said) || has_run(said) {
        return None;
    }
    let folder = said.folder?;
    let number = said.number?;
    let number = number_named(number)?;
    let rows = said.rows?;
    let rows = rows_named(rows)?;
    Some(Command::Load {
        folder,
        load: Load { number, rows },
    })
}

fn command_of<'a>(word: &str, said: Said<'a>) -> Option<Command<'a>>
    ensures { option_map spec.seen_command result ≡ spec.command_of word.now (spec.seen_said said.entry) }
{
    if word == "run" {
        run_of(said)
    } else if word == "verify" {
        verify_of(said)
    } else if word == "load" {
        load_of(said)
    } else {
        None
    }
}

/// The command that the words are, and none where they are no command.
pub fn command_in(words: &[String]) -> Option<Command<'_>>
    ensures { option_map spec.seen_command result ≡ spec.command_in (map string_bytes words.now) }
{
    let Some((word, rest)) = words.split_first() else {
        return None;
    };
    match said_by(rest) {
        Some(said) => command_of(word.as_str(), said),
        None => None,
    }
}
