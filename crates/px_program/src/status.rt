// How a run came to its end, and what the program tells of it: a number to the system, and a line to the person.
ghost use Rattle.std.specs.Prelude.{◌≡◌};
ghost use Rattle.px_program.specs.Status.{exit_code};

use px_outside::FolderFault;
use std::io::Eprint;

/// How a run came to its end.
#[derive(Clone, Copy, Debug, PartialEq, Eq)]
pub enum Status {
    /// Every statement was answered, none refused.
    Done,
    /// A statement was refused by its text or by a limit.
    Refused,
    /// The words are no command. Nothing was touched.
    BadWords,
    /// The disk failed at the call of this number, counted from 1.
    Device { call: u64 },
    /// Memory ran out.
    Memory,
    /// The folder's file has a place that isn't of the format, counted from 0. Nothing was run.
    Damaged { file: u64, place: u64 },
    /// The input failed. Nothing was run.
    SourceFault,
    /// The output failed. A part at the front of the replies was written.
    SinkFault,
}

impl Status {
    /// The exit status.
    pub fn code(self) -> u8
        ensures { result ≡ exit_code self }
    {
        match self {
            Status::Done => 0,
            Status::Refused => 1,
            Status::BadWords => 2,
            Status::Device { .. } => 3,
            Status::Memory => 4,
            Status::Damaged { .. } => 5,
            Status::SourceFault => 6,
            Status::SinkFault => 7,
        }
    }
}

/// Tells a status from 2 on in a line on standard error, and of bad words and a damaged file one more, which helps a person.
/// Where that fails, nothing is told.
pub fn tell<R: Eprint>(rt: &R, status: Status) {
    let _ = match status {
        Status::Done | Status::Refused => Ok(()),
        Status::BadWords => rt.eprintln(
            "bad words\nusage: nipuhako run DIR [--lookback N] [--schedule LIST] < SCRIPT\n       nipuhako verify DIR --table NAME --index NAME --kind NONE|ONLY|BEFORE|AFTER|BOTH\n       nipuhako load DIR --number S --rows N",
        ),
        Status::Device { call } => rt.eprintln(format_args!("device fault at call {call}")),
        Status::Memory => rt.eprintln("out of memory"),
        Status::Damaged { file, place } => {
            rt.eprintln(format_args!(
                "damaged file {file} at {place}\nin the folder it is {file:016x}.px"
            ))
        }
        Status::SourceFault => rt.eprintln("source fault"),
        Status::SinkFault => rt.eprintln("sink fault"),
    };
}

/// Tells on standard error what the system said of the first call that failed, and of which file.
pub fn tell_fault<R: Eprint>(rt: &R, fault: Option<&FolderFault>) {
    if let Some(fault) = fault {
        let _ = rt.eprintln(format_args!("{fault}"));
    }
}
