// Session commands and what they say, worked out by hand from the description of commands.
use itoa::Buffer;
use px_commands::{Command, CommandFault, read_command};
use px_values::Line;
use std::alloc::{AllocError, Global};
use std::test::Fail;

/// What stands behind a `!`, and what it says, or its refusal with the place counted from behind the `!`.
const COMMANDS: &[(&str, &str)] = &[
    ("scn 5", "scn 5"),
    ("SCN 5", "scn 5"),
    (" \tsCn\t 007 ", "scn 7"),
    ("scn 9223372036854775807", "scn 9223372036854775807"),
    ("scn 9223372036854775808", "E07 4"),
    ("scn 18446744073709551617", "E07 4"),
    ("scn 99999999999999999999999999999999999999", "E07 4"),
    ("scn 999999999999999999999999999999999999999", "E01 4"),
    ("scn 0", "E07 4"),
    ("scn  00", "E07 5"),
    ("scn off", "scn off"),
    ("Scn Off", "scn off"),
    ("scn \"off\"", "E01 4"),
    ("\"scn\" off", "E01 0"),
    ("scn", "E01 3"),
    ("scn ", "E01 4"),
    ("scn on", "E01 4"),
    ("scn -1", "E01 4"),
    ("scn +1", "E01 4"),
    ("scn 1.5", "E01 5"),
    ("scn 5 x", "E01 6"),
    ("scn 0 x", "E01 6"),
    ("scn x y", "E01 4"),
    ("scn off off", "E01 8"),
    ("scn5", "E01 0"),
    ("scn'5'", "E01 3"),
    ("commit", "commit"),
    ("COMMIT /* now */", "commit"),
    ("commit -- now", "commit"),
    ("commit;", "E01 6"),
    ("commit now", "E01 7"),
    ("commit\r", "E01 6"),
    ("commit /* now", "E01 7"),
    ("commit 'now", "E01 7"),
    ("autocommit on", "autocommit on"),
    ("autocommit OFF", "autocommit off"),
    ("autocommit", "E01 10"),
    ("autocommit 1", "E01 11"),
    ("autocommit on on", "E01 14"),
    ("autocommit scn", "E01 11"),
    ("status t", "status T"),
    ("status \"t\"", "status t"),
    ("status \"a b\"", "status a b"),
    ("status scn", "status SCN"),
    ("status off", "status OFF"),
    ("status on", "E01 7"),
    ("status select", "E01 7"),
    ("status 't'", "E01 7"),
    ("status t u", "E01 9"),
    ("status t.u", "E01 8"),
    ("status 't", "E01 7"),
    ("status t'", "E01 8"),
    ("status", "E01 6"),
    ("flush", "flush"),
    ("flush now", "E01 6"),
    ("compact", "compact"),
    ("compact all", "E01 8"),
    ("off", "E01 0"),
    ("on", "E01 0"),
    ("foo", "E01 0"),
    ("5", "E01 0"),
    ("'commit'", "E01 0"),
    ("", "E01 0"),
    ("  ", "E01 2"),
    ("-- commit", "E01 9"),
    ("!", "E01 0"),
    ("/* commit", "E01 0"),
];

fn number(n: u64, to: &mut Line) -> Result<(), AllocError> {
    let mut buffer = Buffer::new();
    to.push_str(buffer.format(n))
}

fn with_place(code: &str, place: usize, to: &mut Line) -> Result<(), AllocError> {
    to.push_str(code)?;
    number(place as u64, to)
}

fn show_command(command: &Command, to: &mut Line) -> Result<(), AllocError> {
    match command {
        Command::Scn(Some(scn)) => {
            to.push_str("scn ")?;
            number(*scn, to)
        }
        Command::Scn(None) => to.push_str("scn off"),
        Command::Commit => to.push_str("commit"),
        Command::Autocommit(true) => to.push_str("autocommit on"),
        Command::Autocommit(false) => to.push_str("autocommit off"),
        Command::Status(name) => {
            to.push_str("status ")?;
            to.push_str(name.as_str())
        }
        Command::Flush => to.push_str("flush"),
        Command::Compact => to.push_str("compact"),
    }
}

fn show(alloc: Global, text: &str, to: &mut Line) -> Result<(), AllocError> {
    match read_command(alloc, text) {
        Ok(command) => show_command(&command, to),
        Err(CommandFault::Syntax { place }) => with_place("E01 ", place, to),
        Err(CommandFault::OutOfRange { place }) => with_place("E07 ", place, to),
        Err(CommandFault::Memory) => to.push_str("M1"),
    }
}

#[test]
fn commands_are_read_or_refused(rt: HostRuntime) -> Result<(), Fail> {
    let alloc = rt.alloc();
    for (text, expected) in COMMANDS {
        let mut line = Line::new(alloc);
        show(alloc, text, &mut line)?;
        assert_eq!(rt; line.as_slice(), expected.as_bytes(), "{text}");
    }
    Ok(())
}
