// Printing transcripts.
ghost use Rattle.std.specs.Prelude.{◌≡◌, ◌++◌, OnOk};
ghost use Rattle.px_reply.specs.Printed as spec;

use crate::refusal::Refusal;
use crate::reply::{Checked, Counts, Defined, Reply};
use crate::transcript::{Item, Transcript, Transcripts};
use itoa::Buffer;
use px_calls::{IndexCount, Status};
use px_tables::IndexState;
use px_values::{CountWord, Limit, Line, Rows, print_count, print_rows};
use std::alloc::AllocError;

/// Adds a text, and a number behind it. Where no memory is found the line has a part of them.
pub fn print_with_number(text: &str, number: u64, to: &mut Line) -> Result<(), AllocError>
    ensures { OnOk result (to.new ≡ to.old ++ spec.with_number text.now number) }
{
    let mut buffer = Buffer::new();
    to.push_str(text)?;
    to.push_str(buffer.format(number))
}

/// Adds a text, and a name behind it.
fn with_name(text: &str, name: &str, to: &mut Line) -> Result<(), AllocError>
    ensures { OnOk result (to.new ≡ to.old ++ (text.now ++ name.now)) }
{
    to.push_str(text)?;
    to.push_str(name)
}

fn limit(limit: Limit, to: &mut Line) -> Result<(), AllocError>
    ensures { OnOk result (to.new ≡ to.old ++ spec.limit_text limit) }
{
    with_name("E11 limit: ", limit.word(), to)?;
    print_with_number(" ", limit.most(), to)
}

fn damaged(file: u64, place: u64, to: &mut Line) -> Result<(), AllocError>
    ensures { OnOk result (to.new ≡ to.old ++ spec.damaged_text file place) }
{
    print_with_number("F4 damaged file ", file, to)?;
    print_with_number(" at ", place, to)
}

/// Adds the text of a refusal, without a line feed. Where no memory is found the line has a part of it.
pub fn print_refusal(refusal: &Refusal, to: &mut Line) -> Result<(), AllocError>
    ensures { OnOk result (to.new ≡ to.old ++ spec.refusal_text refusal.now) }
{
    match refusal {
        Refusal::Syntax { place } => print_with_number("E01 syntax at byte ", *place, to),
        Refusal::LeftOut { name } => with_name("E02 left out: ", name, to),
        Refusal::Form => to.push_str("E02 left out: FORM"),
        Refusal::IndexJoin => to.push_str("E02 left out: INDEX JOIN"),
        Refusal::NameExists(name) => with_name("E03 name exists: ", name.as_str(), to),
        Refusal::NoColumn(name) => with_name("E04 no such column: ", name.as_str(), to),
        Refusal::NoTable(name) => with_name("E05 no such table: ", name.as_str(), to),
        Refusal::Mismatch { place } => print_with_number("E06 type mismatch at byte ", *place, to),
        Refusal::OutOfRange { place } => print_with_number(
            "E07 value out of range at byte ",
            *place,
            to,
        ),
        Refusal::NullKey(name) => with_name("E08 null key column: ", name.as_str(), to),
        Refusal::NoIndex(name) => with_name("E09 no such index: ", name.as_str(), to),
        Refusal::Twice(name) => with_name("E10 column named twice: ", name.as_str(), to),
        Refusal::Limit(which) => limit(*which, to),
        Refusal::BelowHorizon { horizon } => print_with_number(
            "E12 scn below horizon ",
            *horizon,
            to,
        ),
        Refusal::UnderScn => to.push_str("E13 not under scn"),
        Refusal::ReadFault => to.push_str("F1 read fault"),
        Refusal::WriteFault => to.push_str("F2 write fault"),
        Refusal::Closed { call } => print_with_number("F3 closed by device call ", *call, to),
        Refusal::Damaged { file, place } => damaged(*file, *place, to),
        Refusal::Memory => to.push_str("M1 out of memory"),
    }
}

impl Defined {
    fn as_str(self) -> &'static str
        ensures { result.now ≡ spec.defined_text self }
    {
        match self {
            Defined::TableCreated => "table created",
            Defined::TableKept => "table kept",
            Defined::TableDropped => "table dropped",
            Defined::TableAbsent => "table absent",
            Defined::IndexCreated => "index created",
            Defined::IndexKept => "index kept",
            Defined::IndexDropped => "index dropped",
            Defined::IndexAbsent => "index absent",
            Defined::IndexDisabled => "index disabled",
            Defined::IndexRebuilt => "index rebuilt",
        }
    }
}

fn scn(scn: Option<u64>, to: &mut Line) -> Result<(), AllocError>
    ensures { OnOk result (to.new ≡ to.old ++ spec.scn_text scn) }
{
    match scn {
        Some(number) => print_with_number("scn ", number, to),
        None => to.push_str("scn off"),
    }
}

fn autocommit_text(on: bool) -> &'static str
    ensures { result.now ≡ spec.autocommit_text on }
{
    if on {
        "autocommit on"
    } else {
        "autocommit off"
    }
}

fn state_text(state: IndexState) -> &'static str
    ensures { result.now ≡ spec.state_text state }
{
    match state {
        IndexState::Building => " BUILDING",
        IndexState::Active => " ACTIVE",
        IndexState::Disabled => " DISABLED",
    }
}

/// Adds the line of an index in a status.
fn index_line(index: &IndexCount, to: &mut Line) -> Result<(), AllocError>
    ensures { OnOk result (to.new ≡ to.old ++ spec.index_line index.now) }
{
    with_name(index.name.as_str(), state_text(index.state), to)?;
    print_with_number(" unverified ", index.unverified, to)?;
    to.push_str("\n")
}

fn index_lines(indexes: &[IndexCount], to: &mut Line) -> Result<(), AllocError>
    ensures { OnOk result (to.new ≡ to.old ++ spec.index_lines indexes.now) }
{
    for index in indexes {
        index_line(index, to)?;
    }
    Ok(())
}

/// Adds a line of two numbers.
fn two_numbers(
    first: &str,
    one: u64,
    second: &str,
    other: u64,
    to: &mut Line,
) -> Result<(), AllocError>
    ensures { OnOk result (to.new ≡ to.old ++ spec.two_numbers first.now one second.now other) }
{
    print_with_number(first, one, to)?;
    print_with_number(second, other, to)?;
    to.push_str("\n")
}

fn status(status: &Status, to: &mut Line) -> Result<(), AllocError>
    ensures { OnOk result (to.new ≡ to.old ++ spec.status_lines status.now) }
{
    two_numbers("last ", status.last, " horizon ", status.horizon, to)?;
    two_numbers("cells ", status.cells, " files ", status.files, to)?;
    index_lines(status.indexes.as_slice(), to)
}

fn rows_with_count(rows: &Rows, to: &mut Line) -> Result<(), AllocError>
    ensures { OnOk result (to.new ≡ to.old ++ spec.rows_lines rows.now) }
{
    print_rows(rows, to)?;
    print_count(rows.as_slice().len() as u64, CountWord::Selected, to)?;
    to.push_str("\n")
}

fn count_line(rows: u64, word: CountWord, to: &mut Line) -> Result<(), AllocError>
    ensures { OnOk result (to.new ≡ to.old ++ spec.count_line rows word) }
{
    print_count(rows, word, to)?;
    to.push_str("\n")
}

/// Adds a text and a line feed.
fn line(text: &str, to: &mut Line) -> Result<(), AllocError>
    ensures { OnOk result (to.new ≡ to.old ++ spec.line text.now) }
{
    to.push_str(text)?;
    to.push_str("\n")
}

fn scn_line(number: Option<u64>, to: &mut Line) -> Result<(), AllocError>
    ensures { OnOk result (to.new ≡ to.old ++ spec.line (spec.scn_text number)) }
{
    scn(number, to)?;
    to.push_str("\n")
}

/// Adds the line of a refusal. Where no memory is found the line has a part of it.
pub fn print_refusal_line(refusal: &Refusal, to: &mut Line) -> Result<(), AllocError>
    ensures { OnOk result (to.new ≡ to.old ++ spec.refusal_line refusal.now) }
{
    print_refusal(refusal, to)?;
    to.push_str("\n")
}

/// Adds a line of a text and a number behind it. Where no memory is found the line has a part of it.
pub fn print_numbered(text: &str, number: u64, to: &mut Line) -> Result<(), AllocError>
    ensures { OnOk result (to.new ≡ to.old ++ spec.numbered text.now number) }
{
    print_with_number(text, number, to)?;
    to.push_str("\n")
}

fn counts(counts: Counts, to: &mut Line) -> Result<(), AllocError>
    ensures { OnOk result (to.new ≡ to.old ++ spec.counts_lines counts) }
{
    print_numbered("matching ", counts.matching, to)?;
    print_numbered("unverified ", counts.unverified, to)?;
    print_numbered("missing ", counts.missing, to)?;
    print_numbered("extra ", counts.extra, to)?;
    print_numbered("wrong ", counts.wrong, to)
}

/// Adds the lines of a report, where there is one.
fn report(report: Option<Counts>, to: &mut Line) -> Result<(), AllocError>
    ensures { OnOk result (to.new ≡ to.old ++ spec.report_lines report) }
{
    match report {
        Some(report) => counts(report, to),
        None => Ok(()),
    }
}

fn rebuilt(rebuilt: bool, to: &mut Line) -> Result<(), AllocError>
    ensures { OnOk result (to.new ≡ to.old ++ spec.rebuilt_line rebuilt) }
{
    if rebuilt { line("rebuilt", to) } else { Ok(()) }
}

/// Adds the line of a refusal, where there is one.
fn refused(refusal: &Option<Refusal>, to: &mut Line) -> Result<(), AllocError>
    ensures { OnOk result (to.new ≡ to.old ++ spec.refused_line refusal.now) }
{
    match refusal {
        Some(refusal) => print_refusal_line(refusal, to),
        None => Ok(()),
    }
}

/// Adds the parts of a verification that were finished, in order, and why the next one wasn't.
fn checked(checked: &Checked, to: &mut Line) -> Result<(), AllocError>
    ensures { OnOk result (to.new ≡ to.old ++ spec.checked_lines checked.now) }
{
    report(checked.before, to)?;
    rebuilt(checked.rebuilt, to)?;
    report(checked.after, to)?;
    refused(&checked.refused, to)
}

/// Adds the lines of a reply, each with its line feed. Where no memory is found the line has a part of them.
pub fn print_reply(reply: &Reply, to: &mut Line) -> Result<(), AllocError>
    ensures { OnOk result (to.new ≡ to.old ++ spec.printed_reply reply.now) }
{
    match reply {
        Reply::Rows(rows) => rows_with_count(rows, to),
        Reply::Count { rows, word } => count_line(*rows, *word, to),
        Reply::Defined(defined) => line(defined.as_str(), to),
        Reply::Explained(lines) => to.push_bytes(lines.as_slice()),
        Reply::Scn(number) => scn_line(*number, to),
        Reply::Autocommit(on) => line(autocommit_text(*on), to),
        Reply::Status(answer) => status(answer, to),
        Reply::Flushed => line("flushed", to),
        Reply::Compacted => line("compacted", to),
        Reply::Verified(parts) => checked(parts, to),
        Reply::Refused(refusal) => print_refusal_line(refusal, to),
    }
}

fn print_items(items: &[Item], to: &mut Line) -> Result<(), AllocError>
    ensures { OnOk result (to.new ≡ to.old ++ spec.printed_items items.now) }
{
    for item in items {
        print_reply(&item.reply, to)?;
    }
    Ok(())
}

/// Adds the line that names a session, where one has to.
fn print_head(session: u32, has_items: bool, to: &mut Line) -> Result<(), AllocError>
    ensures { OnOk result (to.new ≡ to.old ++ spec.head session has_items) }
{
    if session == 1 || !has_items {
        return Ok(());
    }
    print_with_number("@", u64::from(session), to)?;
    to.push_str("\n")
}

fn print_transcript(transcript: &Transcript, to: &mut Line) -> Result<(), AllocError>
    ensures { OnOk result (to.new ≡ to.old ++ spec.printed_transcript transcript.now) }
{
    let items = transcript.items.as_slice();
    print_head(transcript.session, !items.is_empty(), to)?;
    print_items(items, to)
}

fn print_all(transcripts: &[Transcript], to: &mut Line) -> Result<(), AllocError>
    ensures { OnOk result (to.new ≡ to.old ++ spec.printed transcripts.now) }
{
    for transcript in transcripts {
        print_transcript(transcript, to)?;
    }
    Ok(())
}

/// Adds the replies of all transcripts. Where no memory is found the line has a part of them.
pub fn print_transcripts(transcripts: &Transcripts, to: &mut Line) -> Result<(), AllocError>
    ensures { OnOk result (to.new ≡ to.old ++ spec.printed transcripts.now) }
{
    print_all(transcripts.as_slice(), to)
}
