// A piece, as far as it is answered without a call.
ghost use Rattle.std.specs.Prelude.{◌≡◌, ◌∷◌, MatchOption, Ok};
ghost use Rattle.px_values.specs.declared.print.CountWord.TheVariants.{Affected};
ghost use Rattle.px_lex.specs.Script.{seen_piece};
ghost use Rattle.px_item.specs.Right as spec;

use crate::answered::{Answered, Asked, Settings, refused, told};
use crate::refusing::{command_refusal, syntax_refusal};
use px_ast::Statement;
use px_calls::Ordered;
use px_commands::{Command, read_command};
use px_lex::script::{Piece, PieceKind};
use px_parse::parse;
use px_reply::{Refusal, Reply};
use px_values::{CountWord, Limit, Name};
use std::alloc::Global;

/// The greatest length of a statement, in bytes.
const MOST_STATEMENT: usize = 1_048_576;

/// What a piece is, as far as no call tells.
pub(crate) enum Read<'a> {
    Told(Answered),
    Asks(Asked<'a>, Statement),
    /// What is held is to be committed; then the piece is asked once more, or is answered by it.
    Commits(Asked<'a>, bool),
    /// The table of this name is to be counted.
    Counts(Asked<'a>, Name),
    /// This is to be ordered of upkeep, and done.
    Orders(Asked<'a>, Ordered),
}

/// Whether the statement's form is built.
fn is_built(statement: &Statement) -> bool
    ensures { result ≡ spec.is_answer_built statement.now }
{
    match statement {
        Statement::CreateTable(create) => create.splits.as_slice().is_empty(),
        _ => true,
    }
}

/// Whether the statement changes something.
fn changes(statement: &Statement) -> bool
    ensures { result ≡ spec.changes statement.now }
{
    !matches!(statement, Statement::Select(_) | Statement::Explain(_))
}

/// A statement that the grammar reads.
fn parsed<'a>(
    alloc: Global,
    piece: Piece<'a>,
    settings: Settings,
    first: u64,
    statement: Statement,
) -> Read<'a>
    requires { spec.IsReadItem (seen_piece piece) (Ok statement) }
    ensures { spec.ReadsAs settings (seen_piece piece.entry) first result }
{
    if !is_built(&statement) {
        drop(statement);
        return Read::Told(refused(alloc, Refusal::Form, first, settings));
    }
    if changes(&statement) && settings.scn.is_some() {
        drop(statement);
        return Read::Told(refused(alloc, Refusal::UnderScn, first, settings));
    }
    let asked = Asked {
        piece,
        settings,
        first,
    };
    Read::Asks(asked, statement)
}

fn read_statement<'a>(alloc: Global, piece: Piece<'a>, settings: Settings, first: u64) -> Read<'a>
    requires { piece.kind ≡ PieceKind.Statement }
    ensures { spec.ReadsAs settings (seen_piece piece.entry) first result }
{
    if piece.text.len() > MOST_STATEMENT {
        let refusal = Refusal::Limit(Limit::Statement);
        return Read::Told(refused(alloc, refusal, first, settings));
    }
    match parse(alloc, piece.text) {
        Ok(statement) => parsed(alloc, piece, settings, first, statement),
        Err(fault) => Read::Told(refused(alloc, syntax_refusal(fault), first, settings)),
    }
}

/// What is asked under the settings with autocommit so.
fn switched(alloc: Global, on: bool, settings: Settings, first: u64) -> Answered
    ensures says { spec.SaysOnly result (Reply.Autocommit on) (spec.with_autocommit settings on) }
    ensures first { result.first ≡ first }
{
    let Settings {
        scn,
        autocommit: _autocommit,
        held,
    } = settings;
    let after = Settings {
        scn,
        autocommit: on,
        held,
    };
    told(alloc, Reply::Autocommit(on), first, after)
}

/// What is asked under the settings with this SCN.
fn read_as_of(alloc: Global, scn: Option<u64>, settings: Settings, first: u64) -> Answered
    ensures says { spec.SaysOnly result (Reply.Scn scn) (spec.with_scn settings scn) }
    ensures first { result.first ≡ first }
{
    let Settings {
        scn: _scn,
        autocommit,
        held,
    } = settings;
    let after = Settings {
        scn,
        autocommit,
        held,
    };
    told(alloc, Reply::Scn(scn), first, after)
}

/// No changes are held, and none is committed.
fn none_committed(alloc: Global, settings: Settings, first: u64) -> Answered
    ensures says { spec.SaysOnly result (Reply.Count 0 Affected) settings }
    ensures first { result.first ≡ first }
{
    let reply = Reply::Count {
        rows: 0,
        word: CountWord::Affected,
    };
    told(alloc, reply, first, settings)
}

/// What a command is answered, or asks for.
fn commanded<'a>(
    alloc: Global,
    piece: Piece<'a>,
    command: Command,
    settings: Settings,
    first: u64,
) -> Read<'a>
    requires { spec.IsCommandRead (seen_piece piece) (Ok command) }
    ensures { spec.ReadsAs settings (seen_piece piece.entry) first result }
{
    match command {
        Command::Scn(scn) => Read::Told(read_as_of(alloc, scn, settings, first)),
        Command::Autocommit(false) => Read::Told(switched(alloc, false, settings, first)),
        Command::Autocommit(true) => {
            if settings.held.is_none() {
                return Read::Told(switched(alloc, true, settings, first));
            }
            let asked = Asked {
                piece,
                settings,
                first,
            };
            Read::Commits(asked, true)
        }
        Command::Commit => {
            if settings.held.is_none() {
                return Read::Told(none_committed(alloc, settings, first));
            }
            let asked = Asked {
                piece,
                settings,
                first,
            };
            Read::Commits(asked, false)
        }
        Command::Status(name) => {
            let asked = Asked {
                piece,
                settings,
                first,
            };
            Read::Counts(asked, name)
        }
        Command::Flush => {
            let asked = Asked {
                piece,
                settings,
                first,
            };
            Read::Orders(asked, Ordered::FlushAll)
        }
        Command::Compact => {
            let asked = Asked {
                piece,
                settings,
                first,
            };
            Read::Orders(asked, Ordered::CompactAll)
        }
    }
}

/// What stands behind the `!`.
fn behind_mark(text: &str) -> Option<&str>
    ensures { MatchOption result (text.now ≡ text.now) (λ rest. text.now ≡ 33 ∷ rest.now) }
{
    text.strip_prefix('!')
}

fn read_line<'a>(alloc: Global, piece: Piece<'a>, settings: Settings, first: u64) -> Read<'a>
    requires { piece.kind ≡ PieceKind.Command }
    ensures { spec.ReadsAs settings (seen_piece piece.entry) first result }
{
    let Some(text) = behind_mark(piece.text) else {
        return Read::Told(refused(alloc, Refusal::Memory, first, settings));
    };
    match read_command(alloc, text) {
        Ok(command) => commanded(alloc, piece, command, settings, first),
        Err(fault) => Read::Told(refused(alloc, command_refusal(fault), first, settings)),
    }
}

/// Reads a piece. It makes no call.
pub(crate) fn read_piece<'a>(
    alloc: Global,
    piece: Piece<'a>,
    settings: Settings,
    first: u64,
) -> Read<'a>
    ensures { spec.ReadsAs settings (seen_piece piece.entry) first result }
{
    match piece.kind {
        PieceKind::Statement => read_statement(alloc, piece, settings, first),
        PieceKind::Command => read_line(alloc, piece, settings, first),
    }
}
