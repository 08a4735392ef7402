// Reading a session command.
ghost use Rattle.std.specs.Prelude.{◌≡◌, List, None, Some, map, IfOk, MatchOption};
ghost use Rattle.px_lex.specs.Lexemes.{Lexeme, IsTextReading, seen};
ghost use Rattle.px_commands.specs.Commands as spec;

use crate::command::{Command, CommandFault};
use crate::word::{Word, word_of};
use px_lex::kind::{Kind, same_kind};
use px_lex::token::{LexFault, Lexed, Token, lex};
use px_resolve::literals::number;
use px_values::Name;
use std::alloc::{AllocError, Global};

/// The greatest SCN.
const MOST_SCN: u128 = 9_223_372_036_854_775_807;

/// Why tokens are no command.
#[derive(Clone, Copy)]
pub enum Fault {
    /// No command goes on with the token behind the first so many, or there is none.
    Stuck(usize),
    /// The number of the token at this place is no SCN.
    OutOfRange { place: usize },
    Memory,
}

/// An SCN, or the word `off`.
fn scn(token: &Token<'_>) -> Result<Command, Fault>
    ensures { result ≡ spec.scn_said (seen token.now) }
{
    if same_kind(token.kind, Kind::Number) {
        let number = number(token.text);
        if number == 0 || number > MOST_SCN {
            return Err(Fault::OutOfRange { place: token.place });
        }
        return Ok(Command::Scn(Some(number as u64)));
    }
    match word_of(token.text) {
        Some(Word::Off) => Ok(Command::Scn(None)),
        _ => Err(Fault::Stuck(1)),
    }
}

fn autocommit(token: &Token<'_>) -> Result<Command, Fault>
    ensures { result ≡ spec.autocommit_said (seen token.now) }
{
    match word_of(token.text) {
        Some(Word::On) => Ok(Command::Autocommit(true)),
        Some(Word::Off) => Ok(Command::Autocommit(false)),
        _ => Err(Fault::Stuck(1)),
    }
}

/// The text between double quotes.
fn unquoted(text: &str) -> Option<&str>
    ensures { MatchOption result (spec.unquoted_name text.now ≡ None) (λ inner. spec.unquoted_name text.now ≡ Some inner.now) }
{
    text.strip_prefix('"')?.strip_suffix('"')
}

/// The name that a text is: as it stands between double quotes, or in capitals.
fn name(alloc: Global, text: &str) -> Result<Name, AllocError>
    ensures { IfOk result (λ n. n ≡ spec.name_in_text text.now) }
{
    match unquoted(text) {
        Some(inner) => Name::from_str(alloc, inner),
        None => Name::in_capitals(alloc, text),
    }
}

fn status(alloc: Global, token: &Token<'_>) -> Result<Command, Fault>
    ensures { spec.Says (spec.status_said (seen token.now)) result }
{
    if !same_kind(token.kind, Kind::Name) {
        return Err(Fault::Stuck(1));
    }
    match name(alloc, token.text) {
        Ok(name) => Ok(Command::Status(name)),
        Err(_) => Err(Fault::Memory),
    }
}

/// What a command without an argument is, where these tokens follow its word.
fn alone(command: Command, rest: &[Token<'_>]) -> Result<Command, Fault>
    ensures { result ≡ spec.alone command (map seen rest.now) }
{
    if rest.is_empty() {
        return Ok(command);
    }
    drop(command);
    Err(Fault::Stuck(1))
}

/// What is said where more tokens follow.
fn followed(said: Result<Command, Fault>) -> Result<Command, Fault>
    ensures { spec.FollowedBy said result }
{
    match said {
        Ok(command) => {
            drop(command);
            Err(Fault::Stuck(2))
        }
        Err(Fault::OutOfRange { place: _ }) => Err(Fault::Stuck(2)),
        Err(fault) => Err(fault),
    }
}

/// What the one token behind the first word says.
fn argument(alloc: Global, word: Word, token: &Token<'_>) -> Result<Command, Fault>
    ensures { spec.Says (spec.argument word (seen token.now)) result }
{
    match word {
        Word::Scn => scn(token),
        Word::Autocommit => autocommit(token),
        Word::Status => status(alloc, token),
        _ => Err(Fault::Stuck(0)),
    }
}

/// What a command with an argument says, where these tokens follow its word.
fn with_argument(alloc: Global, word: Word, rest: &[Token<'_>]) -> Result<Command, Fault>
    ensures { spec.Says (spec.with_argument word (map seen rest.now)) result }
{
    match rest {
        [] => Err(Fault::Stuck(1)),
        [token] => argument(alloc, word, token),
        [token, ..] => followed(argument(alloc, word, token)),
    }
}

/// What tokens say.
fn said(alloc: Global, tokens: &[Token<'_>]) -> Result<Command, Fault>
    ensures { spec.Says (spec.said (map seen tokens.now)) result }
{
    let [first, rest @ ..] = tokens else {
        return Err(Fault::Stuck(0));
    };
    match word_of(first.text) {
        Some(Word::Commit) => alone(Command::Commit, rest),
        Some(Word::Flush) => alone(Command::Flush, rest),
        Some(Word::Compact) => alone(Command::Compact, rest),
        Some(Word::Scn) => with_argument(alloc, Word::Scn, rest),
        Some(Word::Autocommit) => with_argument(alloc, Word::Autocommit, rest),
        Some(Word::Status) => with_argument(alloc, Word::Status, rest),
        _ => Err(Fault::Stuck(0)),
    }
}

/// The place of a fault of the lexer.
fn fault_place(fault: LexFault) -> usize
    ensures { result ≡ spec.fault_place fault }
{
    match fault {
        LexFault::BadCharacter { place } => place,
        LexFault::Unclosed { place } => place,
        LexFault::NumberTooLong { place } => place,
        LexFault::Memory => 0,
    }
}

/// Where the tokens that count end.
fn end_of(text: &str, fault: Option<LexFault>) -> usize
    ensures { result ≡ spec.end_of text.now fault }
{
    match fault {
        Some(fault) => fault_place(fault),
        None => text.len(),
    }
}

/// The place of the token behind the first so many, or of the end where there is none.
fn place_behind(tokens: &[Token<'_>], count: usize, end: usize) -> usize
    ensures { result ≡ spec.place_behind (map seen tokens.now) count end }
{
    match tokens.get(count) {
        Some(token) => token.place,
        None => end,
    }
}

/// The answer where all of the text is tokens.
fn told(
    said: Result<Command, Fault>,
    tokens: &[Token<'_>],
    end: usize,
) -> Result<Command, CommandFault>
    ensures { result ≡ spec.told said (map seen tokens.now) end }
{
    match said {
        Ok(command) => Ok(command),
        Err(Fault::Stuck(count)) => Err(CommandFault::Syntax {
            place: place_behind(tokens, count, end),
        }),
        Err(Fault::OutOfRange { place }) => Err(CommandFault::OutOfRange { place }),
        Err(Fault::Memory) => Err(CommandFault::Memory),
    }
}

/// The answer where a fault of the lexer stands behind the tokens.
fn cut_short(
    said: Result<Command, Fault>,
    tokens: &[Token<'_>],
    end: usize,
) -> Result<Command, CommandFault>
    ensures { result ≡ spec.cut_short said (map seen tokens.now) end }
{
    match said {
        Ok(command) => {
            drop(command);
            Err(CommandFault::Syntax { place: end })
        }
        Err(Fault::Stuck(count)) => Err(CommandFault::Syntax {
            place: place_behind(tokens, count, end),
        }),
        Err(Fault::OutOfRange { .. }) => Err(CommandFault::Syntax { place: end }),
        Err(Fault::Memory) => Err(CommandFault::Memory),
    }
}

/// What a session command says, whose text begins behind its `!`; or the place, counted from there, at which no command
/// goes on or whose number is no SCN.
pub fn read_command(alloc: Global, text: &str) -> Result<Command, CommandFault>
    ensures { (xs : List Lexeme) × IsTextReading text.now xs × spec.AnswersCommand text.now xs result }
{
    let lexed = match lex(alloc, text) {
        Ok(lexed) => lexed,
        Err(_) => return Err(CommandFault::Memory),
    };
    let tokens = lexed.tokens.as_slice();
    let end = end_of(text, lexed.fault);
    let said = said(alloc, tokens);
    if lexed.fault.is_some() {
        cut_short(said, tokens, end)
    } else {
        told(said, tokens, end)
    }
}
