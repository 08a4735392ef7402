// From a text to its statement.
ghost use Rattle.std.specs.Prelude.{◌≡◌, ◌≢◌, ◌≤◌, ◌<◌, ◌++◌, ◌∷◌, [], ℕ, List, length, map, take, drop, Some, None, true, false, IfOk, IfErr, OnOk, OnErr, MatchOption};
ghost use Rattle.px_lex.specs.declared.token.LexFault.TheVariants as lexical;
ghost use Rattle.px_lex.specs.Lexemes.{seen, Lexeme, IsTextReading, fault_from, tokens_from};
ghost use Rattle.px_ast.specs.declared.statement.Statement.{Statement};
ghost use Rattle.px_ast.specs.Statements.{ReadsWithin, depth_limit};
ghost use Rattle.px_parse.specs.declared.syntax.SyntaxFault.TheVariants as faults;
ghost use Rattle.px_parse.specs.Nullness as nullness;
ghost use Rattle.px_statements.specs.declared.fault.TokenFault.TheVariants as token_faults;
ghost use Rattle.px_statements.specs.Parsed.{BeginsOne, IsRefused};
ghost use Rattle.px_words.specs.Tokens.{AreWell};
ghost use Rattle.px_parse.specs.Texts as spec;
ghost use Rattle.px_parse.specs.inner.Telling as telling;

use crate::left_out::left_out;
use crate::nullness::forbids_null_outside_key;
use crate::syntax::SyntaxFault;
use px_ast::Statement;
use px_lex::kind::{Kind, same_kind};
use px_lex::token::{LexFault, Lexed, Token, lex};
use px_statements::{TokenFault, read_tokens};
use std::alloc::Global;

/// The fault of the first token, with which no statement goes on.
fn fault_at(rest: &[Token<'_>], end: usize) -> SyntaxFault
    ensures { telling.TellsFirst (map seen rest.now) end result }
{
    match rest.first() {
        None => SyntaxFault::Unexpected { place: end },
        Some(token) => match left_out(token.kind) {
            None => SyntaxFault::Unexpected { place: token.place },
            Some(name) => SyntaxFault::LeftOut { name },
        },
    }
}

/// Whether the first token is of this kind.
fn begins_with(rest: &[Token<'_>], kind: Kind) -> bool
    ensures { result ≡ spec.begins_with (map seen rest.now) kind }
{
    match rest.first() {
        None => false,
        Some(token) => same_kind(token.kind, kind),
    }
}

/// Whether it is an UPSERT.
fn upserts(read: &Statement) -> bool
    ensures { result ≡ spec.upserts read.now }
{
    matches!(read, Statement::Upsert(_))
}

/// Whether tokens are a whole UPSERT.
fn is_upsert(alloc: Global, tokens: &[Token<'_>]) -> Result<bool, SyntaxFault>
    requires { AreWell (map seen tokens.now) }
    ensures { telling.Tests (spec.IsUpsert (map seen tokens.now)) result }
{
    match read_tokens(alloc, tokens) {
        Ok(read) => {
            let is_one = upserts(&read);
            drop(read);
            Ok(is_one)
        }
        Err(TokenFault::Memory) => Err(SyntaxFault::Memory),
        Err(_) => Ok(false),
    }
}

/// These tokens, and TRUE behind them.
fn with_true<'a>(alloc: Global, tokens: &[Token<'a>]) -> Result<Vec<Token<'a>>, SyntaxFault>
    ensures tokens { IfOk result (λ ts. map seen ts.items ≡ map seen tokens.now ++ spec.true_token ∷ []) }
    ensures memory { IfErr result (λ e. e ≡ faults.Memory) }
{
    let mut found = Vec::new(alloc);
    for token in tokens {
        found.push(*token)?;
    }
    found.push(Token {
        kind: Kind::True,
        place: 0,
        text: "TRUE",
    })?;
    Ok(found)
}

/// Why tokens are no statement.
fn why_not(alloc: Global, tokens: &[Token<'_>]) -> Option<TokenFault>
    requires { AreWell (map seen tokens.now) }
    ensures { telling.ExplainsTokens (map seen tokens.now) result }
{
    read_tokens(alloc, tokens).err()
}

/// Whether an operand may stand behind these tokens, as TRUE may. A name may stand there.
fn takes_operand(alloc: Global, tokens: &[Token<'_>]) -> Result<bool, SyntaxFault>
    requires { AreWell (map seen tokens.now) }
    ensures { telling.Tests (BeginsOne (map seen tokens.now ++ spec.true_token ∷ [])) result }
{
    let with_true = with_true(alloc, tokens)?;
    match why_not(alloc, with_true.as_slice()) {
        None => Ok(true),
        Some(TokenFault::TooDeep) => Ok(true),
        Some(TokenFault::Memory) => Err(SyntaxFault::Memory),
        Some(TokenFault::Unexpected(at)) => {
            if at <= tokens.len() {
                return Ok(false);
            }
            Ok(true)
        }
    }
}

/// Whether the name at this place is an operand.
fn is_operand(alloc: Global, tokens: &[Token<'_>], at: usize) -> Result<bool, SyntaxFault>
    requires well { AreWell (map seen tokens.now) }
    requires within { at ≤ length tokens.now }
    ensures { telling.Tests (spec.IsOperandName (map seen tokens.now) at) result }
{
    if begins_with(&tokens[at..], Kind::Name) {
        return takes_operand(alloc, &tokens[..at]);
    }
    Ok(false)
}

/// Whether the parenthesis at this place would be that of a function: it stands behind a name that is an operand.
fn is_function(alloc: Global, tokens: &[Token<'_>], at: usize) -> Result<bool, SyntaxFault>
    requires well { AreWell (map seen tokens.now) }
    requires within { at ≤ length tokens.now }
    ensures { telling.Tests (spec.IsFunction (map seen tokens.now) at) result }
{
    if at == 0 {
        return Ok(false);
    }
    if begins_with(&tokens[at..], Kind::OpenParen) {
        return is_operand(alloc, tokens, at - 1);
    }
    Ok(false)
}

/// The token by which the refusal is told: behind a whole UPSERT and ON it is the one behind ON.
fn deciding(alloc: Global, tokens: &[Token<'_>], at: usize) -> Result<usize, SyntaxFault>
    requires well { AreWell (map seen tokens.now) }
    requires within { at ≤ length tokens.now }
    ensures decides { IfOk result (λ j. spec.Decides (map seen tokens.now) at j) }
    ensures within { IfOk result (λ j. j ≤ length tokens.now) }
    ensures memory { IfErr result (λ e. e ≡ faults.Memory) }
{
    if begins_with(&tokens[at..], Kind::On) && is_upsert(alloc, &tokens[..at])? {
        return Ok(at + 1);
    }
    Ok(at)
}

/// Refuses tokens with which no statement goes on from this one on.
fn refused(alloc: Global, tokens: &[Token<'_>], at: usize, end: usize) -> SyntaxFault
    requires well { AreWell (map seen tokens.now) }
    requires within { at ≤ length tokens.now }
    ensures { telling.IsRefusedAt (map seen tokens.now) at end result }
{
    let function = match is_function(alloc, tokens, at) {
        Err(fault) => return fault,
        Ok(function) => function,
    };
    if function {
        return SyntaxFault::LeftOut { name: "FUNCTION" };
    }
    match deciding(alloc, tokens, at) {
        Err(fault) => fault,
        Ok(at) => fault_at(&tokens[at..], end),
    }
}

/// Refuses NOT NULL at a column outside the key.
fn with_null_allowed(alloc: Global, read: Statement) -> Result<Statement, SyntaxFault>
    ensures { telling.IsAllowed read result }
{
    match forbids_null_outside_key(alloc, &read) {
        Ok(false) => Ok(read),
        Ok(true) => {
            drop(read);
            Err(SyntaxFault::LeftOut { name: "NOT NULL" })
        }
        Err(_) => {
            drop(read);
            Err(SyntaxFault::Memory)
        }
    }
}

/// Refuses the tokens of a whole text, which are no statement.
fn refused_whole(alloc: Global, tokens: &[Token<'_>], fault: TokenFault, end: usize) -> SyntaxFault
    requires well { AreWell (map seen tokens.now) }
    requires fault { IsRefused (map seen tokens.now) fault }
    ensures answer { spec.IsRefusedText None (map seen tokens.now) end result }
    ensures memory { fault ≡ token_faults.Memory → result ≡ faults.Memory }
{
    match fault {
        TokenFault::Unexpected(at) => refused(alloc, tokens, at, end),
        TokenFault::TooDeep => SyntaxFault::TooDeep,
        TokenFault::Memory => SyntaxFault::Memory,
    }
}

/// The statement that the tokens of a whole text are.
fn whole(alloc: Global, tokens: &[Token<'_>], end: usize) -> Result<Statement, SyntaxFault>
    requires { AreWell (map seen tokens.now) }
    ensures answer { spec.IsTextParse None (map seen tokens.now) end result }
    ensures only { (s : Statement) → ReadsWithin depth_limit (map seen tokens.now) s → nullness.forbids_null_outside_key s ≡ false → spec.IsAnswered s result }
{
    match read_tokens(alloc, tokens) {
        Ok(read) => with_null_allowed(alloc, read),
        Err(fault) => Err(refused_whole(alloc, tokens, fault, end)),
    }
}

/// Why tokens are refused behind which a fault of the lexer stands.
fn cut_short(alloc: Global, tokens: &[Token<'_>], fault: LexFault) -> SyntaxFault
    requires well { AreWell (map seen tokens.now) }
    requires fault { fault ≢ lexical.Memory }
    ensures { spec.IsRefusedText (Some fault) (map seen tokens.now) (spec.fault_place fault) result }
{
    let end = place_of(fault);
    match why_not(alloc, tokens) {
        None => SyntaxFault::Unexpected { place: end },
        Some(TokenFault::TooDeep) => SyntaxFault::Unexpected { place: end },
        Some(TokenFault::Memory) => SyntaxFault::Memory,
        Some(TokenFault::Unexpected(at)) => refused(alloc, tokens, at, end),
    }
}

fn place_of(fault: LexFault) -> usize
    requires { fault ≢ lexical.Memory }
    ensures { result ≡ spec.fault_place fault }
{
    match fault {
        LexFault::BadCharacter { place } => place,
        LexFault::Unclosed { place } => place,
        LexFault::NumberTooLong { place } => place,
        LexFault::Memory => unreachable!(),
    }
}

/// The statement that a text is.
///
/// `SyntaxFault::Unexpected` comes with the first place where no statement continues: the byte where a token or a fault of
/// the lexer begins, or the end of the text. `LeftOut` comes in its place where the token there is left out of the language,
/// or is the parenthesis of a function in a condition; behind a whole UPSERT and ON the token behind ON decides. It also comes
/// to a statement with NOT NULL at a column outside the key. `TooDeep` comes to a statement in which more than 64 parentheses
/// and NOTs are open at once. `Memory` may come to any text.
pub fn parse(alloc: Global, text: &str) -> Result<Statement, SyntaxFault>
    ensures answer { (xs : List Lexeme) × IsTextReading text.now xs × spec.AnswersStatement text.now xs result }
    ensures only { (xs : List Lexeme) (s : Statement) → IsTextReading text.now xs → fault_from 0 xs ≡ None → ReadsWithin depth_limit (tokens_from 0 xs) s
        → nullness.forbids_null_outside_key s ≡ false → spec.IsAnswered s result }
{
    let Lexed { tokens, fault } = lex(alloc, text)?;
    match fault {
        None => whole(alloc, tokens.as_slice(), text.len()),
        Some(fault) => Err(cut_short(alloc, tokens.as_slice(), fault)),
    }
}
