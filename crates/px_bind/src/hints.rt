// The hints of a query.
ghost use Rattle.std.specs.Prelude.{◌≡◌, ◌<◌, ◌++◌, [], IfOk, OnOk, map};
ghost use Rattle.std.specs.Option.{option_copied, option_to_list};
ghost use Rattle.px_bind.specs.Hints.{AreHints, AreInside, before as before_of, behind as behind_of, hint_at as hint_of, hints_among, index_hint as index_hint_of, inside_hint, is_name, is_no_index as is_no_index_of, length_behind, name_in};
ghost use Rattle.px_lex.specs.Lexemes.{seen};

use crate::Hint;
use px_lex::kind::{Kind, same_kind};
use px_lex::token::{Lexed, Token, lex};
use px_values::{Items, Name, Text};
use std::alloc::{AllocError, Global};

/// What stands behind a first character.
fn behind(text: &str, first: char) -> Option<&str>
    requires { first < 128 }
    ensures { option_copied result ≡ behind_of first text.now }
{
    text.strip_prefix(first)
}

/// What stands before a last character.
fn before(text: &str, last: char) -> Option<&str>
    requires { last < 128 }
    ensures { option_copied result ≡ before_of last text.now }
{
    text.strip_suffix(last)
}

/// What stands between `/*+` and `*/`.
fn inside(hint: &str) -> Option<&str>
    ensures { option_copied result ≡ inside_hint hint.now }
{
    let star = behind(hint, '/')?;
    let plus = behind(star, '*')?;
    let front = behind(plus, '+')?;
    let end = before(front, '/')?;
    before(end, '*')
}

/// The name that a name's token is stored as.
fn stored_name(alloc: Global, text: &str) -> Result<Option<Name>, AllocError>
    ensures { IfOk result (λ n. n ≡ name_in text.now) }
{
    let Some(quoted) = behind(text, '"') else {
        return Ok(Some(Name::in_capitals(alloc, text)?));
    };
    match before(quoted, '"') {
        Some(name) => Ok(Some(Name::from_str(alloc, name)?)),
        None => Ok(None),
    }
}

/// Whether a token's text is this name.
fn names_table(alloc: Global, table: &Name, text: &str) -> Result<bool, AllocError>
    ensures { IfOk result (λ is. is ≡ is_name table.now (name_in text.now)) }
{
    match stored_name(alloc, text)? {
        Some(name) => {
            let is = name.as_str() == table.as_str();
            drop(name);
            Ok(is)
        }
        None => Ok(false),
    }
}

/// The index that `INDEX(table index)` at the front of these tokens names.
fn index_hint(alloc: Global, table: &Name, tokens: &[Token<'_>]) -> Result<Option<Name>, AllocError>
    ensures { IfOk result (λ n. n ≡ index_hint_of table.now (map seen tokens.now)) }
{
    let [word, open, named, index, close, ..] = tokens else {
        return Ok(None);
    };
    if same_kind(word.kind, Kind::Index)
        && same_kind(open.kind, Kind::OpenParen)
        && same_kind(named.kind, Kind::Name)
        && same_kind(index.kind, Kind::Name)
        && same_kind(close.kind, Kind::CloseParen)
        && names_table(alloc, table, named.text)?
    {
        return stored_name(alloc, index.text);
    }
    Ok(None)
}

fn is_no_index(token: &Token<'_>) -> bool
    ensures { result ≡ is_no_index_of (seen token.now) }
{
    same_kind(token.kind, Kind::Name) && token.text.eq_ignore_ascii_case("NO_INDEX")
}

/// The hint that begins with the first of these tokens.
fn hint_at(alloc: Global, table: &Name, tokens: &[Token<'_>]) -> Result<Option<Hint>, AllocError>
    ensures { IfOk result (λ h. h ≡ hint_of table.now (map seen tokens.now)) }
{
    let Some(first) = tokens.first() else {
        return Ok(None);
    };
    match index_hint(alloc, table, tokens) {
        Ok(Some(name)) => Ok(Some(Hint::Index(name))),
        Ok(None) => Ok(if is_no_index(first) {
            Some(Hint::NoIndex)
        } else {
            None
        }),
        Err(fault) => Err(fault),
    }
}

/// How many tokens behind its first belong to a hint.
fn tokens_behind(hint: &Option<Hint>) -> usize
    ensures { result ≡ length_behind hint.now }
{
    match hint {
        Some(Hint::Index(_)) => 4,
        Some(Hint::NoIndex) | None => 0,
    }
}

/// Adds the hint that begins with the first of these tokens, and says how many tokens behind that one belong to it.
fn add_hint(
    alloc: Global,
    hints: &mut Vec<Hint>,
    table: &Name,
    tokens: &[Token<'_>],
) -> Result<usize, AllocError>
    ensures hints { OnOk result (hints.new.items ≡ hints.old.items ++ option_to_list (hint_of table.now (map seen tokens.now))) }
    ensures behind { IfOk result (λ n. n ≡ length_behind (hint_of table.now (map seen tokens.now))) }
{
    let hint = hint_at(alloc, table, tokens)?;
    let behind = tokens_behind(&hint);
    if let Some(hint) = hint {
        hints.push(hint)?;
    }
    Ok(behind)
}

/// The hints among tokens.
fn hints(alloc: Global, table: &Name, tokens: &[Token<'_>]) -> Result<Items<Hint>, AllocError>
    ensures { IfOk result (λ hs. hs ≡ hints_among table.now 0 (map seen tokens.now)) }
{
    let mut hints = Vec::new(alloc);
    let mut skip = 0;
    for index in 0..tokens.len() {
        if skip > 0 {
            skip -= 1;
        } else {
            skip = match add_hint(alloc, &mut hints, table, &tokens[index..]) {
                Ok(behind) => behind,
                Err(fault) => {
                    drop(hints);
                    return Err(fault);
                }
            };
        }
    }
    Ok(Items::of(hints))
}

/// The hints inside a hint's token.
fn bind_inside(alloc: Global, table: &Name, inner: &str) -> Result<Items<Hint>, AllocError>
    ensures { IfOk result (AreInside table.now (Some inner.now)) }
{
    let Lexed { tokens, fault: _ } = lex(alloc, inner)?;
    hints(alloc, table, tokens.as_slice())
}

/// The hints of a query.
pub(crate) fn bind_hints(
    alloc: Global,
    table: &Name,
    hint: &Option<Text>,
) -> Result<Items<Hint>, AllocError>
    ensures { IfOk result (AreHints table.now hint.now) }
{
    let Some(hint) = hint else {
        return Ok(Items::of(Vec::new(alloc)));
    };
    match inside(hint.as_str()) {
        Some(inner) => bind_inside(alloc, table, inner),
        None => Ok(Items::of(Vec::new(alloc))),
    }
}
