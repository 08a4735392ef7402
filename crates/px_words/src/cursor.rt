// A cursor over the tokens that are still to be read.
ghost use Rattle.std.specs.Prelude.{◌≡◌, [], ◌∷◌, true, length, drop, map, IfOk};
ghost use Rattle.px_lex.specs.Kinds as kinds;
ghost use Rattle.px_lex.specs.Lexemes.{seen};
ghost use Rattle.px_ast.specs.Rule as spec;
ghost use Rattle.px_words.specs.Reading.{GivesOutcome, GivesToken, Takes};
ghost use Rattle.px_words.specs.Tokens.{AreWell, IsWell};

use crate::fault::ReadFault;
use px_lex::kind::{Kind, same_kind};
use px_lex::token::Token;
use std::marker::Model;

/// The tokens from the next one on. After a fault it stands at the token with which nothing goes on.
#[derive(Drop)]
pub struct Cursor<'a> {
    tokens: &'a [Token<'a>],
}

impl<'a> Model for Cursor<'a> {
    ghost use Rattle.std.specs.Prelude.{List, map};
    ghost use Rattle.px_lex.specs.Lexemes.{Seen, seen};
    ghost use Rattle.px_words.specs.Tokens.{AreWell};

    ghost Value = { List Seen };

    ghost view = { λ c. map seen c.tokens.now };

    ghost invariant = { λ c. AreWell (map seen c.tokens.now) };
}

impl<'a> Cursor<'a> {
    /// A cursor at the first of some tokens.
    pub fn new(tokens: &'a [Token<'a>]) -> Cursor<'a>
        requires { AreWell (map seen tokens.now) }
        ensures { result ≡ map seen tokens.now }
    {
        Cursor { tokens }
    }

    /// How many tokens are left.
    pub fn left(&self) -> usize
        ensures { result ≡ length self.now }
    {
        self.tokens.len()
    }

    /// Whether the next token is of this kind.
    pub fn sees(&self, kind: Kind) -> bool
        ensures { result ≡ spec.sees (kind ∷ []) self.now }
    {
        match self.tokens.first() {
            Some(token) => same_kind(token.kind, kind),
            None => false,
        }
    }

    /// Passes over the next token, if there is one.
    pub fn pass(&mut self)
        ensures { self.new ≡ drop 1 self.old }
    {
        if let [_, rest @ ..] = self.tokens {
            self.tokens = rest;
        }
    }

    /// Takes the next token, if it is of this kind.
    pub fn takes(&mut self, kind: Kind) -> bool
        ensures { Takes kind self.old result self.new }
    {
        match self.tokens {
            [token, rest @ ..] if same_kind(token.kind, kind) => {
                self.tokens = rest;
                true
            }
            _ => false,
        }
    }

    /// Takes the next token, which is of this kind.
    pub fn take(&mut self, kind: Kind) -> Result<Token<'a>, ReadFault>
        ensures token { GivesToken (spec.token_at kind self.old) result self.new }
        ensures kind { IfOk result (λ t. kinds.same_kind t.kind kind ≡ true) }
        ensures well { IfOk result (λ t. IsWell (seen t)) }
    {
        match self.tokens {
            [token, rest @ ..] if same_kind(token.kind, kind) => {
                self.tokens = rest;
                Ok(*token)
            }
            _ => Err(ReadFault::Stuck),
        }
    }
}

/// Takes a word, whose text says no more than its kind.
pub fn word(tokens: &mut Cursor<'_>, kind: Kind) -> Result<(), ReadFault>
    ensures { GivesOutcome ((spec.word kind).at tokens.old) result tokens.new }
{
    tokens.take(kind)?;
    Ok(())
}
