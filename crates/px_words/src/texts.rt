// What the texts of tokens stand for.
ghost use Rattle.std.specs.Prelude.{◌≡◌, true, IfOk};
ghost use Rattle.px_lex.specs.Bytes.{starts};
ghost use Rattle.px_lex.specs.Kinds.{same_kind};
ghost use Rattle.px_lex.specs.Lexemes.{seen};
ghost use Rattle.px_lex.specs.declared.kind.Kind.TheVariants as k;
ghost use Rattle.px_ast.specs.Grammar as grammar;
ghost use Rattle.px_words.specs.Tokens.{IsEnclosed, IsWell};

use px_lex::token::Token;
use px_values::{Name, Text, undoubled};
use std::alloc::{AllocError, Global};

/// The text without the quotes round it.
fn between(text: &str) -> &str
    requires { IsEnclosed text.now }
    ensures { result.now ≡ grammar.unquoted text.now }
{
    &text[1..text.len() - 1]
}

/// Whether a name stands between double quotes.
fn is_enclosed(name: &str) -> bool
    ensures { result ≡ starts 34 name.now }
{
    matches!(name.as_bytes(), [b'"', ..])
}

/// The name that a name's token is stored as.
pub fn stored_name(alloc: Global, token: &Token<'_>) -> Result<Name, AllocError>
    requires kind { same_kind token.now.kind k.Name ≡ true }
    requires well { IsWell (seen token.now) }
    ensures { IfOk result (λ n. n ≡ grammar.stored_name (seen token.now)) }
{
    if is_enclosed(token.text) {
        return Name::from_str(alloc, between(token.text));
    }
    Name::in_capitals(alloc, token.text)
}

/// The text that a text's token stands for.
pub fn stored_text(alloc: Global, token: &Token<'_>) -> Result<Text, AllocError>
    requires kind { same_kind token.now.kind k.Text ≡ true }
    requires well { IsWell (seen token.now) }
    ensures { IfOk result (λ t. t ≡ grammar.stored_text (seen token.now)) }
{
    match undoubled(alloc, between(token.text))? {
        Some(text) => Ok(Text::of(text)),
        None => unreachable!(),
    }
}
