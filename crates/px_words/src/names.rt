// Names and lists of names.
ghost use Rattle.std.specs.Prelude.{◌≡◌};
ghost use Rattle.px_lex.specs.declared.kind.Kind.TheVariants as k;
ghost use Rattle.px_ast.specs.Rule.{separated, ◌▹◌};
ghost use Rattle.px_ast.specs.Grammar as grammar;
ghost use Rattle.px_words.specs.Reading.{GivesOutcome};

use crate::cursor::{Cursor, word};
use crate::fault::ReadFault;
use crate::texts::stored_name;
use px_lex::kind::Kind;
use px_values::{Items, Name};
use std::alloc::Global;

#[tactic(auto, unfolding(px_ast::specs::Grammar::name))]
pub fn name(alloc: Global, tokens: &mut Cursor<'_>) -> Result<Name, ReadFault>
    ensures { GivesOutcome (grammar.name.at tokens.old) result tokens.new }
{
    let token = tokens.take(Kind::Name)?;
    Ok(stored_name(alloc, &token)?)
}

fn next_name(alloc: Global, tokens: &mut Cursor<'_>) -> Result<Name, ReadFault>
    ensures { GivesOutcome ((k.Comma ▹ grammar.name).at tokens.old) result tokens.new }
{
    word(tokens, Kind::Comma)?;
    name(alloc, tokens)
}

/// `name { , name }`
pub fn name_list(alloc: Global, tokens: &mut Cursor<'_>) -> Result<Items<Name>, ReadFault>
    ensures { GivesOutcome ((separated k.Comma grammar.name).at tokens.old) result tokens.new }
{
    let first = name(alloc, tokens)?;
    let mut found = Vec::new(alloc);
    found.push(first)?;
    for _turn in 0..tokens.left() {
        if !tokens.sees(Kind::Comma) {
            return Ok(Items::of(found));
        }
        found.push(next_name(alloc, tokens)?)?;
    }
    Ok(Items::of(found))
}

/// `( name { , name } )`
#[tactic(auto, unfolding(px_ast::specs::Grammar::names))]
pub fn names(alloc: Global, tokens: &mut Cursor<'_>) -> Result<Items<Name>, ReadFault>
    ensures { GivesOutcome (grammar.names.at tokens.old) result tokens.new }
{
    word(tokens, Kind::OpenParen)?;
    let found = name_list(alloc, tokens)?;
    match word(tokens, Kind::CloseParen) {
        Ok(()) => Ok(found),
        Err(fault) => {
            drop(found);
            Err(fault)
        }
    }
}
