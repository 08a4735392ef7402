// Literals and lists of literals.
ghost use Rattle.std.specs.Prelude.{◌≡◌, [], ◌∷◌};
ghost use Rattle.px_lex.specs.declared.kind.Kind.TheVariants as k;
ghost use Rattle.px_ast.specs.Rule.{made, maybe, sees, separated, token, ◌▹◌};
ghost use Rattle.px_ast.specs.declared.literal.Constant.TheVariants as constants;
ghost use Rattle.px_ast.specs.Grammar as grammar;
ghost use Rattle.px_words.specs.Reading.{GivesOutcome};

use crate::cursor::{Cursor, word};
use crate::fault::ReadFault;
use crate::texts::stored_text;
use px_ast::{Constant, Literal, Number};
use px_lex::kind::Kind;
use px_values::{Items, SmallText};
use std::alloc::Global;

/// Whether a minus is written, and the place of the sign.
#[tactic(auto, unfolding(px_ast::specs::Grammar::sign))]
fn sign(tokens: &mut Cursor<'_>) -> Result<(bool, usize), ReadFault>
    ensures { GivesOutcome (grammar.sign.at tokens.old) result tokens.new }
{
    if tokens.sees(Kind::Plus) {
        let token = tokens.take(Kind::Plus)?;
        return Ok((false, token.place));
    }
    let token = tokens.take(Kind::Minus)?;
    Ok((true, token.place))
}

#[tactic(auto, unfolding(px_ast::specs::Grammar::sign))]
fn maybe_sign(tokens: &mut Cursor<'_>) -> Result<Option<(bool, usize)>, ReadFault>
    ensures { GivesOutcome ((maybe grammar.sign).at tokens.old) result tokens.new }
{
    if tokens.sees(Kind::Plus) || tokens.sees(Kind::Minus) {
        Ok(Some(sign(tokens)?))
    } else {
        Ok(None)
    }
}

#[tactic(auto, unfolding(px_ast::specs::Grammar::number))]
fn number(alloc: Global, tokens: &mut Cursor<'_>) -> Result<Literal, ReadFault>
    ensures { GivesOutcome (grammar.number.at tokens.old) result tokens.new }
{
    let sign = maybe_sign(tokens)?;
    let token = tokens.take(Kind::Number)?;
    let digits = SmallText::from_str(alloc, token.text)?;
    let (negative, place) = match sign {
        None => (false, token.place),
        Some(sign) => sign,
    };
    Ok(Literal {
        place,
        constant: Constant::Number(Number { negative, digits }),
    })
}

fn begins_number(tokens: &Cursor<'_>) -> bool
    ensures { result ≡ sees (k.Plus ∷ k.Minus ∷ k.Number ∷ []) tokens.now }
{
    tokens.sees(Kind::Plus) || tokens.sees(Kind::Minus) || tokens.sees(Kind::Number)
}

fn text(alloc: Global, tokens: &mut Cursor<'_>) -> Result<Literal, ReadFault>
    ensures { GivesOutcome ((made (grammar.placed_literal (λ t. constants.Text (grammar.stored_text t))) (token k.Text)).at tokens.old) result tokens.new }
{
    let token = tokens.take(Kind::Text)?;
    Ok(Literal {
        place: token.place,
        constant: Constant::Text(stored_text(alloc, &token)?),
    })
}

#[tactic(auto, unfolding(px_ast::specs::Grammar::literal, px_ast::specs::Grammar::number, px_ast::specs::Grammar::sign))]
pub fn literal(alloc: Global, tokens: &mut Cursor<'_>) -> Result<Literal, ReadFault>
    ensures { GivesOutcome (grammar.literal.at tokens.old) result tokens.new }
{
    if begins_number(tokens) {
        return number(alloc, tokens);
    }
    if tokens.sees(Kind::Text) {
        return text(alloc, tokens);
    }
    if tokens.sees(Kind::True) {
        let token = tokens.take(Kind::True)?;
        return Ok(Literal {
            place: token.place,
            constant: Constant::Truth(true),
        });
    }
    if tokens.sees(Kind::False) {
        let token = tokens.take(Kind::False)?;
        return Ok(Literal {
            place: token.place,
            constant: Constant::Truth(false),
        });
    }
    let token = tokens.take(Kind::Null)?;
    Ok(Literal {
        place: token.place,
        constant: Constant::Null,
    })
}

fn next_literal(alloc: Global, tokens: &mut Cursor<'_>) -> Result<Literal, ReadFault>
    ensures { GivesOutcome ((k.Comma ▹ grammar.literal).at tokens.old) result tokens.new }
{
    word(tokens, Kind::Comma)?;
    literal(alloc, tokens)
}

fn literal_list(alloc: Global, tokens: &mut Cursor<'_>) -> Result<Items<Literal>, ReadFault>
    ensures { GivesOutcome ((separated k.Comma grammar.literal).at tokens.old) result tokens.new }
{
    let first = literal(alloc, tokens)?;
    let mut found = Vec::new(alloc);
    found.push(first)?;
    for _turn in 0..tokens.left() {
        if !tokens.sees(Kind::Comma) {
            return Ok(Items::of(found));
        }
        found.push(next_literal(alloc, tokens)?)?;
    }
    Ok(Items::of(found))
}

/// `( literal { , literal } )`
#[tactic(auto, unfolding(px_ast::specs::Grammar::literals))]
pub fn literals(alloc: Global, tokens: &mut Cursor<'_>) -> Result<Items<Literal>, ReadFault>
    ensures { GivesOutcome (grammar.literals.at tokens.old) result tokens.new }
{
    word(tokens, Kind::OpenParen)?;
    let found = literal_list(alloc, tokens)?;
    match word(tokens, Kind::CloseParen) {
        Ok(()) => Ok(found),
        Err(fault) => {
            drop(found);
            Err(fault)
        }
    }
}
