// Comparisons, IS NULL, IN and BETWEEN.
ghost use Rattle.std.specs.Prelude.{◌≡◌, [], ◌∷◌};
ghost use Rattle.px_lex.specs.declared.kind.Kind.TheVariants as k;
ghost use Rattle.px_ast.specs.Rule.{Got, presence_of, sees, word, ◌then◌, ◌▹◌, ◌◃◌};
ghost use Rattle.px_ast.specs.Grammar as grammar;
ghost use Rattle.px_words.specs.Reading.{GivesOutcome, applied_to};

use px_ast::{Boxed, Comparison, Literal, Operand, Predicate};
use px_lex::kind::Kind;
use px_values::Items;
use px_words::cursor::{Cursor, word};
use px_words::fault::ReadFault;
use px_words::literals::{literal, literals};
use px_words::texts::stored_name;
use std::alloc::Global;

#[tactic(auto, unfolding(px_ast::specs::Grammar::operand))]
fn operand(alloc: Global, tokens: &mut Cursor<'_>) -> Result<Operand, ReadFault>
    ensures { GivesOutcome (grammar.operand.at tokens.old) result tokens.new }
{
    if tokens.sees(Kind::Name) {
        let token = tokens.take(Kind::Name)?;
        return Ok(Operand::Column {
            place: token.place,
            name: stored_name(alloc, &token)?,
        });
    }
    Ok(Operand::Literal(literal(alloc, tokens)?))
}

#[tactic(auto, unfolding(px_ast::specs::Grammar::comparison))]
fn comparison(tokens: &mut Cursor<'_>) -> Result<Comparison, ReadFault>
    ensures { GivesOutcome (grammar.comparison.at tokens.old) result tokens.new }
{
    if tokens.takes(Kind::Equal) {
        return Ok(Comparison::Equal);
    }
    if tokens.takes(Kind::NotEqual) {
        return Ok(Comparison::NotEqual);
    }
    if tokens.takes(Kind::Less) {
        return Ok(Comparison::Less);
    }
    if tokens.takes(Kind::LessEqual) {
        return Ok(Comparison::LessEqual);
    }
    if tokens.takes(Kind::Greater) {
        return Ok(Comparison::Greater);
    }
    word(tokens, Kind::GreaterEqual)?;
    Ok(Comparison::GreaterEqual)
}

/// `comparison operand`
fn comparison_end(
    alloc: Global,
    tokens: &mut Cursor<'_>,
) -> Result<(Comparison, Operand), ReadFault>
    ensures { GivesOutcome ((grammar.comparison then grammar.operand).at tokens.old) result tokens.new }
{
    let comparison = comparison(tokens)?;
    Ok((comparison, operand(alloc, tokens)?))
}

#[tactic(auto, unfolding(px_ast::specs::Grammar::compared))]
fn compared(alloc: Global, tokens: &mut Cursor<'_>, left: Operand) -> Result<Predicate, ReadFault>
    ensures { GivesOutcome (applied_to (grammar.compared.at tokens.old) left) result tokens.new }
{
    match comparison_end(alloc, tokens) {
        Ok((comparison, right)) => Ok(Predicate::Compare {
            comparison,
            left,
            right,
        }),
        Err(fault) => {
            drop(left);
            Err(fault)
        }
    }
}

/// Takes NOT, if it is written.
fn negation(tokens: &mut Cursor<'_>) -> bool
    ensures { (presence_of (word k.Not)).at tokens.old ≡ Got result tokens.new }
{
    tokens.takes(Kind::Not)
}

/// `IS [NOT] NULL`, and whether NOT is written.
fn null_end(tokens: &mut Cursor<'_>) -> Result<bool, ReadFault>
    ensures { GivesOutcome ((k.Is ▹ (presence_of (word k.Not) ◃ k.Null)).at tokens.old) result tokens.new }
{
    word(tokens, Kind::Is)?;
    let negated = negation(tokens);
    word(tokens, Kind::Null)?;
    Ok(negated)
}

#[tactic(auto, unfolding(px_ast::specs::Grammar::null_predicate))]
fn is_null(tokens: &mut Cursor<'_>, operand: Operand) -> Result<Predicate, ReadFault>
    ensures { GivesOutcome (applied_to (grammar.null_predicate.at tokens.old) operand) result tokens.new }
{
    match null_end(tokens) {
        Ok(negated) => Ok(Predicate::IsNull { operand, negated }),
        Err(fault) => {
            drop(operand);
            Err(fault)
        }
    }
}

/// `IN literals`
fn list_end(alloc: Global, tokens: &mut Cursor<'_>) -> Result<Items<Literal>, ReadFault>
    ensures { GivesOutcome ((k.In ▹ grammar.literals).at tokens.old) result tokens.new }
{
    word(tokens, Kind::In)?;
    literals(alloc, tokens)
}

#[tactic(auto, unfolding(px_ast::specs::Grammar::among))]
fn among(
    alloc: Global,
    tokens: &mut Cursor<'_>,
    negated: bool,
    operand: Operand,
) -> Result<Predicate, ReadFault>
    ensures { GivesOutcome (applied_to (applied_to (grammar.among.at tokens.old) negated) operand) result tokens.new }
{
    match list_end(alloc, tokens) {
        Ok(literals) => Ok(Predicate::In {
            operand,
            negated,
            literals,
        }),
        Err(fault) => {
            drop(operand);
            Err(fault)
        }
    }
}

/// `BETWEEN operand AND operand`
fn ends(
    alloc: Global,
    tokens: &mut Cursor<'_>,
) -> Result<(Boxed<Operand>, Boxed<Operand>), ReadFault>
    ensures { GivesOutcome ((k.Between ▹ (grammar.operand then k.And ▹ grammar.operand)).at tokens.old) result tokens.new }
{
    word(tokens, Kind::Between)?;
    let low = Boxed::new(alloc, operand(alloc, tokens)?)?;
    match behind_and(alloc, tokens) {
        Ok(high) => Ok((low, high)),
        Err(fault) => {
            drop(low);
            Err(fault)
        }
    }
}

/// `AND operand`
fn behind_and(alloc: Global, tokens: &mut Cursor<'_>) -> Result<Boxed<Operand>, ReadFault>
    ensures { GivesOutcome ((k.And ▹ grammar.operand).at tokens.old) result tokens.new }
{
    word(tokens, Kind::And)?;
    Ok(Boxed::new(alloc, operand(alloc, tokens)?)?)
}

#[tactic(auto, unfolding(px_ast::specs::Grammar::between))]
fn between(
    alloc: Global,
    tokens: &mut Cursor<'_>,
    negated: bool,
    left: Operand,
) -> Result<Predicate, ReadFault>
    ensures { GivesOutcome (applied_to (applied_to (grammar.between.at tokens.old) negated) left) result tokens.new }
{
    match ends(alloc, tokens) {
        Ok((low, high)) => Ok(Predicate::Between {
            operand: left,
            negated,
            low,
            high,
        }),
        Err(fault) => {
            drop(left);
            Err(fault)
        }
    }
}

/// IN or BETWEEN. IN opens a parenthesis, so there is none where no more may be open.
#[tactic(auto, unfolding(px_ast::specs::Grammar::in_or_between, px_ast::specs::Grammar::among))]
fn in_or_between(
    alloc: Global,
    tokens: &mut Cursor<'_>,
    depth: usize,
    negated: bool,
    left: Operand,
) -> Result<Predicate, ReadFault>
    ensures { GivesOutcome (applied_to (applied_to ((grammar.in_or_between depth).at tokens.old) negated) left) result tokens.new }
{
    if tokens.sees(Kind::In) {
        if depth == 0 {
            drop(left);
            return Err(ReadFault::TooDeep);
        }
        return among(alloc, tokens, negated, left);
    }
    between(alloc, tokens, negated, left)
}

#[tactic(auto, unfolding(px_ast::specs::Grammar::ranged))]
fn ranged(
    alloc: Global,
    tokens: &mut Cursor<'_>,
    depth: usize,
    left: Operand,
) -> Result<Predicate, ReadFault>
    ensures { GivesOutcome (applied_to ((grammar.ranged depth).at tokens.old) left) result tokens.new }
{
    let negated = negation(tokens);
    in_or_between(alloc, tokens, depth, negated, left)
}

fn begins_comparison(tokens: &Cursor<'_>) -> bool
    ensures { result ≡ sees (k.Equal ∷ k.NotEqual ∷ k.Less ∷ k.LessEqual ∷ k.Greater ∷ k.GreaterEqual ∷ []) tokens.now }
{
    tokens.sees(Kind::Equal)
        || tokens.sees(Kind::NotEqual)
        || tokens.sees(Kind::Less)
        || tokens.sees(Kind::LessEqual)
        || tokens.sees(Kind::Greater)
        || tokens.sees(Kind::GreaterEqual)
}

/// What makes a predicate of the operand before it.
#[tactic(auto, unfolding(px_ast::specs::Grammar::predicate_end, px_ast::specs::Grammar::compared, px_ast::specs::Grammar::comparison, px_ast::specs::Grammar::null_predicate))]
fn predicate_end(
    alloc: Global,
    tokens: &mut Cursor<'_>,
    depth: usize,
    left: Operand,
) -> Result<Predicate, ReadFault>
    ensures { GivesOutcome (applied_to ((grammar.predicate_end depth).at tokens.old) left) result tokens.new }
{
    if begins_comparison(tokens) {
        compared(alloc, tokens, left)
    } else if tokens.sees(Kind::Is) {
        is_null(tokens, left)
    } else {
        ranged(alloc, tokens, depth, left)
    }
}

/// A condition without AND, OR and a NOT before it. The depth says how many more parentheses may be opened.
#[tactic(auto, unfolding(px_ast::specs::Grammar::predicate))]
pub fn predicate(
    alloc: Global,
    tokens: &mut Cursor<'_>,
    depth: usize,
) -> Result<Predicate, ReadFault>
    ensures { GivesOutcome ((grammar.predicate depth).at tokens.old) result tokens.new }
{
    let left = operand(alloc, tokens)?;
    predicate_end(alloc, tokens, depth, left)
}
