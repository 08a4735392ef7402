// Conditions, by descent. The depth says how many more parentheses and NOTs may be open at once.
ghost use Rattle.std.specs.Prelude.{◌≡◌, [], ◌∷◌};
ghost use Rattle.px_lex.specs.declared.kind.Kind.TheVariants as k;
ghost use Rattle.px_ast.specs.Rule.{made, sees, separated, ◌▹◌, ◌◃◌};
ghost use Rattle.px_ast.specs.Grammar as grammar;
ghost use Rattle.px_words.specs.Reading.{GivesOutcome, Puts, behind_first};

use crate::predicates::predicate;
use px_ast::{Boxed, Condition};
use px_lex::kind::Kind;
use px_values::Items;
use px_words::cursor::{Cursor, word};
use px_words::fault::ReadFault;
use std::alloc::Global;

fn all_of(mut parts: Vec<Condition>) -> Condition
    ensures { result ≡ grammar.joined_conditions Condition.And parts.items }
{
    if parts.len() == 1 {
        return parts.remove(0);
    }
    Condition::And(Items::of(parts))
}

fn any_of(mut parts: Vec<Condition>) -> Condition
    ensures { result ≡ grammar.joined_conditions Condition.Or parts.items }
{
    if parts.len() == 1 {
        return parts.remove(0);
    }
    Condition::Or(Items::of(parts))
}

#[cycle(condition)]
#[tactic(auto, unfolding(px_ast::specs::Grammar::part))]
fn part(alloc: Global, tokens: &mut Cursor<'_>, depth: usize) -> Result<Condition, ReadFault>
    ensures { GivesOutcome ((grammar.part depth).at tokens.old) result tokens.new }
{
    if depth == 0 {
        if tokens.sees(Kind::Not) || tokens.sees(Kind::OpenParen) {
            return Err(ReadFault::TooDeep);
        }
        return Ok(Condition::Predicate(predicate(alloc, tokens, 0)?));
    }
    if tokens.sees(Kind::Not) {
        return negated(alloc, tokens, depth - 1);
    }
    if tokens.sees(Kind::OpenParen) {
        return enclosed(alloc, tokens, depth - 1);
    }
    Ok(Condition::Predicate(predicate(alloc, tokens, depth)?))
}

/// `NOT part`
#[cycle(condition)]
fn negated(alloc: Global, tokens: &mut Cursor<'_>, depth: usize) -> Result<Condition, ReadFault>
    ensures { GivesOutcome ((made Condition.Not (k.Not ▹ grammar.part depth)).at tokens.old) result tokens.new }
{
    word(tokens, Kind::Not)?;
    let inner = part(alloc, tokens, depth)?;
    Ok(Condition::Not(Boxed::new(alloc, inner)?))
}

/// `( disjunction )`
#[cycle(condition)]
fn enclosed(alloc: Global, tokens: &mut Cursor<'_>, depth: usize) -> Result<Condition, ReadFault>
    ensures { GivesOutcome ((k.OpenParen ▹ grammar.disjunction (grammar.part depth) ◃ k.CloseParen).at tokens.old) result tokens.new }
{
    word(tokens, Kind::OpenParen)?;
    let inner = disjunction(alloc, tokens, depth)?;
    match word(tokens, Kind::CloseParen) {
        Ok(()) => Ok(inner),
        Err(fault) => {
            drop(inner);
            Err(fault)
        }
    }
}

/// Reads a part and puts it behind the others. A predicate isn't moved on its way.
#[cycle(condition)]
#[tactic(auto, unfolding(px_ast::specs::Grammar::part))]
fn put_part(
    alloc: Global,
    tokens: &mut Cursor<'_>,
    depth: usize,
    to: &mut Vec<Condition>,
) -> Result<(), ReadFault>
    ensures { Puts ((grammar.part depth).at tokens.old) to.old.items result to.new.items tokens.new }
{
    if depth == 0 || tokens.sees(Kind::Not) || tokens.sees(Kind::OpenParen) {
        to.push(part(alloc, tokens, depth)?)?;
        return Ok(());
    }
    to.push(Condition::Predicate(predicate(alloc, tokens, depth)?))?;
    Ok(())
}

#[cycle(condition)]
fn put_next_part(
    alloc: Global,
    tokens: &mut Cursor<'_>,
    depth: usize,
    to: &mut Vec<Condition>,
) -> Result<(), ReadFault>
    ensures { Puts ((k.And ▹ grammar.part depth).at tokens.old) to.old.items result to.new.items tokens.new }
{
    word(tokens, Kind::And)?;
    put_part(alloc, tokens, depth, to)
}

/// The parts of which the first was read, with AND between them.
#[cycle(condition)]
fn parts_behind(
    alloc: Global,
    tokens: &mut Cursor<'_>,
    depth: usize,
    first: Condition,
) -> Result<Items<Condition>, ReadFault>
    ensures { GivesOutcome (behind_first k.And (grammar.part depth) first tokens.old) result tokens.new }
{
    let mut found = Vec::new(alloc);
    found.push(first)?;
    for _turn in 0..tokens.left() {
        if !tokens.sees(Kind::And) {
            return Ok(Items::of(found));
        }
        put_next_part(alloc, tokens, depth, &mut found)?;
    }
    Ok(Items::of(found))
}

/// Reads `part { AND part }` and puts it behind the others. One part alone takes no list of its own.
#[cycle(condition)]
#[tactic(auto, unfolding(px_ast::specs::Grammar::conjunction))]
fn put_conjunction(
    alloc: Global,
    tokens: &mut Cursor<'_>,
    depth: usize,
    to: &mut Vec<Condition>,
) -> Result<(), ReadFault>
    ensures { Puts ((grammar.conjunction (grammar.part depth)).at tokens.old) to.old.items result to.new.items tokens.new }
{
    put_part(alloc, tokens, depth, to)?;
    let goes_on = tokens.sees(Kind::And);
    if !goes_on {
        return Ok(());
    }
    let Some(first) = to.pop() else {
        unreachable!();
    };
    let parts = parts_behind(alloc, tokens, depth, first)?;
    to.push(all_of(parts.into_vec()))?;
    Ok(())
}

#[cycle(condition)]
fn put_next_conjunction(
    alloc: Global,
    tokens: &mut Cursor<'_>,
    depth: usize,
    to: &mut Vec<Condition>,
) -> Result<(), ReadFault>
    ensures { Puts ((k.Or ▹ grammar.conjunction (grammar.part depth)).at tokens.old) to.old.items result to.new.items tokens.new }
{
    word(tokens, Kind::Or)?;
    put_conjunction(alloc, tokens, depth, to)
}

#[cycle(condition)]
fn conjunctions(
    alloc: Global,
    tokens: &mut Cursor<'_>,
    depth: usize,
) -> Result<Items<Condition>, ReadFault>
    ensures { GivesOutcome ((separated k.Or (grammar.conjunction (grammar.part depth))).at tokens.old) result tokens.new }
{
    let mut found = Vec::new(alloc);
    put_conjunction(alloc, tokens, depth, &mut found)?;
    for _turn in 0..tokens.left() {
        if !tokens.sees(Kind::Or) {
            return Ok(Items::of(found));
        }
        put_next_conjunction(alloc, tokens, depth, &mut found)?;
    }
    Ok(Items::of(found))
}

/// `conjunction { OR conjunction }`
#[cycle(condition)]
#[tactic(auto, unfolding(px_ast::specs::Grammar::disjunction))]
pub fn disjunction(
    alloc: Global,
    tokens: &mut Cursor<'_>,
    depth: usize,
) -> Result<Condition, ReadFault>
    ensures { GivesOutcome ((grammar.disjunction (grammar.part depth)).at tokens.old) result tokens.new }
{
    Ok(any_of(conjunctions(alloc, tokens, depth)?.into_vec()))
}
