// The columns of a table.
ghost use Rattle.std.specs.Prelude.{◌≡◌, [], ◌∷◌};
ghost use Rattle.px_lex.specs.declared.kind.Kind.TheVariants as k;
ghost use Rattle.px_ast.specs.Rule.{Got, separated, ◌then◌, ◌▹◌};
ghost use Rattle.px_ast.specs.Grammar as grammar;
ghost use Rattle.px_definitions.specs.inner.Columns as spec;
ghost use Rattle.px_words.specs.Reading.{GivesOutcome};

use px_ast::{Column, KeyConstraint, KeyPart};
use px_lex::kind::Kind;
use px_values::{ColType, Direction, Items};
use px_words::cursor::{Cursor, word};
use px_words::fault::ReadFault;
use px_words::names::name;
use std::alloc::Global;

/// The direction that is written, or else ascending.
#[tactic(auto, unfolding(px_ast::specs::Grammar::optional_direction, px_ast::specs::Grammar::direction))]
fn directed(tokens: &mut Cursor<'_>) -> Direction
    ensures { grammar.optional_direction.at tokens.old ≡ Got result tokens.new }
{
    if tokens.takes(Kind::Asc) {
        return Direction::Ascending;
    }
    if tokens.takes(Kind::Desc) {
        return Direction::Descending;
    }
    Direction::Ascending
}

#[tactic(auto, unfolding(px_ast::specs::Grammar::keypart))]
fn keypart(alloc: Global, tokens: &mut Cursor<'_>) -> Result<KeyPart, ReadFault>
    ensures { GivesOutcome (grammar.keypart.at tokens.old) result tokens.new }
{
    let column = name(alloc, tokens)?;
    let direction = directed(tokens);
    Ok(KeyPart { column, direction })
}

fn next_keypart(alloc: Global, tokens: &mut Cursor<'_>) -> Result<KeyPart, ReadFault>
    ensures { GivesOutcome ((k.Comma ▹ grammar.keypart).at tokens.old) result tokens.new }
{
    word(tokens, Kind::Comma)?;
    keypart(alloc, tokens)
}

/// `keypart { , keypart }`
pub fn keypart_list(alloc: Global, tokens: &mut Cursor<'_>) -> Result<Items<KeyPart>, ReadFault>
    ensures { GivesOutcome ((separated k.Comma grammar.keypart).at tokens.old) result tokens.new }
{
    let first = keypart(alloc, tokens)?;
    let mut found = Vec::new(alloc);
    found.push(first)?;
    for _turn in 0..tokens.left() {
        if !tokens.sees(Kind::Comma) {
            return Ok(Items::of(found));
        }
        found.push(next_keypart(alloc, tokens)?)?;
    }
    Ok(Items::of(found))
}

/// `( keypart { , keypart } )`
#[tactic(auto, unfolding(px_ast::specs::Grammar::keyparts))]
pub fn keyparts(alloc: Global, tokens: &mut Cursor<'_>) -> Result<Items<KeyPart>, ReadFault>
    ensures { GivesOutcome (grammar.keyparts.at tokens.old) result tokens.new }
{
    word(tokens, Kind::OpenParen)?;
    let found = keypart_list(alloc, tokens)?;
    match word(tokens, Kind::CloseParen) {
        Ok(()) => Ok(found),
        Err(fault) => {
            drop(found);
            Err(fault)
        }
    }
}

#[tactic(auto, unfolding(px_ast::specs::Grammar::column_type))]
fn column_type(tokens: &mut Cursor<'_>) -> Result<ColType, ReadFault>
    ensures { GivesOutcome (grammar.column_type.at tokens.old) result tokens.new }
{
    if tokens.takes(Kind::Tinyint) {
        return Ok(ColType::TinyInt);
    }
    if tokens.takes(Kind::Smallint) {
        return Ok(ColType::SmallInt);
    }
    if tokens.takes(Kind::Integer) {
        return Ok(ColType::Integer);
    }
    if tokens.takes(Kind::Bigint) {
        return Ok(ColType::BigInt);
    }
    if tokens.takes(Kind::UnsignedInt) {
        return Ok(ColType::UnsignedInt);
    }
    if tokens.takes(Kind::UnsignedLong) {
        return Ok(ColType::UnsignedLong);
    }
    if tokens.takes(Kind::Boolean) {
        return Ok(ColType::Boolean);
    }
    word(tokens, Kind::Varchar)?;
    Ok(ColType::Varchar)
}

/// Whether NOT NULL is written. NULL alone says the same as nothing.
#[tactic(auto, unfolding(px_ast::specs::Grammar::nullness))]
fn nullness(tokens: &mut Cursor<'_>) -> Result<bool, ReadFault>
    ensures { GivesOutcome (grammar.nullness.at tokens.old) result tokens.new }
{
    if tokens.takes(Kind::Not) {
        word(tokens, Kind::Null)?;
        return Ok(true);
    }
    let _is_written = tokens.takes(Kind::Null);
    Ok(false)
}

#[tactic(auto, unfolding(px_ast::specs::Grammar::inline_key))]
fn inline_key(tokens: &mut Cursor<'_>) -> Result<Option<Direction>, ReadFault>
    ensures { GivesOutcome (grammar.inline_key.at tokens.old) result tokens.new }
{
    if !tokens.takes(Kind::Primary) {
        return Ok(None);
    }
    word(tokens, Kind::Key)?;
    Ok(Some(directed(tokens)))
}

type ColumnEnd = (ColType, (bool, Option<Direction>));

/// What stands behind a column's name.
fn column_end(tokens: &mut Cursor<'_>) -> Result<ColumnEnd, ReadFault>
    ensures { GivesOutcome ((grammar.column_type then grammar.nullness then grammar.inline_key).at tokens.old) result tokens.new }
{
    let column_type = column_type(tokens)?;
    let not_null = nullness(tokens)?;
    let key = inline_key(tokens)?;
    Ok((column_type, (not_null, key)))
}

#[tactic(auto, unfolding(px_ast::specs::Grammar::column))]
fn column(alloc: Global, tokens: &mut Cursor<'_>) -> Result<Column, ReadFault>
    ensures { GivesOutcome (grammar.column.at tokens.old) result tokens.new }
{
    let name = name(alloc, tokens)?;
    match column_end(tokens) {
        Ok((column_type, (not_null, key))) => Ok(Column {
            name,
            column_type,
            not_null,
            key,
        }),
        Err(fault) => {
            drop(name);
            Err(fault)
        }
    }
}

/// `PRIMARY KEY keyparts`
fn primary_key(alloc: Global, tokens: &mut Cursor<'_>) -> Result<Items<KeyPart>, ReadFault>
    ensures { GivesOutcome ((k.Primary ▹ k.Key ▹ grammar.keyparts).at tokens.old) result tokens.new }
{
    word(tokens, Kind::Primary)?;
    word(tokens, Kind::Key)?;
    keyparts(alloc, tokens)
}

#[tactic(auto, unfolding(px_ast::specs::Grammar::constraint))]
fn constraint(alloc: Global, tokens: &mut Cursor<'_>) -> Result<KeyConstraint, ReadFault>
    ensures { GivesOutcome (grammar.constraint.at tokens.old) result tokens.new }
{
    word(tokens, Kind::Constraint)?;
    let name = name(alloc, tokens)?;
    match primary_key(alloc, tokens) {
        Ok(parts) => Ok(KeyConstraint { name, parts }),
        Err(fault) => {
            drop(name);
            Err(fault)
        }
    }
}

/// What stands next among the columns of a table.
#[derive(Drop)]
pub enum Item {
    Column(Column),
    Constraint(KeyConstraint),
    Nothing,
}

/// A column or the constraint.
#[tactic(auto, unfolding(px_ast::specs::Grammar::constraint))]
fn column_or_constraint(alloc: Global, tokens: &mut Cursor<'_>) -> Result<Item, ReadFault>
    ensures { GivesOutcome (spec.behind_comma tokens.old) result tokens.new }
{
    if tokens.sees(Kind::Constraint) {
        Ok(Item::Constraint(constraint(alloc, tokens)?))
    } else {
        Ok(Item::Column(column(alloc, tokens)?))
    }
}

/// What stands behind a column.
#[tactic(auto, unfolding(px_ast::specs::Grammar::constraint))]
fn next_item(alloc: Global, tokens: &mut Cursor<'_>) -> Result<Item, ReadFault>
    ensures { GivesOutcome (spec.item tokens.old) result tokens.new }
{
    if tokens.takes(Kind::Comma) {
        return column_or_constraint(alloc, tokens);
    }
    if tokens.sees(Kind::Constraint) {
        return Ok(Item::Constraint(constraint(alloc, tokens)?));
    }
    Ok(Item::Nothing)
}

/// `column { , column } [[,] constraint]`
#[tactic(auto, unfolding(px_ast::specs::Grammar::columns), using(crate::proofs::ColumnTurns::item_fails))]
pub fn columns(
    alloc: Global,
    tokens: &mut Cursor<'_>,
) -> Result<(Items<Column>, Option<KeyConstraint>), ReadFault>
    ensures { GivesOutcome (grammar.columns.at tokens.old) result tokens.new }
{
    let first = column(alloc, tokens)?;
    let mut found = Vec::new(alloc);
    found.push(first)?;
    for _turn in 0..tokens.left() {
        match next_item(alloc, tokens)? {
            Item::Column(column) => found.push(column)?,
            Item::Constraint(constraint) => return Ok((Items::of(found), Some(constraint))),
            Item::Nothing => return Ok((Items::of(found), None)),
        }
    }
    Ok((Items::of(found), None))
}
