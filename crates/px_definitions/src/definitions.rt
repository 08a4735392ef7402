// Statements that define tables and indexes. CREATE, DROP and ALTER are read before.
ghost use Rattle.std.specs.Prelude.{◌≡◌, [], ◌∷◌};
ghost use Rattle.px_lex.specs.declared.kind.Kind.TheVariants as k;
ghost use Rattle.px_ast.specs.Rule.{optional, ◌then◌, ◌▹◌, ◌◃◌};
ghost use Rattle.px_ast.specs.Grammar as grammar;
ghost use Rattle.px_words.specs.Reading.{GivesOutcome};

use crate::columns::{columns, keyparts};
use px_ast::{
    AlterIndex, Column, CreateIndex, CreateTable, DropIndex, DropTable, IndexAction, KeyConstraint,
    KeyPart, Literal,
};
use px_lex::kind::Kind;
use px_values::{Items, Name};
use px_words::cursor::{Cursor, word};
use px_words::fault::ReadFault;
use px_words::literals::literals;
use px_words::names::{name, names};
use std::alloc::Global;

/// `[IF NOT EXISTS]`
#[tactic(auto, unfolding(px_ast::specs::Grammar::if_not_exists))]
fn if_not_exists(tokens: &mut Cursor<'_>) -> Result<bool, ReadFault>
    ensures { GivesOutcome (grammar.if_not_exists.at tokens.old) result tokens.new }
{
    if !tokens.takes(Kind::If) {
        return Ok(false);
    }
    word(tokens, Kind::Not)?;
    word(tokens, Kind::Exists)?;
    Ok(true)
}

/// `[IF EXISTS]`
#[tactic(auto, unfolding(px_ast::specs::Grammar::if_exists))]
fn if_exists(tokens: &mut Cursor<'_>) -> Result<bool, ReadFault>
    ensures { GivesOutcome (grammar.if_exists.at tokens.old) result tokens.new }
{
    if !tokens.takes(Kind::If) {
        return Ok(false);
    }
    word(tokens, Kind::Exists)?;
    Ok(true)
}

/// `ON name`
fn on_table(alloc: Global, tokens: &mut Cursor<'_>) -> Result<Name, ReadFault>
    ensures { GivesOutcome ((k.On ▹ grammar.name).at tokens.old) result tokens.new }
{
    word(tokens, Kind::On)?;
    name(alloc, tokens)
}

type Columns = (Items<Column>, Option<KeyConstraint>);

/// `( columns )`
fn column_list(alloc: Global, tokens: &mut Cursor<'_>) -> Result<Columns, ReadFault>
    ensures { GivesOutcome ((k.OpenParen ▹ grammar.columns ◃ k.CloseParen).at tokens.old) result tokens.new }
{
    word(tokens, Kind::OpenParen)?;
    let found = columns(alloc, tokens)?;
    match word(tokens, Kind::CloseParen) {
        Ok(()) => Ok(found),
        Err(fault) => {
            drop(found);
            Err(fault)
        }
    }
}

/// `[SPLIT ON literals]`
fn splits(alloc: Global, tokens: &mut Cursor<'_>) -> Result<Items<Literal>, ReadFault>
    ensures { GivesOutcome ((optional (k.Split ▹ k.On ▹ grammar.literals)).at tokens.old) result tokens.new }
{
    if !tokens.takes(Kind::Split) {
        return Ok(Items::of(Vec::new(alloc)));
    }
    word(tokens, Kind::On)?;
    literals(alloc, tokens)
}

/// `[INCLUDE names]`
fn include(alloc: Global, tokens: &mut Cursor<'_>) -> Result<Items<Name>, ReadFault>
    ensures { GivesOutcome ((optional (k.Include ▹ grammar.names)).at tokens.old) result tokens.new }
{
    if !tokens.takes(Kind::Include) {
        return Ok(Items::of(Vec::new(alloc)));
    }
    names(alloc, tokens)
}

/// `( columns ) [SPLIT ON literals]`
fn columns_and_splits(
    alloc: Global,
    tokens: &mut Cursor<'_>,
) -> Result<(Columns, Items<Literal>), ReadFault>
    ensures { GivesOutcome (((k.OpenParen ▹ grammar.columns ◃ k.CloseParen) then optional (k.Split ▹ k.On ▹ grammar.literals)).at tokens.old) result tokens.new }
{
    let columns = column_list(alloc, tokens)?;
    match splits(alloc, tokens) {
        Ok(splits) => Ok((columns, splits)),
        Err(fault) => {
            drop(columns);
            Err(fault)
        }
    }
}

#[tactic(auto, unfolding(px_ast::specs::Grammar::create_table))]
pub fn create_table(alloc: Global, tokens: &mut Cursor<'_>) -> Result<CreateTable, ReadFault>
    ensures { GivesOutcome (grammar.create_table.at tokens.old) result tokens.new }
{
    word(tokens, Kind::Table)?;
    let if_not_exists = if_not_exists(tokens)?;
    let name = name(alloc, tokens)?;
    match columns_and_splits(alloc, tokens) {
        Ok(((columns, constraint), splits)) => Ok(CreateTable {
            if_not_exists,
            name,
            columns,
            constraint,
            splits,
        }),
        Err(fault) => {
            drop(name);
            Err(fault)
        }
    }
}

#[tactic(auto, unfolding(px_ast::specs::Grammar::drop_table))]
pub fn drop_table(alloc: Global, tokens: &mut Cursor<'_>) -> Result<DropTable, ReadFault>
    ensures { GivesOutcome (grammar.drop_table.at tokens.old) result tokens.new }
{
    word(tokens, Kind::Table)?;
    let if_exists = if_exists(tokens)?;
    let name = name(alloc, tokens)?;
    Ok(DropTable { if_exists, name })
}

type Parts = (Items<KeyPart>, Items<Name>);

/// `keyparts [INCLUDE names]`
fn parts_and_include(alloc: Global, tokens: &mut Cursor<'_>) -> Result<Parts, ReadFault>
    ensures { GivesOutcome ((grammar.keyparts then optional (k.Include ▹ grammar.names)).at tokens.old) result tokens.new }
{
    let parts = keyparts(alloc, tokens)?;
    match include(alloc, tokens) {
        Ok(include) => Ok((parts, include)),
        Err(fault) => {
            drop(parts);
            Err(fault)
        }
    }
}

/// `ON name`, and what stands behind it.
fn index_end(alloc: Global, tokens: &mut Cursor<'_>) -> Result<(Name, Parts), ReadFault>
    ensures { GivesOutcome ((k.On ▹ grammar.name then grammar.keyparts then optional (k.Include ▹ grammar.names)).at tokens.old) result tokens.new }
{
    let table = on_table(alloc, tokens)?;
    match parts_and_include(alloc, tokens) {
        Ok(parts) => Ok((table, parts)),
        Err(fault) => {
            drop(table);
            Err(fault)
        }
    }
}

#[tactic(auto, unfolding(px_ast::specs::Grammar::create_index))]
pub fn create_index(alloc: Global, tokens: &mut Cursor<'_>) -> Result<CreateIndex, ReadFault>
    ensures { GivesOutcome (grammar.create_index.at tokens.old) result tokens.new }
{
    word(tokens, Kind::Index)?;
    let if_not_exists = if_not_exists(tokens)?;
    let name = name(alloc, tokens)?;
    match index_end(alloc, tokens) {
        Ok((table, (parts, include))) => Ok(CreateIndex {
            if_not_exists,
            name,
            table,
            parts,
            include,
        }),
        Err(fault) => {
            drop(name);
            Err(fault)
        }
    }
}

#[tactic(auto, unfolding(px_ast::specs::Grammar::drop_index))]
pub fn drop_index(alloc: Global, tokens: &mut Cursor<'_>) -> Result<DropIndex, ReadFault>
    ensures { GivesOutcome (grammar.drop_index.at tokens.old) result tokens.new }
{
    word(tokens, Kind::Index)?;
    let if_exists = if_exists(tokens)?;
    let name = name(alloc, tokens)?;
    match on_table(alloc, tokens) {
        Ok(table) => Ok(DropIndex {
            if_exists,
            name,
            table,
        }),
        Err(fault) => {
            drop(name);
            Err(fault)
        }
    }
}

#[tactic(auto, unfolding(px_ast::specs::Grammar::index_action))]
fn index_action(tokens: &mut Cursor<'_>) -> Result<IndexAction, ReadFault>
    ensures { GivesOutcome (grammar.index_action.at tokens.old) result tokens.new }
{
    if tokens.takes(Kind::Disable) {
        return Ok(IndexAction::Disable);
    }
    word(tokens, Kind::Rebuild)?;
    Ok(IndexAction::Rebuild)
}

/// `ON name`, and what becomes of the index.
fn table_and_action(
    alloc: Global,
    tokens: &mut Cursor<'_>,
) -> Result<(Name, IndexAction), ReadFault>
    ensures { GivesOutcome ((k.On ▹ grammar.name then grammar.index_action).at tokens.old) result tokens.new }
{
    let table = on_table(alloc, tokens)?;
    match index_action(tokens) {
        Ok(action) => Ok((table, action)),
        Err(fault) => {
            drop(table);
            Err(fault)
        }
    }
}

#[tactic(auto, unfolding(px_ast::specs::Grammar::alter_index))]
pub fn alter_index(alloc: Global, tokens: &mut Cursor<'_>) -> Result<AlterIndex, ReadFault>
    ensures { GivesOutcome (grammar.alter_index.at tokens.old) result tokens.new }
{
    word(tokens, Kind::Index)?;
    let name = name(alloc, tokens)?;
    match table_and_action(alloc, tokens) {
        Ok((table, action)) => Ok(AlterIndex {
            name,
            table,
            action,
        }),
        Err(fault) => {
            drop(name);
            Err(fault)
        }
    }
}
