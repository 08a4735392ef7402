// Statements.
ghost use Rattle.std.specs.Prelude.{◌≡◌, [], ◌∷◌};
ghost use Rattle.px_lex.specs.declared.kind.Kind.TheVariants as k;
ghost use Rattle.px_ast.specs.Rule.{made, maybe, optional, separated, token, ◌or◌, ◌then◌, ◌▹◌};
ghost use Rattle.px_ast.specs.Grammar as grammar;
ghost use Rattle.px_ast.specs.declared.statement.Statement.TheVariants as statements;
ghost use Rattle.px_words.specs.Reading.{GivesOutcome};

use px_ast::{Boxed, Condition, Delete, KeyPart, Literal, RowLimit, Select, Statement, Upsert};
use px_conditions::disjunction;
use px_definitions::{alter, create, drop_defined, keypart_list};
use px_lex::kind::Kind;
use px_values::{Items, Name, Text};
use px_words::cursor::{Cursor, word};
use px_words::fault::ReadFault;
use px_words::literals::literals;
use px_words::names::{name, name_list, names};
use std::alloc::Global;

/// `[( name { , name } )]`
#[tactic(auto, unfolding(px_ast::specs::Grammar::names))]
fn columns(alloc: Global, tokens: &mut Cursor<'_>) -> Result<Option<Items<Name>>, ReadFault>
    ensures { GivesOutcome ((maybe grammar.names).at tokens.old) result tokens.new }
{
    if tokens.sees(Kind::OpenParen) {
        Ok(Some(names(alloc, tokens)?))
    } else {
        Ok(None)
    }
}

/// `VALUES literals`, and the place of VALUES.
fn values(alloc: Global, tokens: &mut Cursor<'_>) -> Result<(usize, Items<Literal>), ReadFault>
    ensures { GivesOutcome ((made grammar.place_of_token (token k.Values) then grammar.literals).at tokens.old) result tokens.new }
{
    let place = tokens.take(Kind::Values)?.place;
    Ok((place, literals(alloc, tokens)?))
}

type Written = (Option<Items<Name>>, (usize, Items<Literal>));

/// `[names] VALUES literals`
fn columns_and_values(alloc: Global, tokens: &mut Cursor<'_>) -> Result<Written, ReadFault>
    ensures { GivesOutcome ((maybe grammar.names then made grammar.place_of_token (token k.Values) then grammar.literals).at tokens.old) result tokens.new }
{
    let columns = columns(alloc, tokens)?;
    match values(alloc, tokens) {
        Ok(values) => Ok((columns, values)),
        Err(fault) => {
            drop(columns);
            Err(fault)
        }
    }
}

#[tactic(auto, unfolding(px_ast::specs::Grammar::upsert))]
pub fn upsert(alloc: Global, tokens: &mut Cursor<'_>) -> Result<Upsert, ReadFault>
    ensures { GivesOutcome (grammar.upsert.at tokens.old) result tokens.new }
{
    word(tokens, Kind::Upsert)?;
    word(tokens, Kind::Into)?;
    let table = name(alloc, tokens)?;
    match columns_and_values(alloc, tokens) {
        Ok((columns, (values_place, values))) => Ok(Upsert {
            table,
            columns,
            values_place,
            values,
        }),
        Err(fault) => {
            drop(table);
            Err(fault)
        }
    }
}

/// `FROM name`
pub fn from_table(alloc: Global, tokens: &mut Cursor<'_>) -> Result<Name, ReadFault>
    ensures { GivesOutcome ((k.From ▹ grammar.name).at tokens.old) result tokens.new }
{
    word(tokens, Kind::From)?;
    name(alloc, tokens)
}

/// `[WHERE condition]`
fn filter(
    alloc: Global,
    tokens: &mut Cursor<'_>,
    depth: usize,
) -> Result<Option<Boxed<Condition>>, ReadFault>
    ensures { GivesOutcome ((grammar.filter depth).at tokens.old) result tokens.new }
{
    if !tokens.takes(Kind::Where) {
        return Ok(None);
    }
    let condition = disjunction(alloc, tokens, depth)?;
    Ok(Some(Boxed::new(alloc, condition)?))
}

#[tactic(auto, unfolding(px_ast::specs::Grammar::delete))]
fn delete(alloc: Global, tokens: &mut Cursor<'_>, depth: usize) -> Result<Delete, ReadFault>
    ensures { GivesOutcome ((grammar.delete depth).at tokens.old) result tokens.new }
{
    word(tokens, Kind::Delete)?;
    let table = from_table(alloc, tokens)?;
    match filter(alloc, tokens, depth) {
        Ok(filter) => Ok(Delete { table, filter }),
        Err(fault) => {
            drop(table);
            Err(fault)
        }
    }
}

/// `[hint]`
pub fn hint(alloc: Global, tokens: &mut Cursor<'_>) -> Result<Option<Text>, ReadFault>
    ensures { GivesOutcome ((maybe (made grammar.text_of_token (token k.Hint))).at tokens.old) result tokens.new }
{
    if !tokens.sees(Kind::Hint) {
        return Ok(None);
    }
    let token = tokens.take(Kind::Hint)?;
    Ok(Some(Text::from_str(alloc, token.text)?))
}

/// `* | name { , name }`
#[tactic(auto, unfolding(px_ast::specs::Grammar::shown_names))]
pub fn shown(alloc: Global, tokens: &mut Cursor<'_>) -> Result<Option<Items<Name>>, ReadFault>
    ensures { GivesOutcome (grammar.shown_names.at tokens.old) result tokens.new }
{
    if tokens.takes(Kind::Star) {
        return Ok(None);
    }
    Ok(Some(name_list(alloc, tokens)?))
}

/// `[ORDER BY keypart { , keypart }]`
fn order(alloc: Global, tokens: &mut Cursor<'_>) -> Result<Items<KeyPart>, ReadFault>
    ensures { GivesOutcome ((optional (k.Order ▹ k.By ▹ separated k.Comma grammar.keypart)).at tokens.old) result tokens.new }
{
    if !tokens.takes(Kind::Order) {
        return Ok(Items::of(Vec::new(alloc)));
    }
    word(tokens, Kind::By)?;
    keypart_list(alloc, tokens)
}

/// `[LIMIT number]`
#[tactic(auto, unfolding(px_ast::specs::Grammar::row_limit))]
fn row_limit(alloc: Global, tokens: &mut Cursor<'_>) -> Result<Option<RowLimit>, ReadFault>
    ensures { GivesOutcome ((maybe grammar.row_limit).at tokens.old) result tokens.new }
{
    if !tokens.takes(Kind::Limit) {
        return Ok(None);
    }
    let token = tokens.take(Kind::Number)?;
    Ok(Some(RowLimit {
        place: token.place,
        digits: Text::from_str(alloc, token.text)?,
    }))
}

pub type End = (Items<KeyPart>, Option<RowLimit>);

/// `[ORDER BY keyparts] [LIMIT number]`
pub fn end(alloc: Global, tokens: &mut Cursor<'_>) -> Result<End, ReadFault>
    ensures { GivesOutcome ((optional (k.Order ▹ k.By ▹ separated k.Comma grammar.keypart) then maybe grammar.row_limit).at tokens.old) result tokens.new }
{
    let order = order(alloc, tokens)?;
    match row_limit(alloc, tokens) {
        Ok(limit) => Ok((order, limit)),
        Err(fault) => {
            drop(order);
            Err(fault)
        }
    }
}

type Filtered = (Option<Boxed<Condition>>, End);

/// `[WHERE condition]`, and what stands behind it.
fn filtered(alloc: Global, tokens: &mut Cursor<'_>, depth: usize) -> Result<Filtered, ReadFault>
    ensures { GivesOutcome ((grammar.filter depth then optional (k.Order ▹ k.By ▹ separated k.Comma grammar.keypart) then maybe grammar.row_limit).at tokens.old) result tokens.new }
{
    let filter = filter(alloc, tokens, depth)?;
    match end(alloc, tokens) {
        Ok(end) => Ok((filter, end)),
        Err(fault) => {
            drop(filter);
            Err(fault)
        }
    }
}

type From = (Name, Filtered);

/// `FROM name`, and what stands behind it.
fn from(alloc: Global, tokens: &mut Cursor<'_>, depth: usize) -> Result<From, ReadFault>
    ensures { GivesOutcome ((k.From ▹ grammar.name then grammar.filter depth then optional (k.Order ▹ k.By ▹ separated k.Comma grammar.keypart) then maybe grammar.row_limit).at tokens.old) result tokens.new }
{
    let table = from_table(alloc, tokens)?;
    match filtered(alloc, tokens, depth) {
        Ok(filtered) => Ok((table, filtered)),
        Err(fault) => {
            drop(table);
            Err(fault)
        }
    }
}

type Shown = (Option<Items<Name>>, From);

/// The columns, and what stands behind them.
fn shown_from(alloc: Global, tokens: &mut Cursor<'_>, depth: usize) -> Result<Shown, ReadFault>
    ensures { GivesOutcome ((grammar.shown_names then k.From ▹ grammar.name then grammar.filter depth then optional (k.Order ▹ k.By ▹ separated k.Comma grammar.keypart) then maybe grammar.row_limit).at tokens.old) result tokens.new }
{
    let columns = shown(alloc, tokens)?;
    match from(alloc, tokens, depth) {
        Ok(from) => Ok((columns, from)),
        Err(fault) => {
            drop(columns);
            Err(fault)
        }
    }
}

#[tactic(auto, unfolding(px_ast::specs::Grammar::select))]
fn select(alloc: Global, tokens: &mut Cursor<'_>, depth: usize) -> Result<Select, ReadFault>
    ensures { GivesOutcome ((grammar.select depth).at tokens.old) result tokens.new }
{
    word(tokens, Kind::Select)?;
    let hint = hint(alloc, tokens)?;
    match shown_from(alloc, tokens, depth) {
        Ok((columns, (table, (filter, (order, limit))))) => Ok(Select {
            hint,
            columns,
            table,
            filter,
            order,
            limit,
        }),
        Err(fault) => {
            drop(hint);
            Err(fault)
        }
    }
}

fn explain(alloc: Global, tokens: &mut Cursor<'_>, depth: usize) -> Result<Statement, ReadFault>
    ensures { GivesOutcome ((made statements.Explain (k.Explain ▹ grammar.select depth)).at tokens.old) result tokens.new }
{
    word(tokens, Kind::Explain)?;
    Ok(Statement::Explain(select(alloc, tokens, depth)?))
}

fn upsert_statement(alloc: Global, tokens: &mut Cursor<'_>) -> Result<Statement, ReadFault>
    ensures { GivesOutcome ((made statements.Upsert grammar.upsert).at tokens.old) result tokens.new }
{
    Ok(Statement::Upsert(upsert(alloc, tokens)?))
}

fn delete_statement(
    alloc: Global,
    tokens: &mut Cursor<'_>,
    depth: usize,
) -> Result<Statement, ReadFault>
    ensures { GivesOutcome ((made statements.Delete (grammar.delete depth)).at tokens.old) result tokens.new }
{
    Ok(Statement::Delete(delete(alloc, tokens, depth)?))
}

fn select_statement(
    alloc: Global,
    tokens: &mut Cursor<'_>,
    depth: usize,
) -> Result<Statement, ReadFault>
    ensures { GivesOutcome ((made statements.Select (grammar.select depth)).at tokens.old) result tokens.new }
{
    Ok(Statement::Select(select(alloc, tokens, depth)?))
}

/// A statement, with at most so many parentheses and NOTs open at once.
#[tactic(auto, unfolding(px_ast::specs::Grammar::statement, px_ast::specs::Grammar::upsert, px_ast::specs::Grammar::delete))]
pub fn statement(
    alloc: Global,
    tokens: &mut Cursor<'_>,
    depth: usize,
) -> Result<Statement, ReadFault>
    ensures { GivesOutcome ((grammar.statement depth).at tokens.old) result tokens.new }
{
    if tokens.sees(Kind::Create) {
        return create(alloc, tokens);
    }
    if tokens.sees(Kind::Drop) {
        return drop_defined(alloc, tokens);
    }
    if tokens.sees(Kind::Alter) {
        return alter(alloc, tokens);
    }
    if tokens.sees(Kind::Upsert) {
        return upsert_statement(alloc, tokens);
    }
    if tokens.sees(Kind::Delete) {
        return delete_statement(alloc, tokens, depth);
    }
    if tokens.sees(Kind::Explain) {
        return explain(alloc, tokens, depth);
    }
    select_statement(alloc, tokens, depth)
}
