// A second reading for a statement that nests too deep for a tree: it keeps one number, and finds the first fault or that
// there is none.
ghost use Rattle.std.specs.Prelude.{◌≡◌, [], ◌∷◌};
ghost use Rattle.px_ast.specs.Rule.{made, maybe, optional, separated, ◌or◌, ◌then◌, ◌▹◌};
ghost use Rattle.px_ast.specs.Grammar as grammar;
ghost use Rattle.px_ast.specs.declared.statement.Statement.TheVariants as statements;
ghost use Rattle.px_lex.specs.declared.kind.Kind.TheVariants as k;
ghost use Rattle.px_words.specs.Reading.{GivesOutcome};
ghost use Rattle.px_statements.specs.inner.Skim as spec;

use crate::statements::{end, from_table, hint, shown, upsert};
use px_conditions::predicate;
use px_definitions::{alter, create, drop_defined};
use px_lex::kind::Kind;
use px_words::cursor::{Cursor, word};
use px_words::fault::ReadFault;
use std::alloc::Global;

fn pass_predicate(alloc: Global, tokens: &mut Cursor<'_>) -> Result<(), ReadFault>
    ensures { GivesOutcome ((made spec.passed (grammar.predicate 1)).at tokens.old) result tokens.new }
{
    drop(predicate(alloc, tokens, 1)?);
    Ok(())
}

/// Behind a predicate: how many parentheses are still open where AND or OR goes on.
fn closes(tokens: &mut Cursor<'_>, mut inside: usize) -> Result<Option<usize>, ReadFault>
    ensures { GivesOutcome (spec.closes inside tokens.old) result tokens.new }
{
    loop {
        if tokens.sees(Kind::And) || tokens.sees(Kind::Or) {
            tokens.pass();
            return Ok(Some(inside));
        }
        if inside == 0 {
            return Ok(None);
        }
        word(tokens, Kind::CloseParen)?;
        inside -= 1;
    }
}

fn skim(alloc: Global, tokens: &mut Cursor<'_>) -> Result<(), ReadFault>
    ensures { GivesOutcome (spec.skim 0 tokens.old) result tokens.new }
{
    let mut inside: usize = 0;
    for _turn in 0..tokens.left() {
        if tokens.sees(Kind::Not) {
            tokens.pass();
        } else if tokens.sees(Kind::OpenParen) {
            tokens.pass();
            inside += 1;
        } else {
            pass_predicate(alloc, tokens)?;
            match closes(tokens, inside)? {
                None => return Ok(()),
                Some(still) => inside = still,
            }
        }
    }
    Err(ReadFault::Stuck)
}

fn filter(alloc: Global, tokens: &mut Cursor<'_>) -> Result<Option<()>, ReadFault>
    ensures { GivesOutcome (spec.skimmed_filter.at tokens.old) result tokens.new }
{
    if !tokens.takes(Kind::Where) {
        return Ok(None);
    }
    Ok(Some(skim(alloc, tokens)?))
}

#[tactic(auto, unfolding(crate::specs::inner::Skim::skimmed_delete))]
fn delete(alloc: Global, tokens: &mut Cursor<'_>) -> Result<(), ReadFault>
    ensures { GivesOutcome (spec.skimmed_delete.at tokens.old) result tokens.new }
{
    word(tokens, Kind::Delete)?;
    drop(from_table(alloc, tokens)?);
    filter(alloc, tokens)?;
    Ok(())
}

/// `FROM name`, and what stands behind it.
fn from(alloc: Global, tokens: &mut Cursor<'_>) -> Result<(), ReadFault>
    ensures { GivesOutcome ((made spec.passed (k.From ▹ grammar.name then spec.skimmed_filter then optional (k.Order ▹ k.By ▹ separated k.Comma grammar.keypart) then maybe grammar.row_limit)).at tokens.old) result tokens.new }
{
    drop(from_table(alloc, tokens)?);
    filter(alloc, tokens)?;
    drop(end(alloc, tokens)?);
    Ok(())
}

#[tactic(auto, unfolding(crate::specs::inner::Skim::skimmed_select))]
fn select(alloc: Global, tokens: &mut Cursor<'_>) -> Result<(), ReadFault>
    ensures { GivesOutcome (spec.skimmed_select.at tokens.old) result tokens.new }
{
    word(tokens, Kind::Select)?;
    drop(hint(alloc, tokens)?);
    drop(shown(alloc, tokens)?);
    from(alloc, tokens)
}

fn pass_create(alloc: Global, tokens: &mut Cursor<'_>) -> Result<(), ReadFault>
    ensures { GivesOutcome ((made spec.passed (k.Create ▹ (made statements.CreateTable grammar.create_table or made statements.CreateIndex grammar.create_index))).at tokens.old) result tokens.new }
{
    drop(create(alloc, tokens)?);
    Ok(())
}

fn pass_drop(alloc: Global, tokens: &mut Cursor<'_>) -> Result<(), ReadFault>
    ensures { GivesOutcome ((made spec.passed (k.Drop ▹ (made statements.DropTable grammar.drop_table or made statements.DropIndex grammar.drop_index))).at tokens.old) result tokens.new }
{
    drop(drop_defined(alloc, tokens)?);
    Ok(())
}

fn pass_alter(alloc: Global, tokens: &mut Cursor<'_>) -> Result<(), ReadFault>
    ensures { GivesOutcome ((made spec.passed (k.Alter ▹ made statements.AlterIndex grammar.alter_index)).at tokens.old) result tokens.new }
{
    drop(alter(alloc, tokens)?);
    Ok(())
}

fn pass_upsert(alloc: Global, tokens: &mut Cursor<'_>) -> Result<(), ReadFault>
    ensures { GivesOutcome ((made spec.passed grammar.upsert).at tokens.old) result tokens.new }
{
    drop(upsert(alloc, tokens)?);
    Ok(())
}

fn explain(alloc: Global, tokens: &mut Cursor<'_>) -> Result<(), ReadFault>
    ensures { GivesOutcome ((k.Explain ▹ spec.skimmed_select).at tokens.old) result tokens.new }
{
    word(tokens, Kind::Explain)?;
    select(alloc, tokens)
}

/// Reads a statement to its end, however many parentheses and NOTs are open.
#[tactic(auto, unfolding(crate::specs::inner::Skim::skimmed_statement, crate::specs::inner::Skim::skimmed_delete, px_ast::specs::Grammar::upsert))]
pub fn statement(alloc: Global, tokens: &mut Cursor<'_>) -> Result<(), ReadFault>
    ensures { GivesOutcome (spec.skimmed_statement.at tokens.old) result tokens.new }
{
    if tokens.sees(Kind::Create) {
        return pass_create(alloc, tokens);
    }
    if tokens.sees(Kind::Drop) {
        return pass_drop(alloc, tokens);
    }
    if tokens.sees(Kind::Alter) {
        return pass_alter(alloc, tokens);
    }
    if tokens.sees(Kind::Upsert) {
        return pass_upsert(alloc, tokens);
    }
    if tokens.sees(Kind::Delete) {
        return delete(alloc, tokens);
    }
    if tokens.sees(Kind::Explain) {
        return explain(alloc, tokens);
    }
    select(alloc, tokens)
}
