// Statements that begin with CREATE, DROP or ALTER.
ghost use Rattle.std.specs.Prelude.{◌≡◌};
ghost use Rattle.px_lex.specs.declared.kind.Kind.TheVariants as k;
ghost use Rattle.px_ast.specs.Rule.{made, ◌or◌, ◌▹◌};
ghost use Rattle.px_ast.specs.Grammar as grammar;
ghost use Rattle.px_ast.specs.declared.statement.Statement.TheVariants as statements;
ghost use Rattle.px_words.specs.Reading.{GivesOutcome};

use crate::definitions::{alter_index, create_index, create_table, drop_index, drop_table};
use px_ast::Statement;
use px_lex::kind::Kind;
use px_words::cursor::{Cursor, word};
use px_words::fault::ReadFault;
use std::alloc::Global;

/// What stands behind CREATE.
#[tactic(auto, unfolding(px_ast::specs::Grammar::create_table))]
fn created(alloc: Global, tokens: &mut Cursor<'_>) -> Result<Statement, ReadFault>
    ensures { GivesOutcome ((made statements.CreateTable grammar.create_table or made statements.CreateIndex grammar.create_index).at tokens.old) result tokens.new }
{
    if tokens.sees(Kind::Table) {
        Ok(Statement::CreateTable(create_table(alloc, tokens)?))
    } else {
        Ok(Statement::CreateIndex(create_index(alloc, tokens)?))
    }
}

pub fn create(alloc: Global, tokens: &mut Cursor<'_>) -> Result<Statement, ReadFault>
    ensures { GivesOutcome ((k.Create ▹ (made statements.CreateTable grammar.create_table or made statements.CreateIndex grammar.create_index)).at tokens.old) result tokens.new }
{
    word(tokens, Kind::Create)?;
    created(alloc, tokens)
}

/// What stands behind DROP.
#[tactic(auto, unfolding(px_ast::specs::Grammar::drop_table))]
fn dropped(alloc: Global, tokens: &mut Cursor<'_>) -> Result<Statement, ReadFault>
    ensures { GivesOutcome ((made statements.DropTable grammar.drop_table or made statements.DropIndex grammar.drop_index).at tokens.old) result tokens.new }
{
    if tokens.sees(Kind::Table) {
        Ok(Statement::DropTable(drop_table(alloc, tokens)?))
    } else {
        Ok(Statement::DropIndex(drop_index(alloc, tokens)?))
    }
}

pub fn drop_defined(alloc: Global, tokens: &mut Cursor<'_>) -> Result<Statement, ReadFault>
    ensures { GivesOutcome ((k.Drop ▹ (made statements.DropTable grammar.drop_table or made statements.DropIndex grammar.drop_index)).at tokens.old) result tokens.new }
{
    word(tokens, Kind::Drop)?;
    dropped(alloc, tokens)
}

pub fn alter(alloc: Global, tokens: &mut Cursor<'_>) -> Result<Statement, ReadFault>
    ensures { GivesOutcome ((k.Alter ▹ made statements.AlterIndex grammar.alter_index).at tokens.old) result tokens.new }
{
    word(tokens, Kind::Alter)?;
    Ok(Statement::AlterIndex(alter_index(alloc, tokens)?))
}
