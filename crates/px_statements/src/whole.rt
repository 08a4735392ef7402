// From the tokens of a text to its statement.
ghost use Rattle.std.specs.Prelude.{◌≡◌, map};
ghost use Rattle.px_lex.specs.Lexemes.{seen};
ghost use Rattle.px_ast.specs.Grammar as grammar;
ghost use Rattle.px_ast.specs.Rule.{Deep};
ghost use Rattle.px_ast.specs.Statements.{ReadsWithin, depth_limit};
ghost use Rattle.px_ast.specs.declared.statement.Statement.{Statement};
ghost use Rattle.px_statements.specs.Parsed.{IsParse, IsGiven, IsRefused};
ghost use Rattle.px_words.specs.Tokens.{AreWell};

use crate::fault::TokenFault;
use crate::skim;
use crate::statements::statement;
use px_ast::Statement;
use px_lex::token::Token;
use px_words::cursor::Cursor;
use px_words::fault::ReadFault;
use std::alloc::Global;

/// How many parentheses and NOTs may be open at once.
const DEPTH: usize = 64;

/// Why tokens are refused in which more is open than the bound: the first fault, if there is one.
fn refusal(alloc: Global, tokens: &[Token<'_>]) -> TokenFault
    requires well { AreWell (map seen tokens.now) }
    requires deep { (grammar.statement depth_limit).at (map seen tokens.now) ≡ Deep }
    ensures { IsRefused (map seen tokens.now) result }
{
    let mut cursor = Cursor::new(tokens);
    match skim::statement(alloc, &mut cursor) {
        Ok(()) => {
            if cursor.left() == 0 {
                TokenFault::TooDeep
            } else {
                TokenFault::Unexpected(tokens.len() - cursor.left())
            }
        }
        Err(ReadFault::Stuck) => TokenFault::Unexpected(tokens.len() - cursor.left()),
        Err(ReadFault::TooDeep) => TokenFault::TooDeep,
        Err(ReadFault::Memory) => TokenFault::Memory,
    }
}

/// The statement that the tokens are, or the first place where no statement continues.
pub fn read_tokens(alloc: Global, tokens: &[Token<'_>]) -> Result<Statement, TokenFault>
    requires { AreWell (map seen tokens.now) }
    ensures answer { IsParse (map seen tokens.now) result }
    ensures only { (s : Statement) → ReadsWithin depth_limit (map seen tokens.now) s → IsGiven s result }
{
    let mut cursor = Cursor::new(tokens);
    match statement(alloc, &mut cursor, DEPTH) {
        Ok(read) => {
            if cursor.left() == 0 {
                Ok(read)
            } else {
                drop(read);
                Err(TokenFault::Unexpected(tokens.len() - cursor.left()))
            }
        }
        Err(ReadFault::Stuck) => Err(TokenFault::Unexpected(tokens.len() - cursor.left())),
        Err(ReadFault::TooDeep) => Err(refusal(alloc, tokens)),
        Err(ReadFault::Memory) => Err(TokenFault::Memory),
    }
}
