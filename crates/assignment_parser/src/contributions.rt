//! Statements of functions that declare, assign or contribute.

ghost use Rattle.std.specs.Prelude.{◌≡◌, IfOk};
ghost use Rattle.sim_grammar.specs.ReadExpressions.{expression};
ghost use Rattle.sim_grammar.specs.ReadFunctions as spec;
ghost use Rattle.token_cursor.specs.Reads.{Reads};
ghost use Rattle.sim_grammar.specs.Trees as trees;

use crate::places::maybe_places;
use expression_parser::expression;
use sim_lexer::{TokenKind, keyword, symbol};
use sim_syntax::{Expr, Name, Place, Right, Stmt, Target};
use sqlite_items::Items;
use std::alloc::{AllocError, Global};
use token_cursor::{Cursor, Halt, only};

/// A contribution where there are places, and else an assignment.
fn named_stmt_of(
    alloc: Global,
    line: u32,
    name: Name,
    places: Option<Items<Place>>,
    value: Expr,
) -> Result<Stmt, AllocError>
    ensures { IfOk result (λ stmt. stmt ≡ trees.named_stmt_of line (name, (places, value))) }
{
    match places {
        Some(places) => Ok(Stmt::Write {
            line,
            result: name,
            places,
            value,
        }),
        None => {
            let field = None;
            let targets = only(alloc, Target { line, name, field })?;
            let right = Right::Value(value);
            Ok(Stmt::Assign {
                line,
                targets,
                right,
            })
        }
    }
}

/// A new variable.
#[tactic(auto, unfolding(sim_grammar::specs::ReadFunctions::local_var))]
pub fn local_var(alloc: Global, cursor: &mut Cursor<'_>, depth: usize) -> Result<Stmt, Halt>
    ensures { Reads (spec.local_var (expression depth) cursor.old) result cursor.new }
{
    let line = cursor.line();
    cursor.skip(&[TokenKind::Keyword(keyword::VAR)])?;
    let name = cursor.name(alloc)?;
    cursor.skip(&[TokenKind::Symbol(symbol::ASSIGN)])?;
    let value = expression(alloc, cursor, depth)?;
    cursor.skip(&[TokenKind::Symbol(symbol::SEMICOLON)])?;
    let names = only(alloc, name)?;
    let right = Right::Value(value);
    Ok(Stmt::Var { line, names, right })
}

/// A contribution, or an assignment.
#[tactic(auto, unfolding(sim_grammar::specs::ReadFunctions::named_stmt))]
pub fn named_stmt(alloc: Global, cursor: &mut Cursor<'_>, depth: usize) -> Result<Stmt, Halt>
    ensures { Reads (spec.named_stmt (expression depth) cursor.old) result cursor.new }
{
    let line = cursor.line();
    let name = cursor.name(alloc)?;
    let places = maybe_places(alloc, cursor)?;
    cursor.skip(&[TokenKind::Symbol(symbol::ASSIGN)])?;
    let value = expression(alloc, cursor, depth)?;
    cursor.skip(&[TokenKind::Symbol(symbol::SEMICOLON)])?;
    Ok(named_stmt_of(alloc, line, name, places, value)?)
}
