//! Statements of the main procedure that declare or assign.

ghost use Rattle.sim_grammar.specs.ReadExpressions.{expression};
ghost use Rattle.sim_grammar.specs.ReadMain as spec;
ghost use Rattle.sim_grammar.specs.Read.{Reader, spelt};
ghost use Rattle.token_cursor.specs.Reads.{Reads};
ghost use Rattle.token_cursor.specs.Nests.{Follows};

use crate::right_sides::{map_right, right};
use expression_parser::maybe_field;
use sim_lexer::{TokenKind, keyword, symbol};
use sim_syntax::{Name, Right, Stmt, Target};
use sqlite_items::Items;
use std::alloc::Global;
use token_cursor::{Cursor, Halt, separated, with_first};

/// A target.
#[tactic(auto, unfolding(sim_grammar::specs::ReadMain::target))]
fn target(alloc: Global, cursor: &mut Cursor<'_>) -> Result<Target, Halt>
    ensures { Reads (spec.target cursor.old) result cursor.new }
{
    let line = cursor.line();
    let name = cursor.name(alloc)?;
    let field = maybe_field(alloc, cursor)?;
    Ok(Target { line, name, field })
}

/// The right side, or further names or targets after commas and a map.
#[tactic(auto, unfolding(sim_grammar::specs::ReadMain::sides))]
fn sides<T: Drop, P: Fn(&mut Cursor<'_>) -> Result<T, Halt>>(
    alloc: Global,
    depth: usize,
    part: P,
    cursor: &mut Cursor<'_>,
) -> Result<(Items<T>, Right), Halt>
    requires { P.IsAlwaysCallable part }
    ensures { (reader : Reader T) → Follows reader (P.post part) → Reads (spec.sides (expression depth) reader cursor.old) result cursor.new }
{
    if cursor.is_at(TokenKind::Symbol(symbol::ASSIGN)) {
        cursor.skip(&[TokenKind::Symbol(symbol::ASSIGN)])?;
        let side = right(alloc, cursor, depth)?;
        return Ok((Items::new(alloc), side));
    }
    cursor.skip(&[TokenKind::Symbol(symbol::COMMA)])?;
    let others = separated(alloc, TokenKind::Symbol(symbol::COMMA), part, cursor)?;
    cursor.skip(&[TokenKind::Symbol(symbol::ASSIGN)])?;
    let side = map_right(alloc, cursor, depth)?;
    Ok((others, side))
}

/// The right side of new variables, and the further names.
fn name_sides(
    alloc: Global,
    cursor: &mut Cursor<'_>,
    depth: usize,
) -> Result<(Items<Name>, Right), Halt>
    ensures { Reads (spec.sides (expression depth) (spelt TokenKind.Name) cursor.old) result cursor.new }
{
    let part = |c: &mut Cursor<'_>| c.name(alloc);
    sides(alloc, depth, part, cursor)
}

/// The right side of an assignment, and the further targets.
fn target_sides(
    alloc: Global,
    cursor: &mut Cursor<'_>,
    depth: usize,
) -> Result<(Items<Target>, Right), Halt>
    ensures { Reads (spec.sides (expression depth) spec.target cursor.old) result cursor.new }
{
    let part = |c: &mut Cursor<'_>| target(alloc, c);
    sides(alloc, depth, part, cursor)
}

/// New variables.
#[tactic(auto, unfolding(sim_grammar::specs::ReadMain::var))]
pub fn var(alloc: Global, cursor: &mut Cursor<'_>, depth: usize) -> Result<Stmt, Halt>
    ensures { Reads (spec.var (expression depth) cursor.old) result cursor.new }
{
    let line = cursor.line();
    cursor.skip(&[TokenKind::Keyword(keyword::VAR)])?;
    let first = cursor.name(alloc)?;
    let (others, right) = name_sides(alloc, cursor, depth)?;
    cursor.skip(&[TokenKind::Symbol(symbol::SEMICOLON)])?;
    let names = with_first(alloc, first, others)?;
    Ok(Stmt::Var { line, names, right })
}

/// An assignment.
#[tactic(auto, unfolding(sim_grammar::specs::ReadMain::assign))]
pub fn assign(alloc: Global, cursor: &mut Cursor<'_>, depth: usize) -> Result<Stmt, Halt>
    ensures { Reads (spec.assign (expression depth) cursor.old) result cursor.new }
{
    let line = cursor.line();
    let first = target(alloc, cursor)?;
    let (others, right) = target_sides(alloc, cursor, depth)?;
    cursor.skip(&[TokenKind::Symbol(symbol::SEMICOLON)])?;
    let targets = with_first(alloc, first, others)?;
    Ok(Stmt::Assign {
        line,
        targets,
        right,
    })
}
