//! What is assigned: the value of an expression, what a map assembles, or an index expression.

ghost use Rattle.sim_grammar.specs.ReadExpressions.{expression};
ghost use Rattle.sim_grammar.specs.ReadMain as spec;
ghost use Rattle.token_cursor.specs.Reads.{Reads};

use expression_parser::{expression, ix, maybe_arguments};
use sim_lexer::{TokenKind, keyword, symbol};
use sim_syntax::Right;
use std::alloc::Global;
use token_cursor::{Cursor, Halt};

/// A map.
#[tactic(auto, unfolding(sim_grammar::specs::ReadMain::map_right))]
pub fn map_right(alloc: Global, cursor: &mut Cursor<'_>, depth: usize) -> Result<Right, Halt>
    ensures { Reads (spec.map_right (expression depth) cursor.old) result cursor.new }
{
    let line = cursor.line();
    cursor.skip(&[TokenKind::Keyword(keyword::MAP)])?;
    let func = cursor.name(alloc)?;
    let args = maybe_arguments(alloc, cursor, depth)?;
    cursor.skip(&[TokenKind::Keyword(keyword::TO)])?;
    let set = cursor.name(alloc)?;
    cursor.skip(&[
        TokenKind::Keyword(keyword::REDUCE),
        TokenKind::Symbol(symbol::PLUS),
    ])?;
    Ok(Right::Map {
        line,
        func,
        args,
        set,
    })
}

/// An expression as a right side.
#[tactic(auto, unfolding(sim_grammar::specs::ReadMain::value_right))]
fn value_right(alloc: Global, cursor: &mut Cursor<'_>, depth: usize) -> Result<Right, Halt>
    ensures { Reads (spec.value_right (expression depth) cursor.old) result cursor.new }
{
    let value = expression(alloc, cursor, depth)?;
    Ok(Right::Value(value))
}

/// A right side.
#[tactic(auto, unfolding(sim_grammar::specs::ReadMain::right))]
pub fn right(alloc: Global, cursor: &mut Cursor<'_>, depth: usize) -> Result<Right, Halt>
    ensures { Reads (spec.right (expression depth) cursor.old) result cursor.new }
{
    if cursor.is_at(TokenKind::Keyword(keyword::MAP)) {
        map_right(alloc, cursor, depth)
    } else if cursor.is_at(TokenKind::Keyword(keyword::IX)) {
        ix(alloc, cursor)
    } else {
        value_right(alloc, cursor, depth)
    }
}
