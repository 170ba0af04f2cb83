//! Conditions.

ghost use Rattle.std.specs.Prelude.{[], ◌∷◌};
ghost use Rattle.sim_grammar.specs.ReadConditions as spec;
ghost use Rattle.sim_grammar.specs.ReadExpressions.{expression};
ghost use Rattle.sim_grammar.specs.Read as read;
ghost use Rattle.token_cursor.specs.Reads.{Reads};

use crate::expressions::expression;
use sim_lexer::{TokenKind, keyword, symbol};
use sim_syntax::{Cmp, CmpOp, Cond, Conjunction};
use sqlite_items::Items;
use std::alloc::Global;
use token_cursor::{Cursor, Halt, separated};

/// The comparison that a token of a kind states.
fn stated(cursor: &mut Cursor<'_>, kind: TokenKind, op: CmpOp) -> Result<CmpOp, Halt>
    ensures { Reads (read.fixed (kind ∷ []) op cursor.old) result cursor.new }
{
    cursor.skip(&[kind])?;
    Ok(op)
}

/// How two values are compared.
#[tactic(auto, unfolding(sim_grammar::specs::ReadConditions::comparison))]
fn comparison(cursor: &mut Cursor<'_>) -> Result<CmpOp, Halt>
    ensures { Reads (spec.comparison cursor.old) result cursor.new }
{
    if cursor.is_at(TokenKind::Symbol(symbol::EQUAL)) {
        stated(cursor, TokenKind::Symbol(symbol::EQUAL), CmpOp::Equal)
    } else if cursor.is_at(TokenKind::Symbol(symbol::DIFFERS)) {
        stated(cursor, TokenKind::Symbol(symbol::DIFFERS), CmpOp::Differs)
    } else if cursor.is_at(TokenKind::Symbol(symbol::LESS)) {
        stated(cursor, TokenKind::Symbol(symbol::LESS), CmpOp::Less)
    } else if cursor.is_at(TokenKind::Symbol(symbol::AT_MOST)) {
        stated(cursor, TokenKind::Symbol(symbol::AT_MOST), CmpOp::AtMost)
    } else if cursor.is_at(TokenKind::Symbol(symbol::GREATER)) {
        stated(cursor, TokenKind::Symbol(symbol::GREATER), CmpOp::Greater)
    } else {
        stated(cursor, TokenKind::Symbol(symbol::AT_LEAST), CmpOp::AtLeast)
    }
}

/// A comparison.
#[tactic(auto, unfolding(sim_grammar::specs::ReadConditions::cmp))]
fn cmp(alloc: Global, cursor: &mut Cursor<'_>, depth: usize) -> Result<Cmp, Halt>
    ensures { Reads (spec.cmp (expression depth) cursor.old) result cursor.new }
{
    let line = cursor.line();
    let negated = cursor.eat(TokenKind::Keyword(keyword::NOT));
    let left = expression(alloc, cursor, depth)?;
    let op = comparison(cursor)?;
    let right = expression(alloc, cursor, depth)?;
    Ok(Cmp {
        line,
        negated,
        left,
        op,
        right,
    })
}

/// Comparisons with `and` between.
#[tactic(auto, unfolding(sim_grammar::specs::ReadConditions::cmps))]
fn cmps(alloc: Global, cursor: &mut Cursor<'_>, depth: usize) -> Result<Items<Cmp>, Halt>
    ensures { Reads (spec.cmps (expression depth) cursor.old) result cursor.new }
{
    let and = TokenKind::Keyword(keyword::AND);
    let part = |c: &mut Cursor<'_>| cmp(alloc, c, depth);
    separated(alloc, and, part, cursor)
}

/// Comparisons that hold together.
#[tactic(auto, unfolding(sim_grammar::specs::ReadConditions::conjunction))]
fn conjunction(alloc: Global, cursor: &mut Cursor<'_>, depth: usize) -> Result<Conjunction, Halt>
    ensures { Reads (spec.conjunction (expression depth) cursor.old) result cursor.new }
{
    let line = cursor.line();
    let parts = cmps(alloc, cursor, depth)?;
    Ok(Conjunction { line, parts })
}

/// Conjunctions with `or` between.
#[tactic(auto, unfolding(sim_grammar::specs::ReadConditions::conjunctions))]
fn conjunctions(
    alloc: Global,
    cursor: &mut Cursor<'_>,
    depth: usize,
) -> Result<Items<Conjunction>, Halt>
    ensures { Reads (spec.conjunctions (expression depth) cursor.old) result cursor.new }
{
    let or = TokenKind::Keyword(keyword::OR);
    let part = |c: &mut Cursor<'_>| conjunction(alloc, c, depth);
    separated(alloc, or, part, cursor)
}

/// A condition, in which expressions are nested less than so deep.
#[tactic(auto, unfolding(sim_grammar::specs::ReadConditions::condition))]
pub fn condition(alloc: Global, cursor: &mut Cursor<'_>, depth: usize) -> Result<Cond, Halt>
    ensures { Reads (spec.condition (expression depth) cursor.old) result cursor.new }
{
    let line = cursor.line();
    let parts = conjunctions(alloc, cursor, depth)?;
    Ok(Cond { line, parts })
}
