//! Statements, printed.

ghost use Rattle.std.specs.Prelude.{◌≡◌, ◌++◌, ◌∷◌, [], OnOk, map};
ghost use Rattle.std.specs.List.{flat_map};
ghost use Rattle.sim_lexer.specs.declared.token.TokenKind.TheVariants.{Keyword, Symbol};
ghost use Rattle.sim_lexer.specs.declared.token.keyword.TheConstants as key_of;
ghost use Rattle.sim_lexer.specs.declared.token.symbol.TheConstants as sym_of;
ghost use Rattle.sim_grammar.specs.Rule.{sym, key};
ghost use Rattle.sim_printer.specs.Printed as spec;
ghost use Rattle.sim_printer.specs.Grown.{Grown};

use crate::conditions::cond;
use crate::expressions::expression;
use crate::line::Line;
use crate::right_sides::{names, places_in_parentheses, right, targets};
use sim_lexer::{TokenKind, keyword, symbol};
use sim_syntax::{Cond, Expr, Place, Right, Stmt, Target};
use vocabulary::{NoMemory, Text};

/// The name of a loop.
#[tactic(auto, using(crate::proofs::Growing::grown_none, crate::proofs::Growing::grown_both))]
fn loop_name(name: &Text, line: &mut Line) -> Result<(), NoMemory>
    ensures { OnOk result (Grown line.old line.new (spec.fixed (key key_of.FOR) ++ spec.name name.now ++ spec.fixed (key key_of.IN))) }
{
    line.fixed(TokenKind::Keyword(keyword::FOR))?;
    line.name(name)?;
    line.fixed(TokenKind::Keyword(keyword::IN))
}

/// A loop between literals, up to its statements.
#[tactic(auto, using(crate::proofs::Growing::grown_none, crate::proofs::Growing::grown_both))]
fn const_for(name: &Text, from: &Text, to: &Text, line: &mut Line) -> Result<(), NoMemory>
    ensures { OnOk result (Grown line.old line.new (spec.fixed (key key_of.FOR) ++ spec.name name.now ++ spec.fixed (key key_of.IN) ++ spec.number from.now ++ spec.fixed (sym sym_of.COLON) ++ spec.number to.now)) }
{
    loop_name(name, line)?;
    line.number(from)?;
    line.fixed(TokenKind::Symbol(symbol::COLON))?;
    line.number(to)
}

/// A loop between values, up to its statements.
#[tactic(auto, using(crate::proofs::Growing::grown_none, crate::proofs::Growing::grown_both))]
fn value_for(name: &Text, from: &Expr, to: &Expr, line: &mut Line) -> Result<(), NoMemory>
    ensures { OnOk result (Grown line.old line.new (spec.fixed (key key_of.FOR) ++ spec.name name.now ++ spec.fixed (key key_of.IN) ++ spec.expression_words from.now ++ spec.fixed (sym sym_of.COLON) ++ spec.expression_words to.now)) }
{
    loop_name(name, line)?;
    expression(from, line)?;
    line.fixed(TokenKind::Symbol(symbol::COLON))?;
    expression(to, line)
}

/// New variables.
#[tactic(auto, using(crate::proofs::Growing::grown_both))]
fn var(new: &[Text], side: &Right, line: &mut Line) -> Result<(), NoMemory>
    ensures { OnOk result (Grown line.old line.new (spec.fixed (key key_of.VAR) ++ spec.separated (sym sym_of.COMMA) spec.name new.now ++ spec.fixed (sym sym_of.ASSIGN) ++ spec.right_words side.now ++ spec.fixed (sym sym_of.SEMICOLON))) }
{
    line.fixed(TokenKind::Keyword(keyword::VAR))?;
    names(new, line)?;
    line.fixed(TokenKind::Symbol(symbol::ASSIGN))?;
    right(side, line)?;
    line.fixed(TokenKind::Symbol(symbol::SEMICOLON))
}

/// Variables and fields that are assigned.
#[tactic(auto, using(crate::proofs::Growing::grown_both))]
fn assign(assigned: &[Target], side: &Right, line: &mut Line) -> Result<(), NoMemory>
    ensures { OnOk result (Grown line.old line.new (spec.separated (sym sym_of.COMMA) spec.target_words assigned.now ++ spec.fixed (sym sym_of.ASSIGN) ++ spec.right_words side.now ++ spec.fixed (sym sym_of.SEMICOLON))) }
{
    targets(assigned, line)?;
    line.fixed(TokenKind::Symbol(symbol::ASSIGN))?;
    right(side, line)?;
    line.fixed(TokenKind::Symbol(symbol::SEMICOLON))
}

/// A contribution to a function's result.
#[tactic(auto, using(crate::proofs::Growing::grown_both))]
fn contribution(
    name: &Text,
    places: &[Place],
    value: &Expr,
    line: &mut Line,
) -> Result<(), NoMemory>
    ensures { OnOk result (Grown line.old line.new (spec.name name.now ++ spec.in_parentheses (spec.separated (sym sym_of.COMMA) spec.place_words places.now) ++ spec.fixed (sym sym_of.ASSIGN) ++ spec.expression_words value.now ++ spec.fixed (sym sym_of.SEMICOLON))) }
{
    line.name(name)?;
    places_in_parentheses(places, line)?;
    line.fixed(TokenKind::Symbol(symbol::ASSIGN))?;
    expression(value, line)?;
    line.fixed(TokenKind::Symbol(symbol::SEMICOLON))
}

/// What must hold.
#[tactic(auto, using(crate::proofs::Growing::grown_both))]
fn assertion(condition: &Cond, line: &mut Line) -> Result<(), NoMemory>
    ensures { OnOk result (Grown line.old line.new (spec.fixed (key key_of.ASSERT) ++ spec.cond_words condition.now ++ spec.fixed (sym sym_of.SEMICOLON))) }
{
    line.fixed(TokenKind::Keyword(keyword::ASSERT))?;
    cond(condition, line)?;
    line.fixed(TokenKind::Symbol(symbol::SEMICOLON))
}

/// A statement.
#[cycle(statement)]
#[tactic(auto, using(crate::proofs::Growing::grown_both), unfolding(crate::specs::Printed::statement_node))]
pub fn statement(stmt: &Stmt, line: &mut Line) -> Result<(), NoMemory>
    ensures { OnOk result (Grown line.old line.new (spec.statement_words stmt.now)) }
{
    match stmt {
        Stmt::Var { names, right, .. } => var(names.as_slice(), right, line),
        Stmt::Assign { targets, right, .. } => assign(targets.as_slice(), right, line),
        Stmt::Write {
            result,
            places,
            value,
            ..
        } => contribution(result, places.as_slice(), value, line),
        Stmt::ConstFor {
            name,
            from,
            to,
            body,
            ..
        } => const_loop(body.as_slice(), name, from, to, line),
        Stmt::For {
            name,
            from,
            to,
            body,
            ..
        } => value_loop(body.as_slice(), name, from, to, line),
        Stmt::While { cond, body, .. } => while_loop(body.as_slice(), cond, line),
        Stmt::If {
            cond,
            body,
            otherwise,
            ..
        } => {
            condition_of(cond, line)?;
            inner(body.as_slice(), line)?;
            alternative(otherwise.as_slice(), line)?;
            line.fixed(TokenKind::Keyword(keyword::END))
        }
        Stmt::Assert { cond, .. } => assertion(cond, line),
    }
}

/// The condition of an if.
#[tactic(auto, using(crate::proofs::Growing::grown_both))]
fn condition_of(condition: &Cond, line: &mut Line) -> Result<(), NoMemory>
    ensures { OnOk result (Grown line.old line.new (spec.fixed (key key_of.IF) ++ spec.cond_words condition.now)) }
{
    line.fixed(TokenKind::Keyword(keyword::IF))?;
    cond(condition, line)
}

/// A loop between literals.
#[cycle(statement)]
#[tactic(auto, using(crate::proofs::Growing::grown_both))]
fn const_loop(
    body: &[Stmt],
    name: &Text,
    from: &Text,
    to: &Text,
    line: &mut Line,
) -> Result<(), NoMemory>
    ensures { OnOk result (Grown line.old line.new (spec.fixed (key key_of.FOR) ++ spec.name name.now ++ spec.fixed (key key_of.IN) ++ spec.number from.now ++ spec.fixed (sym sym_of.COLON) ++ spec.number to.now ++ spec.all_words (map spec.statement_words body.now) ++ spec.fixed (key key_of.END))) }
{
    const_for(name, from, to, line)?;
    inner(body, line)?;
    line.fixed(TokenKind::Keyword(keyword::END))
}

/// A loop between values.
#[cycle(statement)]
#[tactic(auto, using(crate::proofs::Growing::grown_both))]
fn value_loop(
    body: &[Stmt],
    name: &Text,
    from: &Expr,
    to: &Expr,
    line: &mut Line,
) -> Result<(), NoMemory>
    ensures { OnOk result (Grown line.old line.new (spec.fixed (key key_of.FOR) ++ spec.name name.now ++ spec.fixed (key key_of.IN) ++ spec.expression_words from.now ++ spec.fixed (sym sym_of.COLON) ++ spec.expression_words to.now ++ spec.all_words (map spec.statement_words body.now) ++ spec.fixed (key key_of.END))) }
{
    value_for(name, from, to, line)?;
    inner(body, line)?;
    line.fixed(TokenKind::Keyword(keyword::END))
}

/// A loop while a condition holds.
#[cycle(statement)]
#[tactic(auto, using(crate::proofs::Growing::grown_both))]
fn while_loop(body: &[Stmt], condition: &Cond, line: &mut Line) -> Result<(), NoMemory>
    ensures { OnOk result (Grown line.old line.new (spec.fixed (key key_of.WHILE) ++ spec.cond_words condition.now ++ spec.all_words (map spec.statement_words body.now) ++ spec.fixed (key key_of.END))) }
{
    line.fixed(TokenKind::Keyword(keyword::WHILE))?;
    cond(condition, line)?;
    inner(body, line)?;
    line.fixed(TokenKind::Keyword(keyword::END))
}

/// The statements inside another, one after the other.
#[cycle(statement)]
#[tactic(auto)]
fn inner(all: &[Stmt], line: &mut Line) -> Result<(), NoMemory>
    ensures { OnOk result (Grown line.old line.new (spec.all_words (map spec.statement_words all.now))) }
{
    for one in all {
        statement(one, line)?;
    }
    Ok(())
}

/// The statements after an else, and nothing where there are none.
#[cycle(statement)]
#[tactic(auto, using(crate::proofs::Growing::grown_none, crate::proofs::Parts::else_none))]
fn alternative(all: &[Stmt], line: &mut Line) -> Result<(), NoMemory>
    ensures { OnOk result (Grown line.old line.new (spec.else_words (map spec.statement_words all.now))) }
{
    if all.is_empty() {
        return Ok(());
    }
    after_else(all, line)
}

/// The word else, and statements.
#[cycle(statement)]
#[tactic(auto, using(crate::proofs::Growing::grown_both))]
fn after_else(all: &[Stmt], line: &mut Line) -> Result<(), NoMemory>
    ensures { OnOk result (Grown line.old line.new (spec.fixed (key key_of.ELSE) ++ spec.all_words (map spec.statement_words all.now))) }
{
    line.fixed(TokenKind::Keyword(keyword::ELSE))?;
    inner(all, line)
}

/// Statements, one after the other.
#[tactic(auto, using(crate::proofs::Growing::grown_none, crate::proofs::Growing::grown_more, crate::proofs::Growing::grown_all))]
pub fn statements(all: &[Stmt], line: &mut Line) -> Result<(), NoMemory>
    ensures { OnOk result (Grown line.old line.new (flat_map spec.statement_words all.now)) }
{
    for one in all {
        statement(one, line)?;
    }
    Ok(())
}
