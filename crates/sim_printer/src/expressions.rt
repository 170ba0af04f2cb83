//! Expressions, printed with parentheses only where the grammar needs them.

ghost use Rattle.std.specs.Prelude.{◌≡◌, ◌++◌, ◌∷◌, [], OnOk, map};
ghost use Rattle.sim_lexer.specs.declared.token.symbol.TheConstants.{COMMA, SEMICOLON, OPEN_PAREN, CLOSE_PAREN, OPEN_BRACKET, CLOSE_BRACKET, TRANSPOSE};
ghost use Rattle.sim_grammar.specs.Rule.{sym, key};
ghost use Rattle.sim_printer.specs.Printed as spec;
ghost use Rattle.sim_printer.specs.Grown.{Grown, before_part_words, before_factor_words, before_term_words};

use crate::line::Line;
use sim_lexer::{TokenKind, keyword, symbol};
use sim_syntax::{Expr, ProductFactor, Row, SumTerm};
use vocabulary::{NoMemory, Text};

/// An expression without parentheses around it.
#[cycle(expression)]
#[tactic(auto, using(crate::proofs::Growing::grown_both), unfolding(crate::specs::Printed::node))]
pub fn expression(expr: &Expr, line: &mut Line) -> Result<(), NoMemory>
    ensures { OnOk result (Grown line.old line.new (spec.expression_words expr.now)) }
{
    match expr {
        Expr::Number { number, .. } => line.number(number),
        Expr::Ref {
            name,
            args,
            field,
            field_args,
            ..
        } => {
            line.name(name)?;
            listed(args.as_slice(), line)?;
            field_of(field_args.as_slice(), field, line)
        }
        Expr::Block { rows, .. } => block(rows.as_slice(), line),
        Expr::Sum { terms, .. } => sum(terms.as_slice(), line),
        Expr::Product { factors, .. } => product(factors.as_slice(), line),
        Expr::Transposed { value, .. } => transposed(value.get(), line),
        Expr::Rescale { value, scale, .. } => scaled(value.get(), keyword::RESCALE, scale, line),
        Expr::Quot {
            dividend,
            divisor,
            scale,
            ..
        } => {
            opened(keyword::QUOT, line)?;
            expression(dividend.get(), line)?;
            divided_by(divisor.get(), scale, line)
        }
        Expr::Isqrt { value, scale, .. } => scaled(value.get(), keyword::ISQRT, scale, line),
        Expr::Dot { left, right, .. } => {
            opened(keyword::DOT, line)?;
            expression(left.get(), line)?;
            last(right.get(), line)
        }
    }
}

/// A block of rows.
#[cycle(expression)]
#[tactic(auto, using(crate::proofs::Growing::grown_both))]
fn block(rows: &[Row], line: &mut Line) -> Result<(), NoMemory>
    ensures { OnOk result (Grown line.old line.new (spec.fixed (sym OPEN_BRACKET) ++ spec.separated (sym SEMICOLON) (λ row. row) (map spec.row_phrase rows.now) ++ spec.fixed (sym CLOSE_BRACKET))) }
{
    line.fixed(TokenKind::Symbol(symbol::OPEN_BRACKET))?;
    block_rows(rows, line)?;
    line.fixed(TokenKind::Symbol(symbol::CLOSE_BRACKET))
}

/// A transposed value.
#[cycle(expression)]
#[tactic(auto, using(crate::proofs::Growing::grown_both))]
fn transposed(value: &Expr, line: &mut Line) -> Result<(), NoMemory>
    ensures { OnOk result (Grown line.old line.new (spec.at_level spec.atom (spec.expression value.now) ++ spec.fixed (sym TRANSPOSE))) }
{
    atom(value, line)?;
    line.fixed(TokenKind::Symbol(symbol::TRANSPOSE))
}

/// A call of a value and a scale.
#[cycle(expression)]
#[tactic(auto, using(crate::proofs::Growing::grown_both))]
fn scaled(value: &Expr, word: u8, scale: &Text, line: &mut Line) -> Result<(), NoMemory>
    ensures { OnOk result (Grown line.old line.new (spec.fixed (key word) ++ spec.scaled_words (spec.expression value.now).words scale.now)) }
{
    line.fixed(TokenKind::Keyword(word))?;
    line.fixed(TokenKind::Symbol(symbol::OPEN_PAREN))?;
    expression(value, line)?;
    line.fixed(TokenKind::Symbol(symbol::COMMA))?;
    line.number(scale)?;
    line.fixed(TokenKind::Symbol(symbol::CLOSE_PAREN))
}

/// A keyword and a parenthesis.
#[tactic(auto, using(crate::proofs::Growing::grown_both))]
fn opened(word: u8, line: &mut Line) -> Result<(), NoMemory>
    ensures { OnOk result (Grown line.old line.new (spec.fixed (key word) ++ spec.fixed (sym OPEN_PAREN))) }
{
    line.fixed(TokenKind::Keyword(word))?;
    line.fixed(TokenKind::Symbol(symbol::OPEN_PAREN))
}

/// A divisor and a scale, each after a comma, and a parenthesis.
#[cycle(expression)]
#[tactic(auto, using(crate::proofs::Growing::grown_both))]
fn divided_by(divisor: &Expr, scale: &Text, line: &mut Line) -> Result<(), NoMemory>
    ensures { OnOk result (Grown line.old line.new (spec.comma ++ (spec.expression divisor.now).words ++ spec.comma ++ spec.number scale.now ++ spec.fixed (sym CLOSE_PAREN))) }
{
    line.fixed(TokenKind::Symbol(symbol::COMMA))?;
    expression(divisor, line)?;
    line.fixed(TokenKind::Symbol(symbol::COMMA))?;
    line.number(scale)?;
    line.fixed(TokenKind::Symbol(symbol::CLOSE_PAREN))
}

/// A value after a comma, and a parenthesis.
#[cycle(expression)]
#[tactic(auto, using(crate::proofs::Growing::grown_both))]
fn last(value: &Expr, line: &mut Line) -> Result<(), NoMemory>
    ensures { OnOk result (Grown line.old line.new (spec.comma ++ (spec.expression value.now).words ++ spec.fixed (sym CLOSE_PAREN))) }
{
    line.fixed(TokenKind::Symbol(symbol::COMMA))?;
    expression(value, line)?;
    line.fixed(TokenKind::Symbol(symbol::CLOSE_PAREN))
}

/// An expression, in parentheses or not.
#[cycle(expression)]
#[tactic(auto, using(crate::proofs::Growing::grown_both))]
fn bracketed(expr: &Expr, is_bracketed: bool, line: &mut Line) -> Result<(), NoMemory>
    ensures { OnOk result (Grown line.old line.new (spec.bracketed is_bracketed (spec.expression_words expr.now))) }
{
    if is_bracketed {
        line.fixed(TokenKind::Symbol(symbol::OPEN_PAREN))?;
        expression(expr, line)?;
        line.fixed(TokenKind::Symbol(symbol::CLOSE_PAREN))
    } else {
        expression(expr, line)
    }
}

/// Whether an expression is looser than an atom.
#[tactic(auto, unfolding(crate::specs::Printed::node))]
fn is_looser_than_atom(expr: &Expr) -> bool
    ensures { result ≡ spec.is_looser (spec.expression expr.now).level spec.atom }
{
    match expr {
        Expr::Sum { .. } | Expr::Product { .. } | Expr::Transposed { .. } => true,
        _ => false,
    }
}

/// Whether an expression is looser than a transposed one.
#[tactic(auto, unfolding(crate::specs::Printed::node))]
fn is_looser_than_transposed(expr: &Expr) -> bool
    ensures { result ≡ spec.is_looser (spec.expression expr.now).level spec.transposed }
{
    match expr {
        Expr::Sum { .. } | Expr::Product { .. } => true,
        _ => false,
    }
}

/// Whether an expression is looser than a product.
#[tactic(auto, unfolding(crate::specs::Printed::node))]
fn is_looser_than_product(expr: &Expr) -> bool
    ensures { result ≡ spec.is_looser (spec.expression expr.now).level spec.product }
{
    match expr {
        Expr::Sum { .. } => true,
        _ => false,
    }
}

/// An expression where only an atom may stand.
#[cycle(expression)]
fn atom(expr: &Expr, line: &mut Line) -> Result<(), NoMemory>
    ensures { OnOk result (Grown line.old line.new (spec.at_level spec.atom (spec.expression expr.now))) }
{
    bracketed(expr, is_looser_than_atom(expr), line)
}

/// A factor of a product.
#[cycle(expression)]
fn factor(expr: &Expr, line: &mut Line) -> Result<(), NoMemory>
    ensures { OnOk result (Grown line.old line.new (spec.at_level spec.transposed (spec.expression expr.now))) }
{
    bracketed(expr, is_looser_than_transposed(expr), line)
}

/// A term of a sum.
#[cycle(expression)]
fn term(expr: &Expr, line: &mut Line) -> Result<(), NoMemory>
    ensures { OnOk result (Grown line.old line.new (spec.at_level spec.product (spec.expression expr.now))) }
{
    bracketed(expr, is_looser_than_product(expr), line)
}

/// The terms of a sum.
#[cycle(expression)]
#[tactic(auto, using(crate::proofs::Growing::grown_none))]
fn sum(terms: &[SumTerm], line: &mut Line) -> Result<(), NoMemory>
    ensures { OnOk result (Grown line.old line.new (spec.sum_words (map spec.term_phrase terms.now))) }
{
    let mut is_first = true;
    for one in terms {
        before_term(one.minus, is_first, line)?;
        term(&one.value, line)?;
        is_first = false;
    }
    Ok(())
}

/// What stands before a term: nothing for a plus before the first one.
#[tactic(auto, using(crate::proofs::Growing::grown_none))]
pub fn before_term(minus: bool, is_first: bool, line: &mut Line) -> Result<(), NoMemory>
    ensures { OnOk result (Grown line.old line.new (before_term_words is_first minus)) }
{
    if minus {
        line.fixed(TokenKind::Symbol(symbol::MINUS))
    } else if is_first {
        Ok(())
    } else {
        line.fixed(TokenKind::Symbol(symbol::PLUS))
    }
}

/// The factors of a product.
#[cycle(expression)]
#[tactic(auto, using(crate::proofs::Growing::grown_none))]
fn product(factors: &[ProductFactor], line: &mut Line) -> Result<(), NoMemory>
    ensures { OnOk result (Grown line.old line.new (spec.product_words (map spec.factor_phrase factors.now))) }
{
    let mut is_first = true;
    for one in factors {
        before_factor(one.entrywise, is_first, line)?;
        factor(&one.value, line)?;
        is_first = false;
    }
    Ok(())
}

/// What stands before a factor: nothing before the first one.
#[tactic(auto, using(crate::proofs::Growing::grown_none))]
fn before_factor(entrywise: bool, is_first: bool, line: &mut Line) -> Result<(), NoMemory>
    ensures { OnOk result (Grown line.old line.new (before_factor_words is_first entrywise)) }
{
    if is_first {
        Ok(())
    } else if entrywise {
        line.fixed(TokenKind::Symbol(symbol::ENTRYWISE))
    } else {
        line.fixed(TokenKind::Symbol(symbol::STAR))
    }
}

/// Arguments in parentheses, or nothing where there are none.
#[cycle(expression)]
#[tactic(auto, using(crate::proofs::Growing::grown_none))]
pub fn listed(args: &[Expr], line: &mut Line) -> Result<(), NoMemory>
    ensures { OnOk result (Grown line.old line.new (spec.listed spec.whole (map spec.expression args.now))) }
{
    if args.is_empty() {
        return Ok(());
    }
    in_parentheses(args, line)
}

/// Expressions in parentheses.
#[cycle(expression)]
#[tactic(auto, using(crate::proofs::Growing::grown_both))]
fn in_parentheses(args: &[Expr], line: &mut Line) -> Result<(), NoMemory>
    ensures { OnOk result (Grown line.old line.new (spec.in_parentheses (spec.separated (sym COMMA) spec.whole (map spec.expression args.now)))) }
{
    line.fixed(TokenKind::Symbol(symbol::OPEN_PAREN))?;
    entries(args, line)?;
    line.fixed(TokenKind::Symbol(symbol::CLOSE_PAREN))
}

/// Expressions with commas between.
#[cycle(expression)]
#[tactic(auto, using(crate::proofs::Growing::grown_none))]
fn entries(entries: &[Expr], line: &mut Line) -> Result<(), NoMemory>
    ensures { OnOk result (Grown line.old line.new (spec.separated (sym COMMA) spec.whole (map spec.expression entries.now))) }
{
    let mut is_first = true;
    for one in entries {
        between(is_first, TokenKind::Symbol(symbol::COMMA), line)?;
        expression(one, line)?;
        is_first = false;
    }
    Ok(())
}

/// What stands before a part of a list: nothing before the first one.
#[tactic(auto, using(crate::proofs::Growing::grown_none))]
pub fn between(is_first: bool, separator: TokenKind, line: &mut Line) -> Result<(), NoMemory>
    ensures { OnOk result (Grown line.old line.new (before_part_words is_first (separator ∷ []))) }
{
    if is_first {
        Ok(())
    } else {
        line.fixed(separator)
    }
}

/// The field of a reference, with its arguments.
#[cycle(expression)]
#[tactic(auto, using(crate::proofs::Growing::grown_none, crate::proofs::Growing::grown_both))]
fn field_of(args: &[Expr], field: &Option<Text>, line: &mut Line) -> Result<(), NoMemory>
    ensures { OnOk result (Grown line.old line.new (spec.field_words field.now (spec.listed spec.whole (map spec.expression args.now)))) }
{
    match field {
        None => Ok(()),
        Some(field) => {
            line.fixed(TokenKind::Symbol(symbol::POINT))?;
            line.name(field)?;
            listed(args, line)
        }
    }
}

/// The rows of a block.
#[cycle(expression)]
#[tactic(auto, using(crate::proofs::Growing::grown_none))]
fn block_rows(rows: &[Row], line: &mut Line) -> Result<(), NoMemory>
    ensures { OnOk result (Grown line.old line.new (spec.separated (sym SEMICOLON) (λ row. row) (map spec.row_phrase rows.now))) }
{
    let mut is_first = true;
    for one in rows {
        between(is_first, TokenKind::Symbol(symbol::SEMICOLON), line)?;
        row(one, line)?;
        is_first = false;
    }
    Ok(())
}

/// A row.
#[cycle(expression)]
#[tactic(auto)]
fn row(row: &Row, line: &mut Line) -> Result<(), NoMemory>
    ensures { OnOk result (Grown line.old line.new (spec.row_phrase row.now)) }
{
    entries(row.entries.as_slice(), line)
}
