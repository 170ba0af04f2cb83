//! Expressions.
//!
//! The rules that hold expressions take the reader of those inside as a parameter, so that each is proved by itself.

ghost use Rattle.std.specs.Prelude.{◌≡◌, IfOk};
ghost use Rattle.sim_grammar.specs.ReadExpressions as spec;
ghost use Rattle.token_cursor.specs.Reads.{Reads};
ghost use Rattle.token_cursor.specs.Nests.{Nests};
ghost use Rattle.sim_grammar.specs.Trees as trees;

use sim_lexer::{TokenKind, keyword, symbol};
use sim_syntax::{Expr, Name, ProductFactor, Row, SumTerm};
use sqlite_items::{Boxed, Items};
use std::alloc::{AllocError, Global};
use token_cursor::{Cursor, Halt, each, separated, with_first};

/// The rules of expressions, over a reader of the expressions inside.
#[derive(Clone, Copy)]
pub struct Expressions<F> {
    pub alloc: Global,
    /// How deep expressions may still be nested.
    pub depth: usize,
    pub inner: F,
}

/// A sign, and whether it is a minus.
#[tactic(auto, unfolding(sim_grammar::specs::ReadExpressions::sign))]
pub fn sign(cursor: &mut Cursor<'_>) -> Result<bool, Halt>
    ensures { Reads (spec.sign cursor.old) result cursor.new }
{
    if cursor.is_at(TokenKind::Symbol(symbol::PLUS)) {
        cursor.skip(&[TokenKind::Symbol(symbol::PLUS)])?;
        Ok(false)
    } else {
        cursor.skip(&[TokenKind::Symbol(symbol::MINUS)])?;
        Ok(true)
    }
}

/// The operator of a product, and whether it is entry by entry.
#[tactic(auto, unfolding(sim_grammar::specs::ReadExpressions::operator))]
fn operator(cursor: &mut Cursor<'_>) -> Result<bool, Halt>
    ensures { Reads (spec.operator cursor.old) result cursor.new }
{
    if cursor.is_at(TokenKind::Symbol(symbol::STAR)) {
        cursor.skip(&[TokenKind::Symbol(symbol::STAR)])?;
        Ok(false)
    } else {
        cursor.skip(&[TokenKind::Symbol(symbol::ENTRYWISE)])?;
        Ok(true)
    }
}

/// A product, or its only factor.
#[tactic(auto, using(crate::proofs::Makers::product_of_more))]
fn product_of(
    alloc: Global,
    line: u32,
    value: Expr,
    others: Items<ProductFactor>,
) -> Result<Expr, AllocError>
    ensures { IfOk result (λ product. product ≡ trees.product_of line (value, others)) }
{
    if others.is_empty() {
        return Ok(value);
    }
    let entrywise = false;
    let first = ProductFactor {
        line,
        entrywise,
        value,
    };
    let factors = with_first(alloc, first, others)?;
    Ok(Expr::Product { line, factors })
}

/// A sum, or its only term.
#[tactic(auto, using(crate::proofs::Makers::sum_of_more))]
fn sum_of(
    alloc: Global,
    line: u32,
    minus: bool,
    value: Expr,
    others: Items<SumTerm>,
) -> Result<Expr, AllocError>
    ensures { IfOk result (λ sum. sum ≡ trees.sum_of line (minus, (value, others))) }
{
    if !minus && others.is_empty() {
        return Ok(value);
    }
    let first = SumTerm { line, minus, value };
    let terms = with_first(alloc, first, others)?;
    Ok(Expr::Sum { line, terms })
}

impl<F: Fn(Global, &mut Cursor<'_>, usize) -> Result<Expr, Halt>> Expressions<F> {
    /// An expression inside.
    fn inner(&self, cursor: &mut Cursor<'_>) -> Result<Expr, Halt>
        requires { Nests spec.expression self.now.depth (F.pre self.now.inner) (F.post self.now.inner) }
        ensures { Reads (spec.expression self.now.depth cursor.old) result cursor.new }
    {
        (self.inner)(self.alloc, cursor, self.depth)
    }

    /// An expression inside, in a box.
    fn boxed(&self, cursor: &mut Cursor<'_>) -> Result<Boxed<Expr>, Halt>
        requires { Nests spec.expression self.now.depth (F.pre self.now.inner) (F.post self.now.inner) }
        ensures { Reads (spec.expression self.now.depth cursor.old) result cursor.new }
    {
        let value = self.inner(cursor)?;
        Ok(Boxed::new(self.alloc, value)?)
    }

    /// Expressions with commas between.
    #[tactic(auto, unfolding(sim_grammar::specs::ReadExpressions::expressions))]
    fn expressions(&self, cursor: &mut Cursor<'_>) -> Result<Items<Expr>, Halt>
        requires { Nests spec.expression self.now.depth (F.pre self.now.inner) (F.post self.now.inner) }
        ensures { Reads (spec.expressions (spec.expression self.now.depth) cursor.old) result cursor.new }
    {
        let comma = TokenKind::Symbol(symbol::COMMA);
        let inner = |c: &mut Cursor<'_>| self.inner(c);
        separated(self.alloc, comma, inner, cursor)
    }

    /// Arguments in parentheses.
    #[tactic(auto, unfolding(sim_grammar::specs::ReadExpressions::arguments))]
    fn arguments(&self, cursor: &mut Cursor<'_>) -> Result<Items<Expr>, Halt>
        requires { Nests spec.expression self.now.depth (F.pre self.now.inner) (F.post self.now.inner) }
        ensures { Reads (spec.arguments (spec.expression self.now.depth) cursor.old) result cursor.new }
    {
        cursor.skip(&[TokenKind::Symbol(symbol::OPEN_PAREN)])?;
        let all = self.expressions(cursor)?;
        cursor.skip(&[TokenKind::Symbol(symbol::CLOSE_PAREN)])?;
        Ok(all)
    }

    /// Arguments, where there are any.
    #[tactic(auto, unfolding(sim_grammar::specs::ReadExpressions::maybe_arguments, sim_grammar::specs::Read::skip))]
    pub fn maybe_arguments(&self, cursor: &mut Cursor<'_>) -> Result<Items<Expr>, Halt>
        requires { Nests spec.expression self.now.depth (F.pre self.now.inner) (F.post self.now.inner) }
        ensures { Reads (spec.maybe_arguments (spec.expression self.now.depth) cursor.old) result cursor.new }
    {
        if cursor.is_at(TokenKind::Symbol(symbol::OPEN_PAREN)) {
            self.arguments(cursor)
        } else {
            Ok(Items::new(self.alloc))
        }
    }

    /// A field after a point, with its arguments, where there is one.
    #[tactic(auto, unfolding(sim_grammar::specs::ReadExpressions::maybe_field_ref, sim_grammar::specs::ReadExpressions::field_ref, sim_grammar::specs::Read::skip))]
    fn maybe_field_ref(&self, cursor: &mut Cursor<'_>) -> Result<(Option<Name>, Items<Expr>), Halt>
        requires { Nests spec.expression self.now.depth (F.pre self.now.inner) (F.post self.now.inner) }
        ensures { Reads (spec.maybe_field_ref (spec.expression self.now.depth) cursor.old) result cursor.new }
    {
        if !cursor.is_at(TokenKind::Symbol(symbol::POINT)) {
            return Ok((None, Items::new(self.alloc)));
        }
        cursor.skip(&[TokenKind::Symbol(symbol::POINT)])?;
        let field = cursor.name(self.alloc)?;
        let args = self.maybe_arguments(cursor)?;
        Ok((Some(field), args))
    }

    /// A name, and what stands after it in its reference.
    #[tactic(auto, unfolding(sim_grammar::specs::ReadExpressions::reference))]
    fn reference(&self, cursor: &mut Cursor<'_>) -> Result<Expr, Halt>
        requires { Nests spec.expression self.now.depth (F.pre self.now.inner) (F.post self.now.inner) }
        ensures { Reads (spec.reference (spec.expression self.now.depth) cursor.old) result cursor.new }
    {
        let line = cursor.line();
        let name = cursor.name(self.alloc)?;
        let args = self.maybe_arguments(cursor)?;
        let (field, field_args) = self.maybe_field_ref(cursor)?;
        Ok(Expr::Ref {
            line,
            name,
            args,
            field,
            field_args,
            rank: None,
        })
    }

    /// An expression in parentheses.
    #[tactic(auto, unfolding(sim_grammar::specs::ReadExpressions::parenthesised))]
    fn parenthesised(&self, cursor: &mut Cursor<'_>) -> Result<Expr, Halt>
        requires { Nests spec.expression self.now.depth (F.pre self.now.inner) (F.post self.now.inner) }
        ensures { Reads (spec.parenthesised (spec.expression self.now.depth) cursor.old) result cursor.new }
    {
        cursor.skip(&[TokenKind::Symbol(symbol::OPEN_PAREN)])?;
        let value = self.inner(cursor)?;
        cursor.skip(&[TokenKind::Symbol(symbol::CLOSE_PAREN)])?;
        Ok(value)
    }

    /// A row of a block.
    #[tactic(auto, unfolding(sim_grammar::specs::ReadExpressions::row))]
    fn row(&self, cursor: &mut Cursor<'_>) -> Result<Row, Halt>
        requires { Nests spec.expression self.now.depth (F.pre self.now.inner) (F.post self.now.inner) }
        ensures { Reads (spec.row (spec.expression self.now.depth) cursor.old) result cursor.new }
    {
        let line = cursor.line();
        let entries = self.expressions(cursor)?;
        Ok(Row { line, entries })
    }

    /// Rows with semicolons between.
    #[tactic(auto, unfolding(sim_grammar::specs::ReadExpressions::rows))]
    fn rows(&self, cursor: &mut Cursor<'_>) -> Result<Items<Row>, Halt>
        requires { Nests spec.expression self.now.depth (F.pre self.now.inner) (F.post self.now.inner) }
        ensures { Reads (spec.rows (spec.expression self.now.depth) cursor.old) result cursor.new }
    {
        let semicolon = TokenKind::Symbol(symbol::SEMICOLON);
        let row = |c: &mut Cursor<'_>| self.row(c);
        separated(self.alloc, semicolon, row, cursor)
    }

    /// A block of rows.
    #[tactic(auto, unfolding(sim_grammar::specs::ReadExpressions::block))]
    fn block(&self, cursor: &mut Cursor<'_>) -> Result<Expr, Halt>
        requires { Nests spec.expression self.now.depth (F.pre self.now.inner) (F.post self.now.inner) }
        ensures { Reads (spec.block (spec.expression self.now.depth) cursor.old) result cursor.new }
    {
        let line = cursor.line();
        cursor.skip(&[TokenKind::Symbol(symbol::OPEN_BRACKET)])?;
        let rows = self.rows(cursor)?;
        cursor.skip(&[TokenKind::Symbol(symbol::CLOSE_BRACKET)])?;
        Ok(Expr::Block { line, rows })
    }

    /// A value in another scale.
    #[tactic(auto, unfolding(sim_grammar::specs::ReadExpressions::rescale))]
    fn rescale(&self, cursor: &mut Cursor<'_>) -> Result<Expr, Halt>
        requires { Nests spec.expression self.now.depth (F.pre self.now.inner) (F.post self.now.inner) }
        ensures { Reads (spec.rescale (spec.expression self.now.depth) cursor.old) result cursor.new }
    {
        let line = cursor.line();
        cursor.skip(&[
            TokenKind::Keyword(keyword::RESCALE),
            TokenKind::Symbol(symbol::OPEN_PAREN),
        ])?;
        let value = self.boxed(cursor)?;
        cursor.skip(&[TokenKind::Symbol(symbol::COMMA)])?;
        let scale = cursor.number(self.alloc)?;
        cursor.skip(&[TokenKind::Symbol(symbol::CLOSE_PAREN)])?;
        Ok(Expr::Rescale { line, value, scale })
    }

    /// A quotient.
    #[tactic(auto, unfolding(sim_grammar::specs::ReadExpressions::quot))]
    fn quot(&self, cursor: &mut Cursor<'_>) -> Result<Expr, Halt>
        requires { Nests spec.expression self.now.depth (F.pre self.now.inner) (F.post self.now.inner) }
        ensures { Reads (spec.quot (spec.expression self.now.depth) cursor.old) result cursor.new }
    {
        let line = cursor.line();
        cursor.skip(&[
            TokenKind::Keyword(keyword::QUOT),
            TokenKind::Symbol(symbol::OPEN_PAREN),
        ])?;
        let dividend = self.boxed(cursor)?;
        cursor.skip(&[TokenKind::Symbol(symbol::COMMA)])?;
        let divisor = self.boxed(cursor)?;
        cursor.skip(&[TokenKind::Symbol(symbol::COMMA)])?;
        let scale = cursor.number(self.alloc)?;
        cursor.skip(&[TokenKind::Symbol(symbol::CLOSE_PAREN)])?;
        Ok(Expr::Quot {
            line,
            dividend,
            divisor,
            scale,
        })
    }

    /// A square root.
    #[tactic(auto, unfolding(sim_grammar::specs::ReadExpressions::isqrt))]
    fn isqrt(&self, cursor: &mut Cursor<'_>) -> Result<Expr, Halt>
        requires { Nests spec.expression self.now.depth (F.pre self.now.inner) (F.post self.now.inner) }
        ensures { Reads (spec.isqrt (spec.expression self.now.depth) cursor.old) result cursor.new }
    {
        let line = cursor.line();
        cursor.skip(&[
            TokenKind::Keyword(keyword::ISQRT),
            TokenKind::Symbol(symbol::OPEN_PAREN),
        ])?;
        let value = self.boxed(cursor)?;
        cursor.skip(&[TokenKind::Symbol(symbol::COMMA)])?;
        let scale = cursor.number(self.alloc)?;
        cursor.skip(&[TokenKind::Symbol(symbol::CLOSE_PAREN)])?;
        Ok(Expr::Isqrt { line, value, scale })
    }

    /// A scalar product.
    #[tactic(auto, unfolding(sim_grammar::specs::ReadExpressions::dot))]
    fn dot(&self, cursor: &mut Cursor<'_>) -> Result<Expr, Halt>
        requires { Nests spec.expression self.now.depth (F.pre self.now.inner) (F.post self.now.inner) }
        ensures { Reads (spec.dot (spec.expression self.now.depth) cursor.old) result cursor.new }
    {
        let line = cursor.line();
        cursor.skip(&[
            TokenKind::Keyword(keyword::DOT),
            TokenKind::Symbol(symbol::OPEN_PAREN),
        ])?;
        let left = self.boxed(cursor)?;
        cursor.skip(&[TokenKind::Symbol(symbol::COMMA)])?;
        let right = self.boxed(cursor)?;
        cursor.skip(&[TokenKind::Symbol(symbol::CLOSE_PAREN)])?;
        Ok(Expr::Dot { line, left, right })
    }

    /// An atom that begins with a keyword.
    #[tactic(auto, unfolding(sim_grammar::specs::ReadExpressions::called))]
    fn called(&self, cursor: &mut Cursor<'_>) -> Result<Expr, Halt>
        requires { Nests spec.expression self.now.depth (F.pre self.now.inner) (F.post self.now.inner) }
        ensures { Reads (spec.called (spec.expression self.now.depth) cursor.old) result cursor.new }
    {
        if cursor.is_at(TokenKind::Keyword(keyword::RESCALE)) {
            self.rescale(cursor)
        } else if cursor.is_at(TokenKind::Keyword(keyword::QUOT)) {
            self.quot(cursor)
        } else if cursor.is_at(TokenKind::Keyword(keyword::ISQRT)) {
            self.isqrt(cursor)
        } else {
            self.dot(cursor)
        }
    }

    /// A number.
    #[tactic(auto, unfolding(sim_grammar::specs::ReadExpressions::number))]
    fn number(&self, cursor: &mut Cursor<'_>) -> Result<Expr, Halt>
        ensures { Reads (spec.number cursor.old) result cursor.new }
    {
        let line = cursor.line();
        let number = cursor.number(self.alloc)?;
        Ok(Expr::Number { line, number })
    }

    /// An atom.
    #[tactic(auto, unfolding(sim_grammar::specs::ReadExpressions::atom))]
    fn atom(&self, cursor: &mut Cursor<'_>) -> Result<Expr, Halt>
        requires { Nests spec.expression self.now.depth (F.pre self.now.inner) (F.post self.now.inner) }
        ensures { Reads (spec.atom (spec.expression self.now.depth) cursor.old) result cursor.new }
    {
        if cursor.is_at(TokenKind::Number) {
            self.number(cursor)
        } else if cursor.is_at(TokenKind::Name) {
            self.reference(cursor)
        } else if cursor.is_at(TokenKind::Symbol(symbol::OPEN_PAREN)) {
            self.parenthesised(cursor)
        } else if cursor.is_at(TokenKind::Symbol(symbol::OPEN_BRACKET)) {
            self.block(cursor)
        } else {
            self.called(cursor)
        }
    }

    /// An atom, transposed where a `'` stands after it.
    #[tactic(auto, unfolding(sim_grammar::specs::ReadExpressions::post))]
    fn post(&self, cursor: &mut Cursor<'_>) -> Result<Expr, Halt>
        requires { Nests spec.expression self.now.depth (F.pre self.now.inner) (F.post self.now.inner) }
        ensures { Reads (spec.post (spec.expression self.now.depth) cursor.old) result cursor.new }
    {
        let line = cursor.line();
        let value = self.atom(cursor)?;
        if !cursor.eat(TokenKind::Symbol(symbol::TRANSPOSE)) {
            return Ok(value);
        }
        let value = Boxed::new(self.alloc, value)?;
        Ok(Expr::Transposed { line, value })
    }

    /// A factor after its operator.
    #[tactic(auto, unfolding(sim_grammar::specs::ReadExpressions::factor))]
    fn factor(&self, cursor: &mut Cursor<'_>) -> Result<ProductFactor, Halt>
        requires { Nests spec.expression self.now.depth (F.pre self.now.inner) (F.post self.now.inner) }
        ensures { Reads (spec.factor (spec.expression self.now.depth) cursor.old) result cursor.new }
    {
        let line = cursor.line();
        let entrywise = operator(cursor)?;
        let value = self.post(cursor)?;
        Ok(ProductFactor {
            line,
            entrywise,
            value,
        })
    }

    /// The factors after operators.
    #[tactic(auto, unfolding(sim_grammar::specs::ReadExpressions::factors))]
    fn factors(&self, cursor: &mut Cursor<'_>) -> Result<Items<ProductFactor>, Halt>
        requires { Nests spec.expression self.now.depth (F.pre self.now.inner) (F.post self.now.inner) }
        ensures { Reads (spec.factors (spec.expression self.now.depth) cursor.old) result cursor.new }
    {
        let operators = [
            TokenKind::Symbol(symbol::STAR),
            TokenKind::Symbol(symbol::ENTRYWISE),
        ];
        let factor = |c: &mut Cursor<'_>| self.factor(c);
        each(self.alloc, &operators, factor, cursor)
    }

    /// A product, or one factor.
    #[tactic(auto, unfolding(sim_grammar::specs::ReadExpressions::term))]
    fn term(&self, cursor: &mut Cursor<'_>) -> Result<Expr, Halt>
        requires { Nests spec.expression self.now.depth (F.pre self.now.inner) (F.post self.now.inner) }
        ensures { Reads (spec.term (spec.expression self.now.depth) cursor.old) result cursor.new }
    {
        let line = cursor.line();
        let value = self.post(cursor)?;
        let others = self.factors(cursor)?;
        Ok(product_of(self.alloc, line, value, others)?)
    }

    /// A term after its sign.
    #[tactic(auto, unfolding(sim_grammar::specs::ReadExpressions::signed_term))]
    fn signed_term(&self, cursor: &mut Cursor<'_>) -> Result<SumTerm, Halt>
        requires { Nests spec.expression self.now.depth (F.pre self.now.inner) (F.post self.now.inner) }
        ensures { Reads (spec.signed_term (spec.expression self.now.depth) cursor.old) result cursor.new }
    {
        let line = cursor.line();
        let minus = sign(cursor)?;
        let value = self.term(cursor)?;
        Ok(SumTerm { line, minus, value })
    }

    /// The terms after signs.
    #[tactic(auto, unfolding(sim_grammar::specs::ReadExpressions::signed_terms))]
    fn signed_terms(&self, cursor: &mut Cursor<'_>) -> Result<Items<SumTerm>, Halt>
        requires { Nests spec.expression self.now.depth (F.pre self.now.inner) (F.post self.now.inner) }
        ensures { Reads (spec.signed_terms (spec.expression self.now.depth) cursor.old) result cursor.new }
    {
        let signs = [
            TokenKind::Symbol(symbol::PLUS),
            TokenKind::Symbol(symbol::MINUS),
        ];
        let term = |c: &mut Cursor<'_>| self.signed_term(c);
        each(self.alloc, &signs, term, cursor)
    }

    /// A sum, or one term.
    #[tactic(auto, unfolding(sim_grammar::specs::ReadExpressions::sum))]
    fn sum(&self, cursor: &mut Cursor<'_>) -> Result<Expr, Halt>
        requires { Nests spec.expression self.now.depth (F.pre self.now.inner) (F.post self.now.inner) }
        ensures { Reads (spec.sum (spec.expression self.now.depth) cursor.old) result cursor.new }
    {
        let line = cursor.line();
        let minus = cursor.eat(TokenKind::Symbol(symbol::MINUS));
        let value = self.term(cursor)?;
        let others = self.signed_terms(cursor)?;
        Ok(sum_of(self.alloc, line, minus, value, others)?)
    }
}

/// An expression in which others are nested less than so deep.
pub fn expression(alloc: Global, cursor: &mut Cursor<'_>, depth: usize) -> Result<Expr, Halt>
    ensures { Reads (spec.expression depth cursor.old) result cursor.new }
{
    if depth == 0 {
        return Err(Halt::Syntax);
    }
    let depth = depth - 1;
    let inner = expression;
    Expressions {
        alloc,
        depth,
        inner,
    }
    .sum(cursor)
}

/// Arguments, where there are any, with expressions nested less than so deep.
pub fn maybe_arguments(
    alloc: Global,
    cursor: &mut Cursor<'_>,
    depth: usize,
) -> Result<Items<Expr>, Halt>
    ensures { Reads (spec.maybe_arguments (spec.expression depth) cursor.old) result cursor.new }
{
    let inner = expression;
    Expressions {
        alloc,
        depth,
        inner,
    }
    .maybe_arguments(cursor)
}
