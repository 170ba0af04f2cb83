//! Expressions, part by part in post-order.

ghost use Rattle.std.specs.Prelude.{◌≡◌, map};
ghost use Rattle.type_rules.specs.Rules as rules;
ghost use Rattle.typed_tree.specs.declared.expression.TypedForm.TheVariants as form;
ghost use Rattle.typed_tree.specs.Expressions as spec;
ghost use Rattle.typed_tree.specs.Literals.{whole};
ghost use Rattle.typed_tree.specs.Steps.{Walks, several};
ghost use Rattle.expression_types.specs.Parts as parts;

use crate::blocks::block_rule_at;
use crate::forms::{number, quotient, scalar_product};
use crate::nodes::{at_line, boxed, made, node, pushed};
use crate::references::{Written, reference};
use sim_syntax::{Expr, Num, ProductFactor, Row, SumTerm};
use sqlite_items::Items;
use std::alloc::Global;
use type_rules::{
    NodeType, TypeKind, entrywise_rule, isqrt_rule, product_rule, rescale_rule, same_rule,
    transposed_rule,
};
use typed_tree::{
    CheckFault, Environment, Node, TypedExpr, TypedFactor, TypedForm, TypedRow, TypedTerm, whole,
};

/// The typed expression of a tree, by what is known where it stands. Its nodes have the numbers from `next` on; then
/// `next` is the number of the node after it.
#[cycle(expression)]
#[tactic(auto, unfolding(typed_tree::specs::Expressions::expression_node))]
pub fn expression(
    alloc: Global,
    tree: &Expr,
    environment: &Environment<'_>,
    next: &mut u32,
) -> Result<TypedExpr, CheckFault>
    ensures { Walks (spec.expression environment.now tree.now next.old) result next.new }
{
    match tree {
        Expr::Number {
            line,
            number: digits,
        } => number(*line, digits, next),
        Expr::Ref {
            line,
            name,
            args,
            field,
            field_args,
            rank,
        } => {
            let args = expressions(alloc, args.as_slice(), environment, next)?;
            let field_args = expressions(alloc, field_args.as_slice(), environment, next)?;
            let rank = *rank;
            let written = Written { name, field, rank };
            reference(alloc, environment, *line, written, args, field_args, next)
        }
        Expr::Block { line, rows } => block(alloc, rows.as_slice(), environment, *line, next),
        Expr::Sum { line, terms } => sum(alloc, terms.as_slice(), environment, *line, next),
        Expr::Product { line, factors } => {
            product(alloc, factors.as_slice(), environment, *line, next)
        }
        Expr::Transposed { line, value } => {
            transposed(alloc, value.get(), environment, *line, next)
        }
        Expr::Rescale { line, value, scale } => {
            rescaled(alloc, value.get(), environment, *line, scale, next)
        }
        Expr::Quot {
            line,
            dividend,
            divisor,
            scale,
        } => {
            let dividend = expression(alloc, dividend.get(), environment, next)?;
            let divisor = expression(alloc, divisor.get(), environment, next)?;
            quotient(alloc, *line, dividend, divisor, scale, next)
        }
        Expr::Isqrt { line, value, scale } => {
            root(alloc, value.get(), environment, *line, scale, next)
        }
        Expr::Dot { line, left, right } => {
            let left = expression(alloc, left.get(), environment, next)?;
            let right = expression(alloc, right.get(), environment, next)?;
            scalar_product(alloc, *line, left, right, next)
        }
    }
}

/// The typed expressions of trees, one after the other.
#[cycle(expression)]
#[tactic(auto, using(crate::proofs::Loops::step_taken, crate::proofs::Loops::step_refused, crate::proofs::Loops::steps_ended))]
pub fn expressions(
    alloc: Global,
    trees: &[Expr],
    environment: &Environment<'_>,
    next: &mut u32,
) -> Result<Items<TypedExpr>, CheckFault>
    ensures { Walks (spec.expressions environment.now trees.now next.old) result next.new }
{
    let mut typed = Items::new(alloc);
    for tree in trees {
        let value = expression(alloc, tree, environment, next)?;
        typed = pushed(typed, value)?;
    }
    Ok(typed)
}

/// A transposed value.
#[cycle(expression)]
#[tactic(auto, unfolding(typed_tree::specs::Expressions::unary))]
fn transposed(
    alloc: Global,
    value: &Expr,
    environment: &Environment<'_>,
    line: u32,
    next: &mut u32,
) -> Result<TypedExpr, CheckFault>
    ensures { Walks (spec.unary rules.transposed_rule form.Transposed line (spec.expression environment.now value.now) next.old) result next.new }
{
    let value = expression(alloc, value, environment, next)?;
    let answer = transposed_rule(value.node.value_type);
    let value = boxed(alloc, value)?;
    made(line, answer, TypedForm::Transposed { value }, next)
}

/// A value at another scale.
#[cycle(expression)]
#[tactic(auto, unfolding(typed_tree::specs::Expressions::unary))]
fn rescaled(
    alloc: Global,
    value: &Expr,
    environment: &Environment<'_>,
    line: u32,
    scale: &Num,
    next: &mut u32,
) -> Result<TypedExpr, CheckFault>
    ensures { Walks (spec.unary (λ type. rules.rescale_rule type (whole scale.now)) form.Rescale line (spec.expression environment.now value.now) next.old) result next.new }
{
    let value = expression(alloc, value, environment, next)?;
    let answer = rescale_rule(value.node.value_type, whole(scale.as_str().as_bytes()));
    let value = boxed(alloc, value)?;
    made(line, answer, TypedForm::Rescale { value }, next)
}

/// A square root at a scale.
#[cycle(expression)]
#[tactic(auto, unfolding(typed_tree::specs::Expressions::unary))]
fn root(
    alloc: Global,
    value: &Expr,
    environment: &Environment<'_>,
    line: u32,
    scale: &Num,
    next: &mut u32,
) -> Result<TypedExpr, CheckFault>
    ensures { Walks (spec.unary (λ type. rules.isqrt_rule type (whole scale.now)) form.Isqrt line (spec.expression environment.now value.now) next.old) result next.new }
{
    let value = expression(alloc, value, environment, next)?;
    let answer = isqrt_rule(value.node.value_type, whole(scale.as_str().as_bytes()));
    let value = boxed(alloc, value)?;
    made(line, answer, TypedForm::Isqrt { value }, next)
}

/// A block of rows.
#[cycle(expression)]
#[tactic(auto, unfolding(typed_tree::specs::Expressions::block_of_rows))]
fn block(
    alloc: Global,
    rows: &[Row],
    environment: &Environment<'_>,
    line: u32,
    next: &mut u32,
) -> Result<TypedExpr, CheckFault>
    ensures { Walks (spec.block_of_rows environment.now.level line (map (parts.row environment.now) rows.now) next.old) result next.new }
{
    let rows = typed_rows(alloc, rows, environment, next)?;
    let answer = block_rule_at(alloc, environment.level, rows.as_slice())?;
    made(line, answer, TypedForm::Block { rows }, next)
}

/// A row of a block.
#[cycle(expression)]
fn typed_row(
    alloc: Global,
    row: &Row,
    environment: &Environment<'_>,
    next: &mut u32,
) -> Result<TypedRow, CheckFault>
    ensures { Walks (parts.row environment.now row.now next.old) result next.new }
{
    let entries = expressions(alloc, row.entries.as_slice(), environment, next)?;
    Ok(TypedRow { entries })
}

/// The rows of a block.
#[cycle(expression)]
#[tactic(auto, using(crate::proofs::Loops::step_taken, crate::proofs::Loops::step_refused, crate::proofs::Loops::steps_ended))]
fn typed_rows(
    alloc: Global,
    rows: &[Row],
    environment: &Environment<'_>,
    next: &mut u32,
) -> Result<Items<TypedRow>, CheckFault>
    ensures { Walks (several (map (parts.row environment.now) rows.now) next.old) result next.new }
{
    let mut typed = Items::new(alloc);
    for row in rows {
        let row = typed_row(alloc, row, environment, next)?;
        typed = pushed(typed, row)?;
    }
    Ok(typed)
}

/// The node of a sum up to a term: the term, its negation, or the sum or difference of what comes before and it.
#[tactic(auto, unfolding(typed_tree::specs::Expressions::sum_node))]
fn sum_node(
    line: u32,
    last: Option<Node>,
    minus: bool,
    value: &TypedExpr,
    next: &mut u32,
) -> Result<Node, CheckFault>
    ensures { Walks (spec.sum_node line last minus value.now next.old) result next.new }
{
    match last {
        None if minus => node(line, value.node.value_type, next),
        None => Ok(value.node),
        Some(left) => {
            let value_type = at_line(line, same_rule(left.value_type, value.node.value_type))?;
            node(line, value_type, next)
        }
    }
}

/// A sum, from left to right. One without a term, which no text has, has no shape.
#[cycle(expression)]
#[tactic(auto, unfolding(typed_tree::specs::Expressions::sum), using(crate::proofs::Chains::term_taken, crate::proofs::Chains::term_refused, crate::proofs::Chains::term_node_refused, crate::proofs::Chains::chain_ended))]
fn sum(
    alloc: Global,
    terms: &[SumTerm],
    environment: &Environment<'_>,
    line: u32,
    next: &mut u32,
) -> Result<TypedExpr, CheckFault>
    ensures { Walks (spec.sum line (map (parts.term environment.now) terms.now) next.old) result next.new }
{
    let mut typed = Items::new(alloc);
    let mut last = None;
    for term in terms {
        let value = expression(alloc, &term.value, environment, next)?;
        let node = sum_node(line, last, term.minus, &value, next)?;
        let minus = term.minus;
        typed = pushed(typed, TypedTerm { node, minus, value })?;
        last = Some(node);
    }
    chained(line, last, TypedForm::Sum { terms: typed })
}

/// The type of a product of two values.
fn times_rule(entrywise: bool, left: NodeType, right: NodeType) -> Result<NodeType, TypeKind>
    ensures { result ≡ spec.times_rule entrywise left right }
{
    if entrywise {
        entrywise_rule(left, right)
    } else {
        product_rule(left, right)
    }
}

/// The node of a product up to a factor: the factor, or the product of what comes before and it.
#[tactic(auto, unfolding(typed_tree::specs::Expressions::product_node))]
fn product_node(
    line: u32,
    last: Option<Node>,
    entrywise: bool,
    value: &TypedExpr,
    next: &mut u32,
) -> Result<Node, CheckFault>
    ensures { Walks (spec.product_node line last entrywise value.now next.old) result next.new }
{
    match last {
        None => Ok(value.node),
        Some(left) => {
            let answer = times_rule(entrywise, left.value_type, value.node.value_type);
            let value_type = at_line(line, answer)?;
            node(line, value_type, next)
        }
    }
}

/// A product, from left to right. One without a factor, which no text has, has no shape.
#[cycle(expression)]
#[tactic(auto, unfolding(typed_tree::specs::Expressions::product), using(crate::proofs::Chains::factor_taken, crate::proofs::Chains::factor_refused, crate::proofs::Chains::factor_node_refused, crate::proofs::Chains::chain_ended))]
fn product(
    alloc: Global,
    factors: &[ProductFactor],
    environment: &Environment<'_>,
    line: u32,
    next: &mut u32,
) -> Result<TypedExpr, CheckFault>
    ensures { Walks (spec.product line (map (parts.factor environment.now) factors.now) next.old) result next.new }
{
    let mut typed = Items::new(alloc);
    let mut last = None;
    for factor in factors {
        let value = expression(alloc, &factor.value, environment, next)?;
        let node = product_node(line, last, factor.entrywise, &value, next)?;
        let entrywise = factor.entrywise;
        typed = pushed(
            typed,
            TypedFactor {
                node,
                entrywise,
                value,
            },
        )?;
        last = Some(node);
    }
    chained(line, last, TypedForm::Product { factors: typed })
}

/// A chain of parts as an expression, with the node up to its last part.
fn chained(line: u32, last: Option<Node>, form: TypedForm) -> Result<TypedExpr, CheckFault>
    ensures { result ≡ parts.chained_form line last form }
{
    match last {
        None => Err(CheckFault::IllTyped {
            line,
            kind: TypeKind::Shape,
        }),
        Some(node) => Ok(TypedExpr { node, form }),
    }
}
