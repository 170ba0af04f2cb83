//! What the functions of a program cost, counted up to their limit.

ghost use Rattle.std.specs.Prelude.{ℕ, suc, ◌≡◌, ◌+◌, ◌-◌, ◌*◌, map};
ghost use Rattle.std.specs.List.{sum_by};
ghost use Rattle.typed_tree.specs.Cost as spec;
ghost use Rattle.typed_tree.specs.Declarations.{columns_of};
ghost use Rattle.typed_measures.specs.Costs as costs;
ghost use Rattle.typed_measures.specs.Limited.{limited};

use type_rules::{BlockShape, NodeType};
use typed_tree::{
    FunctionStmt, TypedCmp, TypedCond, TypedConjunction, TypedExpr, TypedFactor, TypedField,
    TypedForm, TypedRow, TypedTerm,
};
use vocabulary::limits::MOST_FUNCTION_COST;

/// A cost over the limit counts as the least such.
#[tactic(auto, unfolding(crate::specs::Limited::limited))]
fn limited(cost: u64) -> u64
    ensures { result ≡ limited cost }
{
    cost.min(u64::from(MOST_FUNCTION_COST) + 1)
}

/// A sum of two costs.
#[tactic(auto, unfolding(crate::specs::Limited::limited))]
fn plus(left: u64, right: u64) -> u64
    ensures { result ≡ limited (left + right) }
{
    limited(left.saturating_add(right))
}

/// A cost that counts several times.
#[tactic(auto, unfolding(crate::specs::Limited::limited))]
fn times(count: u64, cost: u64) -> u64
    ensures { result ≡ limited (count * cost) }
{
    limited(count.saturating_mul(cost))
}

/// The entries of a value of a shape.
#[tactic(auto)]
fn entries_in(block: BlockShape) -> u64
    ensures { result ≡ limited (spec.entries_in block) }
{
    match block {
        BlockShape::Number => limited(1),
        BlockShape::Vector(side) => limited(u64::from(side)),
        BlockShape::Matrix(rows, columns) => times(u64::from(rows), u64::from(columns)),
    }
}

/// The columns of the fields of an element: exactly, up to the limit of a function's cost, and one more than that where
/// there are more.
pub fn columns_of(fields: &[TypedField]) -> u64
    ensures { result ≡ limited (columns_of fields.now) }
{
    let mut columns = 0;
    for field in fields {
        let part = entries_in(field.block);
        columns = plus(columns, part);
    }
    columns
}

/// The entries of a value of a function.
#[tactic(auto)]
fn entries_of(value_type: NodeType) -> u64
    ensures { result ≡ limited (spec.entries_of value_type) }
{
    match value_type {
        NodeType::Local { block, .. } => entries_in(block),
        _ => limited(0),
    }
}

/// The product of two numbers, three of them where a side is given.
#[tactic(auto, using(crate::proofs::Limits::scaled_limited))]
fn volume(rows: u32, inner: u32, columns: u32) -> u64
    ensures { result ≡ limited (rows * inner * columns) }
{
    times(times(u64::from(rows), u64::from(inner)), u64::from(columns))
}

/// A product of values of two types that has a type.
#[tactic(auto)]
fn times_cost(left: NodeType, right: NodeType, value_type: NodeType) -> u64
    ensures { result ≡ limited (spec.times_cost left right value_type) }
{
    match (left, right) {
        (
            NodeType::Local {
                block: BlockShape::Matrix(rows, inner),
                ..
            },
            NodeType::Local {
                block: BlockShape::Matrix(_, columns),
                ..
            },
        ) => volume(rows, inner, columns),
        (
            NodeType::Local {
                block: BlockShape::Matrix(rows, inner),
                ..
            },
            NodeType::Local {
                block: BlockShape::Vector(_),
                ..
            },
        ) => times(u64::from(rows), u64::from(inner)),
        _ => entries_of(value_type),
    }
}

/// An expression.
#[cycle(expression)]
fn expression_cost(expression: &TypedExpr) -> u64
    ensures { result ≡ limited (spec.expression_cost expression.now) }
{
    form_cost(&expression.form, expression.node.value_type)
}

/// A form of an expression of a type.
#[cycle(expression)]
#[tactic(auto, unfolding(typed_tree::specs::Cost::form_cost))]
fn form_cost(form: &TypedForm, value_type: NodeType) -> u64
    ensures { result ≡ limited (costs.form form.now value_type) }
{
    match form {
        TypedForm::Number { .. } => entries_of(value_type),
        TypedForm::Ref {
            args,
            field_args,
            ..
        } => {
            let args = all_cost(args.as_slice());
            let field_args = all_cost(field_args.as_slice());
            over_two(args, field_args, value_type)
        },
        TypedForm::Block { rows } => block_cost(rows.as_slice(), value_type),
        TypedForm::Sum { terms } => terms_cost(terms.as_slice()),
        TypedForm::Product { factors } => factors_cost(factors.as_slice()),
        TypedForm::Transposed { value } => unary_cost(value.get(), value_type),
        TypedForm::Rescale { value } => unary_cost(value.get(), value_type),
        TypedForm::Quot { dividend, divisor } => {
            let dividend = expression_cost(dividend.get());
            let divisor = expression_cost(divisor.get());
            over_two(dividend, divisor, value_type)
        }
        TypedForm::Isqrt { value } => unary_cost(value.get(), value_type),
        TypedForm::Dot { left, right } => {
            let entries = left.get().node.value_type;
            let left = expression_cost(left.get());
            let right = expression_cost(right.get());
            over_two(left, right, entries)
        }
    }
}

/// Two costs, and a node that takes the entries of a type.
#[tactic(auto, using(crate::proofs::Limits::sum_limited))]
fn over_two(left: u64, right: u64, value_type: NodeType) -> u64
    ensures { (m n : ℕ) → left ≡ limited m → right ≡ limited n → result ≡ limited (m + n + spec.entries_of value_type) }
{
    plus(plus(left, right), entries_of(value_type))
}

/// A block of a type.
#[cycle(expression)]
#[tactic(auto, using(crate::proofs::Limits::sum_limited))]
fn block_cost(rows: &[TypedRow], value_type: NodeType) -> u64
    ensures { result ≡ limited (sum_by (λ row. row) (map costs.row rows.now) + spec.entries_of value_type) }
{
    plus(rows_cost(rows), entries_of(value_type))
}

/// A part, and a node over it whose value has the entries of a type.
#[cycle(expression)]
#[tactic(auto, using(crate::proofs::Limits::sum_limited))]
fn unary_cost(value: &TypedExpr, value_type: NodeType) -> u64
    ensures { result ≡ limited (spec.expression_cost value.now + spec.entries_of value_type) }
{
    plus(expression_cost(value), entries_of(value_type))
}

/// Several expressions.
#[cycle(expression)]
fn all_cost(expressions: &[TypedExpr]) -> u64
    ensures { result ≡ limited (spec.cost_of_all (map costs.expression expressions.now)) }
{
    let mut total = 0;
    for expression in expressions {
        let part = expression_cost(expression);
        total = plus(total, part);
    }
    total
}

/// The rows of a block.
#[cycle(expression)]
fn rows_cost(rows: &[TypedRow]) -> u64
    ensures { result ≡ limited (sum_by (λ row. row) (map costs.row rows.now)) }
{
    let mut total = 0;
    for row in rows {
        let part = all_cost(row.entries.as_slice());
        total = plus(total, part);
    }
    total
}

/// The terms of a sum.
#[cycle(expression)]
fn terms_cost(terms: &[TypedTerm]) -> u64
    ensures { result ≡ limited (spec.terms_cost (map costs.term terms.now)) }
{
    let mut total = 0;
    let mut is_first = true;
    for term in terms {
        let part = term_cost(is_first, term);
        total = plus(total, part);
        is_first = false;
    }
    total
}

/// The node of a sum up to a term of a sign, which has this type: the first term has none of its own unless it is taken
/// away.
fn sum_cost(is_first: bool, minus: bool, value_type: NodeType) -> u64
    ensures { result ≡ limited (costs.sum_node is_first minus value_type) }
{
    if is_first && !minus {
        limited(0)
    } else {
        entries_of(value_type)
    }
}

/// A term of a sum.
#[cycle(expression)]
#[tactic(auto, using(crate::proofs::Limits::sum_limited))]
fn term_cost(is_first: bool, term: &TypedTerm) -> u64
    ensures { result ≡ limited (costs.term_cost is_first term.now) }
{
    plus(
        expression_cost(&term.value),
        sum_cost(is_first, term.minus, term.node.value_type),
    )
}

/// The factors of a product.
#[cycle(expression)]
fn factors_cost(factors: &[TypedFactor]) -> u64
    ensures { result ≡ limited (spec.factors_cost (map costs.factor factors.now)) }
{
    let mut total = 0;
    let mut left = None;
    for factor in factors {
        let part = factor_cost(left, factor);
        total = plus(total, part);
        left = Some(factor.node.value_type);
    }
    total
}

/// The node of a product up to a factor, by the type of the product before it: the first factor has none of its own.
fn product_cost(
    left: Option<NodeType>,
    entrywise: bool,
    right: NodeType,
    value_type: NodeType,
) -> u64
    ensures { result ≡ limited (costs.product_node left entrywise right value_type) }
{
    match left {
        None => limited(0),
        Some(left) => {
            if entrywise {
                entries_of(value_type)
            } else {
                times_cost(left, right, value_type)
            }
        }
    }
}

/// A factor of a product.
#[cycle(expression)]
#[tactic(auto, using(crate::proofs::Limits::sum_limited))]
fn factor_cost(left: Option<NodeType>, factor: &TypedFactor) -> u64
    ensures { result ≡ limited (costs.factor_cost left factor.now) }
{
    plus(
        expression_cost(&factor.value),
        product_cost(
            left,
            factor.entrywise,
            factor.value.node.value_type,
            factor.node.value_type,
        ),
    )
}

/// A comparison.
#[tactic(auto, using(crate::proofs::Limits::sum_limited))]
fn comparison_cost(comparison: &TypedCmp) -> u64
    ensures { result ≡ limited (spec.comparison_cost comparison.now) }
{
    plus(
        expression_cost(&comparison.left),
        expression_cost(&comparison.right),
    )
}

/// Comparisons that hold together.
fn conjunction_cost(conjunction: &TypedConjunction) -> u64
    ensures { result ≡ limited (spec.conjunction_cost conjunction.now) }
{
    let mut total = 0;
    for comparison in conjunction.parts.as_slice() {
        let part = comparison_cost(comparison);
        total = plus(total, part);
    }
    total
}

/// A condition.
fn condition_cost(condition: &TypedCond) -> u64
    ensures { result ≡ limited (spec.condition_cost condition.now) }
{
    let mut total = 0;
    for conjunction in condition.parts.as_slice() {
        let part = conjunction_cost(conjunction);
        total = plus(total, part);
    }
    total
}

/// One more than a cost.
#[tactic(auto, unfolding(crate::specs::Limited::limited))]
fn one_more(cost: u64) -> u64
    ensures { result ≡ limited (suc cost) }
{
    plus(1, cost)
}

/// A statement with a value.
#[tactic(auto, using(crate::proofs::Limits::more_limited))]
fn value_cost(value: &TypedExpr) -> u64
    ensures { result ≡ limited (suc (spec.expression_cost value.now)) }
{
    one_more(expression_cost(value))
}

/// A statement with a condition.
#[tactic(auto, using(crate::proofs::Limits::more_limited))]
fn assertion_cost(condition: &TypedCond) -> u64
    ensures { result ≡ limited (suc (spec.condition_cost condition.now)) }
{
    one_more(condition_cost(condition))
}

/// A statement.
#[cycle(statement)]
#[tactic(auto, unfolding(typed_tree::specs::Cost::statement_cost_node))]
fn statement_cost(statement: &FunctionStmt) -> u64
    ensures { result ≡ limited (spec.statement_cost statement.now) }
{
    match statement {
        FunctionStmt::Var { value, .. } => value_cost(value),
        FunctionStmt::Assign { value, .. } => value_cost(value),
        FunctionStmt::Write { value, .. } => value_cost(value),
        FunctionStmt::Loop { from, to, body, .. } => loop_cost(*from, *to, body.as_slice()),
        FunctionStmt::If {
            cond,
            body,
            otherwise,
            ..
        } => {
            let test = condition_cost(cond);
            let body = statements_cost(body.as_slice());
            let otherwise = statements_cost(otherwise.as_slice());
            choice_cost(test, body, otherwise)
        },
        FunctionStmt::Assert { cond, .. } => assertion_cost(cond),
    }
}

/// A loop.
#[cycle(statement)]
#[tactic(auto, using(crate::proofs::Limits::more_limited, crate::proofs::Limits::repeated_limited))]
fn loop_cost(from: u32, to: u32, body: &[FunctionStmt]) -> u64
    ensures { result ≡ limited (suc ((to - from) * sum_by (λ cost. cost) (map spec.statement_cost body.now))) }
{
    one_more(times(u64::from(to.saturating_sub(from)), statements_cost(body)))
}

/// A choice, by the costs of its condition and of its two lists of statements.
#[tactic(auto, using(crate::proofs::Limits::more_limited, crate::proofs::Limits::sum_limited))]
fn choice_cost(test: u64, body: u64, otherwise: u64) -> u64
    ensures { (k m n : ℕ) → test ≡ limited k → body ≡ limited m → otherwise ≡ limited n → result ≡ limited (suc (k + m + n)) }
{
    one_more(plus(plus(test, body), otherwise))
}

/// Several statements.
#[cycle(statement)]
fn statements_cost(statements: &[FunctionStmt]) -> u64
    ensures { result ≡ limited (sum_by (λ cost. cost) (map spec.statement_cost statements.now)) }
{
    let mut total = 0;
    for statement in statements {
        let part = statement_cost(statement);
        total = plus(total, part);
    }
    total
}

/// What a function's body costs: exactly, up to the limit of functions, and one more than that where it costs more.
#[tactic(auto, using(crate::proofs::Limits::mapped_sum))]
pub fn body_cost(body: &[FunctionStmt]) -> u64
    ensures { result ≡ limited (spec.body_cost body.now) }
{
    statements_cost(body)
}
