//! The words of the nodes of expressions and of conditions.

ghost use Rattle.std.specs.Prelude.{List, ◌++◌, map, true};
ghost use Rattle.hypergraph.specs.SetValue.{SetValue};
ghost use Rattle.type_rules.specs.declared.types.NodeType.{NodeType};
ghost use Rattle.typed_tree.specs.declared.expression.Referent.{Referent};
ghost use Rattle.typed_tree.specs.Nodes as spec;
ghost use Rattle.typed_measures.specs.Parts as parts;
ghost use Rattle.dense_sizes.specs.Tallies.{Counts};

use crate::matrices::matrix_words;
use crate::tally::Tally;
use hypergraph::Sets;
use type_rules::NodeType;
use typed_tree::{
    TypedCmp, TypedCond, TypedConjunction, TypedExpr, TypedFactor, TypedForm, TypedRow, TypedTerm,
};

/// With a node of a type that is no name.
fn own(value_type: NodeType, sets: &Sets, tally: Tally) -> Tally
    ensures { Counts sets.now tally (spec.own_node value_type) result }
{
    tally.with(matrix_words(sets, value_type))
}

/// With a node that is a name.
fn named(tally: Tally) -> Tally
    ensures { (sets : List SetValue) (value_type : NodeType) (referent : Referent)
        → Counts sets tally (spec.reference_node value_type referent) result }
{
    tally.with(0)
}

/// With the nodes of an expression.
#[cycle(expression)]
pub fn expression(value: &TypedExpr, sets: &Sets, tally: Tally) -> Tally
    ensures { Counts sets.now tally (spec.nodes_of value.now) result }
{
    form(&value.form, value.node.value_type, sets, tally)
}

/// With the nodes of an expression's form and type.
#[cycle(expression)]
#[tactic(auto, unfolding(typed_tree::specs::Nodes::form_nodes))]
fn form(form: &TypedForm, value_type: NodeType, sets: &Sets, tally: Tally) -> Tally
    ensures { Counts sets.now tally (spec.nodes_of_form form.now value_type) result }
{
    match form {
        TypedForm::Number { .. } => own(value_type, sets, tally),
        TypedForm::Ref {
            args,
            field_args,
            ..
        } => {
            let tally = expressions(args.as_slice(), sets, tally);
            let tally = expressions(field_args.as_slice(), sets, tally);
            named(tally)
        }
        TypedForm::Block { rows: parts } => {
            let tally = rows(parts.as_slice(), sets, tally);
            own(value_type, sets, tally)
        }
        TypedForm::Sum { terms } => sum(terms.as_slice(), sets, tally),
        TypedForm::Product { factors } => product(factors.as_slice(), sets, tally),
        TypedForm::Transposed { value } => unary(value.get(), value_type, sets, tally),
        TypedForm::Rescale { value } => unary(value.get(), value_type, sets, tally),
        TypedForm::Quot { dividend, divisor } => {
            let tally = expression(dividend.get(), sets, tally);
            let tally = expression(divisor.get(), sets, tally);
            own(value_type, sets, tally)
        }
        TypedForm::Isqrt { value } => unary(value.get(), value_type, sets, tally),
        TypedForm::Dot { left, right } => {
            let tally = expression(left.get(), sets, tally);
            let tally = expression(right.get(), sets, tally);
            own(value_type, sets, tally)
        }
    }
}

/// With the nodes of a part, and the node over it.
#[cycle(expression)]
#[tactic(auto, using(crate::proofs::Counting::counted_twice))]
fn unary(value: &TypedExpr, value_type: NodeType, sets: &Sets, tally: Tally) -> Tally
    ensures { Counts sets.now tally (spec.nodes_of value.now ++ spec.own_node value_type) result }
{
    let tally = expression(value, sets, tally);
    own(value_type, sets, tally)
}

/// With the nodes of several expressions.
#[cycle(expression)]
pub fn expressions(values: &[TypedExpr], sets: &Sets, tally: Tally) -> Tally
    ensures { Counts sets.now tally (spec.joined (map spec.nodes_of values.now)) result }
{
    let mut all = tally;
    for value in values {
        all = expression(value, sets, all);
    }
    all
}

/// With the nodes of a block's rows.
#[cycle(expression)]
fn rows(rows: &[TypedRow], sets: &Sets, tally: Tally) -> Tally
    ensures { Counts sets.now tally (spec.joined (map spec.nodes_of_row rows.now)) result }
{
    let mut all = tally;
    for row in rows {
        all = expressions(row.entries.as_slice(), sets, all);
    }
    all
}

/// With the node of a sum up to a term of a sign, which has this type.
fn sum_node(is_first: bool, minus: bool, value_type: NodeType, sets: &Sets, tally: Tally) -> Tally
    ensures { Counts sets.now tally (parts.sum_node is_first minus value_type) result }
{
    if is_first && !minus {
        tally
    } else {
        own(value_type, sets, tally)
    }
}

/// With the nodes of a term of a sum, and the node up to it.
#[cycle(expression)]
#[tactic(auto, using(crate::proofs::Counting::counted_twice))]
fn term(is_first: bool, term: &TypedTerm, sets: &Sets, tally: Tally) -> Tally
    ensures { Counts sets.now tally (parts.term is_first term.now) result }
{
    let tally = expression(&term.value, sets, tally);
    sum_node(is_first, term.minus, term.node.value_type, sets, tally)
}

/// With the nodes of a sum.
#[cycle(expression)]
fn sum(terms: &[TypedTerm], sets: &Sets, tally: Tally) -> Tally
    ensures { Counts sets.now tally (spec.sum_nodes true (map spec.nodes_of_term terms.now)) result }
{
    let mut all = tally;
    let mut is_first = true;
    for part in terms {
        all = term(is_first, part, sets, all);
        is_first = false;
    }
    all
}

/// With the node of a product up to a factor, which has this type.
fn product_node(is_first: bool, value_type: NodeType, sets: &Sets, tally: Tally) -> Tally
    ensures { Counts sets.now tally (parts.product_node is_first value_type) result }
{
    if is_first {
        tally
    } else {
        own(value_type, sets, tally)
    }
}

/// With the nodes of a factor of a product, and the node up to it.
#[cycle(expression)]
#[tactic(auto, using(crate::proofs::Counting::counted_twice))]
fn factor(is_first: bool, factor: &TypedFactor, sets: &Sets, tally: Tally) -> Tally
    ensures { Counts sets.now tally (parts.factor is_first factor.now) result }
{
    let tally = expression(&factor.value, sets, tally);
    product_node(is_first, factor.node.value_type, sets, tally)
}

/// With the nodes of a product.
#[cycle(expression)]
fn product(factors: &[TypedFactor], sets: &Sets, tally: Tally) -> Tally
    ensures { Counts sets.now tally (spec.product_nodes true (map spec.nodes_of_factor factors.now)) result }
{
    let mut all = tally;
    let mut is_first = true;
    for part in factors {
        all = factor(is_first, part, sets, all);
        is_first = false;
    }
    all
}

/// With the nodes of a comparison.
#[tactic(auto, using(crate::proofs::Counting::counted_twice))]
fn comparison(comparison: &TypedCmp, sets: &Sets, tally: Tally) -> Tally
    ensures { Counts sets.now tally (spec.comparison_nodes comparison.now) result }
{
    let tally = expression(&comparison.left, sets, tally);
    expression(&comparison.right, sets, tally)
}

/// With the nodes of comparisons that hold together.
fn conjunction(conjunction: &TypedConjunction, sets: &Sets, tally: Tally) -> Tally
    ensures { Counts sets.now tally (spec.conjunction_nodes conjunction.now) result }
{
    let mut all = tally;
    for part in conjunction.parts.as_slice() {
        all = comparison(part, sets, all);
    }
    all
}

/// With the nodes of a condition.
pub fn condition(condition: &TypedCond, sets: &Sets, tally: Tally) -> Tally
    ensures { Counts sets.now tally (spec.condition_nodes condition.now) result }
{
    let mut all = tally;
    for part in condition.parts.as_slice() {
        all = conjunction(part, sets, all);
    }
    all
}
