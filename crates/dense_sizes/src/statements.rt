//! The words of all matrices of a run.

ghost use Rattle.std.specs.Prelude.{ℕ, ◌≡◌, ◌++◌, ◌-◌, ◌^◌, map, min};
ghost use Rattle.std.specs.List.{sum_by};
ghost use Rattle.typed_tree.specs.Nodes as nodes;
ghost use Rattle.dense_sizes.specs.DenseWords as spec;
ghost use Rattle.dense_sizes.specs.Tallies.{AreWords, limited};

use crate::matrices::matrix_words;
use crate::nodes::{condition, expression, expressions};
use crate::tally::{Tally, plus};
use hypergraph::Sets;
use typed_tree::{MainStmt, TypedCond, TypedExpr, TypedProgram, TypedRight, Variable};

/// The words of an expression's nodes.
#[tactic(auto, using(crate::proofs::Counting::all_counted))]
fn expression_words(value: &TypedExpr, sets: &Sets) -> u128
    ensures { AreWords sets.now (nodes.nodes_of value.now) result }
{
    expression(value, sets, Tally::of_none()).total()
}

/// The words of the nodes of several expressions.
#[tactic(auto, using(crate::proofs::Counting::all_counted))]
fn expressions_words(values: &[TypedExpr], sets: &Sets) -> u128
    ensures { AreWords sets.now (nodes.joined (map nodes.nodes_of values.now)) result }
{
    expressions(values, sets, Tally::of_none()).total()
}

/// The words of a condition's nodes.
#[tactic(auto, using(crate::proofs::Counting::all_counted))]
fn condition_words(cond: &TypedCond, sets: &Sets) -> u128
    ensures { AreWords sets.now (nodes.condition_nodes cond.now) result }
{
    condition(cond, sets, Tally::of_none()).total()
}

/// The words of the nodes of an expression but its own.
#[tactic(auto, using(crate::proofs::Counting::but_own_counted))]
fn words_but_own(value: &TypedExpr, sets: &Sets) -> u128
    ensures { AreWords sets.now (spec.all_but_own (nodes.nodes_of value.now)) result }
{
    expression(value, sets, Tally::of_none()).before
}

/// The words of the nodes of an assignment's right side.
fn assigned_words(right: &TypedRight, sets: &Sets) -> u128
    ensures { AreWords sets.now (nodes.right_nodes right.now) result }
{
    match right {
        TypedRight::Map { args, .. } => expressions_words(args.as_slice(), sets),
        TypedRight::Value(value) => expression_words(value, sets),
    }
}

/// The words of the nodes of a new variable's right side, whose value is the variable's.
#[tactic(auto, unfolding(crate::specs::DenseWords::nodes_of_new))]
fn new_words(right: &TypedRight, sets: &Sets) -> u128
    ensures { AreWords sets.now (spec.nodes_of_new right.now) result }
{
    match right {
        TypedRight::Map { args, .. } => expressions_words(args.as_slice(), sets),
        TypedRight::Value(value) => words_but_own(value, sets),
    }
}

/// The words of the nodes of a loop's bounds.
#[tactic(auto, using(crate::proofs::Counting::words_together))]
fn bounds_words(from: &TypedExpr, to: &TypedExpr, sets: &Sets) -> u128
    ensures { AreWords sets.now (nodes.nodes_of from.now ++ nodes.nodes_of to.now) result }
{
    plus(expression_words(from, sets), expression_words(to, sets))
}

/// The words of the nodes of a statement but the value of a new variable.
#[cycle(main)]
#[tactic(auto, using(crate::proofs::Counting::words_together), unfolding(crate::specs::DenseWords::dense_node, typed_tree::specs::Nodes::main_node))]
fn statement_words(statement: &MainStmt, sets: &Sets) -> u128
    ensures { AreWords sets.now (spec.dense_nodes statement.now) result }
{
    match statement {
        MainStmt::Var { right, .. } => new_words(right, sets),
        MainStmt::Assign { right, .. } => assigned_words(right, sets),
        MainStmt::While { cond, body, .. } => under_condition(cond, body.as_slice(), sets),
        MainStmt::For { from, to, body, .. } => {
            let bounds = bounds_words(from, to, sets);
            plus(bounds, statements_words(body.as_slice(), sets))
        }
        MainStmt::If {
            cond,
            body,
            otherwise,
            ..
        } => {
            let held = under_condition(cond, body.as_slice(), sets);
            plus(held, statements_words(otherwise.as_slice(), sets))
        }
        MainStmt::Assert { cond, .. } => condition_words(cond, sets),
    }
}

/// The words of the nodes of a condition, and of the statements that stand under it.
#[cycle(main)]
#[tactic(auto, using(crate::proofs::Counting::words_together))]
fn under_condition(cond: &TypedCond, body: &[MainStmt], sets: &Sets) -> u128
    ensures { AreWords sets.now (nodes.condition_nodes cond.now ++ nodes.joined (map spec.dense_nodes body.now)) result }
{
    plus(condition_words(cond, sets), statements_words(body, sets))
}

/// The words of the nodes of several statements but the values of new variables.
#[cycle(main)]
fn statements_words(statements: &[MainStmt], sets: &Sets) -> u128
    ensures { AreWords sets.now (nodes.joined (map spec.dense_nodes statements.now)) result }
{
    let mut total = 0;
    for statement in statements {
        let part = statement_words(statement, sets);
        total = plus(total, part);
    }
    total
}

/// The words of the variables that are matrices.
fn variables_words(variables: &[Variable], sets: &Sets) -> u128
    ensures { result ≡ limited (sum_by (spec.variable_words sets.now) variables.now) }
{
    let mut total = 0;
    for variable in variables {
        let part = matrix_words(sets, variable.value_type);
        total = plus(total, part);
    }
    total
}

/// How many words the dense matrices of a run take: of each variable of the main procedure that is a system matrix, and
/// of each node of its expressions that is one and is neither a name nor the right side of a `var`. Rows and columns are
/// elements of their sets. A number of words that is too large for its type is cut down to the largest one. This takes no
/// memory.
#[tactic(auto, using(crate::proofs::Counting::program_counted))]
pub fn dense_words(program: &TypedProgram, sets: &Sets) -> u128
    ensures { result ≡ min (spec.dense_words program.now sets.now) (2 ^ 128 - 1) }
{
    let variables = variables_words(program.variables.items(), sets);
    let between = statements_words(program.body.as_slice(), sets);
    plus(variables, between)
}
