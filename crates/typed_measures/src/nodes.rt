//! The table of a program's nodes, in the order of their numbers.

ghost use Rattle.std.specs.Prelude.{◌≡◌, ◌++◌, OnOk, IfOk, map, true};
ghost use Rattle.typed_tree.specs.Nodes as spec;
ghost use Rattle.typed_measures.specs.Longer.{Longer};
ghost use Rattle.typed_measures.specs.Parts as parts;

use std::alloc::Global;
use type_rules::NodeType;
use typed_tree::{
    FunctionStmt, MainStmt, Named, NodeEntry, Referent, TypedCmp, TypedCond, TypedConjunction,
    TypedExpr, TypedFactor, TypedForm, TypedFunction, TypedProgram, TypedRight, TypedRow,
    TypedTerm,
};
use vocabulary::{L, NoMemory};

/// What a reference stands for.
fn named(referent: Referent) -> Named
    ensures { result ≡ spec.named referent }
{
    match referent {
        Referent::Variable(variable) => Named::Variable(variable),
        Referent::Local(_) => Named::Local,
        Referent::Turn { .. } => Named::Local,
        Referent::Field { set, field } => Named::Field { set, field },
        Referent::Own { field } => Named::Own { field },
        Referent::End { field } => Named::End { field },
        Referent::Host(number) => Named::Host(number),
    }
}

/// A node that is no reference.
fn own(value_type: NodeType, nodes: &mut L<NodeEntry>) -> Result<(), NoMemory>
    ensures { OnOk result (Longer nodes.old nodes.new (spec.own_node value_type)) }
{
    nodes.push(NodeEntry {
        value_type,
        stands_for: None,
    })
}

/// A node that is a reference.
fn reference(
    value_type: NodeType,
    referent: Referent,
    nodes: &mut L<NodeEntry>,
) -> Result<(), NoMemory>
    ensures { OnOk result (Longer nodes.old nodes.new (spec.reference_node value_type referent)) }
{
    nodes.push(NodeEntry {
        value_type,
        stands_for: Some(named(referent)),
    })
}

/// The nodes of an expression.
#[cycle(expression)]
fn expression(value: &TypedExpr, nodes: &mut L<NodeEntry>) -> Result<(), NoMemory>
    ensures { OnOk result (Longer nodes.old nodes.new (spec.nodes_of value.now)) }
{
    form(&value.form, value.node.value_type, nodes)
}

/// The nodes of a form of an expression of a type.
#[cycle(expression)]
#[tactic(auto, using(crate::proofs::Growing::longer_twice), unfolding(typed_tree::specs::Nodes::form_nodes))]
fn form(form: &TypedForm, value_type: NodeType, nodes: &mut L<NodeEntry>) -> Result<(), NoMemory>
    ensures { OnOk result (Longer nodes.old nodes.new (spec.nodes_of_form form.now value_type)) }
{
    match form {
        TypedForm::Number { .. } => own(value_type, nodes),
        TypedForm::Ref {
            referent,
            args,
            field_args,
        } => {
            expressions(args.as_slice(), nodes)?;
            expressions(field_args.as_slice(), nodes)?;
            reference(value_type, *referent, nodes)
        }
        TypedForm::Block { rows: parts } => {
            rows(parts.as_slice(), nodes)?;
            own(value_type, nodes)
        }
        TypedForm::Sum { terms } => sum(terms.as_slice(), nodes),
        TypedForm::Product { factors } => product(factors.as_slice(), nodes),
        TypedForm::Transposed { value } => unary(value.get(), value_type, nodes),
        TypedForm::Rescale { value } => unary(value.get(), value_type, nodes),
        TypedForm::Quot { dividend, divisor } => {
            expression(dividend.get(), nodes)?;
            expression(divisor.get(), nodes)?;
            own(value_type, nodes)
        }
        TypedForm::Isqrt { value } => unary(value.get(), value_type, nodes),
        TypedForm::Dot { left, right } => {
            expression(left.get(), nodes)?;
            expression(right.get(), nodes)?;
            own(value_type, nodes)
        }
    }
}

/// A part, and the node over it.
#[cycle(expression)]
#[tactic(auto, using(crate::proofs::Growing::longer_twice))]
fn unary(value: &TypedExpr, value_type: NodeType, nodes: &mut L<NodeEntry>) -> Result<(), NoMemory>
    ensures { OnOk result (Longer nodes.old nodes.new (spec.nodes_of value.now ++ spec.own_node value_type)) }
{
    expression(value, nodes)?;
    own(value_type, nodes)
}

/// The nodes of several expressions.
#[cycle(expression)]
fn expressions(values: &[TypedExpr], nodes: &mut L<NodeEntry>) -> Result<(), NoMemory>
    ensures { OnOk result (Longer nodes.old nodes.new (spec.joined (map spec.nodes_of values.now))) }
{
    for value in values {
        expression(value, nodes)?;
    }
    Ok(())
}

/// The nodes of a block's rows.
#[cycle(expression)]
fn rows(rows: &[TypedRow], nodes: &mut L<NodeEntry>) -> Result<(), NoMemory>
    ensures { OnOk result (Longer nodes.old nodes.new (spec.joined (map spec.nodes_of_row rows.now))) }
{
    for row in rows {
        expressions(row.entries.as_slice(), nodes)?;
    }
    Ok(())
}

/// The node of a sum up to a term of a sign, which has this type.
#[tactic(auto, using(crate::proofs::Growing::longer_none))]
fn sum_node(
    is_first: bool,
    minus: bool,
    value_type: NodeType,
    nodes: &mut L<NodeEntry>,
) -> Result<(), NoMemory>
    ensures { OnOk result (Longer nodes.old nodes.new (parts.sum_node is_first minus value_type)) }
{
    if is_first && !minus {
        Ok(())
    } else {
        own(value_type, nodes)
    }
}

/// A term of a sum, and the node up to it.
#[cycle(expression)]
#[tactic(auto, using(crate::proofs::Growing::longer_twice))]
fn term(is_first: bool, term: &TypedTerm, nodes: &mut L<NodeEntry>) -> Result<(), NoMemory>
    ensures { OnOk result (Longer nodes.old nodes.new (parts.term is_first term.now)) }
{
    expression(&term.value, nodes)?;
    sum_node(is_first, term.minus, term.node.value_type, nodes)
}

/// The nodes of a sum.
#[cycle(expression)]
fn sum(terms: &[TypedTerm], nodes: &mut L<NodeEntry>) -> Result<(), NoMemory>
    ensures { OnOk result (Longer nodes.old nodes.new (spec.sum_nodes true (map spec.nodes_of_term terms.now))) }
{
    let mut is_first = true;
    for part in terms {
        term(is_first, part, nodes)?;
        is_first = false;
    }
    Ok(())
}

/// The node of a product up to a factor, which has this type.
#[tactic(auto, using(crate::proofs::Growing::longer_none))]
fn product_node(
    is_first: bool,
    value_type: NodeType,
    nodes: &mut L<NodeEntry>,
) -> Result<(), NoMemory>
    ensures { OnOk result (Longer nodes.old nodes.new (parts.product_node is_first value_type)) }
{
    if is_first {
        Ok(())
    } else {
        own(value_type, nodes)
    }
}

/// A factor of a product, and the node up to it.
#[cycle(expression)]
#[tactic(auto, using(crate::proofs::Growing::longer_twice))]
fn factor(is_first: bool, factor: &TypedFactor, nodes: &mut L<NodeEntry>) -> Result<(), NoMemory>
    ensures { OnOk result (Longer nodes.old nodes.new (parts.factor is_first factor.now)) }
{
    expression(&factor.value, nodes)?;
    product_node(is_first, factor.node.value_type, nodes)
}

/// The nodes of a product.
#[cycle(expression)]
fn product(factors: &[TypedFactor], nodes: &mut L<NodeEntry>) -> Result<(), NoMemory>
    ensures { OnOk result (Longer nodes.old nodes.new (spec.product_nodes true (map spec.nodes_of_factor factors.now))) }
{
    let mut is_first = true;
    for part in factors {
        factor(is_first, part, nodes)?;
        is_first = false;
    }
    Ok(())
}

/// The nodes of a comparison.
#[tactic(auto, using(crate::proofs::Growing::longer_twice))]
fn comparison(comparison: &TypedCmp, nodes: &mut L<NodeEntry>) -> Result<(), NoMemory>
    ensures { OnOk result (Longer nodes.old nodes.new (spec.comparison_nodes comparison.now)) }
{
    expression(&comparison.left, nodes)?;
    expression(&comparison.right, nodes)
}

/// The nodes of comparisons that hold together.
fn conjunction(conjunction: &TypedConjunction, nodes: &mut L<NodeEntry>) -> Result<(), NoMemory>
    ensures { OnOk result (Longer nodes.old nodes.new (spec.conjunction_nodes conjunction.now)) }
{
    for part in conjunction.parts.as_slice() {
        comparison(part, nodes)?;
    }
    Ok(())
}

/// The nodes of a condition.
fn condition(condition: &TypedCond, nodes: &mut L<NodeEntry>) -> Result<(), NoMemory>
    ensures { OnOk result (Longer nodes.old nodes.new (spec.condition_nodes condition.now)) }
{
    for part in condition.parts.as_slice() {
        conjunction(part, nodes)?;
    }
    Ok(())
}

/// The nodes of a function's statement.
#[cycle(function)]
#[tactic(auto, using(crate::proofs::Growing::longer_twice), unfolding(typed_tree::specs::Nodes::function_node))]
fn function_statement(statement: &FunctionStmt, nodes: &mut L<NodeEntry>) -> Result<(), NoMemory>
    ensures { OnOk result (Longer nodes.old nodes.new (spec.function_nodes statement.now)) }
{
    match statement {
        FunctionStmt::Var { value, .. } => expression(value, nodes),
        FunctionStmt::Assign { value, .. } => expression(value, nodes),
        FunctionStmt::Write { value, .. } => expression(value, nodes),
        FunctionStmt::Loop { body, .. } => function_statements(body.as_slice(), nodes),
        FunctionStmt::If {
            cond,
            body,
            otherwise,
            ..
        } => {
            condition(cond, nodes)?;
            function_statements(body.as_slice(), nodes)?;
            function_statements(otherwise.as_slice(), nodes)
        }
        FunctionStmt::Assert { cond, .. } => condition(cond, nodes),
    }
}

/// The nodes of a function's statements.
#[cycle(function)]
fn function_statements(
    statements: &[FunctionStmt],
    nodes: &mut L<NodeEntry>,
) -> Result<(), NoMemory>
    ensures { OnOk result (Longer nodes.old nodes.new (spec.joined (map spec.function_nodes statements.now))) }
{
    for statement in statements {
        function_statement(statement, nodes)?;
    }
    Ok(())
}

/// The nodes of a right side.
fn right_side(right: &TypedRight, nodes: &mut L<NodeEntry>) -> Result<(), NoMemory>
    ensures { OnOk result (Longer nodes.old nodes.new (spec.right_nodes right.now)) }
{
    match right {
        TypedRight::Map { args, .. } => expressions(args.as_slice(), nodes),
        TypedRight::Value(value) => expression(value, nodes),
    }
}

/// The nodes of a statement of the main procedure.
#[cycle(main)]
#[tactic(auto, using(crate::proofs::Growing::longer_twice), unfolding(typed_tree::specs::Nodes::main_node))]
fn main_statement(statement: &MainStmt, nodes: &mut L<NodeEntry>) -> Result<(), NoMemory>
    ensures { OnOk result (Longer nodes.old nodes.new (spec.main_nodes statement.now)) }
{
    match statement {
        MainStmt::Var { right, .. } => right_side(right, nodes),
        MainStmt::Assign { right, .. } => right_side(right, nodes),
        MainStmt::While { cond, body, .. } => {
            condition(cond, nodes)?;
            main_statements(body.as_slice(), nodes)
        }
        MainStmt::For { from, to, body, .. } => {
            expression(from, nodes)?;
            expression(to, nodes)?;
            main_statements(body.as_slice(), nodes)
        }
        MainStmt::If {
            cond,
            body,
            otherwise,
            ..
        } => {
            condition(cond, nodes)?;
            main_statements(body.as_slice(), nodes)?;
            main_statements(otherwise.as_slice(), nodes)
        }
        MainStmt::Assert { cond, .. } => condition(cond, nodes),
    }
}

/// The nodes of statements of the main procedure.
#[cycle(main)]
fn main_statements(statements: &[MainStmt], nodes: &mut L<NodeEntry>) -> Result<(), NoMemory>
    ensures { OnOk result (Longer nodes.old nodes.new (spec.joined (map spec.main_nodes statements.now))) }
{
    for statement in statements {
        main_statement(statement, nodes)?;
    }
    Ok(())
}

/// The nodes of functions.
fn functions(functions: &[TypedFunction], nodes: &mut L<NodeEntry>) -> Result<(), NoMemory>
    ensures { OnOk result (Longer nodes.old nodes.new (spec.joined (map spec.body_nodes functions.now))) }
{
    for function in functions {
        function_statements(function.body.as_slice(), nodes)?;
    }
    Ok(())
}

/// The nodes of a program: the entry of a node stands where its number says.
#[tactic(auto, using(crate::proofs::Growing::longer_program))]
pub fn program_nodes(alloc: Global, program: &TypedProgram) -> Result<L<NodeEntry>, NoMemory>
    ensures { IfOk result (λ nodes. nodes ≡ spec.program_nodes program.now) }
{
    let mut nodes = L::empty(alloc);
    functions(program.functions.items(), &mut nodes)?;
    main_statements(program.body.as_slice(), &mut nodes)?;
    Ok(nodes)
}
