//! New variables and assignments.

ghost use Rattle.std.specs.Prelude.{◌≡◌};
ghost use Rattle.typed_tree.specs.Functions as spec;
ghost use Rattle.typed_tree.specs.Steps.{Walks};

use crate::faults::{at_line, misplaced};
use expression_types::value;
use sim_syntax::{Expr, Name, Right, Target};
use std::alloc::Global;
use type_rules::{NodeType, TypeKind, same_rule};
use typed_tree::{CheckFault, FunctionStmt, Meaning, Walk};

/// Why a name is none for a new variable.
fn new_name(walk: &Walk<'_>, name: &Name) -> Option<TypeKind>
    ensures { result ≡ spec.new_name walk.now name.now }
{
    if walk.environment.is_known(name.as_str()) {
        Some(TypeKind::Twice)
    } else {
        None
    }
}

/// A new variable, whose value doesn't know it yet.
#[tactic(auto, unfolding(typed_tree::specs::Functions::local_var))]
pub fn local_var<'a>(
    alloc: Global,
    line: u32,
    names: &'a [Name],
    right: &Right,
    walk: &mut Walk<'a>,
) -> Result<FunctionStmt, CheckFault>
    ensures { Walks (spec.local_var line names.now right.now walk.old) result walk.new }
{
    let ([name], Right::Value(tree)) = (names, right) else {
        return Err(misplaced(line));
    };
    let value = value(alloc, tree, walk)?;
    let fault = new_name(walk, name);
    walk.end_statement(line, fault)?;
    let local = walk.locals;
    let value_type = value.node.value_type;
    walk.name_local(name.as_str(), Meaning::Local { local, value_type })?;
    Ok(FunctionStmt::Var { line, local, value })
}

/// A variable that is assigned, and its type; parameters, results and the variables of loops are not.
#[tactic(auto, unfolding(typed_tree::specs::Functions::local_target))]
fn local_target(meaning: Option<Meaning>) -> Result<(u32, NodeType), TypeKind>
    ensures { result ≡ spec.local_target meaning }
{
    match meaning {
        Some(Meaning::Local { local, value_type }) => Ok((local, value_type)),
        Some(
            Meaning::Parameter { .. }
            | Meaning::Own { .. }
            | Meaning::Ends { .. }
            | Meaning::Result { .. }
            | Meaning::Turn { .. },
        ) => Err(TypeKind::NotAPlace),
        _ => Err(TypeKind::Unknown),
    }
}

/// A variable to which a value of its type is assigned.
#[tactic(auto, unfolding(typed_tree::specs::Functions::assigned_local))]
fn assigned_local(meaning: Option<Meaning>, value_type: NodeType) -> Result<u32, TypeKind>
    ensures { result ≡ spec.assigned_local meaning value_type }
{
    let (local, local_type) = local_target(meaning)?;
    same_rule(local_type, value_type)?;
    Ok(local)
}

/// An assignment to a variable.
#[tactic(auto, unfolding(typed_tree::specs::Functions::local_assign))]
pub fn local_assign(
    alloc: Global,
    line: u32,
    targets: &[Target],
    right: &Right,
    walk: &mut Walk<'_>,
) -> Result<FunctionStmt, CheckFault>
    ensures { Walks (spec.local_assign line targets.now right.now walk.old) result walk.new }
{
    let ([target], Right::Value(tree)) = (targets, right) else {
        return Err(misplaced(line));
    };
    if target.field.is_some() {
        return Err(misplaced(line));
    }
    let value = value(alloc, tree, walk)?;
    let meaning = walk.environment.names.find(target.name.as_str());
    let local = at_line(line, assigned_local(meaning, value.node.value_type))?;
    walk.end_statement(line, None)?;
    Ok(FunctionStmt::Assign { line, local, value })
}
