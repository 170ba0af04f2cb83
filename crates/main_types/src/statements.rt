//! Statements of the main procedure.

ghost use Rattle.std.specs.Prelude.{◌≡◌, ◌∷◌, ◌++◌, [], OnOk, map};
ghost use Rattle.typed_tree.specs.MainProcedure as spec;
ghost use Rattle.typed_tree.specs.Steps as steps;
ghost use Rattle.typed_tree.specs.Steps.{Walks};
ghost use Rattle.typed_tree.specs.Walking.{inside};

use crate::right_sides::misplaced;
use crate::targets::main_assign;
use crate::variables::main_var;
use expression_types::{cond, value};
use sim_syntax::{Cond, Expr, Name, Stmt};
use sqlite_items::Items;
use std::alloc::Global;
use type_rules::{NodeType, TypeKind, is_scalar, scale_of};
use typed_tree::{CheckFault, MainStmt, Meaning, Walk};
use vocabulary::NoMemory;

/// The kind of the fault of a loop's name and its bounds, which are whole numbers.
#[tactic(auto, unfolding(typed_tree::specs::MainProcedure::turns_rule))]
fn turns_rule(taken: bool, from: NodeType, to: NodeType) -> Option<TypeKind>
    ensures { result ≡ spec.turns_rule taken from to }
{
    if taken {
        Some(TypeKind::Twice)
    } else if !(is_scalar(from) && is_scalar(to)) {
        Some(TypeKind::Shape)
    } else if !(scale_of(from) == 0 && scale_of(to) == 0) {
        Some(TypeKind::Scale)
    } else {
        None
    }
}

/// What must hold.
#[tactic(auto, unfolding(typed_tree::specs::MainProcedure::main_assertion))]
fn assertion(
    alloc: Global,
    line: u32,
    tree: &Cond,
    walk: &mut Walk<'_>,
) -> Result<MainStmt, CheckFault>
    ensures { Walks (spec.main_assertion line tree.now walk.old) result walk.new }
{
    let cond = cond(alloc, tree, walk)?;
    walk.end_statement(line, None)?;
    Ok(MainStmt::Assert { line, cond })
}

/// A statement.
#[cycle(main)]
#[tactic(auto, unfolding(typed_tree::specs::MainProcedure::main_node, typed_tree::specs::MainProcedure::main_choice))]
fn statement<'a>(tree: &'a Stmt, alloc: Global, walk: &mut Walk<'a>) -> Result<MainStmt, CheckFault>
    ensures { Walks (spec.main_statement tree.now walk.old) result walk.new }
{
    match tree {
        Stmt::Var { line, names, right } => main_var(alloc, *line, names.as_slice(), right, walk),
        Stmt::Assign {
            line,
            targets,
            right,
        } => main_assign(alloc, *line, targets.as_slice(), right, walk),
        Stmt::For {
            line,
            name,
            from,
            to,
            body,
        } => counting_loop(body.as_slice(), alloc, *line, name, from, to, walk),
        Stmt::While { line, cond, body } => {
            while_loop(body.as_slice(), alloc, *line, cond, walk)
        }
        Stmt::If {
            line,
            cond: tree,
            body,
            otherwise,
        } => {
            let cond = cond(alloc, tree, walk)?;
            let body = scoped(body.as_slice(), alloc, walk)?;
            let otherwise = scoped(otherwise.as_slice(), alloc, walk)?;
            walk.end_statement(*line, None)?;
            Ok(MainStmt::If {
                line: *line,
                cond,
                body,
                otherwise,
            })
        }
        Stmt::Assert { line, cond } => assertion(alloc, *line, cond, walk),
        Stmt::Write { line, .. } | Stmt::ConstFor { line, .. } => Err(misplaced(*line)),
    }
}

/// Appends a statement.
fn push(statements: &mut Items<MainStmt>, one: MainStmt) -> Result<(), NoMemory>
    ensures { OnOk result (statements.new ≡ statements.old ++ one ∷ []) }
{
    match statements.push(one) {
        Ok(()) => Ok(()),
        Err(_) => Err(NoMemory),
    }
}

/// Statements, one after the other.
#[cycle(main)]
#[tactic(auto, using(crate::proofs::Steps::step_more, crate::proofs::Steps::step_refused, crate::proofs::Steps::steps_done))]
fn several<'a>(
    body: &'a [Stmt],
    alloc: Global,
    walk: &mut Walk<'a>,
) -> Result<Items<MainStmt>, CheckFault>
    ensures { Walks (steps.several (map spec.main_statement body.now) walk.old) result walk.new }
{
    let mut statements = Items::new(alloc);
    for tree in body {
        let one = statement(tree, alloc, walk)?;
        push(&mut statements, one)?;
    }
    Ok(statements)
}

/// The statements of a list. What they declare is visible in the list alone.
#[cycle(main)]
#[tactic(auto, unfolding(typed_tree::specs::Walking::inside))]
fn scoped<'a>(
    body: &'a [Stmt],
    alloc: Global,
    walk: &mut Walk<'a>,
) -> Result<Items<MainStmt>, CheckFault>
    ensures { Walks (spec.main_statements body.now walk.old) result walk.new }
{
    let (names, locals) = (walk.environment.names.len(), walk.locals);
    let statements = several(body, alloc, walk)?;
    walk.cut_back(names, locals);
    Ok(statements)
}

/// The statements of a loop whose variable has this name.
#[cycle(main)]
#[tactic(auto, unfolding(typed_tree::specs::Walking::inside))]
fn counting_body<'a>(
    body: &'a [Stmt],
    alloc: Global,
    name: &'a Name,
    walk: &mut Walk<'a>,
) -> Result<Items<MainStmt>, CheckFault>
    ensures { Walks (inside (spec.with_counter name.now) (map spec.main_statement body.now) walk.old) result walk.new }
{
    let names = walk.environment.names.len();
    let local = walk.locals;
    walk.name_local(name.as_str(), Meaning::Counter { local })?;
    let statements = several(body, alloc, walk)?;
    walk.cut_back(names, local);
    Ok(statements)
}

/// A loop whose variable goes from the value of `from` up to below that of `to`.
#[cycle(main)]
#[tactic(auto, unfolding(typed_tree::specs::MainProcedure::main_for))]
fn counting_loop<'a>(
    body: &'a [Stmt],
    alloc: Global,
    line: u32,
    name: &'a Name,
    from: &Expr,
    to: &Expr,
    walk: &mut Walk<'a>,
) -> Result<MainStmt, CheckFault>
    ensures { Walks (spec.main_for line name.now from.now to.now (map spec.main_statement body.now) walk.old) result walk.new }
{
    let from = value(alloc, from, walk)?;
    let to = value(alloc, to, walk)?;
    let taken = walk.environment.is_known(name.as_str());
    let fault = turns_rule(taken, from.node.value_type, to.node.value_type);
    let local = walk.locals;
    let body = counting_body(body, alloc, name, walk)?;
    walk.end_statement(line, fault)?;
    Ok(MainStmt::For {
        line,
        local,
        from,
        to,
        body,
    })
}

/// A loop while a condition holds.
#[cycle(main)]
#[tactic(auto, unfolding(typed_tree::specs::MainProcedure::main_while))]
fn while_loop<'a>(
    body: &'a [Stmt],
    alloc: Global,
    line: u32,
    tree: &Cond,
    walk: &mut Walk<'a>,
) -> Result<MainStmt, CheckFault>
    ensures { Walks (spec.main_while line tree.now (map spec.main_statement body.now) walk.old) result walk.new }
{
    let cond = cond(alloc, tree, walk)?;
    let body = scoped(body, alloc, walk)?;
    walk.end_statement(line, None)?;
    Ok(MainStmt::While { line, cond, body })
}

/// The statements of a list, one after the other. What they declare is visible in the list alone.
pub fn main_statements<'a>(
    alloc: Global,
    body: &'a [Stmt],
    walk: &mut Walk<'a>,
) -> Result<Items<MainStmt>, CheckFault>
    ensures { Walks (spec.main_statements body.now walk.old) result walk.new }
{
    scoped(body, alloc, walk)
}
