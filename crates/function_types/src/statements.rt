//! Statements of functions.

ghost use Rattle.std.specs.Prelude.{map};
ghost use Rattle.function_types.specs.Parts as parts;
ghost use Rattle.typed_tree.specs.Functions as spec;
ghost use Rattle.typed_tree.specs.Steps.{Walks, several};
ghost use Rattle.typed_tree.specs.Walking as walking;

use crate::bounds::{loop_bounds, number_of, turns_of};
use crate::faults::misplaced;
use crate::variables::{local_assign, local_var};
use crate::writes::write;
use expression_types::cond;
use sim_syntax::{Cond, Name, Stmt};
use sqlite_items::Items;
use std::alloc::Global;
use type_rules::IndexRange;
use typed_tree::{CheckFault, FunctionStmt, Meaning, TypedCond, Walk};

/// An assertion.
#[tactic(auto, unfolding(typed_tree::specs::Functions::assertion))]
fn assertion(
    alloc: Global,
    line: u32,
    tree: &Cond,
    walk: &mut Walk<'_>,
) -> Result<FunctionStmt, CheckFault>
    ensures { Walks (spec.assertion line tree.now walk.old) result walk.new }
{
    let cond = cond(alloc, tree, walk)?;
    walk.end_statement(line, None)?;
    Ok(FunctionStmt::Assert { line, cond })
}

/// A choice between two lists, at its end.
fn choice(
    line: u32,
    cond: TypedCond,
    body: Items<FunctionStmt>,
    otherwise: Items<FunctionStmt>,
    walk: &mut Walk<'_>,
) -> Result<FunctionStmt, CheckFault>
    ensures { Walks (parts.chosen line cond body otherwise walk.old) result walk.new }
{
    walk.end_statement(line, None)?;
    Ok(FunctionStmt::If {
        line,
        cond,
        body,
        otherwise,
    })
}

/// A statement.
#[cycle(statement)]
#[tactic(auto, unfolding(typed_tree::specs::Functions::statement_node, typed_tree::specs::Functions::choice))]
fn statement<'a>(
    tree: &'a Stmt,
    alloc: Global,
    walk: &mut Walk<'a>,
) -> Result<FunctionStmt, CheckFault>
    ensures { Walks (spec.statement tree.now walk.old) result walk.new }
{
    match tree {
        Stmt::Var { line, names, right } => local_var(alloc, *line, names.as_slice(), right, walk),
        Stmt::Assign {
            line,
            targets,
            right,
        } => local_assign(alloc, *line, targets.as_slice(), right, walk),
        Stmt::Write {
            line,
            result: name,
            places,
            value,
        } => write(alloc, *line, name, places.as_slice(), value, walk),
        Stmt::ConstFor {
            line,
            name,
            from,
            to,
            body,
        } => {
            let bounds = (number_of(from), number_of(to));
            counted_loop(body.as_slice(), alloc, *line, name, bounds, walk)
        }
        Stmt::If {
            line,
            cond: tree,
            body,
            otherwise,
        } => {
            let cond = cond(alloc, tree, walk)?;
            let body = scoped(body.as_slice(), alloc, walk)?;
            let otherwise = scoped(otherwise.as_slice(), alloc, walk)?;
            choice(*line, cond, body, otherwise, walk)
        }
        Stmt::Assert { line, cond } => assertion(alloc, *line, cond, walk),
        Stmt::For { line, .. } | Stmt::While { line, .. } => Err(misplaced(*line)),
    }
}

/// Statements, one after the other.
#[cycle(statement)]
#[tactic(auto, using(crate::proofs::Loops::step_taken, crate::proofs::Loops::step_refused, crate::proofs::Loops::steps_ended))]
fn all<'a>(
    body: &'a [Stmt],
    alloc: Global,
    walk: &mut Walk<'a>,
) -> Result<Items<FunctionStmt>, CheckFault>
    ensures { Walks (several (map spec.statement body.now) walk.old) result walk.new }
{
    let mut typed = Items::new(alloc);
    for tree in body {
        let one = statement(tree, alloc, walk)?;
        typed.push(one).map_err(|_| CheckFault::Memory)?;
    }
    Ok(typed)
}

/// The statements of a list. What they declare is visible in the list alone.
#[cycle(statement)]
#[tactic(auto, unfolding(typed_tree::specs::Walking::inside))]
fn scoped<'a>(
    body: &'a [Stmt],
    alloc: Global,
    walk: &mut Walk<'a>,
) -> Result<Items<FunctionStmt>, CheckFault>
    ensures { Walks (walking.scoped (map spec.statement body.now) walk.old) result walk.new }
{
    let names = walk.environment.names.len();
    let locals = walk.locals;
    let typed = all(body, alloc, walk)?;
    walk.cut_back(names, locals);
    Ok(typed)
}

/// The statements of a loop, in which its name stands for a turn.
#[cycle(statement)]
#[tactic(auto, unfolding(typed_tree::specs::Walking::inside))]
fn turn<'a>(
    body: &'a [Stmt],
    alloc: Global,
    name: &'a Name,
    range: IndexRange,
    walk: &mut Walk<'a>,
) -> Result<Items<FunctionStmt>, CheckFault>
    ensures { Walks (walking.inside (spec.with_turn name.now range) (map spec.statement body.now) walk.old) result walk.new }
{
    let names = walk.environment.names.len();
    let local = walk.locals;
    walk.name_local(name.as_str(), Meaning::Turn { local, range })?;
    let typed = all(body, alloc, walk)?;
    walk.cut_back(names, local);
    Ok(typed)
}

/// A loop between these bounds.
#[cycle(statement)]
fn counted_loop<'a>(
    body: &'a [Stmt],
    alloc: Global,
    line: u32,
    name: &'a Name,
    bounds: (Option<u64>, Option<u64>),
    walk: &mut Walk<'a>,
) -> Result<FunctionStmt, CheckFault>
    ensures { Walks (spec.loop line name.now bounds.0 bounds.1 (map spec.statement body.now) walk.old) result walk.new }
{
    let local = walk.locals;
    let taken = walk.environment.is_known(name.as_str());
    let (from, to) = bounds;
    let body = turn(body, alloc, name, turns_of(from, to), walk)?;
    match loop_bounds(taken, from, to) {
        Ok((from, to)) => {
            walk.end_statement(line, None)?;
            Ok(FunctionStmt::Loop {
                line,
                local,
                from,
                to,
                body,
            })
        }
        Err(kind) => Err(CheckFault::IllTyped { line, kind }),
    }
}

/// The statements of a list, one after the other. What they declare is visible in the list alone.
pub fn function_statements<'a>(
    alloc: Global,
    body: &'a [Stmt],
    walk: &mut Walk<'a>,
) -> Result<Items<FunctionStmt>, CheckFault>
    ensures { Walks (spec.statements body.now walk.old) result walk.new }
{
    scoped(body, alloc, walk)
}
