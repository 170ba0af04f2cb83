//! Expressions and conditions in the walk over statements: at what the walk knows, and numbered on from its nodes.

ghost use Rattle.typed_tree.specs.Steps.{Walks};
ghost use Rattle.typed_tree.specs.Walking as walking;

use crate::conditions::condition;
use crate::trees::{expression, expressions};
use sim_syntax::{Cond, Expr};
use sqlite_items::Items;
use std::alloc::Global;
use typed_tree::{CheckFault, TypedCond, TypedExpr, Walk};

/// The typed expression of a tree.
#[tactic(auto, unfolding(typed_tree::specs::Walking::value))]
pub fn value(alloc: Global, tree: &Expr, walk: &mut Walk<'_>) -> Result<TypedExpr, CheckFault>
    ensures { Walks (walking.value tree.now walk.old) result walk.new }
{
    expression(alloc, tree, &walk.environment, &mut walk.nodes)
}

/// The typed expressions of trees, one after the other.
#[tactic(auto, unfolding(typed_tree::specs::Walking::values))]
pub fn values(
    alloc: Global,
    trees: &[Expr],
    walk: &mut Walk<'_>,
) -> Result<Items<TypedExpr>, CheckFault>
    ensures { Walks (walking.values trees.now walk.old) result walk.new }
{
    expressions(alloc, trees, &walk.environment, &mut walk.nodes)
}

/// The typed condition of a tree.
#[tactic(auto, unfolding(typed_tree::specs::Walking::cond))]
pub fn cond(alloc: Global, tree: &Cond, walk: &mut Walk<'_>) -> Result<TypedCond, CheckFault>
    ensures { Walks (walking.cond tree.now walk.old) result walk.new }
{
    condition(alloc, tree, &walk.environment, &mut walk.nodes)
}
