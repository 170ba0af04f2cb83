//! The types of conditions.

ghost use Rattle.std.specs.Prelude.{◌≡◌, map};
ghost use Rattle.typed_tree.specs.Expressions as spec;
ghost use Rattle.typed_tree.specs.Steps.{Walks, several};

use crate::nodes::{at_line, pushed};
use crate::trees::expression;
use sim_syntax::{Cmp, Cond, Conjunction};
use sqlite_items::Items;
use std::alloc::Global;
use type_rules::comparison_rule;
use typed_tree::{CheckFault, Environment, TypedCmp, TypedCond, TypedConjunction};

/// A comparison, which is judged after its operands.
#[tactic(auto, unfolding(typed_tree::specs::Expressions::comparison))]
fn comparison(
    alloc: Global,
    cmp: &Cmp,
    environment: &Environment<'_>,
    next: &mut u32,
) -> Result<TypedCmp, CheckFault>
    ensures { Walks (spec.comparison environment.now cmp.now next.old) result next.new }
{
    let left = expression(alloc, &cmp.left, environment, next)?;
    let right = expression(alloc, &cmp.right, environment, next)?;
    let answer = comparison_rule(left.node.value_type, right.node.value_type);
    at_line(cmp.line, answer)?;
    Ok(TypedCmp {
        negated: cmp.negated,
        left,
        op: cmp.op,
        right,
    })
}

/// Comparisons, one after the other.
#[tactic(auto, using(crate::proofs::Loops::step_taken, crate::proofs::Loops::step_refused, crate::proofs::Loops::steps_ended))]
fn comparisons(
    alloc: Global,
    cmps: &[Cmp],
    environment: &Environment<'_>,
    next: &mut u32,
) -> Result<Items<TypedCmp>, CheckFault>
    ensures { Walks (several (map (spec.comparison environment.now) cmps.now) next.old) result next.new }
{
    let mut typed = Items::new(alloc);
    for cmp in cmps {
        let cmp = comparison(alloc, cmp, environment, next)?;
        typed = pushed(typed, cmp)?;
    }
    Ok(typed)
}

/// Comparisons that hold together.
#[tactic(auto, unfolding(typed_tree::specs::Expressions::conjunction))]
fn conjunction(
    alloc: Global,
    parts: &Conjunction,
    environment: &Environment<'_>,
    next: &mut u32,
) -> Result<TypedConjunction, CheckFault>
    ensures { Walks (spec.conjunction environment.now parts.now next.old) result next.new }
{
    let parts = comparisons(alloc, parts.parts.as_slice(), environment, next)?;
    Ok(TypedConjunction { parts })
}

/// Conjunctions, one after the other.
#[tactic(auto, using(crate::proofs::Loops::step_taken, crate::proofs::Loops::step_refused, crate::proofs::Loops::steps_ended))]
fn conjunctions(
    alloc: Global,
    parts: &[Conjunction],
    environment: &Environment<'_>,
    next: &mut u32,
) -> Result<Items<TypedConjunction>, CheckFault>
    ensures { Walks (several (map (spec.conjunction environment.now) parts.now) next.old) result next.new }
{
    let mut typed = Items::new(alloc);
    for part in parts {
        let part = conjunction(alloc, part, environment, next)?;
        typed = pushed(typed, part)?;
    }
    Ok(typed)
}

/// The typed condition of a tree, by what is known where it stands, with its nodes numbered from `next` on.
#[tactic(auto, unfolding(typed_tree::specs::Expressions::condition))]
pub fn condition(
    alloc: Global,
    tree: &Cond,
    environment: &Environment<'_>,
    next: &mut u32,
) -> Result<TypedCond, CheckFault>
    ensures { Walks (spec.condition environment.now tree.now next.old) result next.new }
{
    let parts = conjunctions(alloc, tree.parts.as_slice(), environment, next)?;
    Ok(TypedCond { parts })
}
