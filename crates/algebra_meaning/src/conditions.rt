//! Conditions, of which each comparison is made.

ghost use Rattle.std.specs.Prelude.{◌≡◌, false, map, true};
ghost use Rattle.vocabulary.specs.Answers.{fold_result};
ghost use Rattle.algebra_meaning.specs.Expression as spec;
ghost use Rattle.algebra_meaning.specs.Means.{Means};

use crate::expression::meaning;
use crate::laws::condition_laws;
use crate::scope::Scope;
use crate::stopped::Stopped;
use host_table::HostMeaning;
use ring_words::{TrapKind, less};
use sim_syntax::CmpOp;
use std::alloc::Global;
use typed_tree::{TypedCmp, TypedCond, TypedConjunction};

/// Whether two words compare so, by their signed readings.
fn compared(op: CmpOp, a: u64, b: u64) -> bool
    ensures { result ≡ spec.compared op a b }
{
    match op {
        CmpOp::Equal => a == b,
        CmpOp::Differs => a != b,
        CmpOp::Less => less(a, b),
        CmpOp::AtMost => !less(b, a),
        CmpOp::Greater => less(b, a),
        CmpOp::AtLeast => !less(a, b),
    }
}

/// Whether a comparison holds, or its opposite where it is negated.
pub fn held(negated: bool, op: CmpOp, a: u64, b: u64) -> bool
    ensures { result ≡ spec.held negated op a b }
{
    if negated {
        !compared(op, a, b)
    } else {
        compared(op, a, b)
    }
}

/// Whether a comparison holds, or the first trap.
#[tactic(auto, unfolding(crate::specs::Expression::comparison))]
fn comparison<H: HostMeaning>(
    alloc: Global,
    cmp: &TypedCmp,
    scope: &Scope<'_, H>,
) -> Result<bool, Stopped<TrapKind>>
    ensures { Means (spec.comparison (spec.hosted H.answer scope.now) cmp.now) result }
{
    let left = meaning(alloc, &cmp.left, scope)?;
    let right = meaning(alloc, &cmp.right, scope)?;
    Ok(held(cmp.negated, cmp.op, left.word_of(), right.word_of()))
}

/// Whether comparisons hold together, or the first trap.
#[tactic(auto, unfolding(crate::specs::Expression::conjunction))]
fn conjunction<H: HostMeaning>(
    alloc: Global,
    conjunction: &TypedConjunction,
    scope: &Scope<'_, H>,
) -> Result<bool, Stopped<TrapKind>>
    ensures { Means (spec.conjunction (spec.hosted H.answer scope.now) conjunction.now) result }
{
    condition_laws::<TypedCmp>();
    let mut all = true;
    for cmp in conjunction.parts.as_slice() {
        let one = comparison(alloc, cmp, scope)?;
        all = all && one;
    }
    Ok(all)
}

/// Whether a condition holds, or the first trap.
#[tactic(auto, unfolding(crate::specs::Expression::holds))]
pub fn holds<H: HostMeaning>(
    alloc: Global,
    cond: &TypedCond,
    scope: &Scope<'_, H>,
) -> Result<bool, Stopped<TrapKind>>
    ensures { Means (spec.holds (spec.hosted H.answer scope.now) cond.now) result }
{
    condition_laws::<TypedConjunction>();
    let mut any = false;
    for part in cond.parts.as_slice() {
        let one = conjunction(alloc, part, scope)?;
        any = any || one;
    }
    Ok(any)
}
