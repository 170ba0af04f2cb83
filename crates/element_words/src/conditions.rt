//! Conditions, of which each comparison is made.

ghost use Rattle.std.specs.Prelude.{◌≡◌, OnOk, false, map, true};
ghost use Rattle.vocabulary.specs.Answers.{fold_result};
ghost use Rattle.algebra_meaning.specs.Expression as meaning;
ghost use Rattle.algebra_meaning.specs.Means.{Means};

use crate::expression::word;
use algebra_meaning::{Stopped, condition_laws, held};
use host_table::HostMeaning;
use ring_words::TrapKind;
use typed_tree::{TypedCmp, TypedCond, TypedConjunction};
use word_stacks::Words;

/// Whether a comparison holds, or the first trap.
#[tactic(auto, using(crate::proofs::Compared::comparison_is, crate::proofs::Compared::comparison_first, crate::proofs::Compared::comparison_second))]
fn comparison<H: HostMeaning>(
    cmp: &TypedCmp,
    scope: &Words<'_, H>,
    stack: &mut Vec<u64>,
) -> Result<bool, Stopped<TrapKind>>
    ensures value { Means (meaning.comparison (meaning.hosted H.answer scope.now) cmp.now) result }
    ensures kept { OnOk result (stack.new.items ≡ stack.old.items) }
{
    let left = word(&cmp.left, scope, stack)?;
    let right = word(&cmp.right, scope, stack)?;
    Ok(held(cmp.negated, cmp.op, left, right))
}

/// Whether comparisons hold together, or the first trap.
#[tactic(auto, unfolding(algebra_meaning::specs::Expression::conjunction))]
fn conjunction<H: HostMeaning>(
    conjunction: &TypedConjunction,
    scope: &Words<'_, H>,
    stack: &mut Vec<u64>,
) -> Result<bool, Stopped<TrapKind>>
    ensures value { Means (meaning.conjunction (meaning.hosted H.answer scope.now) conjunction.now) result }
    ensures kept { OnOk result (stack.new.items ≡ stack.old.items) }
{
    condition_laws::<TypedCmp>();
    let mut all = true;
    for cmp in conjunction.parts.as_slice() {
        let one = comparison(cmp, scope, stack)?;
        all = all && one;
    }
    Ok(all)
}

/// Whether a condition holds, or the first trap. The stack is as before unless there is a trap, or memory runs out.
#[tactic(auto, unfolding(algebra_meaning::specs::Expression::holds))]
pub fn holds<H: HostMeaning>(
    cond: &TypedCond,
    scope: &Words<'_, H>,
    stack: &mut Vec<u64>,
) -> Result<bool, Stopped<TrapKind>>
    ensures value { Means (meaning.holds (meaning.hosted H.answer scope.now) cond.now) result }
    ensures kept { OnOk result (stack.new.items ≡ stack.old.items) }
{
    condition_laws::<TypedConjunction>();
    let mut any = false;
    for part in cond.parts.as_slice() {
        let one = conjunction(part, scope, stack)?;
        any = any || one;
    }
    Ok(any)
}
