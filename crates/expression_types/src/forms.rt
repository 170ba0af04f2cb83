//! Literal numbers, and expressions of two typed parts.

ghost use Rattle.std.specs.Prelude.{◌≡◌};
ghost use Rattle.type_rules.specs.Rules as rules;
ghost use Rattle.typed_tree.specs.declared.expression.TypedForm.TheVariants as form;
ghost use Rattle.typed_tree.specs.Expressions as spec;
ghost use Rattle.typed_tree.specs.Literals.{whole};
ghost use Rattle.typed_tree.specs.Steps.{Walks};
ghost use Rattle.expression_types.specs.Parts as parts;

use crate::nodes::{boxed, made};
use sim_syntax::Num;
use std::alloc::Global;
use type_rules::{dot_rule, literal_rule, quot_rule};
use typed_tree::{CheckFault, TypedExpr, TypedForm, decimals_of, literal_word, whole};

/// A literal number.
#[tactic(auto, unfolding(typed_tree::specs::Expressions::number))]
pub fn number(line: u32, digits: &Num, next: &mut u32) -> Result<TypedExpr, CheckFault>
    ensures { Walks (spec.number line digits.now next.old) result next.new }
{
    let word = literal_word(digits.as_str().as_bytes());
    let answer = literal_rule(decimals_of(digits.as_str().as_bytes()), word);
    let form = TypedForm::Number {
        word: word.unwrap_or(0),
    };
    made(line, answer, form, next)
}

/// A quotient at a scale.
pub fn quotient(
    alloc: Global,
    line: u32,
    dividend: TypedExpr,
    divisor: TypedExpr,
    scale: &Num,
    next: &mut u32,
) -> Result<TypedExpr, CheckFault>
    ensures { Walks (parts.made (rules.quot_rule (spec.type_of dividend) (spec.type_of divisor) (whole scale.now)) (form.Quot dividend divisor) line next.old) result next.new }
{
    let answer = quot_rule(
        dividend.node.value_type,
        divisor.node.value_type,
        whole(scale.as_str().as_bytes()),
    );
    let dividend = boxed(alloc, dividend)?;
    let divisor = boxed(alloc, divisor)?;
    made(line, answer, TypedForm::Quot { dividend, divisor }, next)
}

/// A scalar product.
pub fn scalar_product(
    alloc: Global,
    line: u32,
    left: TypedExpr,
    right: TypedExpr,
    next: &mut u32,
) -> Result<TypedExpr, CheckFault>
    ensures { Walks (parts.made (rules.dot_rule (spec.type_of left) (spec.type_of right)) (form.Dot left right) line next.old) result next.new }
{
    let answer = dot_rule(left.node.value_type, right.node.value_type);
    let left = boxed(alloc, left)?;
    let right = boxed(alloc, right)?;
    made(line, answer, TypedForm::Dot { left, right }, next)
}
