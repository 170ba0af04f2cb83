//! The laws of loops over the parts of expressions and conditions. Each call does nothing: the laws are its contract.

ghost use Rattle.algebra_meaning.specs.Loops.{ConditionLaws, ExpressionLaws};

use loop_laws::item_laws;
use ring_words::TrapKind;
use type_rules::NodeType;
use typed_tree::{TypedExpr, TypedFactor, TypedRow, TypedTerm};
use value_algebra::Value;
use vocabulary::L;

/// The laws of loops over terms, factors, rows and expressions, up to the first trap.
#[inline]
pub fn expression_laws()
    ensures { ExpressionLaws }
{
    item_laws::<Option<Value>, TypedTerm, TrapKind>();
    item_laws::<Option<(NodeType, Value)>, TypedFactor, TrapKind>();
    item_laws::<L<u64>, TypedRow, TrapKind>();
    item_laws::<L<Value>, TypedExpr, TrapKind>();
}

/// The laws of loops over what a condition joins, up to the first trap.
#[inline]
pub fn condition_laws<X>()
    ensures { ConditionLaws X }
{
    item_laws::<bool, X, TrapKind>();
}
