//! Typed conditions.

use crate::expression::TypedExpr;
use sim_syntax::CmpOp;
use sqlite_items::Items;

/// A condition: one of its parts holds.
#[derive(Drop)]
pub struct TypedCond {
    pub parts: Items<TypedConjunction>,
}

/// Comparisons that hold together.
#[derive(Drop)]
pub struct TypedConjunction {
    pub parts: Items<TypedCmp>,
}

/// A comparison of two scalars of one scale, or its opposite.
#[derive(Drop)]
pub struct TypedCmp {
    pub negated: bool,
    pub left: TypedExpr,
    pub op: CmpOp,
    pub right: TypedExpr,
}
