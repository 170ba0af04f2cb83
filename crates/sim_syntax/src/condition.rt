//! Conditions: an `or` of `and`s of comparisons.

use crate::expression::Expr;
use sqlite_items::Items;

/// A condition: one of its parts holds.
#[derive(Drop)]
pub struct Cond {
    pub line: u32,
    pub parts: Items<Conjunction>,
}

/// Comparisons that hold together.
#[derive(Drop)]
pub struct Conjunction {
    pub line: u32,
    pub parts: Items<Cmp>,
}

/// A comparison, or its opposite.
#[derive(Drop)]
pub struct Cmp {
    pub line: u32,
    pub negated: bool,
    pub left: Expr,
    pub op: CmpOp,
    pub right: Expr,
}

/// How two values are compared.
#[derive(Clone, Copy, Debug, PartialEq, Eq)]
pub enum CmpOp {
    Equal,
    Differs,
    Less,
    AtMost,
    Greater,
    AtLeast,
}
