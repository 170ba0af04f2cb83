//! The typed main procedure.

use crate::condition::TypedCond;
use crate::expression::TypedExpr;
use sqlite_items::Items;
use type_rules::{NodeType, TypeKind};
use vocabulary::L;

/// A statement of the main procedure.
#[cycle(main)]
#[derive(Drop)]
pub enum MainStmt {
    /// New variables: one of a value, or one for each result of a map.
    Var {
        line: u32,
        variables: L<u32>,
        right: TypedRight,
    },
    Assign {
        line: u32,
        targets: L<TypedTarget>,
        right: TypedRight,
    },
    While {
        line: u32,
        cond: TypedCond,
        body: Items<MainStmt>,
    },
    /// A loop whose variable, a local, goes from the value of `from` up to below that of `to`.
    For {
        line: u32,
        local: u32,
        from: TypedExpr,
        to: TypedExpr,
        body: Items<MainStmt>,
    },
    If {
        line: u32,
        cond: TypedCond,
        body: Items<MainStmt>,
        otherwise: Items<MainStmt>,
    },
    Assert {
        line: u32,
        cond: TypedCond,
    },
}

/// What is assigned.
#[derive(Clone, Copy, Debug, PartialEq, Eq)]
pub enum TypedTarget {
    Variable(u32),
    Field { set: u32, field: u32 },
}

/// A right side: the results of a map, or one value.
#[derive(Drop)]
pub enum TypedRight {
    Map {
        function: u32,
        set: u32,
        args: Items<TypedExpr>,
    },
    Value(TypedExpr),
}

/// A right side that was judged: what it is, the types of its values, and the kind of its fault.
#[derive(Drop)]
pub struct RightSide {
    pub typed: TypedRight,
    pub types: L<NodeType>,
    pub fault: Option<TypeKind>,
}
