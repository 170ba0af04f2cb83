//! The nodes of a typed program, by their numbers.

use type_rules::NodeType;

/// What a name stands for that has a value.
#[derive(Clone, Copy, Debug, PartialEq, Eq)]
pub enum Named {
    /// A variable of the main procedure.
    Variable(u32),
    /// A scalar parameter or a variable of a function, or the variable of a loop.
    Local,
    /// A field of a set, as a system vector.
    Field { set: u32, field: u32 },
    /// A field of a function's element.
    Own { field: u32 },
    /// A field of an endpoint.
    End { field: u32 },
    /// A host function, by its number in the host table.
    Host(u32),
}

/// What is known of a node: its type and, of a reference, what it stands for.
#[derive(Clone, Copy, Debug, PartialEq, Eq)]
pub struct NodeEntry {
    pub value_type: NodeType,
    pub stands_for: Option<Named>,
}
