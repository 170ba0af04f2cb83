//! Typed programs.

use crate::function::TypedFunction;
use crate::main_procedure::MainStmt;
use sim_syntax::Lowered;
use sqlite_items::Items;
use type_rules::{BlockShape, NodeType};
use vocabulary::{L, Text};

/// A field of an element type.
#[derive(Drop)]
pub struct TypedField {
    pub name: Text,
    pub block: BlockShape,
    pub scale: u32,
}

/// An element type.
#[derive(Drop)]
pub struct ElementType {
    pub fields: L<TypedField>,
}

/// A set.
#[derive(Drop)]
pub struct TypedSet {
    pub name: Text,
    pub shape: SetShape,
}

/// What the elements of a set are and join.
#[derive(Clone, Copy, Debug, PartialEq, Eq)]
pub struct SetShape {
    /// The type of its elements.
    pub element: u32,
    /// The vertex set in which its endpoints lie; none for a vertex set.
    pub over: Option<u32>,
    /// How many endpoints each element has; 0 for a vertex set.
    pub arity: u32,
}

/// A variable of the main procedure.
#[derive(Drop)]
pub struct Variable {
    pub name: Text,
    pub value_type: NodeType,
}

/// A program whose names are resolved and whose expressions have types. Element types, sets, functions and the
/// variables of the main procedure are numbered from 0 in the order of the text.
#[derive(Drop)]
pub struct TypedProgram {
    /// The tree that was typed.
    pub tree: Lowered,
    pub elements: L<ElementType>,
    pub sets: L<TypedSet>,
    pub functions: L<TypedFunction>,
    pub variables: L<Variable>,
    pub body: Items<MainStmt>,
}
